//! The operations on lists: an item by its index, an item put in front, two lists joined, the first item, the rest.
ghost use Rattle.std.specs.Prelude.{◌≡◌, ◌+◌, ◌≤◌, ◌<◌, IfOk, IsTrue, ◌↔◌, slice_get, map};
ghost use Rattle.std.specs.Option.{option_map};
ghost use Rattle.lucid_value.specs.Plain.{fault, no_items, listed, weight, weights, nesting, well_formed, may_be_held, most_weight, most_nesting};
ghost use Rattle.lucid_value.specs.View.{plain};
ghost use Rattle.lucid_value.specs.Lists.{in_front, limited_list, IsOverLimit, first_of, rest_of, joined, onto};
ghost use Rattle.lucid_value.specs.Texts.{value_or_fault, pick_of};

use crate::{Cell, Link, List, MAX_NESTING, MAX_WEIGHT, Value};
use std::alloc::{AllocError, Global};
use std::rc::Rc;

impl List {
    /// The item at the index, from 0; `None` where the index is not below the length.
    pub fn item(&self, index: u32) -> Option<&Value>
        ensures { option_map (λ value. plain value.now) result ≡ slice_get (listed self.now) index }
    {
        let mut rest = self;
        let mut left = index;
        while let Link::More(cell) = &rest.top {
            if left == 0 {
                return Some(&cell.item);
            }
            left -= 1;
            rest = &cell.rest;
        }
        None
    }

    // The list with the item in front.
    pub(crate) fn with(alloc: Global, item: Value, rest: List) -> Result<List, AllocError>
        requires held { IsTrue (may_be_held (plain item)) }
        requires light { weight (plain item) + weights rest + 1 ≤ most_weight }
        requires flat { nesting (plain item) < most_nesting }
        ensures { IfOk result (λ list. list ≡ in_front (plain item) rest) }
    {
        item.keeps_rules();
        rest.keeps_rules();
        let len = rest.len() + 1;
        let weight = item.weight() + rest.weight();
        let nesting = (item.nesting() + 1).max(rest.nesting());
        let cell = Rc::new(
            alloc,
            Cell {
                item,
                rest,
                len,
                weight,
                nesting,
            },
        )?;
        Ok(List {
            top: Link::More(cell),
        })
    }
}

// The places of the items, in order.
#[tactic(auto, using(crate::proofs::Joined::onto_more))]
fn places(alloc: Global, list: &List) -> Result<Vec<&Value>, AllocError>
    ensures { IfOk result (λ items. onto (map (λ value. plain value.now) items.items) no_items ≡ list.now) }
{
    let mut items = Vec::with_capacity(alloc, list.len() as usize)?;
    let mut rest = list;
    while let Link::More(cell) = &rest.top {
        items.push(&cell.item)?;
        rest = &cell.rest;
    }
    Ok(items)
}

// The items of the left list and then those of the right one.
#[tactic(auto, using(crate::proofs::Joined::onto_more, crate::proofs::Joined::onto_joined))]
fn join(alloc: Global, left: &List, right: List) -> Result<List, AllocError>
    requires { weights left.now + weights right + 1 ≤ most_weight }
    ensures { IfOk result (λ list. list ≡ joined left.now right) }
{
    left.keeps_rules();
    right.keeps_rules();
    let mut items = places(alloc, left)?;
    let mut made = right;
    while let Some(item) = items.pop() {
        made = List::with(alloc, item.copy(alloc)?, made)?;
    }
    Ok(made)
}

/// The items of the left list and then those of the right one, or `Fault` past the limit of weight.
#[tactic(auto, using(crate::proofs::Joined::joined_over, crate::proofs::Joined::joined_within, crate::proofs::Joined::weights_joined))]
pub fn append(alloc: Global, left: &List, right: &List) -> Result<Value, AllocError>
    ensures value { IfOk result (λ value. plain value ≡ limited_list (joined left.now right.now)) }
    ensures over { IfOk result (λ value. (plain value ≡ fault) ↔ (most_weight < weights left.now + weights right.now + 1)) }
{
    left.keeps_rules();
    right.keeps_rules();
    if left.weight() + right.weight() - 1 > MAX_WEIGHT {
        return Ok(Value::Fault);
    }
    Ok(Value::List(join(alloc, left, right.copy()?)?))
}

/// The list with the item in front, or `Fault` past a limit of weight or nesting.
#[tactic(auto, using(crate::proofs::Joined::over_limit))]
pub fn cons(alloc: Global, item: &Value, list: &List) -> Result<Value, AllocError>
    requires { IsTrue (may_be_held (plain item.now)) }
    ensures value { IfOk result (λ value. plain value ≡ limited_list (in_front (plain item.now) list.now)) }
    ensures over { IfOk result (λ value. (plain value ≡ fault) ↔ IsOverLimit (in_front (plain item.now) list.now)) }
{
    let weight = item.weight() + list.weight();
    let nesting = (item.nesting() + 1).max(list.nesting());
    if weight > MAX_WEIGHT || nesting > MAX_NESTING {
        return Ok(Value::Fault);
    }
    let made = List::with(alloc, item.copy(alloc)?, list.copy()?)?;
    Ok(Value::List(made))
}

/// The first item, or `Fault` where there is none.
#[tactic(auto, using(crate::proofs::Joined::first_missing))]
pub fn head(alloc: Global, list: &List) -> Result<Value, AllocError>
    ensures value { IfOk result (λ value. plain value ≡ first_of list.now) }
    ensures empty { IfOk result (λ value. (plain value ≡ fault) ↔ (list.now ≡ no_items)) }
{
    list.keeps_rules();
    match &list.top {
        Link::End => Ok(Value::Fault),
        Link::More(cell) => cell.item.copy(alloc),
    }
}

/// The list of all items but the first, or `Fault` where there is none. It takes constant time.
#[tactic(auto, using(crate::proofs::Joined::rest_missing))]
pub fn tail(_alloc: Global, list: &List) -> Result<Value, AllocError>
    ensures value { IfOk result (λ value. plain value ≡ rest_of list.now) }
    ensures empty { IfOk result (λ value. (plain value ≡ fault) ↔ (list.now ≡ no_items)) }
{
    match &list.top {
        Link::End => Ok(Value::Fault),
        Link::More(cell) => Ok(Value::List(cell.rest.copy()?)),
    }
}

/// The item at a place, from 0, or `Fault` where none stands there.
pub fn pick_item(alloc: Global, list: &List, index: i128) -> Result<Value, AllocError>
    ensures { IfOk result (λ value. plain value ≡ pick_of list.now index) }
{
    if index < 0 || index >= list.len() as i128 {
        return Ok(Value::Fault);
    }
    match list.item(index as u32) {
        Some(item) => item.copy(alloc),
        None => Ok(Value::Fault),
    }
}
