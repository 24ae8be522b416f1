//! Values: integers, truths, words, strings, lists, end of data and error, with their texts, their reading, their limits
//! and their lists. A copy takes constant time whatever the value: a list is a chain of shared cells, a word or a string a
//! shared buffer. Contracts see a value in its plain form.
#![tactic(auto)]

ghost use Rattle.std.specs.Prelude.{◌≡◌, ◌+◌, ◌≤◌, ◌<◌, IfOk, IsTrue, length, MatchOption};
ghost use Rattle.lucid_value.specs.Plain.{no_items, listed, weight, weights, nesting, nestings, well_formed, all_well_formed, in_range, all_in_range, is_i128, is_value, is_word, is_text, most_weight, most_nesting};
ghost use Rattle.lucid_value.specs.Texts.{order_of};
ghost use Rattle.lucid_value.specs.View.{plain};

pub use crate::bytes::{MakeRefusal, can_be_text, can_be_word, is_blank, is_text_byte};
pub use crate::laws::{
    element_is, one_element, one_line_reading, one_list_front, one_reading, text_is_read,
};
pub use crate::list_scan::list_front;
pub use crate::lists::{append, cons, head, pick_item, tail};
pub use crate::names::{Name, is_name_byte, is_reserved};
pub use crate::read::{ReadRefusal, read_value};
pub use crate::texts::{cut, join};
use std::alloc::{AllocError, Global};
use std::cmp::Ordering;
use std::marker::Model;
use std::rc::Rc;

mod atoms;
mod bytes;
mod debug;
mod laws;
mod list_scan;
mod lists;
mod names;
mod read;
mod same;
mod show;
mod texts;

/// No value weighs more. A word or a string weighs 1 and one for each byte, a list 1 and the weights of its items, all
/// else 1.
pub const MAX_WEIGHT: u32 = 65_536;

/// No list nests deeper. The empty list has 1, any other list one more than its deepest item.
pub const MAX_NESTING: u32 = 64;

/// A word: a letter, then letters and digits, and none of `true`, `false`, `eod` and `error`. It is seen as its bytes.
#[derive(Drop)]
pub struct Word {
    bytes: Rc<Vec<u8>>,
}

impl Model for Word {
    ghost use Rattle.std.specs.Prelude.{ℕ, List};

    ghost Value = { List ℕ };

    ghost use Rattle.std.specs.Prelude.{◌<◌, length, IsTrue};
    ghost use Rattle.lucid_value.specs.Plain.{is_word, most_weight};

    ghost view = { λ w. w.bytes.value.items };

    ghost invariant = { λ w. IsTrue (is_word w.bytes.value.items) × (length w.bytes.value.items < most_weight) };
}

/// A string: bytes 32 to 126 without the two quotes. It is seen as its bytes.
#[derive(Drop)]
pub struct Text {
    bytes: Rc<Vec<u8>>,
}

impl Model for Text {
    ghost use Rattle.std.specs.Prelude.{ℕ, List};

    ghost Value = { List ℕ };

    ghost use Rattle.std.specs.Prelude.{◌<◌, length, IsTrue};
    ghost use Rattle.lucid_value.specs.Plain.{is_text, most_weight};

    ghost view = { λ w. w.bytes.value.items };

    ghost invariant = { λ w. IsTrue (is_text w.bytes.value.items) × (length w.bytes.value.items < most_weight) };
}

/// A value.
#[cycle(value)]
#[derive(Drop)]
pub enum Value {
    Int(i128),
    Truth(bool),
    Word(Word),
    Text(Text),
    List(List),
    /// The end of data, written `eod`.
    Eod,
    /// The value written `error`.
    Fault,
}

/// A list of values, none of which is `Eod` or `Fault`. It is seen as its items in their plain form.
#[cycle(value)]
#[derive(Drop)]
pub struct List {
    top: Link,
}

// The first cell, or the end.
#[cycle(value)]
enum Link {
    End,
    More(Rc<Cell>),
}

// An item and the items behind it, with the length, the weight and the nesting of the list that begins here.
#[cycle(value)]
#[derive(Drop)]
struct Cell {
    item: Value,
    rest: List,
    len: u32,
    weight: u32,
    nesting: u32,
}

impl Model for List {
    ghost use Rattle.lucid_value.specs.Plain.{Items};
    ghost use Rattle.lucid_value.specs.Codes.{coded_items};

    ghost Value = { Items };

    ghost coded = { coded_items };

    ghost use Rattle.lucid_value.specs.View.{items, IsKept, size_items};

    ghost view = { λ l. items l.top };

    ghost invariant = { λ l. IsKept l.top };

    ghost size = { size_items };

    ghost use Rattle.std.proofs.Common.{arith};

    ghost size_decreases = { λ a h. Prim.grind (arith) };
}

// Along the chain a loop, so that a long list is dropped in little stack; into an item a recursion, 64 deep at most.
impl Drop for Link {
    fn drop(mut self) {
        loop {
            match self {
                Link::End => return,
                Link::More(cell) => match Rc::into_inner(cell) {
                    None => return,
                    Some(next) => {
                        let Cell { rest, .. } = next;
                        let List { top } = rest;
                        self = top;
                    }
                },
            }
        }
    }
}

impl List {
    /// The empty list. It takes no memory.
    pub fn empty(_alloc: Global) -> List
        ensures { result ≡ no_items }
    {
        List { top: Link::End }
    }

    /// The number of items.
    pub fn len(&self) -> u32
        ensures exact { result ≡ length (listed self.now) }
        ensures short { result ≤ weights self.now }
    {
        match &self.top {
            Link::End => 0,
            Link::More(cell) => cell.len,
        }
    }

    /// The same list. It takes constant time: the cells are shared.
    pub fn copy(&self) -> Result<List, AllocError>
        ensures { IfOk result (λ list. list ≡ self.now) }
    {
        match &self.top {
            Link::End => Ok(List { top: Link::End }),
            Link::More(cell) => Ok(List {
                top: Link::More(cell.clone()?),
            }),
        }
    }

    fn weight(&self) -> u32
        ensures exact { result ≡ weights self.now + 1 }
        ensures light { result ≤ most_weight }
    {
        match &self.top {
            Link::End => 1,
            Link::More(cell) => cell.weight,
        }
    }

    fn nesting(&self) -> u32
        ensures exact { result ≡ nestings self.now + 1 }
        ensures flat { result ≤ most_nesting }
    {
        match &self.top {
            Link::End => 1,
            Link::More(cell) => cell.nesting,
        }
    }
}

impl List {
    /// A list keeps the rules of the language. The function does nothing: its contract is the fact.
    pub fn keeps_rules(&self)
        ensures formed { IsTrue (all_well_formed self.now) }
        ensures ranged { IsTrue (all_in_range self.now) }
        ensures light { weights self.now + 1 ≤ most_weight }
        ensures flat { nestings self.now + 1 ≤ most_nesting }
    {
        let _ = &self.top;
    }
}

impl Word {
    /// A word keeps its rule. The function does nothing: its contract is the fact.
    pub fn keeps_rules(&self)
        ensures rule { IsTrue (is_word self.now) }
        ensures light { length self.now < most_weight }
    {
        let _ = &self.bytes;
    }

    /// Its bytes.
    pub fn bytes(&self) -> &[u8]
        ensures { result.now ≡ self.now }
    {
        self.bytes.as_slice()
    }

    /// The same word. It takes constant time: the bytes are shared.
    pub fn copy(&self) -> Result<Word, AllocError>
        ensures { IfOk result (λ word. word ≡ self.now) }
    {
        Ok(Word {
            bytes: self.bytes.clone()?,
        })
    }
}

impl Text {
    /// A string keeps its rule. The function does nothing: its contract is the fact.
    pub fn keeps_rules(&self)
        ensures rule { IsTrue (is_text self.now) }
        ensures light { length self.now < most_weight }
    {
        let _ = &self.bytes;
    }

    /// Its bytes.
    pub fn bytes(&self) -> &[u8]
        ensures { result.now ≡ self.now }
    {
        self.bytes.as_slice()
    }

    /// The same string. It takes constant time: the bytes are shared.
    pub fn copy(&self) -> Result<Text, AllocError>
        ensures { IfOk result (λ text. text ≡ self.now) }
    {
        Ok(Text {
            bytes: self.bytes.clone()?,
        })
    }
}

// An integer of this type is one of the language.
fn is_in_range(n: i128)
    ensures { IsTrue (is_i128 n) }
{
    let _ = n;
}

impl Value {
    // The rules, but for the limits.
    fn is_formed(&self)
        ensures formed { IsTrue (well_formed (plain self.now)) }
        ensures ranged { IsTrue (in_range (plain self.now)) }
    {
        match self {
            Value::Int(n) => is_in_range(*n),
            Value::Word(w) => w.keeps_rules(),
            Value::Text(t) => t.keeps_rules(),
            Value::List(l) => l.keeps_rules(),
            Value::Truth(_) | Value::Eod | Value::Fault => (),
        }
    }

    /// A value keeps the rules of the language. The function does nothing: its contract is the fact.
    pub fn keeps_rules(&self)
        ensures value { IsTrue (is_value (plain self.now)) }
        ensures formed { IsTrue (well_formed (plain self.now)) }
        ensures ranged { IsTrue (in_range (plain self.now)) }
    {
        self.is_formed();
        let _weight = self.weight();
        let _nesting = self.nesting();
    }

    /// The same value. It takes constant time: what it holds is shared.
    pub fn copy(&self, _alloc: Global) -> Result<Value, AllocError>
        ensures { IfOk result (λ value. value ≡ self.now) }
    {
        self.clone()
    }

    /// Its weight.
    pub fn weight(&self) -> u32
        ensures exact { result ≡ weight (plain self.now) }
        ensures light { result ≤ most_weight }
        ensures heavy { 0 < result }
    {
        match self {
            Value::Word(w) => w.bytes.len() as u32 + 1,
            Value::Text(t) => t.bytes.len() as u32 + 1,
            Value::List(l) => l.weight(),
            _ => 1,
        }
    }

    /// Its nesting: 0 but for a list.
    pub fn nesting(&self) -> u32
        ensures exact { result ≡ nesting (plain self.now) }
        ensures flat { result ≤ most_nesting }
    {
        match self {
            Value::List(l) => l.nesting(),
            _ => 0,
        }
    }

    /// The order of two integers by size, or of two words or two strings by bytes.
    pub fn order(&self, other: &Value) -> Option<Ordering>
        ensures { result ≡ order_of (plain self.now) (plain other.now) }
    {
        match (self, other) {
            (Value::Int(m), Value::Int(n)) => Some(m.cmp(n)),
            (Value::Word(v), Value::Word(w)) => Some(v.bytes().cmp(&w.bytes())),
            (Value::Text(v), Value::Text(w)) => Some(v.bytes().cmp(&w.bytes())),
            _ => None,
        }
    }
}

impl Clone for Value {
    ghost is_clone = { λ value copy. copy ≡ value };

    fn clone(&self) -> Result<Value, AllocError> {
        match self {
            Value::Int(n) => Ok(Value::Int(*n)),
            Value::Truth(b) => Ok(Value::Truth(*b)),
            Value::Word(w) => Ok(Value::Word(w.copy()?)),
            Value::Text(t) => Ok(Value::Text(t.copy()?)),
            Value::List(l) => Ok(Value::List(l.copy()?)),
            Value::Eod => Ok(Value::Eod),
            Value::Fault => Ok(Value::Fault),
        }
    }
}
