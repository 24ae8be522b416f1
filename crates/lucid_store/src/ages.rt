//! The ages of values, of which those that are 0 needn't lie in memory.

ghost use Rattle.std.specs.Prelude.{◌≡◌, ℕ, ◌+◌, ◌-◌, ◌<◌, ◌≤◌, ◌++◌, ◌∷◌, [], Some, OnOk, OnErr, length, map, take, nat_le, slice_set, slice_get, slice_index_or};
ghost use Rattle.std.specs.List.{list_all, swap_remove};
ghost use Rattle.std.specs.Vec.{vec_capacity};
ghost use Rattle.lucid_store.specs.Ages.{zeros, IsLastOver};
ghost use Rattle.lucid_store.specs.Entries.{older};

use std::alloc::{AllocError, Global};
use std::marker::Model;

/// Ages, seen as their list.
///
/// The first of them are written; the others are 0, and only their room is there, which is untouched until a sweep writes them. So a
/// store that is never swept pays nothing for ages.
#[derive(Drop)]
pub(crate) struct Ages {
    count: usize,
    written: Vec<u32>,
}

impl Model for Ages {
    ghost use Rattle.std.specs.Prelude.{ℕ, List, length, ◌≤◌, ◌-◌, ◌++◌};
    ghost use Rattle.std.specs.Vec.{vec_capacity};
    ghost use Rattle.std.specs.Coded.{coded_ℕ, coded_list};
    ghost use Rattle.lucid_store.specs.Ages.{zeros};

    ghost Value = { List ℕ };

    ghost coded = { coded_list coded_ℕ };

    ghost view = { λ a. a.written.items ++ zeros (a.count - length a.written.items) };

    ghost invariant = { λ a. (length a.written.items ≤ a.count) × (a.count ≤ vec_capacity a.written) };
}

// Room for one age more than a count.
fn make_room(written: &mut Vec<u32>, count: usize) -> Result<(), AllocError>
    requires few { length written.old.items ≤ count }
    requires room { count ≤ vec_capacity written.old }
    ensures items { written.new.items ≡ written.old.items }
    ensures room { OnOk result (count < vec_capacity written.new) }
    ensures kept { vec_capacity written.old ≤ vec_capacity written.new }
{
    if written.capacity() == count {
        written.reserve(count + 1 - written.len())?;
    }
    Ok(())
}

// A written age becomes 0.
fn write_zero(written: &mut Vec<u32>, index: usize)
    requires { index < length written.old.items }
    ensures items { written.new.items ≡ slice_set written.old.items index 0 }
    ensures room { vec_capacity written.new ≡ vec_capacity written.old }
{
    if written[index] != 0 {
        written[index] = 0;
    }
}

// Writes further ages of 0, up to a count.
fn fill(written: &mut Vec<u32>, count: usize)
    requires few { length written.old.items ≤ count }
    requires room { count ≤ vec_capacity written.old }
    ensures items { written.new.items ≡ written.old.items ++ zeros (count - length written.old.items) }
    ensures room { vec_capacity written.old ≤ vec_capacity written.new }
{
    match written.resize(count, 0) {
        Ok(()) => (),
        Err(_) => unreachable!(),
    }
}

// Every age rises by one.
fn raise_all(ages: &mut [u32])
    ensures { ages.new ≡ map older ages.old }
{
    for index in 0..ages.len() {
        ages[index] = ages[index].saturating_add(1);
    }
}

// The same of all that is written.
fn raise_written(written: &mut Vec<u32>)
    ensures items { written.new.items ≡ map older written.old.items }
    ensures room { vec_capacity written.new ≡ vec_capacity written.old }
{
    raise_all(written.as_mut_slice());
}

// So many ages are looked over at once.
const BLOCK: usize = 16;

// Whether none of the ages is over the limit. It doesn't stop at the first, so that the loop looks at several at a time.
#[inline(always)]
fn is_none_over(ages: &[u32], limit: u32) -> bool
    ensures { result ≡ list_all (λ age. nat_le age limit) ages.now }
{
    let mut none = true;
    for index in 0..ages.len() {
        none &= ages[index] <= limit;
    }
    none
}

// The last place whose age is over the limit, looked for place by place.
fn search(ages: &[u32], limit: u32) -> Option<usize>
    ensures { IsLastOver limit ages.now (length ages.now) result }
{
    for index in (0..ages.len()).rev() {
        if ages[index] > limit {
            return Some(index);
        }
    }
    None
}

// The last place whose age is over the limit. Where the very last one isn't, whole blocks are passed: mostly those over the limit stand
// side by side, and the others by the hundred.
fn last_over(ages: &[u32], limit: u32) -> Option<usize>
    ensures { IsLastOver limit ages.now (length ages.now) result }
{
    let mut end = ages.len();
    while end > 0 && ages[end - 1] <= limit {
        let start = end.saturating_sub(BLOCK);
        if !is_none_over(&ages[start..end], limit) {
            break;
        }
        end = start;
    }
    search(&ages[..end], limit)
}

impl Ages {
    /// No ages. It takes no memory.
    pub(crate) fn make(alloc: Global) -> Ages
        ensures { result ≡ [] }
    {
        Ages {
            count: 0,
            written: Vec::new(alloc),
        }
    }

    /// The age at a place.
    pub(crate) fn at(&self, index: usize) -> u32
        requires { index < length self.now }
        ensures { slice_get self.now index ≡ Some result }
    {
        if index < self.written.len() {
            self.written[index]
        } else {
            0
        }
    }

    /// An age more, of 0.
    pub(crate) fn add(&mut self) -> Result<(), AllocError>
        ensures items { OnOk result (self.new ≡ self.old ++ 0 ∷ []) }
        ensures err { OnErr result (self.new ≡ self.old) }
    {
        make_room(&mut self.written, self.count)?;
        self.count += 1;
        Ok(())
    }

    /// The age at a place becomes 0.
    pub(crate) fn reset(&mut self, index: usize)
        requires { index < length self.old }
        ensures { self.new ≡ slice_set self.old index 0 }
    {
        if index < self.written.len() {
            write_zero(&mut self.written, index);
        }
    }

    // The last age stands at a place too.
    fn copy_last(&mut self, index: usize)
        requires { index < length self.old }
        ensures { (d : ℕ) → self.new ≡ slice_set self.old index (slice_index_or self.old (length self.old - 1) d) }
    {
        let last = self.at(self.count - 1);
        if index < self.written.len() {
            self.written[index] = last;
        }
    }

    // The last age goes.
    fn drop_last(&mut self)
        requires { 0 < length self.old }
        ensures { self.new ≡ take (length self.old - 1) self.old }
    {
        self.count -= 1;
        if self.count < self.written.len() {
            let _ = self.written.pop();
        }
    }

    /// The age at a place goes, and the last one takes its place.
    pub(crate) fn swap_remove(&mut self, index: usize)
        requires { index < length self.old }
        ensures items { (d : ℕ) → self.new ≡ swap_remove self.old index d }
        ensures len { length self.new + 1 ≡ length self.old }
    {
        self.copy_last(index);
        self.drop_last();
    }

    /// Every age rises by one, up to the greatest u32.
    pub(crate) fn raise(&mut self)
        ensures { self.new ≡ map older self.old }
    {
        fill(&mut self.written, self.count);
        raise_written(&mut self.written);
    }

    /// The last place before an end whose age is over the limit.
    pub(crate) fn last_over(&self, end: usize, limit: u32) -> Option<usize>
        requires { end ≤ length self.now }
        ensures { IsLastOver limit self.now end result }
    {
        let end = end.min(self.written.len());
        last_over(&self.written[..end], limit)
    }

    /// No ages are left.
    pub(crate) fn clear(&mut self)
        ensures { self.new ≡ [] }
    {
        self.written.clear();
        self.count = 0;
    }
}
