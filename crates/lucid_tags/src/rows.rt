//! The table of the known contexts, as frames over one another.

ghost use Rattle.std.specs.Prelude.{◌≡◌, ◌<◌, ◌≤◌, ◌+◌, ◌-◌, ◌^◌, [], length, IfOk, IfSome, IfNone, OnOk, OnErr};
ghost use Rattle.lucid_tags.specs.Contexts.{context_at, frames, IsOuter, cut};
ghost use Rattle.lucid_tags.specs.Known.{AddsAtMost, IsUnknown};
ghost use Rattle.lucid_tags.specs.Rows.{contexts, row_context, CallerBelow, IsRow, IsDepth, AreDepths, AreRows};

use crate::hashing::KeyHasher;
use indexmap::IndexSet;
use std::alloc::{AllocError, Global};
use std::hash::BuildHasherDefault;

// A frame whose caller is given by its number.
#[derive(Clone, Copy, PartialEq, Eq, Hash)]
pub(crate) enum RowFrame {
    Call { place: u32, caller: u32 },
    Frozen { time: u64 },
}

// A context that isn't empty: a frame over the context of a lower number.
#[derive(Clone, Copy, PartialEq, Eq, Hash)]
pub(crate) struct Row {
    pub(crate) base: u32,
    pub(crate) frame: RowFrame,
}

// How deep a context is: its number of frames, and the number of a context further out, by which a search goes outwards in
// long steps.
#[derive(Clone, Copy)]
pub(crate) struct Depth {
    pub(crate) level: u32,
    pub(crate) outer: u32,
}

// The known contexts but the empty one: a row for each, in the order in which they became known, and beside it how deep it is.
#[derive(Drop)]
pub(crate) struct Table {
    rows: IndexSet<Row, BuildHasherDefault<KeyHasher>>,
    depths: Vec<Depth>,
}

impl Table {
    pub(crate) fn make(alloc: Global) -> Table
        ensures rows { result.rows.keys ≡ [] }
        ensures depths { result.depths.items ≡ [] }
    {
        Table {
            rows: IndexSet::with_hasher(alloc, BuildHasherDefault::new()),
            depths: Vec::new(alloc),
        }
    }

    // The number of rows.
    pub(crate) fn len(&self) -> usize
        ensures { result ≡ length self.now.rows.keys }
    {
        self.rows.len()
    }

    // Drops all rows. The memory is kept.
    pub(crate) fn clear(&mut self)
        ensures rows { self.new.rows.keys ≡ [] }
        ensures depths { self.new.depths.items ≡ [] }
    {
        self.rows.clear();
        self.depths.clear();
    }

    // The row of a context that isn't empty.
    pub(crate) fn row_of(&self, number: u32) -> Row
        requires rows { AreRows self.now.rows.keys self.now.depths.items }
        requires full { 0 < number }
        requires known { number < length (contexts self.now.rows.keys) }
        ensures { IsRow (contexts self.now.rows.keys) number result }
    {
        *self.rows.get_index(number as usize - 1).unwrap()
    }

    // How deep a context is.
    pub(crate) fn depth_of(&self, number: u32) -> Depth
        requires depths { AreDepths (contexts self.now.rows.keys) self.now.depths.items }
        requires known { number ≤ length self.now.depths.items }
        ensures { IsDepth (contexts self.now.rows.keys) number result }
    {
        if number == 0 {
            return Depth { level: 0, outer: 0 };
        }
        self.depths[number as usize - 1]
    }

    // The depth of a context with one frame over the base. Its outer context is so chosen that a search takes logarithmic time:
    // it is far where the last two steps outwards are equally long, and near otherwise.
    fn depth_over(&self, base: u32) -> Depth
        requires depths { AreDepths (contexts self.now.rows.keys) self.now.depths.items }
        requires known { base ≤ length self.now.depths.items }
        requires few { length self.now.depths.items < 2 ^ 32 - 1 }
        ensures level { result.level ≡ frames (context_at (contexts self.now.rows.keys) base) + 1 }
        ensures low { result.level ≤ base + 1 }
        ensures before { result.outer ≤ base }
        ensures outer { IsOuter (context_at (contexts self.now.rows.keys) result.outer) (context_at (contexts self.now.rows.keys) base) }
    {
        let near = self.depth_of(base);
        let far = self.depth_of(near.outer);
        let farther = self.depth_of(far.outer);
        let outer = if near.level - far.level == far.level - farther.level {
            far.outer
        } else {
            base
        };
        Depth {
            level: near.level + 1,
            outer,
        }
    }

    // The number of a row's context, if it is known.
    fn number_of(&self, row: Row) -> Option<u32>
        requires rows { AreRows self.now.rows.keys self.now.depths.items }
        requires base { row.base < length (contexts self.now.rows.keys) }
        requires caller { CallerBelow (length (contexts self.now.rows.keys)) row.frame }
        ensures within { IfSome result (λ number. number < length (contexts self.now.rows.keys)) }
        ensures context { IfSome result (λ number. context_at (contexts self.now.rows.keys) number ≡ row_context (contexts self.now.rows.keys) row) }
        ensures unknown { IfNone result (IsUnknown (contexts self.now.rows.keys) (row_context (contexts self.now.rows.keys) row)) }
    {
        let (index, _) = self.rows.get_full(&row)?;
        Some(index as u32 + 1)
    }

    // The number of a row's context, which is added where it isn't known.
    pub(crate) fn intern(&mut self, row: Row) -> Result<u32, AllocError>
        requires rows { AreRows self.old.rows.keys self.old.depths.items }
        requires base { row.base < length (contexts self.old.rows.keys) }
        requires caller { CallerBelow (length (contexts self.old.rows.keys)) row.frame }
        ensures rows { AreRows self.new.rows.keys self.new.depths.items }
        ensures within { IfOk result (λ number. number < length (contexts self.new.rows.keys)) }
        ensures context { IfOk result (λ number. context_at (contexts self.new.rows.keys) number ≡ row_context (contexts self.old.rows.keys) row) }
        ensures added { OnOk result (AddsAtMost (contexts self.old.rows.keys) (contexts self.new.rows.keys) (row_context (contexts self.old.rows.keys) row)) }
        ensures unknown { OnErr result (IsUnknown (contexts self.old.rows.keys) (row_context (contexts self.old.rows.keys) row)) }
        ensures err { OnErr result (self.new.rows.keys ≡ self.old.rows.keys) }
    {
        // Where there is no number or no memory for one more, a known one is found all the same.
        if self.rows.len() >= u32::MAX as usize || self.depths.reserve(1).is_err() {
            return self.number_of(row).ok_or(AllocError);
        }
        let (index, added) = self.rows.insert_full(row)?;
        let number = index as u32 + 1;
        if !added {
            return Ok(number);
        }
        let depth = self.depth_over(row.base);
        self.depths.push(depth).unwrap();
        Ok(number)
    }

    // The number of the context of the outermost `level` frames.
    pub(crate) fn cut_to(&self, number: u32, level: u32) -> u32
        requires rows { AreRows self.now.rows.keys self.now.depths.items }
        requires known { number < length (contexts self.now.rows.keys) }
        requires level { level ≤ frames (context_at (contexts self.now.rows.keys) number) }
        ensures known { result < length (contexts self.now.rows.keys) }
        ensures context { cut level (context_at (contexts self.now.rows.keys) number) ≡ Some (context_at (contexts self.now.rows.keys) result) }
        ensures no_higher { result ≤ number }
        ensures lower { level < frames (context_at (contexts self.now.rows.keys) number) → result < number }
    {
        let mut at = number;
        let mut depth = self.depth_of(at);
        while depth.level > level {
            let outer = self.depth_of(depth.outer);
            if outer.level >= level {
                at = depth.outer;
                depth = outer;
            } else {
                at = self.row_of(at).base;
                depth = self.depth_of(at);
            }
        }
        at
    }
}
