//! Waiting tasks in slots.
//!
//! A new row stands in the slot past all others, so the slots rise in the order in which the rows were made. Rows stay where
//! they are; an empty slot is used again once it is past all rows.

ghost use Rattle.std.specs.Prelude.{◌≡◌, ℕ, ◌<◌, [], Some, IfOk, IfSome, OnErr, IsTrue, ◌↔◌, length, true, All, option_copied, option_map};
ghost use Rattle.lucid_tasks.specs.Rows.{row_at, got_of, parent_of, key_of, is_ready, taken, with_cursor, returned, IsRow, IsReady, IsPast, IsIdlePart, IsForest, HaveThree, ChangesOnly, Asks, Gives, Settles};
ghost use Rattle.lucid_tasks.specs.Slots.{is_listed, RiseFrom};

use crate::list::{insert_slot, remove_slot};
use crate::rows::Rows;
use crate::{Cursor, Key, Part, Task};
use lucid_value::Value;
use std::alloc::{AllocError, Global};
use std::marker::Model;

/// Waiting tasks, seen as a finite map from slots to rows. The parent of a row is a row too, which has asked it for the part.
/// Slots rise in the order in which the rows were made. A slot is below 2^32 - 1.
pub struct Tasks {
    rows: Rows,
    // The slots of the ready rows, in order.
    ready: Vec<usize>,
}

// Not derived: a derived one is proved again wherever one is dropped.
impl Drop for Tasks {
    fn drop(self) {
        let Tasks { rows, ready } = self;
    }
}

impl Model for Tasks {
    ghost use Rattle.std.specs.Prelude.{List, Option, ◌≤◌, vec_len, vec_capacity};
    ghost use Rattle.lucid_tasks.specs.RowsCode.{rows_code};
    ghost use Rattle.lucid_tasks.specs.Rows.{TaskRow, AreTasks};

    ghost Value = { List (Option TaskRow) };

    ghost coded = { rows_code };

    ghost view = { λ t. t.rows };

    ghost invariant = { λ t. AreTasks t.rows t.ready.items × (vec_len t.ready ≤ vec_capacity t.ready) };
}

impl Tasks {
    /// No task waits. It takes no memory.
    pub fn make(alloc: Global) -> Tasks
        ensures { result ≡ [] }
    {
        Tasks {
            rows: Rows::make(alloc),
            ready: Vec::new(alloc),
        }
    }

    /// Adds a row for a task whose value goes to an idle part of a row, or comes back where there is none; and for a key to remember, if
    /// there is one: that of the daton whose value the task's is to become. The slot that it gives is past those of all rows. It is refused for
    /// want of memory alone, and at 2^32 - 1 slots.
    #[inline(always)]
    pub fn ask(
        &mut self,
        part: Option<Part>,
        task: Task,
        key: Option<Key>,
    ) -> Result<usize, AllocError>
        requires { IfSome part (IsIdlePart self.old) }
        ensures rows { IfOk result (λ slot. Asks self.old self.new part slot task key) }
        ensures newest { IfOk result (IsPast self.old) }
        ensures err { OnErr result (self.new ≡ self.old) }
    {
        self.ready.reserve(1)?;
        let slot = self.rows.add(task, part, key)?;
        if let Some(part) = part {
            if self.rows.is_ready(part.slot) {
                remove_slot(&mut self.ready, part.slot);
            }
            self.rows.mark_asked(part, slot);
        }
        self.ready.push_reserved(slot);
        Ok(slot)
    }

    /// Ends a ready task. Its value goes to the part that it was asked for, or comes back where there is none. It takes no
    /// memory.
    #[inline(always)]
    pub fn settle(&mut self, slot: usize, value: Value) -> Option<Value>
        requires { IsTrue (is_ready (row_at self.old slot)) }
        ensures rows { Settles self.old self.new slot value }
        ensures returned { result ≡ returned (parent_of self.old slot) value }
    {
        let parent = self.rows.remove(slot);
        remove_slot(&mut self.ready, slot);
        let Some(part) = parent else {
            return Some(value);
        };
        self.rows.give(part, value);
        if self.rows.is_ready(part.slot) {
            insert_slot(&mut self.ready, part.slot);
        }
        None
    }

    /// What the row in a slot is to find.
    #[inline(always)]
    pub fn task(&self, slot: usize) -> Task
        requires { IsRow self.now slot }
        ensures { option_map (λ row. row.task) (row_at self.now slot) ≡ Some result }
    {
        self.rows.task(slot)
    }

    /// The part that a task is to give a value to.
    #[inline(always)]
    pub fn parent(&self, slot: usize) -> Option<Part>
        requires { IsRow self.now slot }
        ensures { result ≡ parent_of self.now slot }
    {
        self.rows.parent(slot)
    }

    /// Where a task's search stands.
    #[inline(always)]
    pub fn cursor(&self, slot: usize) -> Cursor
        requires { IsRow self.now slot }
        ensures { option_map (λ row. row.cursor) (row_at self.now slot) ≡ Some result }
    {
        self.rows.cursor(slot)
    }

    /// The key of the daton whose value a task's is to become.
    #[inline(always)]
    pub fn key(&self, slot: usize) -> Option<Key>
        requires { IsRow self.now slot }
        ensures { result ≡ key_of self.now slot }
    {
        self.rows.key(slot)
    }

    /// The value of a part, if it has one.
    #[inline(always)]
    pub fn got(&self, slot: usize, index: u32) -> Option<&Value>
        requires row { IsRow self.now slot }
        requires index { index < 3 }
        ensures { option_copied result ≡ got_of self.now (record { slot = slot; index = index }) }
    {
        self.rows.got(slot, index)
    }

    /// Moves a task's cursor.
    #[inline(always)]
    pub fn set_cursor(&mut self, slot: usize, cursor: Cursor)
        requires { IsRow self.old slot }
        ensures { ChangesOnly self.old self.new slot (with_cursor cursor) }
    {
        self.rows.set_cursor(slot, cursor);
    }

    /// Gives an idle part its value without a row. The value comes back where there is no part. It takes no memory.
    #[inline(always)]
    pub fn give(&mut self, part: Option<Part>, value: Value) -> Option<Value>
        requires { IfSome part (IsIdlePart self.old) }
        ensures rows { Gives self.old self.new part value }
        ensures returned { result ≡ returned part value }
    {
        match part {
            Some(part) => {
                self.rows.give(part, value);
                None
            }
            None => Some(value),
        }
    }

    /// Moves the value of a part out, if it has one. The part is then idle.
    #[inline(always)]
    pub fn take(&mut self, part: Part) -> Option<Value>
        requires row { IsRow self.old part.slot }
        requires index { part.index < 3 }
        ensures value { result ≡ got_of self.old part }
        ensures rows { ChangesOnly self.old self.new part.slot (taken part.index) }
    {
        self.rows.take(part)
    }

    /// Drops the value of a part, if it has one.
    #[inline(always)]
    pub fn discard(&mut self, part: Part)
        requires row { IsRow self.old part.slot }
        requires index { part.index < 3 }
        ensures { ChangesOnly self.old self.new part.slot (taken part.index) }
    {
        self.rows.drop_part(part.slot, part.index);
    }

    /// Whether a row waits for none of its parts.
    #[inline(always)]
    pub fn is_ready(&self, slot: usize) -> bool
        requires { IsRow self.now slot }
        ensures { result ≡ is_ready (row_at self.now slot) }
    {
        self.rows.is_ready(slot)
    }

    /// The slots of the ready rows, in the order of their making.
    #[inline(always)]
    pub fn ready(&self) -> &[usize]
        ensures rising { RiseFrom 0 result.now }
        ensures listed { (slot : ℕ) → is_listed result.now slot ≡ is_ready (row_at self.now slot) }
        ensures each { All (λ slot. is_ready (row_at self.now slot) ≡ true) result.now }

        // A row is ready where it is no row's parent, and where there is a row, some row is ready.
        ensures meaning { (slot : ℕ) → IsTrue (is_ready (row_at self.now slot)) ↔ IsReady self.now slot }
        ensures some { (slot : ℕ) → IsRow self.now slot → 0 < length result.now }
        ensures forest { IsForest self.now }
        ensures three { HaveThree self.now }
    {
        let _rows = &self.rows;
        self.ready.as_slice()
    }

    /// Ends all tasks.
    pub fn clear(&mut self)
        ensures { self.new ≡ [] }
    {
        self.rows.clear();
        self.ready.clear();
    }
}
