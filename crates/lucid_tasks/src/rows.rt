//! Rows in their slots.
//!
//! A row is a few words; the values of its parts lie beside. An ended row stays where it is until it is past all others.

ghost use Rattle.std.specs.Prelude.{◌≡◌, ℕ, ◌<◌, ◌≤◌, ◌+◌, ◌^◌, ◌∷◌, [], Some, None, IfOk, IfSome, OnOk, OnErr, IsSome, length, option_copied, option_map, slice_get, true, false};
ghost use Rattle.lucid_tasks.specs.declared.rows.Row.{Row};
ghost use Rattle.lucid_tasks.specs.Rows.{row_at, parent_of, key_of, got_of, is_ready, fresh, start, taken, with_part, with_cursor, IsRow, IsPast, HaveThree, SetsOnly, ChangesOnly, Asked, Got};
ghost use Rattle.lucid_tasks.specs.Laid.{part_number, named, laid_parent, laid_key, Shows, Trims};

use crate::pool::Pool;
use crate::{Cursor, Key, Part, Task};
use lucid_value::Value;
use std::alloc::{AllocError, Global};
use std::marker::Model;

const START: Cursor = Cursor { time: 0, count: 0 };

// A row as it lies in memory, without holes between its fields. A slot is named by one more than its number, and 0 names none.
#[derive(Clone, Copy)]
pub(crate) struct Row {
    pub(crate) task: Task,
    pub(crate) cursor: Cursor,
    pub(crate) asked: [u32; 3],
    pub(crate) parent: u32,
    pub(crate) key: Key,
    pub(crate) parent_index: u8,
    pub(crate) keyed: bool,
    pub(crate) live: bool,
}

// Rows in their slots, seen as a finite map.
#[derive(Drop)]
pub(crate) struct Rows {
    rows: Vec<Row>,
    pool: Pool,
}

impl Model for Rows {
    ghost use Rattle.std.specs.Prelude.{List, Option};
    ghost use Rattle.lucid_tasks.specs.RowsCode.{rows_code};
    ghost use Rattle.lucid_tasks.specs.Rows.{TaskRow};
    ghost use Rattle.lucid_tasks.specs.Laid.{laid_from, AreLaid};

    ghost Value = { List (Option TaskRow) };

    ghost coded = { rows_code };

    ghost view = { λ r. laid_from r.pool.0 0 r.rows.items };

    ghost invariant = { λ r. AreLaid r.rows.items r.pool };
}

// The number of a part among the values.
#[inline(always)]
fn number(slot: usize, index: u32) -> usize
    requires slot { slot < 2 ^ 32 }
    requires index { index < 3 }
    ensures { result ≡ part_number slot index }
{
    3 * slot + index as usize
}

// A new row, which has asked for nothing.
#[inline(always)]
fn new_row(task: Task, parent: Option<Part>, key: Option<Key>) -> Row
    requires { IfSome parent (λ part. (part.slot + 1 < 2 ^ 32) × (part.index < 3)) }
    ensures task { result.task ≡ task }
    ensures parent { laid_parent result ≡ parent }
    ensures cursor { result.cursor ≡ start }
    ensures key { laid_key result ≡ key }
    ensures asked { result.asked ≡ 0 ∷ 0 ∷ 0 ∷ [] }
    ensures live { result.live ≡ true }
{
    let (parent, parent_index) = match parent {
        Some(part) => (part.slot as u32 + 1, part.index as u8),
        None => (0, 0),
    };
    let (key, keyed) = match key {
        Some(key) => (key, true),
        None => (
            Key {
                name: 0,
                tag: task.tag,
                time: 0,
            },
            false,
        ),
    };
    Row {
        task,
        cursor: START,
        asked: [0; 3],
        parent,
        key,
        parent_index,
        keyed,
        live: true,
    }
}

// Drops the ended rows at the end.
#[inline(always)]
fn trim(rows: &mut Vec<Row>)
    ensures { Trims rows.old.items rows.new.items }
{
    while let Some(row) = rows.last() {
        if row.live {
            break;
        }
        let _ = rows.pop();
    }
}

impl Rows {
    // No row is there.
    pub(crate) fn make(alloc: Global) -> Rows
        ensures { result ≡ [] }
    {
        Rows {
            rows: Vec::new(alloc),
            pool: Pool::make(alloc),
        }
    }

    // The row in a slot as it lies.
    #[inline(always)]
    fn row(&self, slot: usize) -> &Row
        requires { IsRow self.now slot }
        ensures slot { slot + 1 < 2 ^ 32 }
        ensures row { Shows (row_at self.now slot) result.now }
    {
        &self.rows[slot]
    }

    // What is asked for.
    #[inline(always)]
    pub(crate) fn task(&self, slot: usize) -> Task
        requires { IsRow self.now slot }
        ensures { option_map (λ row. row.task) (row_at self.now slot) ≡ Some result }
    {
        self.row(slot).task
    }

    // The part that the task is to give a value to.
    #[inline(always)]
    pub(crate) fn parent(&self, slot: usize) -> Option<Part>
        requires { IsRow self.now slot }
        ensures { result ≡ parent_of self.now slot }
    {
        let row = self.row(slot);
        if row.parent == 0 {
            return None;
        }
        Some(Part {
            slot: row.parent as usize - 1,
            index: row.parent_index as u32,
        })
    }

    // Where the search stands.
    #[inline(always)]
    pub(crate) fn cursor(&self, slot: usize) -> Cursor
        requires { IsRow self.now slot }
        ensures { option_map (λ row. row.cursor) (row_at self.now slot) ≡ Some result }
    {
        self.row(slot).cursor
    }

    // The key that is remembered.
    #[inline(always)]
    pub(crate) fn key(&self, slot: usize) -> Option<Key>
        requires { IsRow self.now slot }
        ensures { result ≡ key_of self.now slot }
    {
        let row = self.row(slot);
        if !row.keyed {
            return None;
        }
        Some(row.key)
    }

    // Whether the row waits for none of its parts.
    #[inline(always)]
    pub(crate) fn is_ready(&self, slot: usize) -> bool
        requires { IsRow self.now slot }
        ensures { result ≡ is_ready (row_at self.now slot) }
    {
        let asked = self.row(slot).asked;
        asked[0] == 0 && asked[1] == 0 && asked[2] == 0
    }

    // The value of a part.
    #[inline(always)]
    pub(crate) fn got(&self, slot: usize, index: u32) -> Option<&Value>
        requires row { IsRow self.now slot }
        requires index { index < 3 }
        ensures { option_copied result ≡ got_of self.now (record { slot = slot; index = index }) }
    {
        let _row = self.row(slot);
        self.pool.get(number(slot, index))
    }

    // Adds a row in a new slot, past all others.
    #[inline(always)]
    pub(crate) fn add(
        &mut self,
        task: Task,
        parent: Option<Part>,
        key: Option<Key>,
    ) -> Result<usize, AllocError>
        requires { IfSome parent (λ part. IsRow self.old part.slot × (part.index < 3)) }
        ensures row { IfOk result (λ slot. SetsOnly self.old self.new slot (Some (fresh task parent key))) }
        ensures newest { IfOk result (IsPast self.old) }
        ensures err { OnErr result (self.new ≡ self.old) }
    {
        let slot = self.rows.len();
        if slot >= u32::MAX as usize {
            return Err(AllocError);
        }
        self.pool.reserve(3 * slot + 3)?;
        self.rows.reserve(1)?;
        self.rows.push_reserved(new_row(task, parent, key));
        Ok(slot)
    }

    // Ends a row that has no value of a part.
    #[inline(always)]
    fn end(&mut self, slot: usize)
        requires row { IsRow self.old slot }
        requires empty { (index : ℕ) → index < 3 → got_of self.old (record { slot = slot; index = index }) ≡ None }
        ensures { SetsOnly self.old self.new slot None }
    {
        self.rows[slot].live = false;
        trim(&mut self.rows);
    }

    // Drops the value of a part, if it has one.
    #[inline(always)]
    pub(crate) fn drop_part(&mut self, slot: usize, index: u32)
        requires row { IsRow self.old slot }
        requires index { index < 3 }
        ensures { ChangesOnly self.old self.new slot (taken index) }
    {
        let _row = self.row(slot);
        self.pool.discard(number(slot, index));
    }

    // Ends a row with the values of its parts, which go from the end.
    #[inline(always)]
    fn end_with_values(&mut self, slot: usize)
        requires { IsRow self.old slot }
        ensures { SetsOnly self.old self.new slot None }
    {
        self.drop_part(slot, 2);
        self.drop_part(slot, 1);
        self.drop_part(slot, 0);
        self.end(slot);
    }

    // Ends a row, at once where neither it nor a later one has a value of a part.
    #[inline(always)]
    fn drop_row(&mut self, slot: usize)
        requires { IsRow self.old slot }
        ensures { SetsOnly self.old self.new slot None }
    {
        let _row = self.row(slot);
        if self.pool.ends_below(number(slot, 0)) {
            self.end(slot);
        } else {
            self.end_with_values(slot);
        }
    }

    // Ends a row, and tells its parent.
    #[inline(always)]
    pub(crate) fn remove(&mut self, slot: usize) -> Option<Part>
        requires { IsRow self.old slot }
        ensures parent { result ≡ parent_of self.old slot }
        ensures rows { SetsOnly self.old self.new slot None }
    {
        let parent = self.parent(slot);
        self.drop_row(slot);
        parent
    }

    // Notes the slot of the task that is asked for a part.
    #[inline(always)]
    pub(crate) fn mark_asked(&mut self, part: Part, child: usize)
        requires row { IsRow self.old part.slot }
        requires index { part.index < 3 }
        requires empty { got_of self.old part ≡ None }
        requires child { IsRow self.old child }
        ensures { ChangesOnly self.old self.new part.slot (with_part part.index (Asked child)) }
    {
        let _child = self.row(child);
        self.rows[part.slot].asked[part.index as usize] = child as u32 + 1;
    }

    // Gives a part its value.
    #[inline(always)]
    pub(crate) fn give(&mut self, part: Part, value: Value)
        requires row { IsRow self.old part.slot }
        requires index { part.index < 3 }
        requires empty { got_of self.old part ≡ None }
        ensures { ChangesOnly self.old self.new part.slot (with_part part.index (Got value)) }
    {
        let _row = self.row(part.slot);
        self.pool.put(number(part.slot, part.index), value);
        self.rows[part.slot].asked[part.index as usize] = 0;
    }

    // Takes the value of a part out.
    #[inline(always)]
    pub(crate) fn take(&mut self, part: Part) -> Option<Value>
        requires row { IsRow self.old part.slot }
        requires index { part.index < 3 }
        ensures value { result ≡ got_of self.old part }
        ensures rows { ChangesOnly self.old self.new part.slot (taken part.index) }
    {
        let _row = self.row(part.slot);
        self.pool.take(number(part.slot, part.index))
    }

    // Moves a row's cursor.
    #[inline(always)]
    pub(crate) fn set_cursor(&mut self, slot: usize, cursor: Cursor)
        requires { IsRow self.old slot }
        ensures { ChangesOnly self.old self.new slot (with_cursor cursor) }
    {
        self.rows[slot].cursor = cursor;
    }

    // Ends all rows.
    pub(crate) fn clear(&mut self)
        ensures { self.new ≡ [] }
    {
        self.rows.clear();
        self.pool.clear();
    }
}
