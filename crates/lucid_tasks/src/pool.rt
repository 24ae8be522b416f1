//! The values of parts, by the parts' numbers.
//!
//! The pairs stand in rising order of their numbers. A task that is worked on is nearly always the newest, so its parts have the
//! greatest numbers; the last two are tried before the pairs are searched.

ghost use Rattle.std.specs.Prelude.{◌≡◌, ◌+◌, ℕ, ◌<◌, ◌≤◌, [], length, IsTrue, ◌↔◌, None, Some, IfOk, IfErr, OnOk, OnErr, option_copied};
ghost use Rattle.lucid_tasks.specs.Numbered.{value_at, IsAt, IsGapFor, SetsOne};

use lucid_value::Value;
use std::alloc::{AllocError, Global};
use std::marker::Model;

// Values by numbers, seen as a finite map, and the number below which there is room for each.
#[derive(Drop)]
pub(crate) struct Pool {
    values: Vec<(usize, Value)>,
}

impl Model for Pool {
    ghost use Rattle.std.specs.Prelude.{vec_capacity};
    ghost use Rattle.lucid_tasks.specs.RowsCode.{pool_code};
    ghost use Rattle.lucid_tasks.specs.Laid.{Values};
    ghost use Rattle.lucid_tasks.specs.Numbered.{Rises, AreBelow};

    ghost Value = { Values };

    ghost coded = { pool_code };

    ghost view = { λ p. (p.values.items, vec_capacity p.values) };

    ghost invariant = { λ p. Rises p.values.items × AreBelow (vec_capacity p.values) p.values.items };
}

impl Pool {
    // No value is there.
    pub(crate) fn make(alloc: Global) -> Pool
        ensures { result.0 ≡ [] }
    {
        Pool {
            values: Vec::new(alloc),
        }
    }

    // Where a number stands, or where it would. Few numbers are searched, so it stands apart.
    #[inline(never)]
    fn search(&self, number: usize) -> Result<usize, usize>
        ensures found { IfOk result (IsAt self.now.0 number) }
        ensures absent { IfErr result (IsGapFor self.now.0 number) }
    {
        self.values.binary_search_by_key(&number, |pair| pair.0)
    }

    // The same, told by the last two pairs where they are enough.
    #[inline(always)]
    fn place(&self, number: usize) -> Result<usize, usize>
        ensures found { IfOk result (IsAt self.now.0 number) }
        ensures absent { IfErr result (IsGapFor self.now.0 number) }
    {
        let end = self.values.len();
        if end == 0 {
            return Err(0);
        }
        let last = self.values[end - 1].0;
        if last < number {
            return Err(end);
        }
        if last == number {
            return Ok(end - 1);
        }
        if end == 1 {
            return Err(0);
        }
        let before = self.values[end - 2].0;
        if before < number {
            return Err(end - 1);
        }
        if before == number {
            return Ok(end - 2);
        }
        self.search(number)
    }

    // Makes room for each number below one.
    #[inline(always)]
    pub(crate) fn reserve(&mut self, room: usize) -> Result<(), AllocError>
        ensures values { self.new.0 ≡ self.old.0 }
        ensures ok { OnOk result (room ≤ self.new.1) }
        ensures room { self.old.1 ≤ self.new.1 }
    {
        let len = self.values.len();
        if self.values.capacity() < room {
            self.values.reserve(room - len)?;
        }
        Ok(())
    }

    // The value of a number.
    #[inline(always)]
    pub(crate) fn get(&self, number: usize) -> Option<&Value>
        ensures { option_copied result ≡ value_at self.now.0 number }
    {
        match self.place(number) {
            Ok(at) => Some(&self.values[at].1),
            Err(_) => None,
        }
    }

    // Puts a value at its place before others.
    #[inline(always)]
    fn put_inside(&mut self, at: usize, number: usize, value: Value)
        requires room { number < self.old.1 }
        requires gap { IsGapFor self.old.0 number at }
        ensures values { SetsOne (value_at self.old.0) (value_at self.new.0) number (Some value) }
        ensures room { self.old.1 ≤ self.new.1 }
    {
        if self.values.insert(at, (number, value)).is_err() {
            unreachable!();
        }
    }

    // Puts a value at its place before the last, by which nothing else is moved.
    #[inline(always)]
    fn put_before_last(&mut self, at: usize, number: usize, value: Value)
        requires room { number < self.old.1 }
        requires last { at + 1 ≡ length self.old.0 }
        requires gap { IsGapFor self.old.0 number at }
        ensures values { SetsOne (value_at self.old.0) (value_at self.new.0) number (Some value) }
        ensures room { self.old.1 ≤ self.new.1 }
    {
        let last = self.values.take_last();
        self.values.push_reserved((number, value));
        self.values.push_reserved(last);
    }

    // Gives a number a value, wherever it stands. Few stand before others, so it stands apart.
    #[inline(never)]
    fn put_searched(&mut self, number: usize, value: Value)
        requires room { number < self.old.1 }
        requires absent { value_at self.old.0 number ≡ None }
        ensures values { SetsOne (value_at self.old.0) (value_at self.new.0) number (Some value) }
        ensures room { self.old.1 ≤ self.new.1 }
    {
        let _values = &self.values;
        match self.place(number) {
            Ok(_) => unreachable!(),
            Err(at) if at + 1 == self.values.len() => self.put_before_last(at, number, value),
            Err(at) => self.put_inside(at, number, value),
        }
    }

    // Gives a number a value.
    #[inline(always)]
    pub(crate) fn put(&mut self, number: usize, value: Value)
        requires room { number < self.old.1 }
        requires absent { value_at self.old.0 number ≡ None }
        ensures values { SetsOne (value_at self.old.0) (value_at self.new.0) number (Some value) }
        ensures room { self.old.1 ≤ self.new.1 }
    {
        if self.ends_below(number) {
            self.values.push_reserved((number, value));
        } else {
            self.put_searched(number, value);
        }
    }

    // Takes out the value at a place before others.
    #[inline(always)]
    fn take_inside(&mut self, at: usize, number: usize) -> Value
        requires { IsAt self.old.0 number at }
        ensures value { Some result ≡ value_at self.old.0 number }
        ensures values { SetsOne (value_at self.old.0) (value_at self.new.0) number None }
        ensures room { self.old.1 ≤ self.new.1 }
    {
        self.values.remove(at).1
    }

    // Takes out the value before the last, by which nothing else is moved.
    #[inline(always)]
    fn take_before_last(&mut self, at: usize, number: usize) -> Value
        requires last { at + 2 ≡ length self.old.0 }
        requires at { IsAt self.old.0 number at }
        ensures value { Some result ≡ value_at self.old.0 number }
        ensures values { SetsOne (value_at self.old.0) (value_at self.new.0) number None }
        ensures room { self.old.1 ≤ self.new.1 }
    {
        let last = self.values.take_last();
        let pair = self.values.take_last();
        self.values.push_reserved(last);
        pair.1
    }

    // Takes the value of a number out, wherever it stands. Few stand before others, so it stands apart.
    #[inline(never)]
    fn take_searched(&mut self, number: usize) -> Option<Value>
        ensures value { result ≡ value_at self.old.0 number }
        ensures values { SetsOne (value_at self.old.0) (value_at self.new.0) number None }
        ensures room { self.old.1 ≤ self.new.1 }
    {
        match self.place(number) {
            Ok(at) if at + 2 == self.values.len() => Some(self.take_before_last(at, number)),
            Ok(at) => Some(self.take_inside(at, number)),
            Err(_) => None,
        }
    }

    // Takes the value of a number out.
    #[inline(always)]
    pub(crate) fn take(&mut self, number: usize) -> Option<Value>
        ensures value { result ≡ value_at self.old.0 number }
        ensures values { SetsOne (value_at self.old.0) (value_at self.new.0) number None }
        ensures room { self.old.1 ≤ self.new.1 }
    {
        match self.values.last() {
            Some(last) if last.0 == number => Some(self.values.take_last().1),
            _ => self.take_searched(number),
        }
    }

    // Drops the value of a number, if it has one.
    #[inline(always)]
    pub(crate) fn discard(&mut self, number: usize)
        ensures values { SetsOne (value_at self.old.0) (value_at self.new.0) number None }
        ensures room { self.old.1 ≤ self.new.1 }
    {
        if self.ends_below(number) {
            return;
        }
        match self.values.last() {
            Some(last) if last.0 == number => {
                self.values.take_last();
            }
            _ => {
                let _ = self.take_searched(number);
            }
        }
    }

    // Whether no value stands at this number or past it.
    #[inline(always)]
    pub(crate) fn ends_below(&self, number: usize) -> bool
        ensures { IsTrue result ↔ IsGapFor self.now.0 number (length self.now.0) }
    {
        let end = self.values.len();
        if end == 0 {
            return true;
        }
        self.values[end - 1].0 < number
    }

    // Drops all values.
    pub(crate) fn clear(&mut self)
        ensures { self.new.0 ≡ [] }
    {
        self.values.clear();
    }
}
