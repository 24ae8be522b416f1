//! The choice of the waiting task that steps next.
//!
//! The engine has a list of tasks that are ready, in order of their making, and asks a `Pick` at each of its turns.
//! Whatever is picked, what a program means stays the same, so the choice is the caller's.
#![tactic(auto)]

ghost use Rattle.std.specs.Prelude.{◌≡◌, ◌+◌, ◌<◌, length};
ghost use Rattle.lucid_schedule.specs.Listed.{picked_place, numbers_left};

use std::marker::Model;
use std::vec::IntoIter;

/// A choice among the tasks that are ready.
///
/// `ready` names the tasks in order of their making, the oldest first; the answer is a place in that list, counted
/// from 0, and not the name that stands there. A pick takes no memory. It may change the picker, as `Listed` does. A
/// picker can be let go of by who owns it.
pub trait Pick: Drop {
    /// The place in `ready` of the task that steps next.
    fn pick(&mut self, ready: &[usize]) -> usize
        requires { 0 < length ready.now }
        ensures within { result < length ready.now };
}

/// The task that was made last: the last place.
#[derive(Clone, Copy, Debug, Default)]
pub struct Newest;

impl Pick for Newest {
    fn pick(&mut self, ready: &[usize]) -> usize
        requires { 0 < length ready.now }
        ensures within { result < length ready.now }
        ensures last { result + 1 ≡ length ready.now }
    {
        ready.len() - 1
    }
}

/// The task that was made first: place 0.
#[derive(Clone, Copy, Debug, Default)]
pub struct Oldest;

impl Pick for Oldest {
    fn pick(&mut self, ready: &[usize]) -> usize
        requires { 0 < length ready.now }
        ensures within { result < length ready.now }
        ensures first { result ≡ 0 }
    {
        0
    }
}

/// Choices that are given beforehand. A pick uses the next number, modulo the number of ready tasks; after the last
/// number the answer is 0. It is seen as the list of the numbers that are left.
#[derive(Drop)]
pub struct Listed {
    numbers: IntoIter<usize>,
}

impl Model for Listed {
    ghost use Rattle.std.specs.Prelude.{ℕ, List};
    ghost use Rattle.std.specs.Vec.Iter.{into_iter_items};

    ghost Value = { List ℕ };

    ghost view = { λ listed. into_iter_items listed.numbers };
}

impl Listed {
    /// Picks by these numbers, the first of them first. It takes no memory.
    pub fn make(numbers: Vec<usize>) -> Listed
        ensures { result ≡ numbers.items }
    {
        Listed {
            numbers: numbers.into_iter(),
        }
    }
}

impl Pick for Listed {
    fn pick(&mut self, ready: &[usize]) -> usize
        requires { 0 < length ready.now }
        ensures within { result < length ready.now }
        ensures place { result ≡ picked_place self.old (length ready.now) }
        ensures left { self.new ≡ numbers_left self.old }
    {
        match self.numbers.next() {
            Some(number) => number % ready.len(),
            None => 0,
        }
    }
}
