//! The notes of one site, in rising order of their keys.
//!
//! Most searches go forward, so the end is tried before the keys are searched.

ghost use Rattle.std.specs.Prelude.{◌≡◌, ℕ, ◌≤◌, [], None, IfSome, IfNone, IfOk, IfErr, OnOk, OnErr};
ghost use Rattle.lucid_search.specs.Numbered.{number_in, SetsOne, IsAt, IsGapFor};
ghost use Rattle.lucid_search.specs.Noted.{IsBestOf};

use std::alloc::{AllocError, Global};
use std::marker::Model;

// Numbers by keys, seen as the list of the pairs.
#[derive(Drop)]
pub(crate) struct Notes {
    pairs: Vec<(u64, u64)>,
}

impl Model for Notes {
    ghost use Rattle.std.specs.Prelude.{List, ℕ};
    ghost use Rattle.lucid_search.specs.NotedCode.{pairs_code};
    ghost use Rattle.lucid_search.specs.Numbered.{Rises};

    ghost Value = { List (ℕ × ℕ) };

    ghost coded = { pairs_code };

    ghost view = { λ n. n.pairs.items };

    ghost invariant = { λ n. Rises n.pairs.items };
}

impl Notes {
    // Nothing is noted.
    pub(crate) fn make(alloc: Global) -> Notes
        ensures { result ≡ [] }
    {
        Notes {
            pairs: Vec::new(alloc),
        }
    }

    // Where a key stands, or where it would.
    fn place(&self, key: u64) -> Result<usize, usize>
        ensures found { IfOk result (IsAt self.now key) }
        ensures absent { IfErr result (IsGapFor self.now key) }
    {
        let end = self.pairs.len();
        if end == 0 {
            return Err(0);
        }
        let last = self.pairs[end - 1].0;
        if last < key {
            return Err(end);
        }
        if last == key {
            return Ok(end - 1);
        }
        self.pairs.binary_search_by_key(&key, |pair| pair.0)
    }

    // The pair with the greatest key that is at most `key`.
    pub(crate) fn best(&self, key: u64) -> Option<(u64, u64)>
        ensures best { IfSome result (IsBestOf self.now key) }
        ensures none { IfNone result ((q : ℕ) → q ≤ key → number_in self.now q ≡ None) }
    {
        match self.place(key) {
            Ok(at) => Some(self.pairs[at]),
            Err(0) => None,
            Err(after) => Some(self.pairs[after - 1]),
        }
    }

    // Notes a number at a key.
    pub(crate) fn set(&mut self, key: u64, number: u64) -> Result<(), AllocError>
        ensures ok { OnOk result (SetsOne (number_in self.old) (number_in self.new) key number) }
        ensures err { OnErr result (self.new ≡ self.old) }
    {
        match self.place(key) {
            Ok(at) => {
                self.pairs[at].1 = number;
            }
            Err(at) => self.pairs.insert(at, (key, number))?,
        }
        Ok(())
    }
}
