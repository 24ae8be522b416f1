//! The policy that drops by age.

ghost use Rattle.std.specs.Prelude.{◌≡◌, ℕ, ◌-◌, ◌^◌, ◌<◌, ◌≤◌, Bool, false, Option, Some};
ghost use Rattle.lucid_tags.specs.declared.Key.{Key};
ghost use Rattle.lucid_store.specs.Stored.{Stored};
ghost use Rattle.lucid_store.specs.Entries.{count_of};
ghost use Rattle.lucid_retire.specs.Turns.{IsTurn};
ghost use Rattle.lucid_retire.specs.Aging.{most_of, is_sweeping, after_turn, IsAgesTurn, IsPaced, TouchesOne, IsSparingTurn};

use crate::Retire;
use lucid_store::Warehouse;
use std::marker::Model;

/// Sweeps the warehouse every so many turns, and so drops what was not touched for a while. Its turns are counted from 1; a
/// turn whose number is a multiple of `every` begins with a sweep. A warehouse that then holds more than `every * (limit + 1)`
/// keys is emptied. That never comes for one that began empty, where at most one key is touched between two turns and the
/// limit is below the greatest u32.
#[derive(Clone, Copy, Debug)]
pub struct Ages {
    every: u32,
    limit: u32,
    // How many turns there are to the next sweep, that turn counted.
    left: u32,
    // How many keys a turn leaves at most.
    most: u64,
}

impl Model for Ages {
    ghost use Rattle.std.specs.Prelude.{◌≡◌, ◌+◌, ◌-◌, ◌*◌, ◌<◌, ◌≤◌};
    ghost use Rattle.lucid_retire.specs.Aging.{Aging};
    ghost use Rattle.lucid_retire.specs.Counting.{same_fields};

    ghost Value = { Aging };

    ghost view = { λ a. record { every = a.every; limit = a.limit; since = a.every - a.left } };

    ghost invariant = { λ a. (0 < a.left) × (a.left ≤ a.every) × (a.most ≡ a.every * (a.limit + 1)) };

    ghost inverse = { λ d. record { every = d.every; limit = d.limit; left = d.every - d.since; most = d.every * (d.limit + 1) } };

    ghost inverse_ok = { λ a h. same_fields (λ n m. record { every = a.every; limit = a.limit; left = n; most = m }) a.every a.limit a.left a.most h.1 h.2 };
}

impl Ages {
    /// Sweeps by the limit at each turn whose number is a multiple of `every`. It takes no memory.
    pub fn make(every: u32, limit: u32) -> Ages
        requires { 1 ≤ every }
        ensures made { result ≡ record { every = every; limit = limit; since = 0 } }
        ensures paced { (w : Stored) → count_of w ≡ 0 → IsPaced result w }
    {
        Ages {
            every,
            limit,
            left: every,
            most: every as u64 * (limit as u64 + 1),
        }
    }

    // How many keys a turn leaves at most.
    #[inline(always)]
    fn most(&self) -> u64
        ensures { result ≡ most_of self.now }
    {
        self.most
    }

    // Counts a turn, and says whether it sweeps. It counts down, so that most turns only take one away.
    #[inline(always)]
    fn count(&mut self) -> bool
        ensures counted { self.new ≡ after_turn self.old }
        ensures sweeps { result ≡ is_sweeping self.old }
        ensures below { self.old.since < self.old.every }
    {
        if self.left == 1 {
            self.left = self.every;
            return true;
        }
        self.left -= 1;
        false
    }

    // Counts a turn, and sweeps if it is the time.
    #[inline(always)]
    fn sweep_in_time(&mut self, warehouse: &mut Warehouse)
        ensures counted { self.new ≡ after_turn self.old }
        ensures sweeps { IsSparingTurn self.old warehouse.old warehouse.new }
        ensures below { self.old.since < self.old.every }
    {
        if self.count() {
            warehouse.sweep(self.limit);
        }
    }
}

impl Retire for Ages {
    ghost keeps = { λ _. false };

    ghost empties = { λ _. false };

    ghost most = { λ a. Some (most_of a) };

    fn is_emptying(&self) -> bool
        ensures { result ≡ false }
    {
        false
    }

    // Most turns only count.
    #[inline(always)]
    fn turn(&mut self, warehouse: &mut Warehouse)
        ensures turn { IsTurn false false (Some (most_of self.old)) warehouse.old warehouse.new }
        ensures counted { self.new ≡ after_turn self.old }
        ensures dropped { IsAgesTurn self.old warehouse.old warehouse.new }

        // A warehouse that began empty is never emptied, where at most one key is touched between two turns.
        ensures spares { (w : Stored) (key : Key) → IsPaced self.old w → TouchesOne key w warehouse.old → self.old.limit < 2 ^ 32 - 1 → IsPaced self.new warehouse.new × IsSparingTurn self.old warehouse.old warehouse.new }
    {
        self.sweep_in_time(warehouse);
        if warehouse.len() > self.most() {
            warehouse.clear();
        }
    }
}
