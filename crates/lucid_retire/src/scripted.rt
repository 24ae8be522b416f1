//! The policy that drops what a list says.

ghost use Rattle.std.specs.Prelude.{◌≡◌, ℕ, Bool, false, Option, Some, None};
ghost use Rattle.lucid_retire.specs.Turns.{IsTurn};
ghost use Rattle.lucid_retire.specs.Script.{is_due, is_listed, turn_after, DropsThose};

use crate::Retire;
use lucid_store::{Key, Warehouse};
use std::alloc::Global;
use std::marker::Model;

/// A key to be dropped at a turn.
#[derive(Clone, Copy, PartialEq, Eq, Debug)]
pub struct Scrap {
    /// The number of the turn, from 0.
    pub turn: u64,
    /// The key.
    pub key: Key,
}

/// Drops what a list says. Its turns are numbered from 0, and each removes exactly the keys that are listed for its number;
/// after turn 2^64 - 1 it removes nothing. A turn goes over the whole list.
#[derive(Drop)]
pub struct Scripted {
    scraps: Vec<Scrap>,
    // The number of the next turn, if there is one.
    turn: Option<u64>,
}

impl Model for Scripted {
    ghost use Rattle.lucid_retire.specs.Script.{Script};

    ghost Value = { Script };

    ghost view = { λ s. record { scraps = s.scraps.items; turn = s.turn } };
}

// Removes the keys that are listed for the turn.
fn remove_due(scraps: &[Scrap], turn: u64, warehouse: &mut Warehouse)
    ensures dropped { DropsThose (is_due (Some turn) scraps.now) warehouse.old warehouse.new }
    ensures lost { warehouse.new.lost ≡ warehouse.old.lost }
{
    for scrap in scraps {
        if scrap.turn == turn {
            warehouse.remove(scrap.key);
        }
    }
}

impl Scripted {
    /// Drops by the list. It takes no memory.
    pub fn make(_alloc: Global, scraps: Vec<Scrap>) -> Scripted
        ensures { result ≡ record { scraps = scraps.items; turn = Some 0 } }
    {
        Scripted {
            scraps,
            turn: Some(0),
        }
    }
}

impl Retire for Scripted {
    ghost keeps = { λ _. false };

    ghost empties = { λ _. false };

    ghost most = { λ _. None };

    fn is_emptying(&self) -> bool
        ensures { result ≡ false }
    {
        false
    }

    fn turn(&mut self, warehouse: &mut Warehouse)
        ensures turn { IsTurn false false None warehouse.old warehouse.new }
        ensures counted { self.new ≡ record self.old { turn = turn_after self.old.turn } }
        ensures dropped { DropsThose (is_listed self.old) warehouse.old warehouse.new }
    {
        let Some(turn) = self.turn else {
            return;
        };
        remove_due(&self.scraps, turn, warehouse);
        self.turn = turn.checked_add(1);
    }
}
