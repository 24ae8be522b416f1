//! Policies that say what a warehouse drops.
//!
//! A policy has a turn before each step of the engine, and may then drop values. Whatever it drops, what a program means stays
//! the same: a value that is needed again is computed again.
#![tactic(auto)]

ghost use Rattle.std.specs.Prelude.{◌≡◌, ℕ, Bool, true, false, Option, Some, None};
ghost use Rattle.lucid_store.specs.Entries.{cleared};
ghost use Rattle.lucid_retire.specs.Turns.{IsTurn};

pub use ages::Ages;
pub use last::Last;
use lucid_store::Warehouse;
pub use policy::Policy;
pub use scripted::{Scrap, Scripted};

mod ages;
mod last;
mod policy;
mod scripted;

/// A policy that says what a warehouse drops. A turn drops values and adds none. A run owns its policy and lets it go.
pub trait Retire: Drop {
    /// Whether a turn drops nothing.
    ghost keeps: { Self → Bool };

    /// Whether nothing is held after a turn.
    ghost empties: { Self → Bool };

    /// How many keys are held after a turn at most, if there is a bound.
    ghost most: { Self → Option ℕ };

    /// Whether nothing is held after a turn.
    fn is_emptying(&self) -> bool
        ensures { result ≡ empties self.now };

    /// Drops what the policy doesn't keep.
    fn turn(&mut self, warehouse: &mut Warehouse)
        ensures turn { IsTurn (keeps self.old) (empties self.old) (most self.old) warehouse.old warehouse.new }
        ensures keeps_on { keeps self.new ≡ keeps self.old }
        ensures empties_on { empties self.new ≡ empties self.old }
        ensures most_on { most self.new ≡ most self.old };
}

/// Drops nothing.
#[derive(Clone, Copy, Debug)]
pub struct Keep;

impl Retire for Keep {
    ghost keeps = { λ _. true };

    ghost empties = { λ _. false };

    ghost most = { λ _. None };

    fn is_emptying(&self) -> bool
        ensures { result ≡ false }
    {
        false
    }

    fn turn(&mut self, warehouse: &mut Warehouse)
        ensures turn { IsTurn true false None warehouse.old warehouse.new }
        ensures same { warehouse.new ≡ warehouse.old }
    {
        // The clauses name the parameter, so it can't be called `_warehouse`: this line says that the body leaves it alone.
        let _ = warehouse;
    }
}

/// Drops all.
#[derive(Clone, Copy, Debug)]
pub struct Nothing;

impl Retire for Nothing {
    ghost keeps = { λ _. false };

    ghost empties = { λ _. true };

    ghost most = { λ _. Some 0 };

    fn is_emptying(&self) -> bool
        ensures { result ≡ true }
    {
        true
    }

    fn turn(&mut self, warehouse: &mut Warehouse)
        ensures turn { IsTurn false true (Some 0) warehouse.old warehouse.new }
        ensures emptied { warehouse.new ≡ cleared warehouse.old }
    {
        warehouse.clear();
    }
}
