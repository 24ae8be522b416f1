//! One of the policies, chosen when a program runs.

ghost use Rattle.std.specs.Prelude.{◌≡◌};
ghost use Rattle.lucid_retire.specs.Turns.{IsTurn};
ghost use Rattle.lucid_retire.specs.Policies.{keeps_all, empties_all, most_held, IsPolicyTurn};

use crate::{Ages, Keep, Last, Nothing, Retire};
use lucid_store::Warehouse;

/// One of the policies. It does as its member does.
#[derive(Drop)]
pub enum Policy {
    Keep(Keep),
    Nothing(Nothing),
    Ages(Ages),
    Last(Last),
}

impl Retire for Policy {
    ghost keeps = { keeps_all };

    ghost empties = { empties_all };

    ghost most = { most_held };

    #[inline(always)]
    fn is_emptying(&self) -> bool
        ensures { result ≡ empties_all self.now }
    {
        match self {
            Policy::Keep(keep) => keep.is_emptying(),
            Policy::Nothing(nothing) => nothing.is_emptying(),
            Policy::Ages(ages) => ages.is_emptying(),
            Policy::Last(last) => last.is_emptying(),
        }
    }

    // A policy that keeps has many turns, in which it does nothing: so it is asked apart from the others.
    #[inline(always)]
    fn turn(&mut self, warehouse: &mut Warehouse)
        ensures turn { IsTurn (keeps_all self.old) (empties_all self.old) (most_held self.old) warehouse.old warehouse.new }
        ensures dropped { IsPolicyTurn self.old self.new warehouse.old warehouse.new }
    {
        match self {
            Policy::Keep(keep) => keep.turn(warehouse),
            Policy::Nothing(nothing) => nothing.turn(warehouse),
            Policy::Ages(ages) => ages.turn(warehouse),
            Policy::Last(last) => last.turn(warehouse),
        }
    }
}
