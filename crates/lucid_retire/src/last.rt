//! The policy that keeps what was touched last.

ghost use Rattle.std.specs.Prelude.{◌≡◌, ◌≤◌, Bool, false, Option, Some, IfOk};
ghost use Rattle.lucid_retire.specs.Turns.{IsTurn};
ghost use Rattle.lucid_retire.specs.Recency.{DropsOver, IsRecencyTurn};

use crate::Retire;
use lucid_store::Warehouse;
use std::alloc::{AllocError, Global};
use std::marker::Model;

/// Keeps what was touched last, as many keys as there is room for. It is seen as its room.
///
/// It has the warehouse keep the order in which its keys were last touched. At first, and after a clearing, that is the order in which
/// they stand. A turn drops nothing while at most the room are held. Where one more is held, which was put and touched last, it drops
/// the key that was touched longest ago. Where more are held, or another key was touched since, it drops all.
#[derive(Drop)]
pub struct Last {
    alloc: Global,
    room: u32,
}

impl Model for Last {
    ghost use Rattle.lucid_retire.specs.Recency.{Recency};
    ghost use Rattle.lucid_retire.specs.RecencyCode.{recency_code};

    ghost Value = { Recency };

    ghost coded = { recency_code };

    ghost view = { λ l. record { room = l.room } };
}

impl Last {
    /// Leaves at most so many keys.
    pub fn make(alloc: Global, room: u32) -> Result<Last, AllocError>
        requires { 1 ≤ room }
        ensures { IfOk result (λ last. last ≡ record { room = room }) }
    {
        Ok(Last { alloc, room })
    }

    // How many keys a turn leaves at most.
    #[inline(always)]
    fn room(&self) -> u64
        ensures { result ≡ self.now.room }
    {
        u64::from(self.room)
    }

    // A turn at a warehouse whose order isn't kept, or that holds too many.
    #[inline(never)]
    fn drop_some(&self, warehouse: &mut Warehouse)
        ensures turn { IsTurn false false (Some self.now.room) warehouse.old warehouse.new }
        ensures dropped { IsRecencyTurn self.now.room warehouse.old warehouse.new }
    {
        if !warehouse.has_order() {
            warehouse.keep_order(self.alloc);
        }
        self.drop_over(warehouse);
    }

    // Drops what is over the room.
    fn drop_over(&self, warehouse: &mut Warehouse)
        ensures turn { IsTurn false false (Some self.now.room) warehouse.old warehouse.new }
        ensures drops { DropsOver self.now.room warehouse.old warehouse.new }
    {
        if warehouse.len() > self.room() {
            warehouse.drop_oldest();
            if warehouse.len() > self.room() {
                warehouse.clear();
            }
        }
    }
}

impl Retire for Last {
    ghost keeps = { λ _. false };

    ghost empties = { λ _. false };

    ghost most = { λ l. Some l.room };

    fn is_emptying(&self) -> bool
        ensures { result ≡ false }
    {
        false
    }

    // Most turns drop nothing.
    #[inline(always)]
    fn turn(&mut self, warehouse: &mut Warehouse)
        ensures turn { IsTurn false false (Some self.old.room) warehouse.old warehouse.new }
        ensures room { self.new ≡ self.old }
        ensures dropped { IsRecencyTurn self.old.room warehouse.old warehouse.new }
    {
        if !warehouse.has_order() || warehouse.len() > self.room() {
            self.drop_some(warehouse);
        }
    }
}
