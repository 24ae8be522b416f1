//! A policy, a pick and an output that note what they see.
ghost use Rattle.std.specs.Prelude.{◌≡◌, ◌+◌, ◌<◌, [], Some, length};
ghost use Rattle.lucid_retire.specs.Turns.{IsTurn};
ghost use Rattle.lucid_retire.specs.Policies.{keeps_all, empties_all, most_held};

use crate::log::Log;
use lucid_ports::{PortFault, Sink};
use lucid_retire::{Policy, Retire};
use lucid_schedule::{Newest, Pick};
use lucid_store::Warehouse;
use std::alloc::Global;
use std::cell::RefCell;

/// A policy whose turns are noted. It is the policy that it has.
#[derive(Drop)]
pub struct Noting<'n> {
    policy: Policy,
    log: &'n RefCell<Log>,
}

/// The pick of the row that was made last, noted.
#[derive(Drop)]
pub struct NotingPick<'n> {
    log: &'n RefCell<Log>,
}

/// An output in memory, of which each write is noted as a line.
#[derive(Drop)]
pub struct NotingSink<'n> {
    bytes: Vec<u8>,
    log: &'n RefCell<Log>,
}

impl<'n> Noting<'n> {
    /// The policy, noted there.
    pub fn make(policy: Policy, log: &'n RefCell<Log>) -> Noting<'n>
        ensures { result.policy ≡ policy }
    {
        Noting { policy, log }
    }
}

impl<'n> NotingPick<'n> {
    /// Picks, noted there.
    pub fn make(log: &'n RefCell<Log>) -> NotingPick<'n> {
        NotingPick { log }
    }
}

impl<'n> NotingSink<'n> {
    /// Nothing is written yet. What is, is noted there.
    pub fn make(alloc: Global, log: &'n RefCell<Log>) -> NotingSink<'n>
        ensures { result.bytes.items ≡ [] }
    {
        NotingSink {
            bytes: Vec::new(alloc),
            log,
        }
    }

    /// What was written.
    pub fn into_bytes(self) -> Vec<u8>
        ensures { result ≡ self.entry.bytes }
    {
        self.bytes
    }
}

impl<'n> Retire for Noting<'n> {
    ghost use Rattle.lucid_retire.specs.Policies.{keeps_all, empties_all, most_held};

    ghost keeps = { λ n. keeps_all n.policy };

    ghost empties = { λ n. empties_all n.policy };

    ghost most = { λ n. most_held n.policy };

    fn is_emptying(&self) -> bool {
        self.policy.is_emptying()
    }

    fn turn(&mut self, warehouse: &mut Warehouse) {
        match self.log.try_borrow_mut() {
            Ok(mut log) => log.turn(&mut self.policy, warehouse),
            Err(_) => self.policy.turn(warehouse),
        }
    }
}

impl<'n> Pick for NotingPick<'n> {
    fn pick(&mut self, ready: &[usize]) -> usize
        requires { 0 < length ready.now }
        ensures within { result < length ready.now }
        ensures last { result + 1 ≡ length ready.now }
    {
        let place = Newest.pick(ready);
        if let Ok(mut log) = self.log.try_borrow_mut() {
            log.pick();
        }
        place
    }
}

impl<'n> Sink for NotingSink<'n> {
    ghost use Rattle.std.specs.Prelude.{Some};

    ghost written = { λ s. Some s.bytes.items };

    ghost faults = { λ _. 0 };

    ghost late = { λ _. 0 };

    fn write(&mut self, piece: &[u8]) -> Result<usize, PortFault> {
        self.bytes.extend_from_slice(piece)?;
        if let Ok(mut log) = self.log.try_borrow_mut() {
            log.line();
        }
        Ok(piece.len())
    }
}
