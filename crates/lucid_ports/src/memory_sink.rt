// A sink in memory.
ghost use Rattle.std.specs.Prelude.{◌≡◌, ◌↔◌, ◌≤◌, [], Some, MatchOption, length, Contains, IsTrue};
ghost use Rattle.lucid_ports.specs.Sink.{IsListed, WritesToMemory, number_after, sink_bytes, sink_failures, sink_faults, sink_late, sink_most, sink_next};

use crate::late::late_after;
use crate::piece_limit::PieceLimit;
use crate::{PortFault, Sink};
use std::alloc::Global;

/// A sink that keeps what is written, takes no more than a few bytes of a piece, and fails where it is told to.
pub struct MemorySink {
    bytes: Vec<u8>,
    most: PieceLimit,
    failures: Vec<u64>,
    next: Option<u64>,
    faults: u64,
    late: u64,
}

// Not derived: a derived one is proved again wherever one is dropped.
impl Drop for MemorySink {
    fn drop(self) {
        let MemorySink {
            bytes,
            most,
            failures,
            next,
            faults,
            late,
        } = self;
    }
}

impl MemorySink {
    /// Nothing is written. The writes of these numbers fail, each counted from 0.
    pub fn make(alloc: Global, most: usize, failures: Vec<u64>) -> MemorySink
        requires { 1 ≤ most }
        ensures bytes { sink_bytes result ≡ [] }
        ensures most { sink_most result ≡ most }
        ensures failures { sink_failures result ≡ failures.items }
        ensures next { sink_next result ≡ Some 0 }
        ensures faults { sink_faults result ≡ 0 }
        ensures late { sink_late result ≡ 0 }
    {
        MemorySink {
            bytes: Vec::new(alloc),
            most: PieceLimit { bytes: most },
            failures,
            next: Some(0),
            faults: 0,
            late: 0,
        }
    }

    /// The bytes written.
    pub fn written(&self) -> &[u8]
        ensures { result.now ≡ sink_bytes self.now }
    {
        &self.bytes
    }
}

impl Sink for MemorySink {
    ghost written = { λ s. Some (sink_bytes s) };

    ghost faults = { sink_faults };

    ghost late = { sink_late };

    ghost write_gives = { WritesToMemory };

    fn write(&mut self, piece: &[u8]) -> Result<usize, PortFault> {
        self.late = late_after(self.faults, self.late);
        let number = self.next;
        self.next = next_number(number);
        if is_listed(&self.failures, number) {
            self.faults = self.faults.saturating_add(1);
            return Err(PortFault::Failed);
        }
        let taken = piece.len().min(self.most.bytes);
        self.bytes.extend_from_slice(&piece[..taken])?;
        Ok(taken)
    }
}

fn next_number(number: Option<u64>) -> Option<u64>
    ensures { result ≡ number_after number }
{
    number?.checked_add(1)
}

fn is_listed(failures: &[u64], number: Option<u64>) -> bool
    ensures { IsTrue result ↔ IsListed failures.now number }
{
    match number {
        Some(number) => failures.contains(&number),
        None => false,
    }
}
