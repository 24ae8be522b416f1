// The trait of what is read from.
ghost use Rattle.std.specs.Prelude.{◌≡◌, ◌<◌, ◌≤◌, ◌+◌, ◌↔◌, ℕ, List, [], Result, IfOk, IfSome, OnOk, OnErr, IsErrOf};
ghost use Rattle.std.specs.Borrow.{sem};
ghost use Rattle.std.specs.Io.{StartsWith};
ghost use Rattle.std.specs.Io.BufRead.{Rests};
ghost use denote.Ref.{Bor};
ghost use Rattle.lucid_ports.specs.declared.fault.PortFault.{PortFault as Fault};
ghost use Rattle.lucid_ports.specs.Faults.{CountsLate, CountsNoFaultUnless, Rises};
ghost use Rattle.lucid_ports.specs.Reading.{Fills};
ghost use Rattle.lucid_ports.specs.World.{World, IsFresh, IsConsumed, KeepsOthers, AsksName};

use crate::PortFault;
use std::alloc::Global;

/// What is read from: places, each reached by a name and read by pieces from its first byte on.
///
/// A place shows a piece of the bytes that are left, and the reader says how many of them it consumes. What is said of
/// contents holds where the object tells them; what is said of faults holds for every object.
pub trait Places {
    /// What the names hold, those that were asked for, the places reached, and the counts of faults and of late calls.
    ghost world: { Self → World };

    /// What more is known of a call of `reach` on such an object: of the object before, the name, the answer and the object after.
    ghost reach_gives: { Self → List ℕ → Result ℕ Fault → Self → Type 0 } = { λ _ _ _ _. Unit {0} };

    /// What more is known of a call of `fill`, of the place and the piece.
    ghost fill_gives: { Self → ℕ → Result (Bor (List ℕ)) Fault → Self → Type 0 } = { λ _ _ _ _. Unit {0} };

    /// What more is known of a call of `consume`, of the place and the number of bytes.
    ghost consume_gives: { Self → ℕ → ℕ → Self → Type 0 } = { λ _ _ _ _. Unit {0} };

    /// Asks for a name, reaches its place, and gives the place's number. A name that isn't there is a fault.
    fn reach(&mut self, alloc: Global, name: &str) -> Result<u32, PortFault>
        requires { (world self.old).reached < 2000000 }

        // The new place is the next, with nothing consumed or shown, and left is what the name holds.
        ensures number { IfOk result (λ number. number ≡ (world self.old).reached) }
        ensures added { OnOk result ((world self.new).reached ≡ (world self.old).reached + 1) }
        ensures fresh { IfOk result (λ number. IsFresh ((world self.old).holds name.now) ((world self.new).place number)) }

        ensures refused { OnErr result ((world self.new).reached ≡ (world self.old).reached) }
        ensures failed { IsErrOf result PortFault.Failed → Rises (world self.old).faults (world self.new).faults }
        ensures counts_no_fault { CountsNoFaultUnless (IsErrOf result PortFault.Failed) (world self.old).faults (world self.new).faults }
        ensures others { AsksName name.now (IsErrOf result PortFault.NoMemory) (world self.old) (world self.new) }
        ensures counts_late { CountsLate (world self.old).faults (world self.old).late (world self.new).late }
        ensures gives { reach_gives self.old name.now result self.new };

    /// Shows a piece of what is left at a place, and consumes nothing.
    fn fill(&mut self, place: u32) -> Result<&[u8], PortFault>
        requires { place < (world self.old).reached }

        // The piece is a prefix of what is left, and is empty exactly where nothing is left.
        ensures front { IfOk result (λ piece. IfSome ((world self.old).place place).contents (λ c. StartsWith c.left piece.now)) }
        ensures end { IfOk result (λ piece. IfSome ((world self.old).place place).contents (λ c. (piece.now ≡ []) ↔ (c.left ≡ []))) }

        // The number of bytes shown is the piece's, and a refusal changes nothing but the counts.
        ensures* after_borrow { sem 𝓛 (Rests Self.row self.entry (λ new.
            Fills (world self.old) place result (world new) × fill_gives self.old place result new)) };

    /// Consumes the first `n` bytes that are left at a place, all of which it shows.
    fn consume(&mut self, place: u32, n: usize)
        requires reached { place < (world self.old).reached }
        requires shown { n ≤ ((world self.old).place place).shown }
        ensures consumed { IsConsumed n ((world self.old).place place) ((world self.new).place place) }
        ensures reached { (world self.new).reached ≡ (world self.old).reached }
        ensures others { KeepsOthers place (world self.old) (world self.new) }
        ensures counts_no_fault { (world self.new).faults ≡ (world self.old).faults }
        ensures counts_late { CountsLate (world self.old).faults (world self.old).late (world self.new).late }
        ensures gives { consume_gives self.old place n self.new };
}
