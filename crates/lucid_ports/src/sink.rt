// The trait of what is written to.
ghost use Rattle.std.specs.Prelude.{◌≡◌, ◌≤◌, ℕ, List, [], Option, Result, length, IfOk, OnErr, IsErrOf};
ghost use Rattle.lucid_ports.specs.declared.fault.PortFault.{PortFault as Fault};
ghost use Rattle.lucid_ports.specs.Faults.{CountsLate, CountsNoFaultUnless, Rises};
ghost use Rattle.lucid_ports.specs.Writing.{with_front};

use crate::PortFault;

/// What is written to.
pub trait Sink {
    /// The bytes that were written, where the object tells them.
    ghost written: { Self → Option (List ℕ) };

    /// How often a call has failed.
    ghost faults: { Self → ℕ };

    /// How many calls came late, once one had failed.
    ghost late: { Self → ℕ };

    /// What more is known of a call on such an object: of the object before, the piece, the answer and the object after.
    ghost write_gives: { Self → List ℕ → Result ℕ Fault → Self → Type 0 } = { λ _ _ _ _. Unit {0} };

    /// Appends the first bytes of a piece, and gives their number.
    fn write(&mut self, piece: &[u8]) -> Result<usize, PortFault>
        ensures bound { IfOk result (λ n. n ≤ length piece.now) }
        ensures progress { IfOk result (λ n. n ≡ 0 → piece.now ≡ []) }
        ensures appended { IfOk result (λ n. written self.new ≡ with_front n piece.now (written self.old)) }

        ensures refused { OnErr result (written self.new ≡ written self.old) }
        ensures failed { IsErrOf result PortFault.Failed → Rises (faults self.old) (faults self.new) }
        ensures counts_no_fault { CountsNoFaultUnless (IsErrOf result PortFault.Failed) (faults self.old) (faults self.new) }
        ensures count { faults self.old ≤ faults self.new }
        ensures counts_late { CountsLate (faults self.old) (late self.old) (late self.new) }
        ensures gives { write_gives self.old piece.now result self.new };
}
