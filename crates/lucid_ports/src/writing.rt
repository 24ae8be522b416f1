// Writing a piece whole.
ghost use Rattle.std.specs.Prelude.{◌≡◌, ◌≤◌, ℕ, length, OnOk, IsErrOf};
ghost use Rattle.lucid_ports.specs.Faults.{CountsNoFaultUnless, EndsAtItsFault, Rises};
ghost use Rattle.lucid_ports.specs.Writing.{EndsAtFault, with_all, with_front};

use crate::{PortFault, Sink};

/// Writes a piece whole. The rest of a piece that was taken in part is handed on as the next.
pub fn write_whole<K: Sink>(sink: &mut K, piece: &[u8]) -> Result<(), PortFault>
    ensures whole { OnOk result (K.written sink.new ≡ with_all piece.now (K.written sink.old)) }

    // Whatever the answer, the first bytes of the piece were appended, and nothing else.
    ensures front { (n : ℕ) × (n ≤ length piece.now) × (K.written sink.new ≡ with_front n piece.now (K.written sink.old)) }

    // No write comes after one that failed.
    ensures late { EndsAtItsFault (K.faults sink.old) (K.late sink.old) (K.late sink.new) }
    ensures ends { EndsAtFault K.write_gives sink.old result sink.new }

    ensures failed { IsErrOf result PortFault.Failed → Rises (K.faults sink.old) (K.faults sink.new) }
    ensures counts_no_fault { CountsNoFaultUnless (IsErrOf result PortFault.Failed) (K.faults sink.old) (K.faults sink.new) }
    ensures count { K.faults sink.old ≤ K.faults sink.new }
{
    let mut done = 0;
    while done < piece.len() {
        let rest = &piece[done..];
        let taken = sink.write(rest)?;
        done += taken;
    }
    Ok(())
}
