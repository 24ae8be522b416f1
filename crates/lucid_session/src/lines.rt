//! The lines of a run, one at a time, and what ends it.
ghost use Rattle.std.specs.Prelude.{◌≡◌, ◌++◌, ◌∷◌, []};
ghost use Rattle.std.specs.Bool.{MatchBool};
ghost use Rattle.lucid_value.specs.Plain.{eod};
ghost use Rattle.lucid_value.specs.View.{plain};
ghost use Rattle.lucid_session.specs.Faults.{of_demand, of_write};
ghost use Rattle.lucid_session.specs.Lines.{WritesLine};
ghost use Rattle.lucid_ports.specs.Told.{told};

use lucid_demand::DemandFault;
use lucid_ports::{PortFault, RunFault, Sink, write_whole};
use lucid_value::Value;

pub(crate) fn is_end(value: &Value) -> bool
    ensures { MatchBool result (plain value.now ≡ eod) (plain value.now ≡ eod → ⊥) }
{
    matches!(value, Value::Eod)
}

/// Writes a line as one piece, with its end.
pub(crate) fn write_line<K: Sink>(line: &mut Vec<u8>, out: &mut K) -> Result<(), RunFault>
    ensures { WritesLine (line.old.items ++ 10 ∷ []) (told K.written K.faults K.late out.old) (told K.written K.faults K.late out.new) result }
{
    if line.push(b'\n').is_err() {
        return Err(RunFault::NoMemory);
    }
    match write_whole(out, line) {
        Ok(()) => Ok(()),
        Err(fault) => Err(refused_write(fault)),
    }
}

fn refused_write(fault: PortFault) -> RunFault
    ensures { result ≡ of_write fault }
{
    match fault {
        PortFault::Failed => RunFault::WriteFault,
        PortFault::NoMemory => RunFault::NoMemory,
    }
}

/// How a refused demand ends a run.
pub(crate) fn run_fault(fault: DemandFault, time: u32, lost: u64, cleared: u64) -> RunFault
    ensures { result ≡ of_demand time lost cleared fault }
{
    match fault {
        DemandFault::TooDeep => RunFault::TooDeep {
            time: u64::from(time),
            lost,
            cleared,
        },
        DemandFault::ReadFault => RunFault::ReadFault,
        DemandFault::TooLarge { stream } => RunFault::TooLarge { stream },
        DemandFault::NoMemory => RunFault::NoMemory,
    }
}
