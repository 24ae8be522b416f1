//! How a line is reported.
ghost use Rattle.std.specs.Prelude.{◌≡◌};
ghost use Rattle.lucid_ports.specs.Told.{told};
ghost use Rattle.lucid_show_command.specs.Running.{TellsLine};

use lucid_ports::{PortFault, Sink, write_whole};
use lucid_report::Status;

/// Reports a line with its status. A fault of the report doesn't change the status.
pub(crate) fn tell_line<E: Sink>(report: &mut E, line: &[u8], status: Status) -> Status
    ensures { TellsLine line.now status result (told E.written E.faults E.late report.old) (told E.written E.faults E.late report.new) }
{
    match write_whole(report, line) {
        Ok(()) => status,
        Err(PortFault::Failed) => status,
        Err(PortFault::NoMemory) => Status::NoMemory,
    }
}
