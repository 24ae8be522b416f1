//! The report: one line of fixed texts, names and digits, which takes no memory.
ghost use Rattle.std.specs.Prelude.{◌≤◌, ◌++◌, ◌∷◌, [], codes, IsErrOf};
ghost use Rattle.lucid_ports.specs.Faults.{CountsNoFaultUnless};
ghost use Rattle.lucid_ports.specs.Told.{told, WritesNoneLate};
ghost use Rattle.lucid_report.specs.Lines.{line_of, line_at, line_with, refusal_line, depth_line, figures_line, stop_line, outcome_line};
ghost use Rattle.lucid_report.specs.Telling.{WritesLine, ReportsLine, Tells};

use crate::refusal::Refusal;
use crate::status::Status;
use crate::stop::{Done, Stop};
use itoa::Buffer;
use lucid_ports::{PortFault, Sink, Summary, write_whole};
use lucid_value::Name;

const USAGE: &[u8] =
    b"usage: lucid [--count N] [--depth N] [--policy keep|none|age|last] [--age K] [--room N] [--stats] [--print] [--columns LIST] [--cycles] [--why T] [--check FILE] [--flat] [--from-flat] PROGRAM [NAME=FILE]... | lucid --make N\n";

// A part of a line.
#[derive(Clone, Copy)]
enum Part<'a> {
    // these bytes
    Text(&'a [u8]),
    // the digits of a number
    Number(u64),
}

use Part::{Number, Text};

// Writes one part of a line.
fn write_part<E: Sink>(report: &mut E, part: Part<'_>) -> Result<(), PortFault>
    ensures line { WritesLine (line_of (part.entry ∷ [])) result (told E.written E.faults E.late report.old) (told E.written E.faults E.late report.new) }
    ensures late { WritesNoneLate (told E.written E.faults E.late report.old) (told E.written E.faults E.late report.new) }
    ensures counts_no_fault { CountsNoFaultUnless (IsErrOf result PortFault.Failed) (E.faults report.old) (E.faults report.new) }
    ensures count { E.faults report.old ≤ E.faults report.new }
{
    match part {
        Text(text) => write_whole(report, text),
        Number(number) => write_whole(report, Buffer::new().format(number).as_bytes()),
    }
}

// Writes a line of these parts.
fn write_line<E: Sink>(report: &mut E, parts: &[Part<'_>]) -> Result<(), PortFault>
    ensures { ReportsLine (line_of parts.now) result (told E.written E.faults E.late report.old) (told E.written E.faults E.late report.new) }
{
    for part in parts {
        write_part(report, *part)?;
    }
    Ok(())
}

// Writes a line that ends with a number.
fn write_at<E: Sink>(report: &mut E, text: &[u8], number: u64) -> Result<(), PortFault>
    ensures { ReportsLine (line_at text.now number) result (told E.written E.faults E.late report.old) (told E.written E.faults E.late report.new) }
{
    write_line(report, &[Text(text), Number(number), Text(b"\n")])
}

// Writes a text, a number and another text.
fn write_numbered<'a, E: Sink>(
    report: &mut E,
    before: &'a [u8],
    number: u64,
    after: &'a [u8],
) -> Result<(), PortFault>
    ensures { ReportsLine (line_with before.now number after.now) result (told E.written E.faults E.late report.old) (told E.written E.faults E.late report.new) }
{
    write_line(report, &[Text(before), Number(number), Text(after)])
}

// Writes the line of a row that is wrong in the flat form.
fn write_wrong<E: Sink>(report: &mut E, row: &[u8], at: u32) -> Result<(), PortFault>
    ensures { ReportsLine (line_with row.now at (codes " is wrong\n")) result (told E.written E.faults E.late report.old) (told E.written E.faults E.late report.new) }
{
    write_numbered(report, row, u64::from(at), b" is wrong\n")
}

// Writes the line of a call with another number of arguments than the function has parameters.
fn write_arity<E: Sink>(report: &mut E, at: u32, wanted: u32, given: u32) -> Result<(), PortFault>
    ensures { ReportsLine (refusal_line (Refusal.Arity at wanted given)) result (told E.written E.faults E.late report.old) (told E.written E.faults E.late report.new) }
{
    write_line(
        report,
        &[
            Text(b"wrong number of arguments at "),
            Number(u64::from(at)),
            Text(b": "),
            Number(u64::from(wanted)),
            Text(b" wanted, "),
            Number(u64::from(given)),
            Text(b" given\n"),
        ],
    )
}

// Writes a line whole.
fn write_text<E: Sink>(report: &mut E, line: &[u8]) -> Result<(), PortFault>
    ensures { ReportsLine line.now result (told E.written E.faults E.late report.old) (told E.written E.faults E.late report.new) }
{
    write_line(report, &[Text(line)])
}

// Writes a text, a name and another text.
fn write_named<E: Sink>(
    report: &mut E,
    before: &[u8],
    name: &Name,
    after: &[u8],
) -> Result<(), PortFault>
    ensures { ReportsLine (before.now ++ (name.now ++ after.now)) result (told E.written E.faults E.late report.old) (told E.written E.faults E.late report.new) }
{
    write_line(report, &[Text(before), Text(name.bytes()), Text(after)])
}

// Writes the line of a refusal.
fn write_refusal<E: Sink>(report: &mut E, refusal: &Refusal) -> Result<(), PortFault>
    ensures { ReportsLine (refusal_line refusal.now) result (told E.written E.faults E.late report.old) (told E.written E.faults E.late report.new) }
{
    match refusal {
        Refusal::Usage => write_text(report, USAGE),
        Refusal::TooLong => write_text(report, b"source too long\n"),
        Refusal::BadByte { at } => write_at(report, b"bad byte at ", u64::from(*at)),
        Refusal::OpenText { at } => write_at(report, b"open text at ", u64::from(*at)),
        Refusal::BigNumber { at } => write_at(report, b"number too big at ", u64::from(*at)),
        Refusal::Syntax { at } => write_at(report, b"syntax at ", u64::from(*at)),
        Refusal::TooNested { at } => write_at(report, b"too nested at ", u64::from(*at)),
        Refusal::Twice { at } => write_at(report, b"defined twice at ", u64::from(*at)),
        Refusal::NoFunction { at } => write_at(report, b"no such function at ", u64::from(*at)),
        Refusal::NotFunction { at } => write_at(report, b"not a function at ", u64::from(*at)),
        Refusal::IsFunction { at } => {
            write_at(report, b"function without arguments at ", u64::from(*at))
        }
        Refusal::Arity { at, wanted, given } => write_arity(report, *at, *wanted, *given),
        Refusal::NoColumn { name } => write_named(report, b"no column ", name, b"\n"),
        Refusal::NoFlatLine { line } => {
            write_numbered(report, b"line ", *line, b" is no flat line\n")
        }
        Refusal::FlatScope { at } => write_wrong(report, b"flat scope ", *at),
        Refusal::FlatNode { at } => write_wrong(report, b"flat node ", *at),
        Refusal::FlatName { at } => write_wrong(report, b"flat name ", *at),
        Refusal::FlatPlace { at } => write_wrong(report, b"flat place ", *at),
        Refusal::FlatRoot => write_text(report, b"flat root is wrong\n"),
        Refusal::NotJudged { at } => write_at(report, b"not judged at ", u64::from(*at)),
        Refusal::TooManyNames => write_text(report, b"too many names\n"),
        Refusal::NotFree { name } => write_named(report, b"no input is named ", name, b"\n"),
        Refusal::GivenTwice { name } => write_named(report, b"", name, b" is given twice\n"),
        Refusal::NoInput => write_text(report, b"no input for two names\n"),
        Refusal::CertificateTooLong => write_text(report, b"certificate too long\n"),
        Refusal::NoJudgment { line } => {
            write_numbered(report, b"line ", *line, b" is no judgment\n")
        }
    }
}

// Writes the line of a value that is too deep, with the two counts of the run or without.
fn write_depth<E: Sink>(
    report: &mut E,
    time: u64,
    lost: u64,
    cleared: u64,
    stats: bool,
) -> Result<(), PortFault>
    ensures { ReportsLine (depth_line time lost cleared stats) result (told E.written E.faults E.late report.old) (told E.written E.faults E.late report.new) }
{
    if stats {
        write_line(
            report,
            &[
                Text(b"too deep at time "),
                Number(time),
                Text(b" lost "),
                Number(lost),
                Text(b" cleared "),
                Number(cleared),
                Text(b"\n"),
            ],
        )
    } else {
        write_at(report, b"too deep at time ", time)
    }
}

// Writes the line of a call that was stopped.
fn write_stop<E: Sink>(report: &mut E, stop: &Stop) -> Result<(), PortFault>
    ensures { ReportsLine (stop_line stop.now) result (told E.written E.faults E.late report.old) (told E.written E.faults E.late report.new) }
{
    match stop {
        Stop::Refused(refusal) => write_refusal(report, refusal),
        Stop::ReadFault => write_text(report, b"read fault\n"),
        Stop::WriteFault => write_text(report, b"write fault\n"),
        Stop::TooDeep {
            time,
            lost,
            cleared,
            stats,
        } => write_depth(report, *time, *lost, *cleared, *stats),
        Stop::TooLarge { name, .. } => write_named(report, b"input ", name, b" too large\n"),
        Stop::Wrong { judgment } => {
            write_numbered(report, b"judgment ", *judgment, b" does not follow\n")
        }
        Stop::NoMemory => write_text(report, b"no memory\n"),
    }
}

// Writes the line of the figures of a run.
fn write_figures<E: Sink>(report: &mut E, summary: Summary) -> Result<(), PortFault>
    ensures { ReportsLine (figures_line summary) result (told E.written E.faults E.late report.old) (told E.written E.faults E.late report.new) }
{
    write_line(
        report,
        &[
            Text(b"lines "),
            Number(u64::from(summary.lines)),
            Text(b" held "),
            Number(summary.held),
            Text(b" lost "),
            Number(summary.lost),
            Text(b" cleared "),
            Number(summary.cleared),
            Text(b"\n"),
        ],
    )
}

/// Writes the line of what comes of a call, if there is one.
pub fn write_outcome<E: Sink>(report: &mut E, outcome: &Result<Done, Stop>) -> Result<(), PortFault>
    ensures { ReportsLine (outcome_line outcome.now) result (told E.written E.faults E.late report.old) (told E.written E.faults E.late report.new) }
{
    match outcome {
        Ok(
            Done::Ran {
                summary,
                stats: true,
            },
        ) => write_figures(report, *summary),
        Ok(Done::Ran { stats: false, .. } | Done::Written) => Ok(()),
        Err(stop) => write_stop(report, stop),
    }
}

/// Reports what comes of a call, and gives the status. A fault of the report doesn't change it.
pub fn tell<E: Sink>(report: &mut E, outcome: &Result<Done, Stop>) -> Status
    ensures tells { Tells outcome.now result (told E.written E.faults E.late report.old) (told E.written E.faults E.late report.new) }
    ensures late { WritesNoneLate (told E.written E.faults E.late report.old) (told E.written E.faults E.late report.new) }
{
    match write_outcome(report, outcome) {
        Ok(()) | Err(PortFault::Failed) => Status::of(outcome),
        Err(PortFault::NoMemory) => Status::NoMemory,
    }
}
