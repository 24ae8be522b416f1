//! Showing a run of a program, step by step.
ghost use Rattle.std.specs.Prelude.{◌≡◌, IfOk};
ghost use Rattle.lucid_ports.specs.Told.{told};
ghost use Rattle.lucid_explain_report.specs.Files.{holds};
ghost use Rattle.lucid_show_command.specs.Running.{AreNames, AreNamesBy, IsTextOfSteps, ShowsRun, TellsRun, MayLack};
ghost use Rattle.lucid_show_command.specs.Words.{plain_steps};
ghost use Rattle.lucid_top.specs.Writing.{WritesOnly};

use crate::line::tell_line;
use crate::means::Means;
use crate::run_words::Steps;
use lucid_explain_report::{Again, Outlook, PAST_SOURCE};
use lucid_ports::{MemorySink, Places, Sink};
use lucid_report::{Done, Status, Stop, tell};
use lucid_show_steps::{Names, Noted, names_of, run_noted, text_of};
use lucid_top::write_out;
use std::alloc::{AllocError, Global};

// The names of the program of a source, unless that is refused.
fn names_in(alloc: Global, source: Vec<u8>) -> Result<Option<Names>, AllocError>
    ensures { IfOk result (AreNamesBy (holds source.items)) }
{
    match names_of(alloc, source) {
        Ok(names) => Ok(Some(names)),
        Err(Stop::NoMemory) => Err(AllocError),
        Err(_) => Ok(None),
    }
}

// The names of the program in the file of this name, as it is read again.
fn names_again<F: Outlook>(
    alloc: Global,
    program: &str,
    outlook: &F,
) -> Result<Option<Names>, AllocError>
    ensures { IfOk result (AreNames (F.files outlook.now) program.now) }
{
    match outlook.reread(alloc, program, PAST_SOURCE)? {
        Again::Bytes(source) => names_in(alloc, source),
        Again::Unread => Ok(None),
        Again::Gone => Ok(None),
    }
}

// The text of a run's steps.
fn text_of_run<F: Outlook>(
    alloc: Global,
    run: &Noted,
    steps: &Steps,
    outlook: &F,
) -> Result<Vec<u8>, AllocError>
    ensures { IfOk result (λ text. IsTextOfSteps (F.files outlook.now) (plain_steps steps.now) run.now.lines.items text.items) }
{
    let names = names_again(alloc, &steps.program, outlook)?;
    text_of(alloc, run, &names, steps.most)
}

// Writes it.
fn write_run<F: Outlook, K: Sink>(
    alloc: Global,
    run: &Noted,
    steps: &Steps,
    outlook: &F,
    out: &mut K,
) -> Result<Done, Stop>
    ensures { WritesOnly (IsTextOfSteps (F.files outlook.now) (plain_steps steps.now) run.now.lines.items) (told K.written K.faults K.late out.old) (told K.written K.faults K.late out.new) result }
{
    let text = text_of_run(alloc, run, steps, outlook)?;
    write_out(&text, out)
}

// Reports how a run ended whose steps were written, or why they weren't.
fn tell_run<E: Sink>(
    written: Result<Done, Stop>,
    line: &[u8],
    its: Status,
    report: &mut E,
) -> Status
    ensures { TellsRun written line.now its result (told E.written E.faults E.late report.old) (told E.written E.faults E.late report.new) }
{
    match written {
        Ok(_) => tell_line(report, line, its),
        Err(stop) => tell(report, &Err(stop)),
    }
}

/// Runs what `lucid` would run, in memory, and writes the run's steps. Then it reports what `lucid` would.
pub(crate) fn show_run<P: Places, F: Outlook, K: Sink, E: Sink>(
    means: &Means<'_, F>,
    steps: &Steps,
    places: &mut P,
    out: &mut K,
    report: &mut E,
) -> Status
    requires { (P.world places.old).reached ≡ 0 }
    ensures { MayLack (ShowsRun (F.files means.now.outlook.now) (plain_steps steps.now)) (P.world places.old) (P.world places.new) (told K.written K.faults K.late out.old) (told K.written K.faults K.late out.new)
        (told E.written E.faults E.late report.old) (told E.written E.faults E.late report.new) result }
{
    let mut line = MemorySink::make(means.alloc, usize::MAX, Vec::new(means.alloc));
    match run_noted(means.alloc, &steps.words, steps.most, places, &mut line) {
        Ok(run) => {
            let written = write_run(means.alloc, &run, steps, means.outlook, out);
            tell_run(written, line.written(), run.status, report)
        }
        Err(_) => tell(report, &Err(Stop::NoMemory)),
    }
}
