//! The command, with what explains how it ended.
ghost use Rattle.std.specs.Prelude.{◌≡◌, ◌==◌, ◌&&◌, drop, length, map};
ghost use Rattle.std.specs.String.{string_bytes};
ghost use Rattle.lucid_words.specs.Asked.{words_asked};
ghost use Rattle.lucid_top.specs.Call.{call};
ghost use Rattle.lucid_ports.specs.Told.{told};
ghost use Rattle.lucid_report.specs.Telling.{WritesLine};
ghost use Rattle.lucid_explain_command.specs.Prompted.{IsPrompt};
ghost use Rattle.lucid_explain_command.specs.Keeping.{plain_kept, remembered};
ghost use Rattle.lucid_explain_command.specs.Noting.{plain_noted};
ghost use Rattle.lucid_explain_command.specs.Behind.{has_count, SaysCount, may_note, SaysNote};
ghost use Rattle.lucid_explain_command.specs.Errors.{SaysError};
ghost use Rattle.lucid_explain_command.specs.Explained.{unsaid_text, or_unsaid, Writes, WritesText, Prompts, wants_memory, cut_status, ReportsExplanation, ReportsStop, ReportsCause, Reports, ReportsCount, ReportsBehind, ReportsNote, IsExplained};

use crate::behind::{
    Behind, behind_of, has_count, may_note, text_of_count, text_of_note, wrote_values,
};
use crate::errors::text_of_error;
use crate::help::HELP;
use crate::prompt::text_of_prompt;
use crate::remembering::Remembering;
use crate::watched::Watched;
use lucid_explain_report::{Outlook, explain_stop, stop_text};
use lucid_ports::{Places, PortFault, Sink, write_whole};
use lucid_report::{Done, Status, Stop, words_of, write_outcome};
use lucid_top::outcome_of;
use std::alloc::{AllocError, Global};

// Writes a line whole.
fn write_line<E: Sink>(report: &mut E, line: &[u8]) -> Result<(), PortFault>
    ensures { WritesLine line.now result (told E.written E.faults E.late report.old) (told E.written E.faults E.late report.new) }
{
    write_whole(report, line)
}

// Says that there was no memory for what would be said.
fn report_unsaid<E: Sink>(report: &mut E) -> Result<(), PortFault>
    ensures { WritesLine unsaid_text result (told E.written E.faults E.late report.old) (told E.written E.faults E.late report.new) }
{
    write_line(report, b"There is not memory enough to explain this.\n")
}

// Reports a text, or that there was no memory for it.
fn report_text<E: Sink>(report: &mut E, text: Result<Vec<u8>, AllocError>)
    ensures { Writes (or_unsaid text) (told E.written E.faults E.late report.old) (told E.written E.faults E.late report.new) }
{
    match text {
        Ok(text) => {
            let _ = write_line(report, &text);
        }
        Err(_) => {
            let _ = report_unsaid(report);
        }
    }
}

// Reports what is said before the call, or that there was no memory for it.
fn report_prompt<E: Sink, F: Outlook>(alloc: Global, words: &[String], outlook: &F, report: &mut E)
    ensures { WritesText (IsPrompt (F.files outlook.now) (map string_bytes words.now)) (told E.written E.faults E.late report.old) (told E.written E.faults E.late report.new) }
{
    report_text(report, text_of_prompt(alloc, words, outlook));
}

// Says what is read of the standard input, where that is a terminal.
fn prompt_terminal<E: Sink, F: Outlook>(
    alloc: Global,
    words: &[String],
    outlook: &F,
    report: &mut E,
)
    ensures { Prompts (F.files outlook.now) (map string_bytes words.now) (F.terminal outlook.now) (told E.written E.faults E.late report.old) (told E.written E.faults E.late report.new) }
{
    if outlook.is_terminal() {
        report_prompt(alloc, words, outlook, report);
    }
}

// A call with these words, and what it read of its source.
#[derive(Clone, Copy)]
struct Called<'a> {
    words: &'a [String],
    source: &'a [u8],
}

// Whether memory is wanted to say what explains the stop.
fn wants_memory(stop: &Stop) -> bool
    ensures { result ≡ wants_memory stop.now }
{
    match stop {
        Stop::WriteFault | Stop::TooLarge { .. } | Stop::NoMemory => false,
        _ => true,
    }
}

// Reports a text for which no memory is wanted.
fn report_alone<E: Sink>(report: &mut E, said: &[u8])
    ensures { Writes said.now (told E.written E.faults E.late report.old) (told E.written E.faults E.late report.new) }
{
    let _ = write_line(report, said);
}

// Reports what explains the stop, or that there was no memory for it; of a call without words, its help.
fn report_explanation<E: Sink, F: Outlook>(
    alloc: Global,
    called: &Called<'_>,
    stop: &Stop,
    outlook: &F,
    report: &mut E,
)
    ensures { ReportsExplanation (length called.now.words.now == 0) (F.files outlook.now) (map string_bytes called.now.words.now) called.now.source.now stop.now
        (told E.written E.faults E.late report.old) (told E.written E.faults E.late report.new) }
{
    if called.words.is_empty() {
        report_alone(report, HELP);
    } else {
        let text = explain_stop(alloc, called.words, called.source, stop, outlook);
        report_text(report, text);
    }
}

// Reports what explains the stop, or what is said of it alone.
fn report_stop<E: Sink, F: Outlook>(
    alloc: Global,
    called: &Called<'_>,
    stop: &Stop,
    outlook: &F,
    report: &mut E,
)
    ensures { ReportsStop (wants_memory stop.now) (F.files outlook.now) (map string_bytes called.now.words.now) called.now.source.now stop.now
        (told E.written E.faults E.late report.old) (told E.written E.faults E.late report.new) }
{
    if wants_memory(stop) {
        report_explanation(alloc, called, stop, outlook, report);
    } else {
        report_alone(report, stop_text(stop));
    }
}

// Reports what explains the outcome.
fn report_cause<E: Sink, F: Outlook>(
    alloc: Global,
    called: &Called<'_>,
    outcome: &Result<Done, Stop>,
    outlook: &F,
    report: &mut E,
)
    ensures { ReportsCause (F.files outlook.now) (map string_bytes called.now.words.now) called.now.source.now outcome.now
        (told E.written E.faults E.late report.old) (told E.written E.faults E.late report.new) }
{
    match outcome {
        Ok(_) => {}
        Err(stop) => report_stop(alloc, called, stop, outlook, report),
    }
}

// The status of a call whose line was cut off so.
fn cut_status(fault: PortFault, outcome: &Result<Done, Stop>) -> Status
    ensures { result ≡ cut_status fault outcome.now }
{
    match fault {
        PortFault::Failed => Status::of(outcome),
        PortFault::NoMemory => Status::NoMemory,
    }
}

// Reports the line of the outcome, and behind it what explains the outcome.
fn report_call<E: Sink, F: Outlook>(
    alloc: Global,
    called: &Called<'_>,
    outcome: &Result<Done, Stop>,
    outlook: &F,
    report: &mut E,
) -> Status
    ensures { Reports (F.files outlook.now) (map string_bytes called.now.words.now) called.now.source.now outcome.now result
        (told E.written E.faults E.late report.old) (told E.written E.faults E.late report.new) }
{
    match write_outcome(report, outcome) {
        Ok(()) => {
            report_cause(alloc, called, outcome, outlook, report);
            Status::of(outcome)
        }
        Err(fault) => cut_status(fault, outcome),
    }
}

// Reports where the value at a time came from, or that there was no memory for it.
fn report_time<E: Sink, F: Outlook>(
    alloc: Global,
    called: &Called<'_>,
    time: u64,
    outlook: &F,
    report: &mut E,
)
    ensures { WritesText (SaysError (F.files outlook.now) (F.terminal outlook.now) (map string_bytes called.now.words.now) called.now.source.now time)
        (told E.written E.faults E.late report.old) (told E.written E.faults E.late report.new) }
{
    let text = text_of_error(alloc, called.words, called.source, time, outlook);
    report_text(report, text);
}

// Reports how many lines a run writes, or that there was no memory for it.
fn report_lines<E: Sink>(alloc: Global, words: &[String], report: &mut E)
    ensures { WritesText (SaysCount (map string_bytes words.now)) (told E.written E.faults E.late report.old) (told E.written E.faults E.late report.new) }
{
    report_text(report, text_of_count(alloc, words));
}

// Does so where no word gives it.
fn report_count<E: Sink>(alloc: Global, words: &[String], report: &mut E)
    ensures { ReportsCount (map string_bytes words.now) (has_count (map string_bytes words.now)) (told E.written E.faults E.late report.old) (told E.written E.faults E.late report.new) }
{
    if !has_count(words) {
        report_lines(alloc, words, report);
    }
}

// Reports that of which more is said.
fn report_behind<E: Sink, F: Outlook>(
    alloc: Global,
    called: &Called<'_>,
    behind: Behind,
    outlook: &F,
    report: &mut E,
)
    ensures { ReportsBehind (F.files outlook.now) (F.terminal outlook.now) (map string_bytes called.now.words.now) called.now.source.now behind
        (told E.written E.faults E.late report.old) (told E.written E.faults E.late report.new) }
{
    match behind {
        Behind::Value(time) => report_time(alloc, called, time, outlook, report),
        Behind::Count => report_count(alloc, called.words, report),
        Behind::Nothing => {}
    }
}

// Reports what is noted of the source, or that there was no memory for it.
fn report_noted<E: Sink>(alloc: Global, called: &Called<'_>, report: &mut E)
    ensures { WritesText (SaysNote (map string_bytes called.now.words.now) called.now.source.now) (told E.written E.faults E.late report.old) (told E.written E.faults E.late report.new) }
{
    let text = text_of_note(alloc, called.words, called.source);
    report_text(report, text);
}

// Does so where the call wrote values, and something may be noted.
fn report_note<E: Sink>(
    alloc: Global,
    called: &Called<'_>,
    outcome: &Result<Done, Stop>,
    has_values: bool,
    report: &mut E,
)
    ensures { ReportsNote (map string_bytes called.now.words.now) called.now.source.now (has_values && may_note (map string_bytes called.now.words.now) called.now.source.now outcome.now)
        (told E.written E.faults E.late report.old) (told E.written E.faults E.late report.new) }
{
    if has_values && may_note(called.words, called.source, outcome) {
        report_noted(alloc, called, report);
    }
}

/// Does what the command does with these words, and answers its status. It reports the command's line, and behind it what explains how the call ended,
/// by what it read of its source. Where the standard input is a terminal, it says before the call which input is read from there, for which the
/// program's file may be read once more. Behind a run that wrote `error`, or that is done and wrote no line, it says where the value came from, for
/// which files of inputs are read again; and behind 20 lines, where no count is given, that there may be more. Behind a run of a short program that wrote
/// values it says what is noted of the source.
pub fn lucid_explain<P: Places, K: Sink, E: Sink, F: Outlook>(
    alloc: Global,
    words: &[String],
    places: &mut Remembering<P>,
    outlook: &F,
    out: &mut Watched<K>,
    report: &mut E,
) -> Status
    requires { (P.world places.old.inner).reached ≡ 0 }
    ensures { IsExplained (F.files outlook.now) (F.terminal outlook.now) (map string_bytes words.now)
        (call (words_asked (map string_bytes words.now)) (remembered (plain_kept places.old.kept) (P.world places.old.inner)) (remembered (plain_kept places.new.kept) (P.world places.new.inner)) (told K.written K.faults K.late out.old.sink) (told K.written K.faults K.late out.new.sink))
        (plain_kept places.new.kept).taken (plain_noted out.new.noted)
        (told E.written E.faults E.late report.old) (told E.written E.faults E.late report.new) result }
{
    prompt_terminal(alloc, words, outlook, report);
    let outcome = outcome_of(alloc, words, places, out);
    let called = Called {
        words,
        source: places.read(),
    };
    let status = report_call(alloc, &called, &outcome, outlook, report);
    let noted = out.noted();
    let behind = behind_of(status, noted);
    report_behind(alloc, &called, behind, outlook, report);
    let has_values = wrote_values(status, noted);
    report_note(alloc, &called, &outcome, has_values, report);
    status
}

/// The same by all arguments of a command line, of which the first is the command's own name.
pub fn lucid_explain_from_arguments<P: Places, K: Sink, E: Sink, F: Outlook>(
    alloc: Global,
    arguments: &[String],
    places: &mut Remembering<P>,
    outlook: &F,
    out: &mut Watched<K>,
    report: &mut E,
) -> Status
    requires { (P.world places.old.inner).reached ≡ 0 }
    ensures { IsExplained (F.files outlook.now) (F.terminal outlook.now) (map string_bytes (drop 1 arguments.now))
        (call (words_asked (map string_bytes (drop 1 arguments.now))) (remembered (plain_kept places.old.kept) (P.world places.old.inner)) (remembered (plain_kept places.new.kept) (P.world places.new.inner)) (told K.written K.faults K.late out.old.sink) (told K.written K.faults K.late out.new.sink))
        (plain_kept places.new.kept).taken (plain_noted out.new.noted)
        (told E.written E.faults E.late report.old) (told E.written E.faults E.late report.new) result }
{
    lucid_explain(alloc, words_of(arguments), places, outlook, out, report)
}
