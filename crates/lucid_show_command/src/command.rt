//! The command.
ghost use Rattle.std.specs.Prelude.{◌≡◌, drop, map};
ghost use Rattle.std.specs.String.{string_bytes};
ghost use Rattle.lucid_ports.specs.Told.{told};
ghost use Rattle.lucid_report.specs.Arguments.{text_asked};
ghost use Rattle.lucid_show_command.specs.Help.{help_text, version_text};
ghost use Rattle.lucid_show_command.specs.Words.{asked};
ghost use Rattle.lucid_show_command.specs.Shows.{SaysOrShows, ShowsAsked, TellsRefused, TellsUsage};

use crate::help::text_asked;
use crate::line::tell_line;
use crate::means::Means;
use crate::running::show_run;
use crate::showing::show_value;
use crate::words::{Asked, read_asked};
use lucid_explain_report::Outlook;
use lucid_ports::{Places, Sink};
use lucid_report::{Status, Stop, tell, words_of};
use lucid_top::write_out;
use lucid_words::WordsRefusal;

const USAGE: &[u8] =
    b"usage: lucid_show [--at T] [--as outline|grid|svg] [--depth N] [--names LIST] [--cells N] PROGRAM [NAME=FILE]... | lucid_show --steps [--count N] [--policy keep|none|age|last] [--age K] [--room N] [--depth N] [--cells N] PROGRAM [NAME=FILE]...\n";

// Reports that the words are refused.
fn tell_usage<E: Sink>(report: &mut E) -> Status
    ensures { TellsUsage result (told E.written E.faults E.late report.old) (told E.written E.faults E.late report.new) }
{
    tell_line(report, USAGE, Status::Usage)
}

// Reports why the words weren't read.
fn tell_refused<E: Sink>(report: &mut E, refusal: WordsRefusal) -> Status
    ensures { TellsRefused refusal result (told E.written E.faults E.late report.old) (told E.written E.faults E.late report.new) }
{
    match refusal {
        WordsRefusal::Usage => tell_usage(report),
        WordsRefusal::NoMemory => tell(report, &Err(Stop::NoMemory)),
    }
}

/// Shows what the words ask for: writes to `out` what the value of the program at the time was computed from, or the steps of a run, and reports
/// on `report` how it ended. For the names of a run's steps the program's file is read again. The words are those after the command's own name.
pub fn lucid_show<P: Places, F: Outlook, K: Sink, E: Sink>(
    means: &Means<'_, F>,
    words: &[String],
    places: &mut P,
    out: &mut K,
    report: &mut E,
) -> Status
    requires { (P.world places.old).reached ≡ 0 }
    ensures { ShowsAsked (F.files means.now.outlook.now) (P.world places.old) (P.world places.new) (told K.written K.faults K.late out.old) (told K.written K.faults K.late out.new)
        (told E.written E.faults E.late report.old) (told E.written E.faults E.late report.new) result (asked (map string_bytes words.now)) }
{
    match read_asked(means.alloc, words) {
        Ok(Asked::Value(wanted)) => show_value(means.alloc, &wanted, places, out, report),
        Ok(Asked::Steps(steps)) => show_run(means, &steps, places, out, report),
        Ok(Asked::Misplaced(line)) => tell_line(report, line, Status::Usage),
        Err(refusal) => tell_refused(report, refusal),
    }
}

/// The same by all arguments of a command line, of which the first is the command's own name. With `--help` or `--version` alone it writes the
/// text that these ask for.
pub fn lucid_show_from_arguments<P: Places, F: Outlook, K: Sink, E: Sink>(
    means: &Means<'_, F>,
    arguments: &[String],
    places: &mut P,
    out: &mut K,
    report: &mut E,
) -> Status
    requires { (P.world places.old).reached ≡ 0 }
    ensures { SaysOrShows (F.files means.now.outlook.now) (P.world places.old) (P.world places.new) (told K.written K.faults K.late out.old) (told K.written K.faults K.late out.new)
        (told E.written E.faults E.late report.old) (told E.written E.faults E.late report.new) result
        (text_asked help_text version_text (map string_bytes arguments.now)) (asked (map string_bytes (drop 1 arguments.now))) }
{
    match text_asked(arguments) {
        Some(text) => {
            let outcome = write_out(text, out);
            tell(report, &outcome)
        }
        None => lucid_show(means, words_of(arguments), places, out, report),
    }
}
