//! The command by all arguments of a command line.
ghost use Rattle.std.specs.Prelude.{◌≡◌, drop, map};
ghost use Rattle.std.specs.String.{string_bytes};
ghost use Rattle.lucid_words.specs.Asked.{words_asked};
ghost use Rattle.lucid_top.specs.Call.{call};
ghost use Rattle.lucid_ports.specs.Told.{told};
ghost use Rattle.lucid_top.specs.Clauses.{MeetsClauses};

use crate::top::lucid;
use lucid_ports::{Places, Sink};
use lucid_report::{Status, words_of};
use std::alloc::Global;

/// The command by all arguments of a command line, of which the first is the command's own name: does what the others ask for, as `lucid`.
pub fn lucid_from_arguments<P: Places, K: Sink, E: Sink>(
    alloc: Global,
    arguments: &[String],
    places: &mut P,
    out: &mut K,
    report: &mut E,
) -> Status
    requires { (P.world places.old).reached ≡ 0 }
    ensures { MeetsClauses
        (call (words_asked (map string_bytes (drop 1 arguments.now))) (P.world places.old) (P.world places.new) (told K.written K.faults K.late out.old) (told K.written K.faults K.late out.new))
        (told E.written E.faults E.late report.old) (told E.written E.faults E.late report.new) result }
{
    lucid(alloc, words_of(arguments), places, out, report)
}
