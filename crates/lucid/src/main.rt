//! The command `lucid`: runs a pLucid program and prints the values of its stream, one a line.
#![tactic(auto)]

ghost use Rattle.std.specs.Prelude.{◌≡◌, Err, IfErr, IfOk, OnErr, drop, map};
ghost use Rattle.std.specs.String.{string_bytes};
ghost use Rattle.lucid_words.specs.Asked.{words_asked};
ghost use Rattle.lucid_ports.specs.Told.{told};
ghost use Rattle.lucid_report.specs.Telling.{Tells};
ghost use Rattle.lucid_top.specs.Call.{call};
ghost use Rattle.lucid_top.specs.Clauses.{MeetsClauses};

use lucid_ports::{Places, RealPlaces, RealSink, Sink};
use lucid_report::{Status, Stop, all_arguments, closed_streams, tell};
use lucid_top::lucid_from_arguments;
use std::alloc::Global;
use std::process::ExitCode;

// The status of a call by all arguments of the command line, the command's own name first; or by none, where they couldn't be read.
fn status_by<P: Places, K: Sink, E: Sink>(
    alloc: Global,
    arguments: Result<Vec<String>, Stop>,
    places: &mut P,
    out: &mut K,
    report: &mut E,
) -> Status
    requires { (P.world places.old).reached ≡ 0 }
    ensures call { IfOk arguments (λ words. MeetsClauses
        (call (words_asked (map string_bytes (drop 1 words.items))) (P.world places.old) (P.world places.new) (told K.written K.faults K.late out.old) (told K.written K.faults K.late out.new))
        (told E.written E.faults E.late report.old) (told E.written E.faults E.late report.new) result) }
    ensures told { IfErr arguments (λ stop. Tells (Err stop) result (told E.written E.faults E.late report.old) (told E.written E.faults E.late report.new)) }
    ensures untouched { OnErr arguments ((places.new ≡ places.old) × (out.new ≡ out.old)) }
{
    match arguments {
        Ok(arguments) => lucid_from_arguments(alloc, &arguments, places, out, report),
        Err(stop) => tell(report, &Err(stop)),
    }
}

// The status of a call over the real files and streams.
fn real_status(rt: &HostRuntime) -> Status {
    let mut places = RealPlaces::make(rt.alloc(), rt);
    let mut out = RealSink::make(rt.stdout());
    let mut report = RealSink::make(rt.stderr());
    status_by(
        rt.alloc(),
        all_arguments(rt),
        &mut places,
        &mut out,
        &mut report,
    )
}

fn main(rt: HostRuntime) -> ExitCode {
    let _taken = closed_streams(&rt);
    real_status(&rt).exit_code()
}
