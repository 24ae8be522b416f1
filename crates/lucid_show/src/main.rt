//! The command `lucid_show`: shows what a value of a pLucid program was computed from, or a run step by step.
#![tactic(auto)]

ghost use Rattle.std.specs.Prelude.{◌≡◌, Err, IfErr, IfOk, OnErr, drop, map};
ghost use Rattle.std.specs.String.{string_bytes};
ghost use Rattle.lucid_ports.specs.Told.{told};
ghost use Rattle.lucid_report.specs.Arguments.{text_asked};
ghost use Rattle.lucid_report.specs.Telling.{Tells};
ghost use Rattle.lucid_show_command.specs.Help.{help_text, version_text};
ghost use Rattle.lucid_show_command.specs.Words.{asked};
ghost use Rattle.lucid_show_command.specs.Shows.{SaysOrShows};

use lucid_explain_report::{Outlook, RealOutlook};
use lucid_ports::{Places, RealPlaces, RealSink, Sink};
use lucid_report::{Status, Stop, all_arguments, closed_streams, tell};
use lucid_show_command::{Means, lucid_show_from_arguments};
use std::process::ExitCode;

// The status of a call by all arguments of the command line, the command's own name first; or by none, where they couldn't be read.
fn status_by<P: Places, F: Outlook, K: Sink, E: Sink>(
    means: &Means<'_, F>,
    arguments: Result<Vec<String>, Stop>,
    places: &mut P,
    out: &mut K,
    report: &mut E,
) -> Status
    requires { (P.world places.old).reached ≡ 0 }
    ensures call { IfOk arguments (λ words. SaysOrShows (F.files means.now.outlook.now) (P.world places.old) (P.world places.new)
        (told K.written K.faults K.late out.old) (told K.written K.faults K.late out.new) (told E.written E.faults E.late report.old) (told E.written E.faults E.late report.new) result
        (text_asked help_text version_text (map string_bytes words.items)) (asked (map string_bytes (drop 1 words.items)))) }
    ensures told { IfErr arguments (λ stop. Tells (Err stop) result (told E.written E.faults E.late report.old) (told E.written E.faults E.late report.new)) }
    ensures untouched { OnErr arguments ((places.new ≡ places.old) × (out.new ≡ out.old)) }
{
    match arguments {
        Ok(arguments) => lucid_show_from_arguments(means, &arguments, places, out, report),
        Err(stop) => tell(report, &Err(stop)),
    }
}

// The status of a call over the real files and streams.
fn real_status(rt: &HostRuntime) -> Status {
    let mut places = RealPlaces::make(rt.alloc(), rt);
    let outlook = RealOutlook::make(rt);
    let mut out = RealSink::make(rt.stdout());
    let mut report = RealSink::make(rt.stderr());
    let means = Means {
        alloc: rt.alloc(),
        outlook: &outlook,
    };
    status_by(
        &means,
        all_arguments(rt),
        &mut places,
        &mut out,
        &mut report,
    )
}

fn main(rt: HostRuntime) -> ExitCode {
    let _taken = closed_streams(&rt);
    real_status(&rt).exit_code()
}
