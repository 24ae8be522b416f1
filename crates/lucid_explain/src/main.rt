//! The command `lucid_explain`: does what `lucid` does, and explains what it reports.
#![tactic(auto)]

use lucid_explain_command::{Remembering, Watched, lucid_explain_from_arguments, text_asked};
use lucid_explain_report::RealOutlook;
use lucid_ports::{RealPlaces, RealSink};
use lucid_report::{Status, all_arguments, closed_streams, tell};
use lucid_top::write_out;
use std::process::ExitCode;

// The status of a call over the real files and streams.
fn real_status(rt: &HostRuntime) -> Status {
    let mut report = RealSink::make(rt.stderr());
    let arguments = match all_arguments(rt) {
        Ok(arguments) => arguments,
        Err(stop) => return tell(&mut report, &Err(stop)),
    };
    let mut out = Watched::make(RealSink::make(rt.stdout()));
    if let Some(text) = text_asked(&arguments) {
        let outcome = write_out(text, &mut out);
        return tell(&mut report, &outcome);
    }
    let mut places = Remembering::make(rt.alloc(), RealPlaces::make(rt.alloc(), rt));
    let outlook = RealOutlook::make(rt);
    lucid_explain_from_arguments(
        rt.alloc(),
        &arguments,
        &mut places,
        &outlook,
        &mut out,
        &mut report,
    )
}

fn main(rt: HostRuntime) -> ExitCode {
    let _taken = closed_streams(&rt);
    real_status(&rt).exit_code()
}
