//! Making a certificate of a program's value.
ghost use Rattle.std.specs.Prelude.{◌≡◌, ◌≢◌, ◌≤◌, ◌<◌, ◌-◌, ◌^◌, ◌⊎◌, ℕ, AllPairs, length};
ghost use Rattle.lucid_tree.specs.Members.{In};
ghost use Rattle.lucid_ports.specs.Faults.{AsksNoneLate, EndsAtItsFault};
ghost use Rattle.lucid_equations.specs.Programs.{table_of};
ghost use Rattle.lucid_demand_steps.specs.Faults.{OnTooLarge};
ghost use Rattle.lucid_cert_rules.specs.WhyTexts.{MayBeShown, IsTextOf};
ghost use Rattle.lucid_ports.specs.Told.{told};
ghost use Rattle.lucid_session.specs.Subject.{table_stream};
ghost use Rattle.lucid_words.specs.Asked.{plain_words};
ghost use Rattle.lucid_top.specs.Makes.{Makes, MakingComesOnly, IsMakingStop};
ghost use Rattle.lucid_top.specs.Places.{AreUnread, CountsNoRead, CountsNoWrite};
ghost use Rattle.lucid_top.specs.Runs.{viewed};
ghost use Rattle.lucid_top.specs.Writing.{WritesOnly};

use crate::basis::Basis;
use crate::running::{large_stop, unread_inputs};
use crate::writing::write_out;
use lucid_cert::certify;
use lucid_cert_rules::following_laws::what_follows_is_meant;
use lucid_cert_rules::{Why, show_why};
use lucid_demand::DemandFault;
use lucid_inputs::{fresh_fits, keeps_within};
use lucid_ports::{Places, Sink};
use lucid_report::{Done, Stop};
use lucid_value::Name;
use std::alloc::Global;

// Why no certificate was made, with the name of an input that is too large.
fn making_stop(inputs: &[Name], time: u64, fault: DemandFault) -> Stop
    requires { OnTooLarge fault (λ number. number < length inputs.now) }
    ensures { IsMakingStop inputs.now time fault result }
{
    match fault {
        DemandFault::TooDeep => Stop::TooDeep {
            time,
            lost: 0,
            cleared: 0,
            stats: false,
        },
        DemandFault::ReadFault => Stop::ReadFault,
        DemandFault::TooLarge { stream } => large_stop(inputs, stream),
        DemandFault::NoMemory => Stop::NoMemory,
    }
}

// Writes the text of a certificate.
fn write_why<K: Sink>(alloc: Global, why: &Why, out: &mut K) -> Result<Done, Stop>
    requires shown { MayBeShown why.now }
    requires some { 0 < length why.now.judgments }
    ensures writes { WritesOnly (λ text. IsTextOf text why.now) (told K.written K.faults K.late out.old) (told K.written K.faults K.late out.new) result }
    ensures counts_no_write { CountsNoWrite result (K.faults out.old) (K.faults out.new) }
    ensures late { EndsAtItsFault (K.faults out.old) (K.late out.old) (K.late out.new) }
{
    let mut text = Vec::new(alloc);
    show_why(alloc, why, &mut text)?;
    write_out(&text, out)
}

/// Makes a certificate of the program's value at the time, over the places of its inputs, and writes its text.
pub fn make_program<P: Places, K: Sink>(
    basis: Basis<'_>,
    time: u64,
    numbers: Vec<u32>,
    places: &mut P,
    out: &mut K,
) -> Result<Done, Stop>
    requires time { time < 2 ^ 63 }
    requires names { basis.names.now ≡ (table_of basis.program.now).inputs }
    requires count { length numbers.items ≡ length basis.names.now }
    requires differ { AllPairs (λ a b. a ≢ b) numbers.items }
    requires unread { AreUnread numbers.items (P.world places.old) }
    ensures makes { Makes (table_of basis.entry.program.now) (table_stream (table_of basis.entry.program.now))
        (viewed (plain_words basis.entry.words.now) basis.entry.names.now numbers.items (P.world places.old) (P.world places.new) (told K.written K.faults K.late out.old) (told K.written K.faults K.late out.new))
        time result }
    ensures comes_only { MakingComesOnly basis.entry.names.now time (P.world places.old).faults (P.world places.new).faults (K.faults out.old) (K.faults out.new) result }
    ensures reached { (P.world places.new).reached ≡ (P.world places.old).reached }
    ensures asked { (P.world places.new).asked ≡ (P.world places.old).asked }
    ensures others { (k : ℕ) → In k numbers.items ⊎ ((P.world places.new).place k ≡ (P.world places.old).place k) }
    ensures faults { (P.world places.old).faults ≤ (P.world places.new).faults }
    ensures counts_no_read { CountsNoRead result (P.world places.old) (P.world places.new) }
    ensures counts_no_write { CountsNoWrite result (K.faults out.old) (K.faults out.new) }
    ensures read_late { AsksNoneLate (P.world places.old) (P.world places.new) }
    ensures write_late { EndsAtItsFault (K.faults out.old) (K.late out.old) (K.late out.new) }
{
    // For the proof: what follows is meant; and inputs of which nothing is read fit their places, and are read no further than they may be.
    what_follows_is_meant();
    fresh_fits();
    keeps_within();
    let Basis {
        alloc,
        words,
        names,
        program,
    } = basis;
    // The program's numbers are in range.
    let _ = program.table();
    let mut inputs = unread_inputs(alloc, numbers)?;
    let depth = words.options.depth;
    match certify(alloc, program, places, &mut inputs, time, depth) {
        Ok(why) => write_why(alloc, &why, out),
        Err(fault) => Err(making_stop(names, time, fault)),
    }
}
