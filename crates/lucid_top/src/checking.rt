//! Checking a certificate of a program.
ghost use Rattle.std.specs.Prelude.{◌≡◌, ◌≢◌, ◌≤◌, ◌<◌, ◌+◌, ◌⊎◌, ◌∷◌, ◌++◌, [], ℕ, AllPairs, length, IfOk, IfErr, OnOk};
ghost use Rattle.lucid_tree.specs.Members.{In};
ghost use Rattle.lucid_ports.specs.Faults.{AsksNoneLate, EndsAtItsFault};
ghost use Rattle.lucid_equations.specs.Programs.{table_of};
ghost use Rattle.lucid_ports.specs.Told.{told};
ghost use Rattle.lucid_session.specs.Subject.{table_stream};
ghost use Rattle.lucid_words.specs.Asked.{PlainWords};
ghost use Rattle.lucid_words.specs.Plain.{file};
ghost use Rattle.lucid_cert.specs.CheckReads.{OnTooLarge};
ghost use Rattle.lucid_top.specs.Certificates.{most_certificate_bytes, HoldsCertificate, RefusesCertificate, HeldCertificate};
ghost use Rattle.lucid_top.specs.Checks.{IsLastLine, Checks, CheckComesOnly, IsCheckStop};
ghost use Rattle.lucid_top.specs.Names.{AsksFront};
ghost use Rattle.lucid_top.specs.Places.{AreUnread, CountsNoRead, CountsNoWrite, HasReached, IsSourceStop};
ghost use Rattle.lucid_report.specs.Refusals.{IsRefusalOf};
ghost use Rattle.lucid_top.specs.Runs.{viewed};
ghost use Rattle.lucid_top.specs.Writing.{WritesOnly};

use crate::basis::Basis;
use crate::places::read_certificate_file;
use crate::running::{large_stop, unread_inputs};
use crate::writing::write_out;
use lucid_cert::{CheckFault, check_why};
use lucid_cert_rules::following_laws::what_follows_is_meant;
use lucid_cert_rules::{Why, read_why};
use lucid_inputs::{fresh_fits, keeps_within};
use lucid_ports::{Places, Sink};
use lucid_report::{Done, Refusal, Stop};
use lucid_texts::put_number;
use lucid_value::Name;
use std::alloc::Global;

// How many bytes the file of a certificate may have, and one more.
const MOST_CERTIFICATE_BYTES: usize = 268_435_456;

const PAST_CERTIFICATE: usize = 268_435_457;

// The certificate that the bytes are the text of.
fn judge_certificate(alloc: Global, bytes: &[u8]) -> Result<Why, Stop>
    ensures holds { IfOk result (HoldsCertificate bytes.now) }
    ensures refused { IfErr result (IsRefusalOf (RefusesCertificate bytes.now)) }
{
    if bytes.len() > MOST_CERTIFICATE_BYTES {
        return Err(Stop::Refused(Refusal::CertificateTooLong));
    }
    let why = read_why(alloc, bytes)?;
    Ok(why)
}

/// The certificate in the file of this name.
pub fn read_certificate<P: Places>(alloc: Global, name: &str, places: &mut P) -> Result<Why, Stop>
    requires { (P.world places.old).reached < 2000000 }
    ensures held { IfOk result (HeldCertificate name.now (P.world places.old)) }
    ensures reading { HasReached (most_certificate_bytes + 1) (P.world places.old) (P.world places.new) result }
    ensures asks { AsksFront (name.now ∷ []) (P.world places.old) (P.world places.new) }
    ensures asked { OnOk result ((P.world places.new).asked ≡ (P.world places.old).asked ++ name.now ∷ []) }
    ensures stopped { IfErr result (IsSourceStop RefusesCertificate (file name.now) (P.world places.old) (P.world places.new)) }
{
    let bytes = read_certificate_file(alloc, name, PAST_CERTIFICATE, places)?;
    judge_certificate(alloc, &bytes)
}

// Why a check stopped, with the name of an input that is too large.
fn check_stop(inputs: &[Name], fault: CheckFault) -> Stop
    requires { OnTooLarge fault (λ number. number < length inputs.now) }
    ensures { IsCheckStop inputs.now fault result }
{
    match fault {
        CheckFault::Wrong { judgment } => Stop::Wrong { judgment },
        CheckFault::ReadFault => Stop::ReadFault,
        CheckFault::TooLarge { stream } => large_stop(inputs, stream),
        CheckFault::NoMemory => Stop::NoMemory,
    }
}

// Writes the value and the time of the last judgment.
fn write_last<K: Sink>(alloc: Global, why: &Why, out: &mut K) -> Result<Done, Stop>
    requires { 0 < length why.now.judgments }
    ensures writes { WritesOnly (IsLastLine why.now) (told K.written K.faults K.late out.old) (told K.written K.faults K.late out.new) result }
    ensures counts_no_write { CountsNoWrite result (K.faults out.old) (K.faults out.new) }
    ensures late { EndsAtItsFault (K.faults out.old) (K.late out.old) (K.late out.new) }
{
    let judgments = why.judgments.items();
    let last = &judgments[judgments.len() - 1];
    let mut line = Vec::new(alloc);
    last.value.show(alloc, &mut line)?;
    line.extend_from_slice(b" at")?;
    put_number(&mut line, last.time)?;
    line.extend_from_slice(b"\n")?;
    write_out(&line, out)
}

/// Checks a certificate of the program over the places of its inputs, and writes the value and the time of its last judgment.
pub fn check_program<P: Places, K: Sink>(
    basis: Basis<'_>,
    why: &Why,
    numbers: Vec<u32>,
    places: &mut P,
    out: &mut K,
) -> Result<Done, Stop>
    requires some { 0 < length why.now.judgments }
    requires names { basis.names.now ≡ (table_of basis.program.now).inputs }
    requires count { length numbers.items ≡ length basis.names.now }
    requires differ { AllPairs (λ a b. a ≢ b) numbers.items }
    requires unread { AreUnread numbers.items (P.world places.old) }
    ensures checks { (w : PlainWords) → Checks (table_of basis.entry.program.now) (table_stream (table_of basis.entry.program.now)) why.now
        (viewed w basis.entry.names.now numbers.items (P.world places.old) (P.world places.new) (told K.written K.faults K.late out.old) (told K.written K.faults K.late out.new))
        result }
    ensures comes_only { CheckComesOnly basis.entry.names.now (P.world places.old).faults (P.world places.new).faults (K.faults out.old) (K.faults out.new) result }
    ensures reached { (P.world places.new).reached ≡ (P.world places.old).reached }
    ensures asked { (P.world places.new).asked ≡ (P.world places.old).asked }
    ensures others { (k : ℕ) → In k numbers.items ⊎ ((P.world places.new).place k ≡ (P.world places.old).place k) }
    ensures faults { (P.world places.old).faults ≤ (P.world places.new).faults }
    ensures counts_no_read { CountsNoRead result (P.world places.old) (P.world places.new) }
    ensures counts_no_write { CountsNoWrite result (K.faults out.old) (K.faults out.new) }
    ensures read_late { AsksNoneLate (P.world places.old) (P.world places.new) }
    ensures write_late { EndsAtItsFault (K.faults out.old) (K.late out.old) (K.late out.new) }
{
    // For the proof: what follows is meant; and inputs of which nothing is read fit their places, and are read no further than they may be.
    what_follows_is_meant();
    fresh_fits();
    keeps_within();
    let Basis {
        alloc,
        names,
        program,
        ..
    } = basis;
    // The program's numbers are in range.
    let _ = program.table();
    let mut inputs = unread_inputs(alloc, numbers)?;
    match check_why(alloc, program, places, &mut inputs, why) {
        Ok(()) => write_last(alloc, why, out),
        Err(fault) => Err(check_stop(names, fault)),
    }
}
