//! Certificates of the program that the words name: made, or checked.
ghost use Rattle.std.specs.Prelude.{◌≡◌, ◌∷◌, ◌+◌, ◌^◌, ◌<◌, ◌≤◌, Some, length, IfOk};
ghost use Rattle.lucid_scan.specs.Refusals.{most_source_bytes};
ghost use Rattle.lucid_words.specs.Asked.{plain_words};
ghost use Rattle.lucid_ports.specs.Faults.{AsksNoneLate, EndsAtItsFault};
ghost use Rattle.lucid_ports.specs.Told.{told};
ghost use Rattle.lucid_equations.specs.Programs.{table_of};
ghost use Rattle.lucid_session.specs.Runs.{PolicyView};
ghost use Rattle.lucid_top.specs.declared.task.Task.{Task};
ghost use Rattle.lucid_top.specs.Certificates.{most_certificate_bytes};
ghost use Rattle.lucid_top.specs.Certified.{made_outcome, IsOfWords};
ghost use Rattle.lucid_top.specs.Files.{files_for};
ghost use Rattle.lucid_top.specs.Names.{AsksFront};
ghost use Rattle.lucid_top.specs.Places.{CountsNoRead, CountsNoWrite, ReadsPlace, AreKept};
ghost use Rattle.lucid_top.specs.Coming.{Does, MayBegin};
ghost use Rattle.lucid_top.specs.Parts.{call_of, ComesOfProof};

use crate::basis::Basis;
use crate::checking::{check_program, read_certificate};
use crate::files::input_files;
use crate::making::make_program;
use crate::places::reach_files;
use crate::reading::program_of;
use lucid_compile::compile;
use lucid_equations::Program;
use lucid_ports::{Places, Sink};
use lucid_report::{Done, Stop};
use lucid_scope::Scoped;
use lucid_words::Words;
use std::alloc::Global;

// Makes a certificate of the program's value at the time, over the files that the words give its inputs.
fn make_inputs<P: Places, K: Sink>(
    basis: Basis<'_>,
    time: u64,
    places: &mut P,
    out: &mut K,
) -> Result<Done, Stop>
    requires time { (plain_words basis.words.now).why ≡ Some time }
    requires within { time < 2 ^ 63 }
    requires names { basis.names.now ≡ (table_of basis.program.now).inputs }
    requires few { length basis.names.now ≤ most_source_bytes }
    requires one { (P.world places.old).reached ≤ 1 }
    ensures comes { ComesOfProof Task.Why (plain_words basis.entry.words.now) (table_of basis.entry.program.now) (P.world places.old) (P.world places.new) (told K.written K.faults K.late out.old) (told K.written K.faults K.late out.new) result }
    ensures asks { AsksFront (files_for (table_of basis.entry.program.now).inputs (plain_words basis.entry.words.now).given) (P.world places.old) (P.world places.new) }
    ensures written { IfOk result (λ done. done ≡ Done.Written) }
    ensures counts_no_read { CountsNoRead result (P.world places.old) (P.world places.new) }
    ensures counts_no_write { CountsNoWrite result (K.faults out.old) (K.faults out.new) }
    ensures read_late { AsksNoneLate (P.world places.old) (P.world places.new) }
    ensures write_late { EndsAtItsFault (K.faults out.old) (K.late out.old) (K.late out.new) }
    ensures others { AreKept (P.world places.old) (P.world places.new) }
{
    let files = input_files(basis.alloc, basis.names, &basis.words.given)?;
    let numbers = reach_files(basis.alloc, places, &files)?;
    make_program(basis, time, numbers, places, out)
}

/// A program of which a certificate was made: its tree, with what its names belong to, and its table.
#[derive(Drop)]
pub struct Certified {
    pub scoped: Scoped,
    pub program: Program,
}

// Makes a certificate of the value at the time, of the program that the words name, and writes its text. It gives the program back.
fn make_at<P: Places, K: Sink>(
    alloc: Global,
    words: &Words,
    time: u64,
    places: &mut P,
    out: &mut K,
) -> Result<Certified, Stop>
    requires may { MayBegin words.now Task.Why (P.world places.old) }
    requires time { (plain_words words.now).why ≡ Some time }
    ensures does { (policy : PolicyView) → Does (call_of P.world K.written K.faults K.late policy (Some (plain_words words.now)) places.old places.new out.old out.new) (made_outcome result) }
    ensures program { IfOk result (IsOfWords (plain_words words.now) (P.world places.old)) }
{
    let scoped = program_of(alloc, words, places)?;
    let program = compile(alloc, &scoped)?;
    let basis = Basis {
        alloc,
        words,
        names: scoped.inputs(),
        program: &program,
    };
    make_inputs(basis, time, places, out)?;
    Ok(Certified { scoped, program })
}

/// Makes a certificate of the value that the words ask for, of the program that they name, and writes its text, as `lucid` does where the words
/// are its own. It gives the program back.
pub fn make_why<P: Places, K: Sink>(
    alloc: Global,
    words: &Words,
    places: &mut P,
    out: &mut K,
) -> Result<Certified, Stop>
    requires { MayBegin words.now Task.Why (P.world places.old) }
    ensures does { (policy : PolicyView) → Does (call_of P.world K.written K.faults K.late policy (Some (plain_words words.now)) places.old places.new out.old out.new) (made_outcome result) }
    ensures program { IfOk result (IsOfWords (plain_words words.now) (P.world places.old)) }
{
    let Some(time) = words.why else {
        unreachable!()
    };
    make_at(alloc, words, time, places, out)
}

/// Makes a certificate of the value at the time, of the program that the words name.
pub fn why_task<P: Places, K: Sink>(
    alloc: Global,
    words: &Words,
    time: u64,
    places: &mut P,
    out: &mut K,
) -> Result<Done, Stop>
    requires may { MayBegin words.now Task.Why (P.world places.old) }
    requires time { (plain_words words.now).why ≡ Some time }
    ensures { (policy : PolicyView) → Does (call_of P.world K.written K.faults K.late policy (Some (plain_words words.now)) places.old places.new out.old out.new) result }
{
    make_at(alloc, words, time, places, out)?;
    Ok(Done::Written)
}

// Checks the certificate in the file of this name, of the program, over the files that the words give its inputs.
fn check_inputs<P: Places, K: Sink>(
    basis: Basis<'_>,
    file: &str,
    places: &mut P,
    out: &mut K,
) -> Result<Done, Stop>
    requires file { file.now ≡ (plain_words basis.words.now).check }
    requires names { basis.names.now ≡ (table_of basis.program.now).inputs }
    requires few { length basis.names.now ≤ most_source_bytes }
    requires one { (P.world places.old).reached ≤ 1 }
    ensures comes { ComesOfProof Task.Check (plain_words basis.entry.words.now) (table_of basis.entry.program.now) (P.world places.old) (P.world places.new) (told K.written K.faults K.late out.old) (told K.written K.faults K.late out.new) result }
    ensures asks { AsksFront ((plain_words basis.entry.words.now).check ∷ files_for (table_of basis.entry.program.now).inputs (plain_words basis.entry.words.now).given) (P.world places.old) (P.world places.new) }
    ensures counts_no_read { CountsNoRead result (P.world places.old) (P.world places.new) }
    ensures counts_no_write { CountsNoWrite result (K.faults out.old) (K.faults out.new) }
    ensures read_late { AsksNoneLate (P.world places.old) (P.world places.new) }
    ensures write_late { EndsAtItsFault (K.faults out.old) (K.late out.old) (K.late out.new) }
    ensures others { AreKept (P.world places.old) (P.world places.new) }
    ensures certificate { ReadsPlace (most_certificate_bytes + 1) (P.world places.old).reached (P.world places.new) }
{
    let files = input_files(basis.alloc, basis.names, &basis.words.given)?;
    let why = read_certificate(basis.alloc, file, places)?;
    let numbers = reach_files(basis.alloc, places, &files)?;
    check_program(basis, &why, numbers, places, out)
}

/// Checks the certificate in the file of this name, of the program that the words name.
pub fn check_task<P: Places, K: Sink>(
    alloc: Global,
    words: &Words,
    file: &str,
    places: &mut P,
    out: &mut K,
) -> Result<Done, Stop>
    requires may { MayBegin words.now Task.Check (P.world places.old) }
    requires file { file.now ≡ (plain_words words.now).check }
    ensures { (policy : PolicyView) → Does (call_of P.world K.written K.faults K.late policy (Some (plain_words words.now)) places.old places.new out.old out.new) result }
{
    let scoped = program_of(alloc, words, places)?;
    let program = compile(alloc, &scoped)?;
    let basis = Basis {
        alloc,
        words,
        names: scoped.inputs(),
        program: &program,
    };
    check_inputs(basis, file, places, out)
}
