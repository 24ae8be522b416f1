//! What is said of a value that is `error` or the end of data.
ghost use Rattle.std.specs.Prelude.{◌≡◌, ◌≤◌, ℕ, List, length, map, None, Some, slice_get, IfOk};
ghost use Rattle.lucid_scan.specs.Refusals.{most_source_bytes};
ghost use Rattle.lucid_scope.specs.Scoped.{scoped_tree};
ghost use Rattle.lucid_cert_rules.specs.Certificates.{plain_judgment};
ghost use Rattle.lucid_cert_rules.specs.WhyTexts.{IsFirstWrongLine};
ghost use Rattle.lucid_explain_source.specs.Accepted.{IsProgram};
ghost use Rattle.lucid_explain_errors.specs.declared.inputs.Input.{Input as Inputs};
ghost use Rattle.lucid_explain_errors.specs.Ways.{traced_at};
ghost use Rattle.lucid_explain_errors.specs.Steps.{plain_sight, FitsTree};
ghost use Rattle.lucid_explain_errors.specs.Errors.{last_number, time_in, TellsWay, TellsWhy, TellsError};

use crate::ending::put_ending;
use crate::inputs::Input;
use crate::steps::{Sight, named, put_steps};
use crate::texts::put_head;
use crate::traced::Traced;
use crate::ways::{Way, find_way, traced_at};
use lucid_cert_rules::{JudgmentRow, Why, WhyRefusal, read_why};
use lucid_compile::{compile, find_origins};
use lucid_equations::Table;
use lucid_explain_source::scoped_of;
use lucid_scope::Scoped;
use std::alloc::{AllocError, Global};

// What was read: a source in a file, a certificate, and inputs.
#[derive(Clone, Copy)]
struct Read<'a> {
    file: &'a [u8],
    source: &'a [u8],
    why: &'a Why,
    inputs: &'a [Input],
}

// The time of the judgment of a number; 0 where there is none.
fn time_at(judgments: &[JudgmentRow], number: u64) -> u64
    ensures { result ≡ time_in (slice_get (map plain_judgment judgments.now) number) }
{
    match judgments.get(number as usize) {
        Some(row) => row.time,
        None => 0,
    }
}

// The number of the last judgment.
fn last_number(why: &Why) -> u64
    ensures { result ≡ last_number why.now }
{
    (why.judgments.items().len() as u64).saturating_sub(1)
}

// The way from the judgment of a number as it is told, by the table of the tree.
fn text_of_way(
    alloc: Global,
    sight: &Sight<'_>,
    table: &Table,
    number: u64,
) -> Result<Vec<u8>, AllocError>
    requires { FitsTree sight.now }
    ensures { IfOk result (λ text. TellsWay (plain_sight sight.now) table.now number text.items) }
{
    let Way { passed, end } = find_way(alloc, sight.traced, sight.judgments, number)?;
    let mut judgments = passed;
    judgments.push(end)?;
    let steps = named(alloc, table, sight.judgments, &judgments)?;
    let mut text = Vec::new(alloc);
    let time = time_at(sight.judgments, number);
    put_head(&mut text, sight.traced, time)?;
    put_steps(&mut text, sight, &steps)?;
    put_ending(alloc, &mut text, sight, end)?;
    Ok(text)
}

// What is said by what the names of the source belong to.
fn text_of_scoped(
    alloc: Global,
    read: &Read<'_>,
    traced: Traced,
    scoped: &Scoped,
) -> Result<Vec<u8>, AllocError>
    requires traced { traced_at read.now.why.now.judgments (last_number read.now.why.now) ≡ Some traced }
    requires short { length read.now.source.now ≤ most_source_bytes }
    requires program { IsProgram read.now.source.now (scoped_tree scoped.now) }
    ensures { IfOk result (λ text. TellsWhy read.now.file.now read.now.source.now read.now.inputs.now read.now.why.now text.items) }
{
    let program = compile(alloc, scoped)?;
    let origins = find_origins(alloc, scoped)?;
    let sight = Sight {
        file: read.file,
        source: read.source,
        tree: scoped.tree(),
        origins: &origins,
        judgments: read.why.judgments.items(),
        inputs: read.inputs,
        traced,
    };
    text_of_way(alloc, &sight, program.table(), last_number(read.why))
}

// What is said where this is traced.
fn text_of_traced(alloc: Global, read: &Read<'_>, traced: Traced) -> Result<Vec<u8>, AllocError>
    requires { traced_at read.now.why.now.judgments (last_number read.now.why.now) ≡ Some traced }
    ensures { IfOk result (λ text. TellsWhy read.now.file.now read.now.source.now read.now.inputs.now read.now.why.now text.items) }
{
    match scoped_of(alloc, read.source)? {
        Some(scoped) => text_of_scoped(alloc, read, traced, &scoped),
        None => Ok(Vec::new(alloc)),
    }
}

// What is traced of the last judgment of a certificate, if anything.
fn last_traced(why: &Why) -> Option<Traced>
    ensures { result ≡ traced_at why.now.judgments (last_number why.now) }
{
    traced_at(why.judgments.items(), last_number(why))
}

// What is said of the last judgment of a certificate.
fn text_of_why(alloc: Global, read: &Read<'_>) -> Result<Vec<u8>, AllocError>
    ensures { IfOk result (λ text. TellsWhy read.now.file.now read.now.source.now read.now.inputs.now read.now.why.now text.items) }
{
    match last_traced(read.why) {
        Some(traced) => text_of_traced(alloc, read, traced),
        None => Ok(Vec::new(alloc)),
    }
}

// Of bytes that are no certificate's text nothing is said.
fn text_of_none(alloc: Global, certificate: &[u8], line: u64) -> Vec<u8>
    requires { IsFirstWrongLine certificate.now line }
    ensures { (file source : List ℕ) (inputs : List Inputs) → TellsError file source inputs certificate.now result.items }
{
    Vec::new(alloc)
}

/// What is said of the value of a certificate's last judgment, where it is `error` or the end of data: the way from there down to the cause, by
/// the pieces of the source from which the judgments' nodes come, and the cause. Of an input's element that is `error` its line is shown, where the
/// input is among those given. Nothing of any other value, where the bytes are no certificate's text, and of a source that is refused.
pub fn explain_error(
    alloc: Global,
    file: &[u8],
    source: &[u8],
    certificate: &[u8],
    inputs: &[Input],
) -> Result<Vec<u8>, AllocError>
    ensures { IfOk result (λ text. TellsError file.now source.now inputs.now certificate.now text.items) }
{
    match read_why(alloc, certificate) {
        Ok(why) => {
            let read = Read {
                file,
                source,
                why: &why,
                inputs,
            };
            text_of_why(alloc, &read)
        }
        Err(WhyRefusal::Form { line }) => Ok(text_of_none(alloc, certificate, line)),
        Err(WhyRefusal::NoMemory) => Err(AllocError),
    }
}
