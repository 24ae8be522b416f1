//! What a source says of a call that was stopped.
ghost use Rattle.std.specs.Prelude.{◌≡◌, ℕ, ◌++◌, List, map, IfOk, OnOk};
ghost use Rattle.lucid_words.specs.Asked.{plain_words};
ghost use Rattle.lucid_words.specs.Plain.{plain_given};
ghost use Rattle.lucid_explain_source.specs.Accepted.{IsAccepted};
ghost use Rattle.lucid_explain_source.specs.Sources.{Explains};
ghost use Rattle.lucid_explain_run.specs.Inputs.{TellsInputs, TellsFree};
ghost use Rattle.lucid_explain_run.specs.Depths.{TellsDepth};
ghost use Rattle.lucid_explain_report.specs.Notes.{TellsNote};
ghost use Rattle.lucid_explain_report.specs.Stops.{stop_text};
ghost use Rattle.lucid_explain_report.specs.Said.{names_given, place_said, TellsFault};

use crate::notes::text_of_notes;
use crate::stops::stop_text;
use lucid_explain_places::put_place;
use lucid_explain_run::{TooDeep, explain_depth, explain_free, explain_inputs};
use lucid_explain_source::{Explanation, Fault, explain_source};
use lucid_report::Stop;
use lucid_scan::MAX_SOURCE_BYTES;
use lucid_value::Name;
use lucid_words::{Given, Words};
use std::alloc::{AllocError, Global};

/// A call with these words that was stopped, and the source of this name that it read.
#[derive(Clone, Copy)]
pub(crate) struct Stopped<'a> {
    pub(crate) asked: &'a Words,
    pub(crate) name: &'a [u8],
    pub(crate) source: &'a [u8],
    pub(crate) stop: &'a Stop,
}

/// The names for which the words give files.
pub fn given_names(alloc: Global, given: &[Given]) -> Result<Vec<Name>, AllocError>
    ensures { IfOk result (λ names. names.items ≡ names_given (map plain_given given.now)) }
{
    let mut names = Vec::new(alloc);
    for word in given {
        names.push(word.name.copy()?)?;
    }
    Ok(names)
}

// What is said of a refusal whose fault the source doesn't have, since it has none.
fn text_of_accepted(
    alloc: Global,
    stopped: &Stopped<'_>,
    fault: Fault,
) -> Result<Vec<u8>, AllocError>
    requires { IsAccepted stopped.now.source.now }
    ensures { IfOk result (λ text. TellsFault fault stopped.now.name.now stopped.now.source.now (stop_text stopped.now.stop.now) text.items) }
{
    Vec::from_slice(alloc, stop_text(stopped.stop))
}

// What is said of a refusal by the fault of the source, which may be another.
fn text_of_refused(
    alloc: Global,
    stopped: &Stopped<'_>,
    fault: Fault,
    said: Explanation,
) -> Result<Vec<u8>, AllocError>
    requires { Explains stopped.now.name.now stopped.now.source.now said.fault said.text.items }
    ensures { IfOk result (λ text. TellsFault fault stopped.now.name.now stopped.now.source.now (stop_text stopped.now.stop.now) text.items) }
{
    if said.fault.is_same(fault) {
        Ok(said.text)
    } else {
        Vec::from_slice(alloc, stop_text(stopped.stop))
    }
}

/// What is said of a source for whose fault the call was refused.
pub(crate) fn text_of_fault(
    alloc: Global,
    stopped: &Stopped<'_>,
    fault: Fault,
) -> Result<Vec<u8>, AllocError>
    ensures { IfOk result (λ text. TellsFault fault stopped.now.name.now stopped.now.source.now (stop_text stopped.now.stop.now) text.items) }
{
    match explain_source(alloc, stopped.name, stopped.source)? {
        Some(said) => text_of_refused(alloc, stopped, fault, said),
        None => text_of_accepted(alloc, stopped, fault),
    }
}

/// What is said of inputs without a file.
pub(crate) fn text_of_inputs(
    alloc: Global,
    asked: &Words,
    source: &[u8],
) -> Result<Vec<u8>, AllocError>
    ensures { IfOk result (λ text. TellsInputs source.now (names_given (plain_words asked.now).given) text.items) }
{
    let given = given_names(alloc, &asked.given)?;
    explain_inputs(alloc, source, &given)
}

/// What is said of a file for a name that is no input.
pub(crate) fn text_of_free(alloc: Global, stopped: &Stopped<'_>) -> Result<Vec<u8>, AllocError>
    ensures { IfOk result (λ text. (said : List ℕ) × TellsFree stopped.now.source.now said × (text.items ≡ stop_text stopped.now.stop.now ++ said)) }
{
    let said = explain_free(alloc, stopped.source)?;
    let mut text = Vec::from_slice(alloc, stop_text(stopped.stop))?;
    text.extend_from_slice(&said)?;
    Ok(text)
}

// Appends a place, where it is one of a source that isn't too long.
fn put_within(text: &mut Vec<u8>, name: &[u8], source: &[u8], at: u32) -> Result<(), AllocError>
    ensures { OnOk result (text.new.items ≡ text.old.items ++ place_said name.now source.now at) }
{
    if at as usize <= source.len() && source.len() <= MAX_SOURCE_BYTES {
        put_place(text, name, source, at as usize)
    } else {
        Ok(())
    }
}

/// What is said of a place at which a source isn't judged.
pub(crate) fn text_of_place(
    alloc: Global,
    stopped: &Stopped<'_>,
    at: u32,
) -> Result<Vec<u8>, AllocError>
    ensures { IfOk result (λ text. text.items ≡ place_said stopped.now.name.now stopped.now.source.now at ++ stop_text stopped.now.stop.now) }
{
    let mut text = Vec::new(alloc);
    put_within(&mut text, stopped.name, stopped.source, at)?;
    text.extend_from_slice(stop_text(stopped.stop))?;
    Ok(text)
}

/// What is said of a value that is too deep at the time, and what is noted of the source: mostly of a search that finds nothing.
pub(crate) fn text_of_time(
    alloc: Global,
    stopped: &Stopped<'_>,
    time: u64,
) -> Result<Vec<u8>, AllocError>
    ensures { IfOk result (λ text. (said : List ℕ) × (note : List ℕ)
        × TellsDepth stopped.now.source.now (plain_words stopped.now.asked.now).depth time said
        × TellsNote stopped.now.name.now stopped.now.source.now note
        × (text.items ≡ said ++ (stop_text stopped.now.stop.now ++ note))) }
{
    let limit = stopped.asked.options.depth;
    let note = text_of_notes(alloc, stopped.name, stopped.source)?;
    let mut text = explain_depth(alloc, stopped.source, TooDeep { limit, time })?;
    text.extend_from_slice(stop_text(stopped.stop))?;
    text.extend_from_slice(&note)?;
    Ok(text)
}
