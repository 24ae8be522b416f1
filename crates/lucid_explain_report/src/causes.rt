//! What explains why a call was stopped.
ghost use Rattle.std.specs.Prelude.{◌≡◌};
ghost use Rattle.lucid_words.specs.Asked.{plain_words};
ghost use Rattle.lucid_words.specs.Plain.{plain_source};
ghost use Rattle.lucid_explain_report.specs.Causes.{fault_of, program_cause, refusal_cause, source_cause, other_cause, of_columns, is_file, reads_source, asks_columns, file_cause, cause_of};

use lucid_explain_source::Fault;
use lucid_report::{Refusal, Stop};
use lucid_words::{Source, Words};

/// What explains why a call was stopped.
#[derive(Clone, Copy)]
pub(crate) enum Cause {
    /// The fault of its source.
    Source(Fault),
    /// The inputs of its program without a file.
    Inputs,
    /// All its inputs.
    Free,
    /// The names that may be columns.
    Columns,
    /// A place at which the source isn't judged.
    Place(u32),
    /// What `--cycles` says of the source, for a time.
    Depth(u64),
    /// The judgment of this number, and the piece of the source that it is of.
    Judgment(u64),
    /// The files that can't be read.
    Files,
    /// Nothing more than the reason.
    Alone,
}

// The fault of a source for which a call is refused.
fn fault_of(refusal: &Refusal) -> Option<Fault>
    ensures { result ≡ fault_of refusal.now }
{
    match refusal {
        Refusal::TooLong => Some(Fault::TooLong),
        Refusal::BadByte { at } => Some(Fault::BadByte { at: *at }),
        Refusal::OpenText { at } => Some(Fault::OpenText { at: *at }),
        Refusal::BigNumber { at } => Some(Fault::BigNumber { at: *at }),
        Refusal::Syntax { at } => Some(Fault::Syntax { at: *at }),
        Refusal::TooNested { at } => Some(Fault::TooNested { at: *at }),
        Refusal::Twice { at } => Some(Fault::Twice { at: *at }),
        Refusal::NoFunction { at } => Some(Fault::NoFunction { at: *at }),
        Refusal::NotFunction { at } => Some(Fault::NotFunction { at: *at }),
        Refusal::IsFunction { at } => Some(Fault::IsFunction { at: *at }),
        Refusal::Arity { at, wanted, given } => Some(Fault::Arity {
            at: *at,
            wanted: *wanted,
            given: *given,
        }),
        _ => None,
    }
}

// What explains a refusal of a call whose source is accepted.
fn program_cause(refusal: &Refusal) -> Cause
    ensures { result ≡ program_cause refusal.now }
{
    match refusal {
        Refusal::NoColumn { .. } => Cause::Columns,
        Refusal::NotJudged { at } => Cause::Place(*at),
        Refusal::NoInput => Cause::Inputs,
        Refusal::NotFree { .. } => Cause::Free,
        _ => Cause::Alone,
    }
}

// What explains a refusal.
fn refusal_cause(refusal: &Refusal) -> Cause
    ensures { result ≡ refusal_cause refusal.now }
{
    match fault_of(refusal) {
        Some(fault) => Cause::Source(fault),
        None => program_cause(refusal),
    }
}

// What explains a stop of a call whose source is that of a program.
fn source_cause(stop: &Stop) -> Cause
    ensures { result ≡ source_cause stop.now }
{
    match stop {
        Stop::Refused(refusal) => refusal_cause(refusal),
        Stop::ReadFault => Cause::Files,
        Stop::TooDeep { time, .. } => Cause::Depth(*time),
        Stop::Wrong { judgment } => Cause::Judgment(*judgment),
        Stop::WriteFault | Stop::TooLarge { .. } | Stop::NoMemory => Cause::Alone,
    }
}

// What explains a stop of another call.
fn other_cause(stop: &Stop) -> Cause
    ensures { result ≡ other_cause stop.now }
{
    match stop {
        Stop::ReadFault => Cause::Files,
        _ => Cause::Alone,
    }
}

// What of it explains a call for columns, which doesn't run its source.
fn of_columns(cause: Cause) -> Cause
    ensures { result ≡ of_columns cause }
{
    match cause {
        Cause::Inputs | Cause::Free | Cause::Depth(_) => Cause::Alone,
        other => other,
    }
}

// Whether the source is that in a file.
fn is_file(source: &Source) -> bool
    ensures { result ≡ is_file (plain_source source.now) }
{
    match source {
        Source::File(_) => true,
        Source::Made(_) => false,
    }
}

// Whether the words name the file of a program in source form.
fn reads_source(asked: &Words) -> bool
    ensures { result ≡ reads_source (plain_words asked.now) }
{
    is_file(&asked.source) && !asked.from_flat
}

/// Whether the words ask for columns.
pub fn asks_columns(asked: &Words) -> bool
    ensures { result ≡ asks_columns (plain_words asked.now) }
{
    !asked.columns.is_empty()
}

// What explains a stop of a call for a program, or for columns of it.
fn file_cause(asked: &Words, stop: &Stop) -> Cause
    ensures { result ≡ file_cause (plain_words asked.now) stop.now }
{
    if asks_columns(asked) {
        of_columns(source_cause(stop))
    } else {
        source_cause(stop)
    }
}

/// What explains why a call with these words was stopped.
pub(crate) fn cause_of(asked: &Words, stop: &Stop) -> Cause
    ensures { result ≡ cause_of (plain_words asked.now) stop.now }
{
    if reads_source(asked) {
        file_cause(asked, stop)
    } else {
        other_cause(stop)
    }
}
