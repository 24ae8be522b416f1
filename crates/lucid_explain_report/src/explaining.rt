//! What explains why a call was stopped.
ghost use Rattle.std.specs.Prelude.{◌≡◌, map, IfOk};
ghost use Rattle.std.specs.String.{string_bytes};
ghost use Rattle.lucid_words.specs.Asked.{plain_words};
ghost use Rattle.lucid_words.specs.Plain.{plain_source};
ghost use Rattle.lucid_explain_report.specs.Causes.{cause_of};
ghost use Rattle.lucid_explain_report.specs.Notes.{TellsNote};
ghost use Rattle.lucid_explain_report.specs.Said.{name_in, SaysBy, Says, IsExplanation};

use crate::causes::{Cause, cause_of};
use crate::faults::text_of_faults;
use crate::judgments::text_of_judgment;
use crate::notes::text_of_notes;
use crate::outlook::Outlook;
use crate::sources::{
    Stopped, text_of_fault, text_of_free, text_of_inputs, text_of_place, text_of_time,
};
use crate::stops::stop_text;
use crate::usage::text_of_words;
use lucid_explain_source::explain_columns;
use lucid_report::Stop;
use lucid_words::{Source, Words, WordsRefusal, read_words};
use std::alloc::{AllocError, Global};

// The name of the source's file; a made program has none.
fn name_of(source: &Source) -> &[u8]
    ensures { result.now ≡ name_in (plain_source source.now) }
{
    match source {
        Source::File(name) => name.as_bytes(),
        Source::Made(_) => &[],
    }
}

// What is said of the stop, by what explains it.
fn text_by<F: Outlook>(
    alloc: Global,
    stopped: &Stopped<'_>,
    outlook: &F,
) -> Result<Vec<u8>, AllocError>
    ensures { IfOk result (λ text. SaysBy (cause_of (plain_words stopped.now.asked.now) stopped.now.stop.now) (F.files outlook.now)
        (plain_words stopped.now.asked.now) stopped.now.name.now stopped.now.source.now stopped.now.stop.now text.items) }
{
    match cause_of(stopped.asked, stopped.stop) {
        Cause::Source(fault) => text_of_fault(alloc, stopped, fault),
        Cause::Inputs => text_of_inputs(alloc, stopped.asked, stopped.source),
        Cause::Free => text_of_free(alloc, stopped),
        Cause::Columns => explain_columns(alloc, stopped.source),
        Cause::Place(at) => text_of_place(alloc, stopped, at),
        Cause::Depth(time) => text_of_time(alloc, stopped, time),
        Cause::Judgment(number) => text_of_judgment(alloc, stopped, number, outlook),
        Cause::Files => text_of_faults(alloc, stopped.asked, outlook),
        Cause::Alone => Vec::from_slice(alloc, stop_text(stopped.stop)),
    }
}

// What is said of a call with words that were read.
fn text_of_call<F: Outlook>(
    alloc: Global,
    asked: &Words,
    source: &[u8],
    stop: &Stop,
    outlook: &F,
) -> Result<Vec<u8>, AllocError>
    ensures { IfOk result (λ text. Says (F.files outlook.now) (plain_words asked.now) source.now stop.now text.items) }
{
    let name = name_of(&asked.source);
    let stopped = Stopped {
        asked,
        name,
        source,
        stop,
    };
    text_by(alloc, &stopped, outlook)
}

/// What explains why a call with these words was stopped, which read these bytes of its source. The file of a certificate is read again, and after a
/// read fault it is seen which files can't be read now.
pub fn explain_stop<F: Outlook>(
    alloc: Global,
    words: &[String],
    source: &[u8],
    stop: &Stop,
    outlook: &F,
) -> Result<Vec<u8>, AllocError>
    ensures { IfOk result (λ text. IsExplanation (F.files outlook.now) (map string_bytes words.now) source.now stop.now text.items) }
{
    match read_words(alloc, words) {
        Ok(asked) => text_of_call(alloc, &asked, source, stop, outlook),
        Err(WordsRefusal::Usage) => text_of_words(alloc, words),
        Err(WordsRefusal::NoMemory) => Err(AllocError),
    }
}

/// What is noted of a source that a call with these words read: a list of constants with a word in it that is spelt as a name, a sum that lags behind, a
/// block that begins once, or in a block the name whose value it freezes. The first of all is said, and nothing of more than 4096 bytes.
pub fn explain_note(alloc: Global, asked: &Words, source: &[u8]) -> Result<Vec<u8>, AllocError>
    ensures { IfOk result (λ text. TellsNote (name_in (plain_words asked.now).source) source.now text.items) }
{
    text_of_notes(alloc, name_of(&asked.source), source)
}
