//! What is said behind a run that wrote `error`, or that is done and wrote no line.
ghost use Rattle.std.specs.Prelude.{◌≡◌, map, Some, None, IfOk};
ghost use Rattle.std.specs.Option.{option_copied};
ghost use Rattle.std.specs.String.{string_bytes};
ghost use Rattle.lucid_words.specs.Asked.{plain_words, words_asked};
ghost use Rattle.lucid_explain_run.specs.Prompts.{TellsPrompt};
ghost use Rattle.lucid_explain_report.specs.Said.{names_given};
ghost use Rattle.lucid_explain_command.specs.Errors.{value_file, behind_free, SaysUnmade, SaysMade, SaysOfTime, SaysError};

use crate::again::inputs_again;
use crate::certified::{Asked, certificate_of};
use crate::prompt::asks_lines;
use lucid_explain_errors::explain_error;
use lucid_explain_report::{Outlook, asks_columns, given_names};
use lucid_explain_run::explain_prompt;
use lucid_words::{Source, Words, WordsRefusal, read_words};
use std::alloc::{AllocError, Global};

// The file of the program of which a line is a value.
fn value_file(asked: &Words) -> Option<&str>
    ensures { option_copied result ≡ value_file (plain_words asked.now) }
{
    if !asks_lines(asked) || asks_columns(asked) {
        return None;
    }
    match &asked.source {
        Source::File(name) => Some(name.as_str()),
        Source::Made(_) => None,
    }
}

// What is said of the input without a file.
fn text_of_free(alloc: Global, call: &Asked<'_>) -> Result<Vec<u8>, AllocError>
    ensures { IfOk result (λ text. TellsPrompt call.now.source.now (names_given (plain_words call.now.asked.now).given) text.items) }
{
    let given = given_names(alloc, &call.asked.given)?;
    explain_prompt(alloc, call.source, &given)
}

// What is said behind the input without a file.
fn behind_free(alloc: Global, said: &[u8]) -> Result<Vec<u8>, AllocError>
    ensures { IfOk result (λ text. text.items ≡ behind_free said.now) }
{
    let mut text = Vec::new(alloc);
    if !said.is_empty() {
        text.extend_from_slice(
            b"Where the values came from isn't told: the standard input can't be read again. With NAME=FILE an input has a file.\n",
        )?;
        text.extend_from_slice(said)?;
    }
    Ok(text)
}

// What is said where no certificate is made.
fn text_unmade<F: Outlook>(
    alloc: Global,
    call: &Asked<'_>,
    outlook: &F,
) -> Result<Vec<u8>, AllocError>
    ensures { IfOk result (λ text. SaysUnmade (F.terminal outlook.now) (plain_words call.now.asked.now) call.now.source.now text.items) }
{
    if outlook.is_terminal() {
        return Ok(Vec::new(alloc));
    }
    let said = text_of_free(alloc, call)?;
    behind_free(alloc, &said)
}

// What is said by a certificate.
fn text_made<F: Outlook>(
    alloc: Global,
    call: &Asked<'_>,
    certificate: &[u8],
    outlook: &F,
) -> Result<Vec<u8>, AllocError>
    ensures { IfOk result (λ text. SaysMade (F.files outlook.now) (plain_words call.now.asked.now) call.now.name.now call.now.source.now certificate.now text.items) }
{
    let inputs = inputs_again(alloc, &call.asked.given, outlook)?;
    explain_error(
        alloc,
        call.name.as_bytes(),
        call.source,
        certificate,
        &inputs,
    )
}

// What is said by the source that was read.
fn text_of_source<F: Outlook>(
    alloc: Global,
    call: &Asked<'_>,
    outlook: &F,
) -> Result<Vec<u8>, AllocError>
    ensures { IfOk result (λ text. SaysOfTime (F.files outlook.now) (F.terminal outlook.now) (map string_bytes call.now.words.now) (plain_words call.now.asked.now) call.now.name.now call.now.source.now call.now.time text.items) }
{
    match certificate_of(alloc, call, outlook)? {
        Some(certificate) => text_made(alloc, call, &certificate, outlook),
        None => text_unmade(alloc, call, outlook),
    }
}

// What is said of the run of the program in a file.
fn text_of_run<F: Outlook>(
    alloc: Global,
    call: &Asked<'_>,
    outlook: &F,
) -> Result<Vec<u8>, AllocError>
    requires read { words_asked (map string_bytes call.now.words.now) ≡ Some (plain_words call.now.asked.now) }
    requires file { value_file (plain_words call.now.asked.now) ≡ Some call.now.name.now }
    ensures { IfOk result (λ text. SaysError (F.files outlook.now) (F.terminal outlook.now) (map string_bytes call.now.words.now) call.now.source.now call.now.time text.items) }
{
    text_of_source(alloc, call, outlook)
}

// The value at a time of a call with these words, which read this source.
#[derive(Clone, Copy)]
struct Wanted<'a> {
    words: &'a [String],
    source: &'a [u8],
    time: u64,
}

// What is said of a call with words that were read.
fn text_of_call<F: Outlook>(
    alloc: Global,
    wanted: &Wanted<'_>,
    asked: &Words,
    outlook: &F,
) -> Result<Vec<u8>, AllocError>
    requires { words_asked (map string_bytes wanted.now.words.now) ≡ Some (plain_words asked.now) }
    ensures { IfOk result (λ text. SaysError (F.files outlook.now) (F.terminal outlook.now) (map string_bytes wanted.now.words.now) wanted.now.source.now wanted.now.time text.items) }
{
    match value_file(asked) {
        Some(name) => {
            let call = Asked {
                words: wanted.words,
                asked,
                name,
                source: wanted.source,
                time: wanted.time,
            };
            text_of_run(alloc, &call, outlook)
        }
        None => Ok(Vec::new(alloc)),
    }
}

/// What is said behind a call with these words, which read this source, where it is asked of this time.
pub(crate) fn text_of_error<F: Outlook>(
    alloc: Global,
    words: &[String],
    source: &[u8],
    time: u64,
    outlook: &F,
) -> Result<Vec<u8>, AllocError>
    ensures { IfOk result (λ text. SaysError (F.files outlook.now) (F.terminal outlook.now) (map string_bytes words.now) source.now time text.items) }
{
    match read_words(alloc, words) {
        Ok(asked) => {
            let wanted = Wanted {
                words,
                source,
                time,
            };
            text_of_call(alloc, &wanted, &asked, outlook)
        }
        Err(WordsRefusal::Usage) => Ok(Vec::new(alloc)),
        Err(WordsRefusal::NoMemory) => Err(AllocError),
    }
}
