//! Of what more is said behind a call.
ghost use Rattle.std.specs.Prelude.{◌≡◌, map, IfOk};
ghost use Rattle.std.specs.String.{string_bytes};
ghost use Rattle.lucid_words.specs.Asked.{plain_words, words_asked};
ghost use Rattle.lucid_explain_command.specs.Noting.{plain_noted};
ghost use Rattle.lucid_explain_command.specs.Prompted.{asks_lines};
ghost use Rattle.lucid_explain_command.specs.Behind.{lines_behind, done_behind, behind_of, wrote_lines, wrote_values, has_run, has_flat, may_note, has_count, count_said, SaysCount, NotesOf, SaysNote};

use crate::noted::Noted;
use crate::prompt::asks_lines;
use lucid_explain_report::{MOST_NOTED, explain_note};
use lucid_report::{Done, Status, Stop};
use lucid_words::{Words, WordsRefusal, read_words};
use std::alloc::{AllocError, Global};

/// Of what more is said behind a call.
#[derive(Clone, Copy)]
pub(crate) enum Behind {
    /// Where the value at a time came from.
    Value(u64),
    /// How many lines a run writes.
    Count,
    Nothing,
}

// So many lines are written where no count is given.
const COUNT: u64 = 20;

// Behind a call that is done, by how many lines it wrote.
fn lines_behind(lines: u64) -> Behind
    ensures { result ≡ lines_behind lines }
{
    if lines == 0 {
        Behind::Value(0)
    } else if lines == COUNT {
        Behind::Count
    } else {
        Behind::Nothing
    }
}

// Behind a call that ended so and wrote so many lines.
fn done_behind(status: Status, lines: u64) -> Behind
    ensures { result ≡ done_behind status lines }
{
    match status {
        Status::Done => lines_behind(lines),
        _ => Behind::Nothing,
    }
}

/// Of what more is said behind a call that ended so, by what was noted of its lines.
pub(crate) fn behind_of(status: Status, noted: Noted) -> Behind
    ensures { result ≡ behind_of status (plain_noted noted) }
{
    match noted.first {
        Some(time) => Behind::Value(time),
        None => done_behind(status, noted.lines),
    }
}

// Whether a call that ended so wrote lines.
fn wrote_lines(status: Status, lines: u64) -> bool
    ensures { result ≡ wrote_lines status lines }
{
    match status {
        Status::Done => lines != 0,
        _ => false,
    }
}

/// Whether a call that ended so wrote lines, and none that is `error`.
pub(crate) fn wrote_values(status: Status, noted: Noted) -> bool
    ensures { result ≡ wrote_values status (plain_noted noted) }
{
    noted.first.is_none() && wrote_lines(status, noted.lines)
}

// Whether a program or a table was run.
fn has_run(outcome: &Result<Done, Stop>) -> bool
    ensures { result ≡ has_run outcome.now }
{
    match outcome {
        Ok(Done::Ran { .. }) => true,
        Ok(Done::Written) | Err(_) => false,
    }
}

// Whether one of the words is `--from-flat`, or begins so.
fn has_flat(words: &[String]) -> bool
    ensures { result ≡ has_flat (map string_bytes words.now) }
{
    words
        .iter()
        .any(|word| word.as_bytes().starts_with(b"--from-flat"))
}

/// Whether something may be noted of the source of a call that wrote values. It takes no memory to know.
pub(crate) fn may_note(words: &[String], source: &[u8], outcome: &Result<Done, Stop>) -> bool
    ensures { result ≡ may_note (map string_bytes words.now) source.now outcome.now }
{
    has_run(outcome) && (!has_flat(words) && source.len() <= MOST_NOTED)
}

/// Whether one of the words is `--count`, or begins so.
pub(crate) fn has_count(words: &[String]) -> bool
    ensures { result ≡ has_count (map string_bytes words.now) }
{
    words
        .iter()
        .any(|word| word.as_bytes().starts_with(b"--count"))
}

// What is said of the number of lines.
fn count_said(asked: &Words) -> &'static [u8]
    ensures { result.now ≡ count_said (plain_words asked.now) }
{
    if asks_lines(asked) {
        b"A run writes 20 lines where no count is given: with --count N it writes N, 1000000 at most.\n"
    } else {
        b""
    }
}

/// What is said of the number of lines of a call with these words, none of which gives it.
pub(crate) fn text_of_count(alloc: Global, words: &[String]) -> Result<Vec<u8>, AllocError>
    ensures { IfOk result (λ text. SaysCount (map string_bytes words.now) text.items) }
{
    match read_words(alloc, words) {
        Ok(asked) => Vec::from_slice(alloc, count_said(&asked)),
        Err(WordsRefusal::Usage) => Ok(Vec::new(alloc)),
        Err(WordsRefusal::NoMemory) => Err(AllocError),
    }
}

// What is noted of the source of a call with words that were read.
fn note_of_call(alloc: Global, asked: &Words, source: &[u8]) -> Result<Vec<u8>, AllocError>
    ensures { IfOk result (λ text. NotesOf (asks_lines (plain_words asked.now)) (plain_words asked.now) source.now text.items) }
{
    if asks_lines(asked) {
        explain_note(alloc, asked, source)
    } else {
        Ok(Vec::new(alloc))
    }
}

/// What is noted of the source that a call with these words read, which wrote values.
pub(crate) fn text_of_note(
    alloc: Global,
    words: &[String],
    source: &[u8],
) -> Result<Vec<u8>, AllocError>
    ensures { IfOk result (λ text. SaysNote (map string_bytes words.now) source.now text.items) }
{
    match read_words(alloc, words) {
        Ok(asked) => note_of_call(alloc, &asked, source),
        Err(WordsRefusal::Usage) => Ok(Vec::new(alloc)),
        Err(WordsRefusal::NoMemory) => Err(AllocError),
    }
}
