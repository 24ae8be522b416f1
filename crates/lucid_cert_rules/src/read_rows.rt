//! The rows of a certificate, each read from its line.
ghost use Rattle.std.specs.Prelude.{◌≡◌, ◌^◌, IfOk};
ghost use Rattle.std.specs.Option.{option_copied, option_map};
ghost use Rattle.lucid_texts.specs.Words.{words_of, words_left, take_number};
ghost use Rattle.lucid_cert_rules.specs.Certificates.{plain_judgment};
ghost use Rattle.lucid_cert_rules.specs.WhyText.{context_row, judgment_row};
ghost use Rattle.lucid_cert_rules.specs.WordsRead.{call_of, frozen_of, context_of, front_of};
ghost use Rattle.lucid_cert_rules.specs.RowLines.{plain_row, IsRowOf, IsTailOf};

use crate::rows::{ContextRow, JudgmentRow};
use lucid_lists::Numbers;
use lucid_texts::{at_end, cut, next_number, read_text};
use std::alloc::{AllocError, Global};

// Numbers of rows are below the first, times and spaces below the second.
const BOUND: u64 = 4_294_967_296;

const LAST_BOUND: u64 = 9_223_372_036_854_775_808;

/// A row of a certificate.
#[derive(Drop)]
pub(crate) enum Row {
    Context(ContextRow),
    Judgment(JudgmentRow),
}

// The number of 32 bits that the next word is, and what is left behind it.
fn next_small(rest: Option<&[u8]>) -> Option<(u32, Option<&[u8]>)>
    ensures { option_map (λ x. (x.0, words_left (option_copied x.1))) result ≡ take_number (2 ^ 32) (words_left (option_copied rest.entry)) }
{
    let (n, rest) = next_number(rest, BOUND)?;
    Some((n as u32, rest))
}

#[tactic(auto, unfolding(crate::specs::WordsRead::call_of))]
fn read_call(tail: &[u8]) -> Option<ContextRow>
    ensures { result ≡ call_of (words_of tail.now) }
{
    let (base, rest) = next_small(Some(tail))?;
    let (place, rest) = next_small(rest)?;
    let (caller, rest) = next_small(rest)?;
    if !at_end(rest) {
        return None;
    }
    Some(ContextRow::Call {
        base,
        place,
        caller,
    })
}

#[tactic(auto, unfolding(crate::specs::WordsRead::frozen_of))]
fn read_frozen(tail: &[u8]) -> Option<ContextRow>
    ensures { result ≡ frozen_of (words_of tail.now) }
{
    let (base, rest) = next_small(Some(tail))?;
    let (time, rest) = next_number(rest, LAST_BOUND)?;
    if !at_end(rest) {
        return None;
    }
    Some(ContextRow::Frozen { base, time })
}

// The row of a context, by its first word and the bytes behind its blank.
#[tactic(auto, unfolding(crate::specs::WordsRead::context_of))]
fn read_context(word: &[u8], tail: &[u8]) -> Option<ContextRow>
    ensures { result ≡ context_of word.now tail.now }
{
    if word == b"c".as_slice() {
        return read_call(tail);
    }
    if word == b"z".as_slice() {
        return read_frozen(tail);
    }
    None
}

/// The numbers of a judgment in front of its uses.
#[derive(Clone, Copy)]
pub(crate) struct Front {
    node: u32,
    context: u32,
    time: u64,
    space: u64,
    count: u64,
}

#[tactic(auto, unfolding(crate::specs::WordsRead::front_of))]
fn read_front(tail: &[u8]) -> Option<(Front, Option<&[u8]>)>
    ensures { option_map (λ x. (x.0, words_left (option_copied x.1))) result ≡ front_of (words_of tail.now) }
{
    let (node, rest) = next_small(Some(tail))?;
    let (context, rest) = next_small(rest)?;
    let (time, rest) = next_number(rest, LAST_BOUND)?;
    let (space, rest) = next_number(rest, LAST_BOUND)?;
    let (count, rest) = next_number(rest, BOUND)?;
    let front = Front {
        node,
        context,
        time,
        space,
        count,
    };
    Some((front, rest))
}

// The judgment that stands behind the first word of its line.
fn read_judgment(alloc: Global, tail: &[u8]) -> Result<Option<JudgmentRow>, AllocError>
    ensures { IfOk result (λ read. IsTailOf tail.now (option_map plain_judgment read)) }
{
    let Some((front, words)) = read_front(tail) else {
        return Ok(None);
    };
    let mut uses = Vec::new(alloc);
    let mut rest = words;
    while (uses.len() as u64) < front.count {
        let Some((number, behind)) = next_number(rest, BOUND) else {
            return Ok(None);
        };
        uses.push(number)?;
        rest = behind;
    }
    let Some(text) = rest else {
        return Ok(None);
    };
    let Some(value) = read_text(alloc, text)? else {
        return Ok(None);
    };
    Ok(Some(JudgmentRow {
        node: front.node,
        context: front.context,
        time: front.time,
        space: front.space,
        uses: Numbers::from_vec(uses),
        value,
    }))
}

impl Row {
    fn of_context(read: Option<ContextRow>) -> Option<Row>
        ensures { option_map plain_row result ≡ option_map context_row read }
    {
        read.map(Row::Context)
    }

    fn of_judgment(read: Option<JudgmentRow>) -> Option<Row>
        ensures { option_map plain_row result ≡ option_map judgment_row (option_map plain_judgment read) }
    {
        read.map(Row::Judgment)
    }
}

/// The row of a line, if it is one's.
pub(crate) fn read_row(alloc: Global, line: &[u8]) -> Result<Option<Row>, AllocError>
    ensures { IfOk result (λ read. IsRowOf line.now (option_map plain_row read)) }
{
    let Some((word, tail)) = cut(line, b' ') else {
        return Ok(None);
    };
    if word == b"j".as_slice() {
        return Ok(Row::of_judgment(read_judgment(alloc, tail)?));
    }
    Ok(Row::of_context(read_context(word, tail)))
}
