//! What is noted of a source that runs.
ghost use Rattle.std.specs.Prelude.{◌≡◌, ◌==◌, ◌≢◌, ◌≤◌, ◌++◌, length, find, IfOk, OnOk};
ghost use Rattle.std.specs.List.{list_any, slice_split};
ghost use Rattle.lucid_value.specs.Plain.{same_bytes};
ghost use Rattle.lucid_scan.specs.Refusals.{Refuses, most_source_bytes};
ghost use Rattle.lucid_explain_report.specs.Notes.{most_noted, behind, text_in, is_spelt, is_name, is_list, token_at, parts_items, has_item, is_item, note_of, has_word, is_start, is_moving, is_picking, is_timed, is_breaking, len_of_part, part, lags, is_sum, heads, any_end, outer_at, first_outer, bounds_block, len_of_block, outer_in, outer_of_part, outer_behind, loop_at, is_freeze, used_at, first_used, block_part, frozen_at, frozen_note, note_at, first_note, said_of, said_text, note_text, TellsNote};

use lucid_explain_places::put_place;
use lucid_scan::{ScanRefusal, Token, TokenKind, scan};
use lucid_value::is_blank;
use std::alloc::{AllocError, Global};

/// So many bytes a source has at most of which something is noted: each of its tokens is held against all.
pub const MOST_NOTED: usize = 4096;

/// Of what something is noted.
#[derive(Clone, Copy)]
pub(crate) enum Subject {
    /// A list of constants with a word that is spelt as a name.
    Constants,
    /// A sum that lags behind.
    Sum,
    /// A block that begins once.
    Block,
    /// A name whose value the block freezes.
    Frozen,
}

/// A note: the token at which it is shown, and the name of which it speaks.
#[derive(Clone, Copy)]
pub(crate) struct Note {
    pub(crate) subject: Subject,
    pub(crate) at: Token,
    pub(crate) name: Token,
}

// The text of a token.
fn text_in<'a>(source: &'a [u8], token: &Token) -> &'a [u8]
    ensures { result.now ≡ text_in source.entry.now token.now }
{
    let front = &source[..source.len().min(token.to as usize)];
    &front[front.len().min(token.from as usize)..]
}

fn is_spelt(source: &[u8], word: &[u8], token: &Token) -> bool
    ensures { result ≡ is_spelt source.now word.now token.now }
{
    text_in(source, token) == word
}

fn is_name(kind: TokenKind) -> bool
    ensures { result ≡ is_name kind }
{
    matches!(kind, TokenKind::Name)
}

fn is_list(kind: TokenKind) -> bool
    ensures { result ≡ is_list kind }
{
    matches!(kind, TokenKind::ListText)
}

// The token of a number, or an empty one.
fn token_at(tokens: &[Token], number: usize) -> Token
    ensures { result ≡ token_at tokens.now number }
{
    match tokens.get(number) {
        Some(token) => *token,
        None => Token {
            kind: TokenKind::Fixed,
            from: 0,
            to: 0,
        },
    }
}

// What stands behind the first tokens, so many.
fn behind(count: usize, tokens: &[Token]) -> &[Token]
    ensures { result.now ≡ behind count tokens.entry.now }
{
    &tokens[tokens.len().min(count)..]
}

// Whether this stands between the items of a list.
fn parts_items(byte: u8) -> bool
    ensures { result ≡ parts_items byte }
{
    is_blank(byte) || byte == b'[' || byte == b']' || byte == b'%'
}

// Whether a list has a string in it.
fn has_string(list: &[u8]) -> bool
    ensures { result ≡ list_any (λ b. b == 96) list.now }
{
    list.iter().any(|byte| *byte == b'`')
}

// Whether one of the parts of a list is the word.
fn has_part(list: &[u8], word: &[u8]) -> bool
    ensures { result ≡ list_any (λ part. same_bytes part word.now) (slice_split parts_items list.now) }
{
    list.split(|byte| parts_items(*byte))
        .any(|part| part == word)
}

// Whether a list has the word as an item.
fn has_item(list: &[u8], word: &[u8]) -> bool
    ensures { result ≡ has_item list.now word.now }
{
    !has_string(list) && has_part(list, word)
}

// Whether the token is a name that the list has as a word.
fn is_item(source: &[u8], list: &Token, token: &Token) -> bool
    ensures { result ≡ is_item source.now list.now token.now }
{
    is_name(token.kind) && has_item(text_in(source, list), text_in(source, token))
}

// The first such name.
fn find_item(source: &[u8], list: &Token, all: &[Token]) -> Option<Token>
    ensures { result ≡ find (is_item source.now list.now) all.now }
{
    all.iter()
        .copied()
        .find(|token| is_item(source, list, token))
}

// The note of a name, if there is one.
fn note_of(subject: Subject, at: Token, name: Option<Token>) -> Option<Note>
    ensures { result ≡ note_of subject at name }
{
    match name {
        Some(name) => Some(Note { subject, at, name }),
        None => None,
    }
}

// Whether some of the tokens is spelt so.
fn has_word(source: &[u8], word: &[u8], tokens: &[Token]) -> bool
    ensures { result ≡ has_word source.now word.now tokens.now }
{
    tokens.iter().any(|token| is_spelt(source, word, token))
}

// Whether the tokens begin with `N = X fby`, where N and X are names.
fn is_start(source: &[u8], tokens: &[Token]) -> bool
    ensures { result ≡ is_start source.now tokens.now }
{
    is_name(token_at(tokens, 0).kind)
        && is_spelt(source, b"=", &token_at(tokens, 1))
        && is_name(token_at(tokens, 2).kind)
        && is_spelt(source, b"fby", &token_at(tokens, 3))
}

// Whether the word moves in time.
fn is_moving(word: &[u8]) -> bool
    ensures { result ≡ is_moving word.now }
{
    word == b"fby".as_slice() || word == b"first".as_slice() || word == b"next".as_slice()
}

// Whether the word picks times.
fn is_picking(word: &[u8]) -> bool
    ensures { result ≡ is_picking word.now }
{
    word == b"whenever".as_slice()
        || word == b"wvr".as_slice()
        || word == b"asa".as_slice()
        || word == b"upon".as_slice()
        || word == b"attime".as_slice()
}

// Whether the word looks at another time.
fn is_timed(word: &[u8]) -> bool
    ensures { result ≡ is_timed word.now }
{
    is_moving(word) || is_picking(word)
}

// Whether some of the tokens looks at another time.
fn has_timed(source: &[u8], tokens: &[Token]) -> bool
    ensures { result ≡ list_any (λ t. is_timed (text_in source.now t)) tokens.now }
{
    tokens.iter().any(|token| is_timed(text_in(source, token)))
}

// Whether this ends a part of a definition that has no block in it.
fn is_breaking(word: &[u8]) -> bool
    ensures { result ≡ is_breaking word.now }
{
    word == b";".as_slice()
        || word == b"=".as_slice()
        || word == b"where".as_slice()
        || word == b"end".as_slice()
}

// How many tokens such a part has with which these begin.
fn len_of_part(source: &[u8], tokens: &[Token]) -> usize
    ensures value { result ≡ len_of_part source.now tokens.now }
    ensures within { result ≤ length tokens.now }
{
    tokens
        .iter()
        .take_while(|token| !is_breaking(text_in(source, token)))
        .count()
}

// Such a part, with which these begin.
fn part<'a>(source: &[u8], tokens: &'a [Token]) -> &'a [Token]
    ensures { result.now ≡ part source.now tokens.entry.now }
{
    &tokens[..len_of_part(source, tokens)]
}

// Whether both names stand on the right side, and no word that looks at another time.
fn lags(source: &[u8], name: &Token, other: &Token, right: &[Token]) -> bool
    ensures { result ≡ lags source.now name.now other.now right.now }
{
    has_word(source, text_in(source, name), right)
        && has_word(source, text_in(source, other), right)
        && !has_timed(source, right)
}

// Whether the tokens begin with a sum that lags behind.
fn is_sum(source: &[u8], all: &[Token], tokens: &[Token]) -> bool
    ensures { result ≡ is_sum source.now all.now tokens.now }
{
    is_start(source, tokens)
        && lags(
            source,
            &token_at(tokens, 0),
            &token_at(tokens, 2),
            part(source, behind(4, tokens)),
        )
        && !has_word(source, b"current", all)
}

// Whether the tokens begin with the name, and then `=`.
fn heads(source: &[u8], name: &Token, tokens: &[Token]) -> bool
    ensures { result ≡ heads source.now name.now tokens.now }
{
    is_spelt(source, text_in(source, name), &token_at(tokens, 0))
        && is_spelt(source, b"=", &token_at(tokens, 1))
}

// Whether the name is defined there.
fn defines(source: &[u8], name: &Token, block: &[Token]) -> bool
    ensures { result ≡ any_end (heads source.now name.now) block.now }
{
    let mut rest = block;
    while let Some((_, others)) = rest.split_first() {
        if heads(source, name, rest) {
            return true;
        }
        rest = others;
    }
    false
}

// The X of a definition `N = X fby ..` with which the tokens begin, where X isn't defined in the block.
fn outer_at(source: &[u8], block: &[Token], tokens: &[Token]) -> Option<Token>
    ensures { result ≡ outer_at source.now block.now tokens.now }
{
    let first = token_at(tokens, 2);
    if is_start(source, tokens) && !defines(source, &first, block) {
        Some(first)
    } else {
        None
    }
}

// The first such X.
fn first_outer(source: &[u8], block: &[Token]) -> Option<Token>
    ensures { result ≡ first_outer source.now block.now }
{
    let mut rest = block;
    while let Some((_, others)) = rest.split_first() {
        if let Some(first) = outer_at(source, block, rest) {
            return Some(first);
        }
        rest = others;
    }
    None
}

// Whether this ends the definitions of a block, or begins an inner one.
fn bounds_block(word: &[u8]) -> bool
    ensures { result ≡ bounds_block word.now }
{
    word == b"where".as_slice() || word == b"end".as_slice()
}

// How many tokens stand before that.
fn len_of_block(source: &[u8], tokens: &[Token]) -> usize
    ensures value { result ≡ len_of_block source.now tokens.now }
    ensures within { result ≤ length tokens.now }
{
    tokens
        .iter()
        .take_while(|token| !bounds_block(text_in(source, token)))
        .count()
}

// The first such X of a block that has no inner one.
fn outer_in(source: &[u8], tokens: &[Token]) -> Option<Token>
    ensures { result ≡ outer_in source.now tokens.now }
{
    let length = len_of_block(source, tokens);
    if is_spelt(source, b"end", &token_at(tokens, length)) {
        first_outer(source, &tokens[..length])
    } else {
        None
    }
}

// The same where the tokens begin with the `where` of the block.
fn outer_of_part(source: &[u8], tokens: &[Token]) -> Option<Token>
    ensures { result ≡ outer_of_part source.now tokens.now }
{
    if is_spelt(source, b"where", &token_at(tokens, 0)) {
        outer_in(source, behind(1, tokens))
    } else {
        None
    }
}

// The same behind the rest of the subject.
fn outer_behind(source: &[u8], tokens: &[Token]) -> Option<Token>
    ensures { result ≡ outer_behind source.now tokens.now }
{
    outer_of_part(source, &tokens[len_of_part(source, tokens)..])
}

// The same behind `asa`, where no name of the program is frozen.
fn loop_at(source: &[u8], all: &[Token], tokens: &[Token]) -> Option<Token>
    ensures { result ≡ loop_at source.now all.now tokens.now }
{
    if has_word(source, b"current", all) {
        None
    } else {
        outer_behind(source, behind(1, tokens))
    }
}

// Whether the tokens begin with `K is current X;`, where K and X are names.
fn is_freeze(source: &[u8], tokens: &[Token]) -> bool
    ensures { result ≡ is_freeze source.now tokens.now }
{
    is_name(token_at(tokens, 0).kind)
        && is_spelt(source, b"is", &token_at(tokens, 1))
        && is_spelt(source, b"current", &token_at(tokens, 2))
        && is_name(token_at(tokens, 3).kind)
        && is_spelt(source, b";", &token_at(tokens, 4))
}

// The X of a definition `N = X fby ..` with which the tokens begin, where it is this name.
fn used_at(source: &[u8], name: &Token, tokens: &[Token]) -> Option<Token>
    ensures { result ≡ used_at source.now name.now tokens.now }
{
    let first = token_at(tokens, 2);
    if is_start(source, tokens) && is_spelt(source, text_in(source, name), &first) {
        Some(first)
    } else {
        None
    }
}

// The first such X.
fn first_used(source: &[u8], name: &Token, block: &[Token]) -> Option<Token>
    ensures { result ≡ first_used source.now name.now block.now }
{
    let mut rest = block;
    while let Some((_, others)) = rest.split_first() {
        if let Some(used) = used_at(source, name, rest) {
            return Some(used);
        }
        rest = others;
    }
    None
}

// The tokens of a block, up to its end or to an inner one.
fn block_part<'a>(source: &[u8], tokens: &'a [Token]) -> &'a [Token]
    ensures { result.now ≡ block_part source.now tokens.entry.now }
{
    &tokens[..len_of_block(source, tokens)]
}

// The note of a K, at the X, if there is one.
fn frozen_at(at: Option<Token>, name: Token) -> Option<Note>
    ensures { result ≡ frozen_at at name }
{
    match at {
        Some(at) => Some(Note {
            subject: Subject::Frozen,
            at,
            name,
        }),
        None => None,
    }
}

// The note of a block that freezes a value of a name, and begins a definition with the first value of that name.
fn frozen_note(source: &[u8], tokens: &[Token]) -> Option<Note>
    ensures { result ≡ frozen_note source.now tokens.now }
{
    if is_freeze(source, tokens) {
        let block = block_part(source, behind(5, tokens));
        let used = first_used(source, &token_at(tokens, 3), block);
        frozen_at(used, token_at(tokens, 0))
    } else {
        None
    }
}

// What is noted where these tokens begin, of all that the source has.
fn note_at(source: &[u8], all: &[Token], tokens: &[Token]) -> Option<Note>
    ensures { result ≡ note_at source.now all.now tokens.now }
{
    let at = token_at(tokens, 0);
    if is_list(at.kind) {
        note_of(Subject::Constants, at, find_item(source, &at, all))
    } else if is_spelt(source, b"asa", &at) {
        note_of(Subject::Block, at, loop_at(source, all, tokens))
    } else if is_sum(source, all, tokens) {
        note_of(Subject::Sum, at, Some(token_at(tokens, 2)))
    } else {
        frozen_note(source, tokens)
    }
}

// The first that is noted.
fn first_note(source: &[u8], all: &[Token]) -> Option<Note>
    ensures { result ≡ first_note source.now all.now }
{
    let mut rest = all;
    while let Some((_, others)) = rest.split_first() {
        if let Some(note) = note_at(source, all, rest) {
            return Some(note);
        }
        rest = others;
    }
    None
}

// Appends three pieces with the name between them.
fn put_twice(
    text: &mut Vec<u8>,
    before: &[u8],
    name: &[u8],
    between: &[u8],
    behind: &[u8],
) -> Result<(), AllocError>
    ensures { OnOk result (text.new.items ≡ text.old.items ++ (before.now ++ (name.now ++ (between.now ++ (name.now ++ behind.now))))) }
{
    text.extend_from_slice(before)?;
    text.extend_from_slice(name)?;
    text.extend_from_slice(between)?;
    text.extend_from_slice(name)?;
    text.extend_from_slice(behind)
}

// Appends what is said of the name.
fn put_said(text: &mut Vec<u8>, subject: Subject, name: &[u8]) -> Result<(), AllocError>
    ensures { OnOk result (text.new.items ≡ text.old.items ++ said_of subject name.now) }
{
    match subject {
        Subject::Constants => put_twice(
            text,
            b"A list between [% and %] has constants: ",
            name,
            b" in it is the word ",
            b". Of computed items it is `x :: y :: []`.\n",
        ),
        Subject::Sum => put_twice(
            text,
            b"Behind `fby` stands the value for the next time, made of values of this time. If ",
            name,
            b" of that next time is meant, write `next ",
            b"` there.\n",
        ),
        Subject::Block => put_twice(
            text,
            b"`asa` gives one value for all times. A block that is to begin anew at each time has `k is current ",
            name,
            b";`, and then k in place of ",
            b".\n",
        ),
        Subject::Frozen => put_twice(
            text,
            b"Here the name goes on with the time of the block, where ",
            name,
            b" is its value at the time outside: is ",
            b" meant?\n",
        ),
    }
}

// What is said of a note.
fn text_of_some(
    alloc: Global,
    file: &[u8],
    source: &[u8],
    note: &Note,
) -> Result<Vec<u8>, AllocError>
    requires { length source.now ≤ most_source_bytes }
    ensures { IfOk result (λ text. text.items ≡ said_text file.now source.now note.now) }
{
    let at = source.len().min(note.at.from as usize);
    let mut text = Vec::new(alloc);
    put_place(&mut text, file, source, at)?;
    put_said(&mut text, note.subject, text_in(source, &note.name))?;
    Ok(text)
}

// What is said of a note, if there is one.
fn text_of_note(
    alloc: Global,
    file: &[u8],
    source: &[u8],
    note: Option<Note>,
) -> Result<Vec<u8>, AllocError>
    requires { length source.now ≤ most_source_bytes }
    ensures { IfOk result (λ text. text.items ≡ note_text file.now source.now note) }
{
    match note {
        Some(note) => text_of_some(alloc, file, source, &note),
        None => Ok(Vec::new(alloc)),
    }
}

// Nothing is said of a source that the scanner refuses.
fn text_of_none(alloc: Global, file: &[u8], source: &[u8], refusal: ScanRefusal) -> Vec<u8>
    requires known { refusal ≢ ScanRefusal.NoMemory }
    requires refused { Refuses source.now refusal }
    ensures { TellsNote file.now source.now result.items }
{
    Vec::new(alloc)
}

// What is said of a source that isn't long.
fn text_of_short(alloc: Global, file: &[u8], source: &[u8]) -> Result<Vec<u8>, AllocError>
    requires { length source.now ≤ most_noted }
    ensures { IfOk result (λ text. TellsNote file.now source.now text.items) }
{
    match scan(alloc, source) {
        Ok(tokens) => text_of_note(alloc, file, source, first_note(source, &tokens)),
        Err(ScanRefusal::NoMemory) => Err(AllocError),
        Err(refusal) => Ok(text_of_none(alloc, file, source, refusal)),
    }
}

/// What is noted of a source of this name: a list of constants with a word in it that is spelt as a name, a sum that lags behind, a block that begins once,
/// or in a block the name whose value it freezes. The first of all is said, and nothing of more than 4096 bytes.
pub(crate) fn text_of_notes(
    alloc: Global,
    file: &[u8],
    source: &[u8],
) -> Result<Vec<u8>, AllocError>
    ensures { IfOk result (λ text. TellsNote file.now source.now text.items) }
{
    if source.len() > MOST_NOTED {
        return Ok(Vec::new(alloc));
    }
    text_of_short(alloc, file, source)
}
