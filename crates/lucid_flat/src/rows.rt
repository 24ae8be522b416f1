//! The rows of the flat form, each read from its line.
ghost use Rattle.std.specs.Prelude.{◌≡◌, ◌++◌, ◌∷◌, IfOk};
ghost use Rattle.std.specs.Option.{option_map};
ghost use Rattle.std.specs.Str.{bytes_eq};
ghost use Rattle.lucid_texts.specs.Words.{words_of};
ghost use Rattle.lucid_flat.specs.RowTails.{kind_of, scope_of, node_row_of, entry_of, name_of, place_of, root_of, input_of, tail_row};
ghost use Rattle.lucid_flat.specs.RowLines.{plain_row, IsRowOf};

use crate::forms::read_node;
use crate::words::{all_numbers, exactly, next_number};
use lucid_equations::{Entry, NameRow, NodeRow, PlaceRow, ScopeKind, ScopeRow};
use lucid_texts::{at_end, cut, next_word, read_text};
use lucid_value::{MakeRefusal, Name, Value};
use std::alloc::{AllocError, Global};

/// A row of a table: any but that of scope 0, which no line has.
#[derive(Drop)]
pub(crate) enum Row {
    Scope(ScopeRow),
    Input(Name),
    Constant(Value),
    Node(NodeRow),
    Name(NameRow),
    Place(PlaceRow),
    Root(u32),
}

// The kind of a scope that isn't the root.
fn kind_of(word: &[u8]) -> Option<ScopeKind>
    ensures { result ≡ kind_of word.now }
{
    if word == b"called".as_slice() {
        return Some(ScopeKind::Called);
    }
    if word == b"frozen".as_slice() {
        return Some(ScopeKind::Frozen);
    }
    None
}

#[tactic(auto, unfolding(crate::specs::RowTails::scope_of))]
fn read_scope(tail: &[u8]) -> Option<ScopeRow>
    ensures { result ≡ scope_of (words_of tail.now) }
{
    let (parent, rest) = next_number(Some(tail))?;
    let (word, rest) = next_word(rest)?;
    let kind = kind_of(word)?;
    if !at_end(rest) {
        return None;
    }
    Some(ScopeRow { parent, kind })
}

#[tactic(auto, unfolding(crate::specs::RowTails::input_of))]
fn read_input(alloc: Global, tail: &[u8]) -> Result<Option<Name>, AllocError>
    ensures { IfOk result (λ read. read ≡ input_of tail.now) }
{
    match Name::make(alloc, tail) {
        Ok(name) => Ok(Some(name)),
        Err(MakeRefusal::NotThat) => Ok(None),
        Err(MakeRefusal::NoMemory) => Err(AllocError),
    }
}

#[tactic(auto, unfolding(crate::specs::RowTails::node_row_of))]
fn read_node_row(tail: &[u8]) -> Option<NodeRow>
    ensures { result ≡ node_row_of (words_of tail.now) }
{
    let (scope, rest) = next_number(Some(tail))?;
    let node = read_node(rest)?;
    Some(NodeRow { scope, node })
}

// What a name of this kind is, with its number.
fn entry_of(word: &[u8], number: u32) -> Option<Entry>
    ensures { result ≡ entry_of word.now number }
{
    if word == b"plain".as_slice() {
        return Some(Entry::Plain { body: number });
    }
    if word == b"parameter".as_slice() {
        return Some(Entry::Parameter { index: number });
    }
    if word == b"current".as_slice() {
        return Some(Entry::Current { body: number });
    }
    if word == b"called".as_slice() {
        return Some(Entry::Called { body: number });
    }
    None
}

// The row of a name, where the word is one of the four kinds.
#[tactic(auto, unfolding(crate::specs::RowTails::name_of))]
fn read_name(word: &[u8], tail: &[u8]) -> Option<NameRow>
    ensures { result ≡ name_of word.now (words_of tail.now) }
{
    let numbers = exactly(2, Some(tail))?;
    let kind = entry_of(word, numbers.second)?;
    let scope = numbers.first;
    Some(NameRow { scope, kind })
}

#[tactic(auto, unfolding(crate::specs::RowTails::place_of))]
fn read_place(alloc: Global, tail: &[u8]) -> Result<Option<PlaceRow>, AllocError>
    ensures { IfOk result (λ read. read ≡ place_of (words_of tail.now)) }
{
    let Some((scope, rest)) = next_number(Some(tail)) else {
        return Ok(None);
    };
    let Some((name, rest)) = next_number(rest) else {
        return Ok(None);
    };
    match all_numbers(alloc, rest)? {
        Some(actuals) => Ok(Some(PlaceRow {
            scope,
            name,
            actuals,
        })),
        None => Ok(None),
    }
}

#[tactic(auto, unfolding(crate::specs::RowTails::root_of))]
fn read_root(tail: &[u8]) -> Option<u32>
    ensures { result ≡ root_of (words_of tail.now) }
{
    let numbers = exactly(1, Some(tail))?;
    Some(numbers.first)
}

// The row of a first word and the bytes behind its blank, if they are one's. A constant is read apart.
#[tactic(auto, unfolding(crate::specs::RowTails::tail_row))]
fn tail_row(alloc: Global, word: &[u8], tail: &[u8]) -> Result<Option<Row>, AllocError>
    ensures { IfOk result (λ read. option_map plain_row read ≡ tail_row word.now tail.now) }
{
    if word == b"scope".as_slice() {
        return Ok(read_scope(tail).map(Row::Scope));
    }
    if word == b"input".as_slice() {
        return Ok(read_input(alloc, tail)?.map(Row::Input));
    }
    if word == b"node".as_slice() {
        return Ok(read_node_row(tail).map(Row::Node));
    }
    if word == b"place".as_slice() {
        return Ok(read_place(alloc, tail)?.map(Row::Place));
    }
    if word == b"root".as_slice() {
        return Ok(read_root(tail).map(Row::Root));
    }
    Ok(read_name(word, tail).map(Row::Name))
}

/// The row of a line, if it is one's.
pub(crate) fn read_row(alloc: Global, line: &[u8]) -> Result<Option<Row>, AllocError>
    ensures { IfOk result (λ read. IsRowOf line.now (option_map plain_row read)) }
{
    let Some((word, tail)) = cut(line, b' ') else {
        return Ok(None);
    };
    if word == b"const".as_slice() {
        return Ok(read_text(alloc, tail)?.map(Row::Constant));
    }
    tail_row(alloc, word, tail)
}
