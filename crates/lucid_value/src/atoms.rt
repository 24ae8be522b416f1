//! Values whose bytes hold no other value: constants, words, integers and strings.
ghost use Rattle.std.specs.Prelude.{◌≡◌, ◌&&◌, IfOk};
ghost use Rattle.std.specs.Option.{option_map};
ghost use Rattle.std.specs.List.{list_all};
ghost use Rattle.std.specs.Char.{is_ascii_digit};
ghost use Rattle.lucid_value.specs.Plain.{int, is_word, is_text};
ghost use Rattle.lucid_value.specs.View.{plain};
ghost use Rattle.lucid_value.specs.Reading.{is_number};
ghost use Rattle.lucid_value.specs.ListScan.{is_integerlike, integer_value, word_value, atom_value, text_value};

use crate::bytes::looks_like_word;
use crate::{MakeRefusal, Text, Value, Word};
use std::alloc::{AllocError, Global};

fn are_digits(bytes: &[u8]) -> bool
    ensures { result ≡ list_all is_ascii_digit bytes.now }
{
    bytes.iter().all(|b| b.is_ascii_digit())
}

fn is_number(bytes: &[u8]) -> bool
    ensures { result ≡ is_number bytes.now }
{
    !bytes.is_empty() && are_digits(bytes)
}

// Digits, with a minus in front or without.
fn looks_like_integer(bytes: &[u8]) -> bool
    ensures { result ≡ is_integerlike bytes.now }
{
    match bytes {
        [] => false,
        [first, rest @ ..] => {
            if *first == b'-' {
                is_number(rest)
            } else {
                is_number(bytes)
            }
        }
    }
}

// The integer that the bytes write.
#[tactic(auto, using(crate::proofs::AtomValues::integer_unlike, crate::proofs::AtomValues::integer_utf8, crate::proofs::AtomValues::integer_parsed))]
fn read_integer(bytes: &[u8]) -> Option<i128>
    ensures { option_map int result ≡ integer_value bytes.now }
{
    if !looks_like_integer(bytes) {
        return None;
    }
    match std::str::from_utf8(bytes) {
        Ok(text) => i128::from_str_radix(text, 10).ok(),
        Err(_) => None,
    }
}

#[tactic(auto, unfolding(crate::specs::ListScan::word_value))]
fn read_word(alloc: Global, bytes: &[u8]) -> Result<Option<Value>, AllocError>
    ensures { IfOk result (λ read. option_map plain read ≡ word_value bytes.now) }
{
    match Word::make(alloc, bytes) {
        Ok(word) => Ok(Some(Value::Word(word))),
        Err(MakeRefusal::NotThat) => Ok(None),
        Err(MakeRefusal::NoMemory) => Err(AllocError),
    }
}

/// The value that bytes without quotes, marks and blanks write.
#[tactic(auto, unfolding(crate::specs::ListScan::atom_value))]
pub fn read_atom(alloc: Global, bytes: &[u8]) -> Result<Option<Value>, AllocError>
    ensures { IfOk result (λ read. option_map plain read ≡ atom_value bytes.now) }
{
    if bytes == b"true".as_slice() {
        return Ok(Some(Value::Truth(true)));
    }
    if bytes == b"false".as_slice() {
        return Ok(Some(Value::Truth(false)));
    }
    if bytes == b"eod".as_slice() {
        return Ok(Some(Value::Eod));
    }
    if bytes == b"error".as_slice() {
        return Ok(Some(Value::Fault));
    }
    if looks_like_word(bytes) {
        return read_word(alloc, bytes);
    }
    match read_integer(bytes) {
        Some(n) => Ok(Some(Value::Int(n))),
        None => Ok(None),
    }
}

/// The string of the bytes between two quotes.
#[tactic(auto, unfolding(crate::specs::ListScan::text_value))]
pub fn read_text(alloc: Global, bytes: &[u8]) -> Result<Option<Value>, AllocError>
    ensures { IfOk result (λ read. option_map plain read ≡ text_value bytes.now) }
{
    match Text::make(alloc, bytes) {
        Ok(text) => Ok(Some(Value::Text(text))),
        Err(MakeRefusal::NotThat) => Ok(None),
        Err(MakeRefusal::NoMemory) => Err(AllocError),
    }
}
