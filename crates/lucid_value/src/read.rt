//! Reading values from bytes.
ghost use Rattle.std.specs.Prelude.{◌≡◌, List, ℕ, [], ◌∷◌, ◌++◌, reverse, IfOk, IsErrOf, MatchOption};
ghost use Rattle.lucid_value.specs.declared.read.ReadRefusal.TheVariants.{NoMemory};
ghost use Rattle.lucid_value.specs.View.{plain};
ghost use Rattle.lucid_value.specs.Reading.{Reads, ReadsLine, ReadsAsNone};
ghost use Rattle.lucid_value.specs.Trimming.{after_blanks, IsUnquoted, IsRead};

use crate::Value;
use crate::atoms::{read_atom, read_text};
use crate::bytes::is_blank;
use crate::list_scan::{opened, scan_list};
use std::alloc::{AllocError, Global};
use thiserror::Error;

/// Why bytes were not read as a value.
#[derive(Debug, Drop, Error)]
pub enum ReadRefusal {
    /// The bytes read as no value.
    #[error("the bytes are no value")]
    NotValue,
    /// Want of memory.
    #[error("no memory")]
    NoMemory,
}

impl From<AllocError> for ReadRefusal {
    ghost from_gives = { λ _ made. made ≡ NoMemory };

    fn from(_error: AllocError) -> ReadRefusal {
        ReadRefusal::NoMemory
    }
}

// The bytes without the blanks in front.
fn trim_start(bytes: &[u8]) -> &[u8]
    ensures { result.now ≡ after_blanks bytes.now }
{
    let mut rest = bytes;
    while let Some((first, tail)) = rest.split_first() {
        if !is_blank(*first) {
            break;
        }
        rest = tail;
    }
    rest
}

// The bytes without the blanks at the end.
fn trim_end(bytes: &[u8]) -> &[u8]
    ensures { reverse result.now ≡ after_blanks (reverse bytes.now) }
{
    let mut rest = bytes;
    while let Some((last, front)) = rest.split_last() {
        if !is_blank(*last) {
            break;
        }
        rest = front;
    }
    rest
}

// The bytes between two quotes.
#[tactic(auto, using(crate::proofs::Quotes::no_quotes_nil, crate::proofs::Quotes::no_quotes_one, crate::proofs::Quotes::no_first_quote, crate::proofs::Quotes::no_last_quote))]
fn unquoted(bytes: &[u8]) -> Option<&[u8]>
    ensures { MatchOption result (IsUnquoted bytes.now) (λ inner. bytes.now ≡ 96 ∷ (inner.now ++ 39 ∷ [])) }
{
    let Some((first, rest)) = bytes.split_first() else {
        return None;
    };
    let Some((last, inner)) = rest.split_last() else {
        return None;
    };
    if *first != b'`' || *last != b'\'' {
        return None;
    }
    Some(inner)
}

// The value that the bytes read as, without blanks around them.
#[tactic(auto, using(crate::proofs::Readings::text_read, crate::proofs::Readings::text_unread, crate::proofs::Readings::list_read, crate::proofs::Readings::list_unread, crate::proofs::Readings::list_longer, crate::proofs::Readings::atom_is_read, crate::proofs::Readings::atom_unread))]
fn read_bytes(alloc: Global, bytes: &[u8]) -> Result<Option<Value>, AllocError>
    ensures { IfOk result (λ read. IsRead read bytes.now) }
{
    if let Some(inner) = unquoted(bytes) {
        return read_text(alloc, inner);
    }
    let Some(tail) = opened(bytes) else {
        return read_atom(alloc, bytes);
    };
    match scan_list(alloc, tail)? {
        Some(front) => {
            if front.len != tail.len() {
                return Ok(None);
            }
            front.list.keeps_rules();
            Ok(Some(Value::List(front.list)))
        }
        None => Ok(None),
    }
}

/// The value that a line reads as, blanks at both ends ignored.
#[tactic(auto, using(crate::proofs::Trimmed::trimmed_reads, crate::proofs::Trimmed::trimmed_unread))]
pub fn read_value(alloc: Global, line: &[u8]) -> Result<Value, ReadRefusal>
    ensures read { IfOk result (λ value. ReadsLine line.now (plain value)) }
    ensures refused { IsErrOf result ReadRefusal.NotValue → ReadsAsNone line.now }
{
    match read_bytes(alloc, trim_end(trim_start(line)))? {
        Some(value) => Ok(value),
        None => Err(ReadRefusal::NotValue),
    }
}
