//! Which bytes are blanks, words and strings; words and strings made from bytes.
ghost use Rattle.std.specs.Prelude.{◌≡◌, ◌&&◌, IfOk, IsErrOf, IsTrue, not, ◌↔◌};
ghost use Rattle.lucid_value.specs.declared.bytes.MakeRefusal.TheVariants.{NoMemory};
ghost use Rattle.std.specs.List.{list_all};
ghost use Rattle.std.specs.Char.{is_ascii_alphanumeric};
ghost use Rattle.lucid_value.specs.Plain.{is_word, is_wordlike, spells_constant, is_text, is_text_byte, is_light};
ghost use Rattle.lucid_value.specs.Reading.{is_blank};

use crate::{MAX_WEIGHT, Text, Word};
use std::alloc::{AllocError, Global};
use std::rc::Rc;
use thiserror::Error;

/// Why bytes were not made into a word, a string or a name.
#[derive(Debug, Drop, Error)]
pub enum MakeRefusal {
    /// The bytes break the rule of that type.
    #[error("the bytes break the rule of the type")]
    NotThat,
    /// Want of memory.
    #[error("no memory")]
    NoMemory,
}

impl From<AllocError> for MakeRefusal {
    ghost from_gives = { λ _ made. made ≡ NoMemory };

    fn from(_error: AllocError) -> MakeRefusal {
        MakeRefusal::NoMemory
    }
}

/// Whether the byte is a blank: a tab, a line feed, a carriage return or a space.
pub fn is_blank(byte: u8) -> bool
    ensures { result ≡ is_blank byte }
{
    byte == b'\t' || byte == b'\n' || byte == b'\r' || byte == b' '
}

fn spells_constant(bytes: &[u8]) -> bool
    ensures { result ≡ spells_constant bytes.now }
{
    bytes == b"true".as_slice()
        || bytes == b"false".as_slice()
        || bytes == b"eod".as_slice()
        || bytes == b"error".as_slice()
}

fn are_alphanumeric(bytes: &[u8]) -> bool
    ensures { result ≡ list_all is_ascii_alphanumeric bytes.now }
{
    bytes.iter().all(|b| b.is_ascii_alphanumeric())
}

pub(crate) fn looks_like_word(bytes: &[u8]) -> bool
    ensures { result ≡ is_wordlike bytes.now }
{
    match bytes {
        [] => false,
        [first, rest @ ..] => first.is_ascii_alphabetic() && are_alphanumeric(rest),
    }
}

/// Whether the bytes are those of a word.
pub fn can_be_word(bytes: &[u8]) -> bool
    ensures { result ≡ (is_word bytes.now && is_light bytes.now) }
{
    looks_like_word(bytes) && !spells_constant(bytes) && bytes.len() < MAX_WEIGHT as usize
}

/// Whether the byte may stand in a string.
pub fn is_text_byte(byte: u8) -> bool
    ensures { result ≡ is_text_byte byte }
{
    byte >= 32 && byte <= 126 && byte != b'`' && byte != b'\''
}

fn looks_like_text(bytes: &[u8]) -> bool
    ensures { result ≡ is_text bytes.now }
{
    bytes.iter().all(|b| is_text_byte(*b))
}

/// Whether the bytes are those of a string.
pub fn can_be_text(bytes: &[u8]) -> bool
    ensures { result ≡ (is_text bytes.now && is_light bytes.now) }
{
    looks_like_text(bytes) && bytes.len() < MAX_WEIGHT as usize
}

impl Word {
    /// The word of these bytes.
    pub fn make(alloc: Global, bytes: &[u8]) -> Result<Word, MakeRefusal>
        ensures made { IfOk result (λ word. word ≡ bytes.now) }
        ensures refused { IsErrOf result MakeRefusal.NotThat ↔ IsTrue (not (is_word bytes.now && is_light bytes.now)) }
    {
        if !can_be_word(bytes) {
            return Err(MakeRefusal::NotThat);
        }
        let kept = Vec::from_slice(alloc, bytes)?;
        let bytes = Rc::new(alloc, kept).map_err(AllocError::from)?;
        Ok(Word { bytes })
    }
}

impl Text {
    /// The string of these bytes.
    pub fn make(alloc: Global, bytes: &[u8]) -> Result<Text, MakeRefusal>
        ensures made { IfOk result (λ text. text ≡ bytes.now) }
        ensures refused { IsErrOf result MakeRefusal.NotThat ↔ IsTrue (not (is_text bytes.now && is_light bytes.now)) }
    {
        if !can_be_text(bytes) {
            return Err(MakeRefusal::NotThat);
        }
        let kept = Vec::from_slice(alloc, bytes)?;
        let bytes = Rc::new(alloc, kept).map_err(AllocError::from)?;
        Ok(Text { bytes })
    }
}
