//! Names of a program, made from bytes.
ghost use Rattle.std.specs.Prelude.{◌≡◌, IfOk, IsErrOf, IsTrue, List, [], ◌∷◌, map, not, ◌↔◌};
ghost use Rattle.std.specs.List.{list_all, list_any};
ghost use Rattle.lucid_value.specs.Plain.{same_bytes};
ghost use Rattle.lucid_value.specs.Names.{is_name, is_namelike, is_name_byte, is_reserved, reserved_of_length};

use crate::MakeRefusal;
use std::alloc::{AllocError, Global};
use std::marker::Model;
use std::rc::Rc;

/// A name: a letter, then letters, digits and `_`, and no reserved word. It is seen as its bytes.
#[derive(Drop)]
pub struct Name {
    bytes: Rc<Vec<u8>>,
}

impl Model for Name {
    ghost use Rattle.std.specs.Prelude.{ℕ, List};

    ghost Value = { List ℕ };

    ghost use Rattle.std.specs.Prelude.{IsTrue};
    ghost use Rattle.lucid_value.specs.Names.{is_name};

    ghost view = { λ n. n.bytes.value.items };

    ghost invariant = { λ n. IsTrue (is_name n.bytes.value.items) };
}

/// Whether the byte may stand in a name: a letter, a digit or `_`.
pub fn is_name_byte(byte: u8) -> bool
    ensures { result ≡ is_name_byte byte }
{
    byte.is_ascii_alphanumeric() || byte == b'_'
}

fn are_name_bytes(bytes: &[u8]) -> bool
    ensures { result ≡ list_all is_name_byte bytes.now }
{
    bytes.iter().all(|b| is_name_byte(*b))
}

fn looks_like_name(bytes: &[u8]) -> bool
    ensures { result ≡ is_namelike bytes.now }
{
    match bytes {
        [] => false,
        [first, rest @ ..] => first.is_ascii_alphabetic() && are_name_bytes(rest),
    }
}

// The reserved words, by their number of letters.
const OF_TWO: [&[u8]; 8] = [b"is", b"if", b"fi", b"or", b"eq", b"ne", b"hd", b"tl"];

const OF_THREE: [&[u8]; 13] = [
    b"end", b"fby", b"wvr", b"asa", b"and", b"not", b"eod", b"div", b"mod", b"nth", b"abs", b"cmp",
    b"sby",
];

const OF_FOUR: [&[u8]; 6] = [b"then", b"else", b"next", b"upon", b"true", b"succ"];

const OF_FIVE: [&[u8]; 6] = [b"where", b"first", b"false", b"error", b"isint", b"iseod"];

const OF_SIX: [&[u8]; 8] = [
    b"attime", b"length", b"substr", b"mkword", b"isword", b"islist", b"isnull", b"isatom",
];

const OF_SEVEN: [&[u8]; 5] = [b"current", b"istruth", b"iserror", b"initial", b"atspace"];

const OF_EIGHT: [&[u8]; 3] = [b"whenever", b"mkstring", b"isstring"];

// The reserved words of 0, 1, .. 8 letters: there are none of more.
const WORDS_BY_LENGTH: [&[&[u8]]; 9] = [
    &[],
    &[],
    &OF_TWO,
    &OF_THREE,
    &OF_FOUR,
    &OF_FIVE,
    &OF_SIX,
    &OF_SEVEN,
    &OF_EIGHT,
];

fn words_by_length() -> &'static [&'static [&'static [u8]]]
    ensures { map (λ words. map (λ word. word.now) words.now) result.now ≡ map reserved_of_length (0 ∷ 1 ∷ 2 ∷ 3 ∷ 4 ∷ 5 ∷ 6 ∷ 7 ∷ 8 ∷ []) }
{
    &WORDS_BY_LENGTH
}

fn is_among(bytes: &[u8], words: &[&[u8]]) -> bool
    ensures { result ≡ list_any (λ word. same_bytes bytes.now word.now) words.now }
{
    words.iter().any(|word| bytes == *word)
}

/// Whether the bytes are one of the 49 reserved words.
pub fn is_reserved(bytes: &[u8]) -> bool
    ensures { result ≡ is_reserved bytes.now }
{
    match words_by_length().get(bytes.len()) {
        Some(words) => is_among(bytes, words),
        None => false,
    }
}

fn can_be_name(bytes: &[u8]) -> bool
    ensures { result ≡ is_name bytes.now }
{
    looks_like_name(bytes) && !is_reserved(bytes)
}

impl Name {
    /// The name of these bytes.
    pub fn make(alloc: Global, bytes: &[u8]) -> Result<Name, MakeRefusal>
        ensures made { IfOk result (λ name. name ≡ bytes.now) }
        ensures refused { IsErrOf result MakeRefusal.NotThat ↔ IsTrue (not (is_name bytes.now)) }
    {
        if !can_be_name(bytes) {
            return Err(MakeRefusal::NotThat);
        }
        let kept = Vec::from_slice(alloc, bytes)?;
        let bytes = Rc::new(alloc, kept).map_err(AllocError::from)?;
        Ok(Name { bytes })
    }

    /// Its bytes.
    pub fn bytes(&self) -> &[u8]
        ensures value { result.now ≡ self.now }
        ensures rule { IsTrue (is_name self.now) }
    {
        self.bytes.as_slice()
    }

    /// The same name. It takes constant time: the bytes are shared.
    pub fn copy(&self) -> Result<Name, AllocError>
        ensures { IfOk result (λ name. name ≡ self.now) }
    {
        Ok(Name {
            bytes: self.bytes.clone()?,
        })
    }

    /// Whether the two names are one.
    pub fn same(&self, other: &Name) -> bool
        ensures { IsTrue result ↔ (self.now ≡ other.now) }
    {
        self.bytes() == other.bytes()
    }
}
