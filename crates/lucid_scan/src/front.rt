//! The longest token that bytes begin with. Its first byte tells which kinds it can have.
ghost use Rattle.std.specs.Prelude.{◌≡◌, ◌<◌, ◌==◌, ◌↔◌, length, true, IsTrue, IfOk, IfSome, IfNone};
ghost use Rattle.std.specs.Char.{is_ascii_alphabetic, is_ascii_digit};
ghost use Rattle.lucid_scan.specs.Texts.{first_passes, is_word_value, is_text_value};
ghost use Rattle.lucid_scan.specs.Tokens.{IsLongest, NoneStands};
ghost use Rattle.lucid_scan.specs.Fronts.{Closed, IsMarkFront, IsLongestMark, NoMarkStands, is_other};

use crate::bytes::{digits_len, fits, name_len, text_len, word_len};
use crate::marks::is_mark;
use crate::token::TokenKind;
use lucid_value::{can_be_text, can_be_word, is_reserved, list_front, one_list_front};
use std::alloc::{AllocError, Global};

/// The kind and the length of a token that bytes begin with.
#[derive(Clone, Copy)]
pub struct Front {
    pub kind: TokenKind,
    pub len: usize,
}

/// The token where a letter stands: a name or a reserved word.
fn word_token(bytes: &[u8]) -> Front
    requires { first_passes is_ascii_alphabetic bytes.now ≡ true }
    ensures { IsLongest bytes.now result.kind result.len }
{
    let n = name_len(bytes);
    if is_reserved(&bytes[..n]) {
        return Front {
            kind: TokenKind::Fixed,
            len: n,
        };
    }
    Front {
        kind: TokenKind::Name,
        len: n,
    }
}

/// The token where a digit stands: an integer.
fn number_token(bytes: &[u8]) -> Option<Front>
    requires { first_passes is_ascii_digit bytes.now ≡ true }
    ensures some { IfSome result (λ front. IsLongest bytes.now front.kind front.len) }
    ensures none { IfNone result (NoneStands bytes.now) }
{
    let n = digits_len(bytes);
    if !fits(&bytes[..n]) {
        return None;
    }
    Some(Front {
        kind: TokenKind::Int,
        len: n,
    })
}

/// Whether the first n bytes are a word that is a value, and `"` comes behind it.
fn closes_word(inside: &[u8], n: usize) -> bool
    ensures { IsTrue result ↔ Closed 34 is_word_value inside.now n }
{
    n < inside.len() && inside[n] == b'"' && can_be_word(&inside[..n])
}

/// The token where `"` stands: a word between two of these.
fn quoted_token(bytes: &[u8]) -> Option<Front>
    requires { first_passes (λ b. b == 34) bytes.now ≡ true }
    ensures some { IfSome result (λ front. IsLongest bytes.now front.kind front.len) }
    ensures none { IfNone result (NoneStands bytes.now) }
{
    let inside = &bytes[1..];
    let n = word_len(inside);
    if closes_word(inside, n) {
        return Some(Front {
            kind: TokenKind::Quoted,
            len: n + 2,
        });
    }
    None
}

/// Whether the first n bytes are a string that is a value, and `'` comes behind it.
fn closes_text(inside: &[u8], n: usize) -> bool
    ensures { IsTrue result ↔ Closed 39 is_text_value inside.now n }
{
    n < inside.len() && inside[n] == b'\'' && can_be_text(&inside[..n])
}

/// The token where a backquote stands: a string.
fn text_token(bytes: &[u8]) -> Option<Front>
    requires { first_passes (λ b. b == 96) bytes.now ≡ true }
    ensures some { IfSome result (λ front. IsLongest bytes.now front.kind front.len) }
    ensures none { IfNone result (NoneStands bytes.now) }
{
    let inside = &bytes[1..];
    let n = text_len(inside);
    if closes_text(inside, n) {
        return Some(Front {
            kind: TokenKind::Text,
            len: n + 2,
        });
    }
    None
}

/// Whether the first n bytes are a mark.
fn has_mark(bytes: &[u8], n: usize) -> bool
    ensures { IsTrue result ↔ IsMarkFront bytes.now n }
{
    n <= bytes.len() && is_mark(&bytes[..n])
}

/// How many bytes the longest mark has that the bytes begin with.
fn mark_len(bytes: &[u8]) -> Option<usize>
    ensures some { IfSome result (IsLongestMark bytes.now) }
    ensures none { IfNone result (NoMarkStands bytes.now) }
{
    if has_mark(bytes, 2) {
        return Some(2);
    }
    if has_mark(bytes, 1) {
        return Some(1);
    }
    None
}

/// The token where `[` stands: a mark or a list.
fn bracket_token(alloc: Global, bytes: &[u8]) -> Result<Option<Front>, AllocError>
    requires { first_passes (λ b. b == 91) bytes.now ≡ true }
    ensures some { IfOk result (λ found. IfSome found (λ front. IsLongest bytes.now front.kind front.len)) }
    ensures none { IfOk result (λ found. IfNone found (NoneStands bytes.now)) }
{
    if let Some(n) = mark_len(bytes) {
        return Ok(Some(Front {
            kind: TokenKind::Fixed,
            len: n,
        }));
    }
    // For the proof: no list's bytes begin another list's.
    one_list_front();
    let list = list_front(alloc, bytes)?;
    match list {
        Some(n) => Ok(Some(Front {
            kind: TokenKind::ListText,
            len: n,
        })),
        None => Ok(None),
    }
}

/// The token where another byte stands: a mark.
fn mark_token(bytes: &[u8]) -> Option<Front>
    requires { first_passes is_other bytes.now ≡ true }
    ensures some { IfSome result (λ front. IsLongest bytes.now front.kind front.len) }
    ensures none { IfNone result (NoneStands bytes.now) }
{
    let n = mark_len(bytes)?;
    Some(Front {
        kind: TokenKind::Fixed,
        len: n,
    })
}

/// The longest token that the bytes begin with.
pub fn token_at(alloc: Global, bytes: &[u8]) -> Result<Option<Front>, AllocError>
    requires { 0 < length bytes.now }
    ensures some { IfOk result (λ found. IfSome found (λ front. IsLongest bytes.now front.kind front.len)) }
    ensures none { IfOk result (λ found. IfNone found (NoneStands bytes.now)) }
{
    let first = bytes[0];
    if first.is_ascii_alphabetic() {
        return Ok(Some(word_token(bytes)));
    }
    if first.is_ascii_digit() {
        return Ok(number_token(bytes));
    }
    match first {
        b'"' => Ok(quoted_token(bytes)),
        b'`' => Ok(text_token(bytes)),
        b'[' => bracket_token(alloc, bytes),
        _ => Ok(mark_token(bytes)),
    }
}
