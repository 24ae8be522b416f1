//! The tokens about a place.
ghost use Rattle.std.specs.Prelude.{◌≡◌, ◌≤◌, length, slice_range};
ghost use Rattle.std.specs.List.{slice_get};
ghost use Rattle.lucid_scan.specs.Tokens.{Tokens};
ghost use Rattle.lucid_explain_places.specs.Around.{plain_around, count_before, text_of, end_of, last_of, gap_behind, line_to, around_of, around_at};

use crate::position::last_line;
use lucid_scan::Token;
use lucid_scan::laws::tokens_are_in_order;

/// What stands about a place; a token is empty where there is none.
#[derive(Clone, Copy)]
pub struct Around<'a> {
    /// What stands in the line of the token before the place, up to its end.
    pub line: &'a [u8],
    /// The token before the place.
    pub before: &'a [u8],
    /// What stands between that and the place: blanks and comments.
    pub gap: &'a [u8],
    /// The token that begins at the place.
    pub read: &'a [u8],
    /// The token behind that.
    pub after: &'a [u8],
}

// How many tokens begin before the place.
fn count_before(tokens: &[Token], at: u32) -> usize
    ensures value { result ≡ count_before tokens.now at }
    ensures within { result ≤ length tokens.now }
{
    tokens.iter().take_while(|token| token.from < at).count()
}

// The text of a token.
fn token_text<'a>(source: &'a [u8], token: &Token) -> &'a [u8]
    requires order { token.now.from ≤ token.now.to }
    requires within { token.now.to ≤ length source.now }
    ensures { result.now ≡ slice_range source.entry.now token.now.from token.now.to }
{
    &source[token.from as usize..token.to as usize]
}

// The text of the token of this number.
fn text_of<'a>(source: &'a [u8], tokens: &[Token], number: usize) -> &'a [u8]
    requires { Tokens source.now 0 tokens.now }
    ensures { result.now ≡ text_of source.entry.now (slice_get tokens.now number) }
{
    // For the proof: no token ends before it begins, or past the source.
    tokens_are_in_order();
    if number < tokens.len() {
        token_text(source, &tokens[number])
    } else {
        &[]
    }
}

// The text of the last of so many tokens.
fn text_before<'a>(source: &'a [u8], tokens: &[Token], count: usize) -> &'a [u8]
    requires { Tokens source.now 0 tokens.now }
    ensures { result.now ≡ text_of source.entry.now (last_of tokens.now count) }
{
    if count == 0 {
        &[]
    } else {
        text_of(source, tokens, count - 1)
    }
}

// The last of so many tokens.
fn last_of(tokens: &[Token], count: usize) -> Option<Token>
    ensures { result ≡ last_of tokens.now count }
{
    if count == 0 {
        return None;
    }
    tokens.get(count - 1).copied()
}

// Where a token ends.
fn end_of(token: Option<Token>) -> usize
    ensures { result ≡ end_of token }
{
    match token {
        Some(token) => token.to as usize,
        None => 0,
    }
}

// What stands between a token and the place.
fn gap_behind(source: &[u8], at: usize, last: Option<Token>) -> &[u8]
    requires { at ≤ length source.now }
    ensures { result.now ≡ gap_behind source.entry.now at last }
{
    &source[..at][end_of(last).min(at)..]
}

// What stands in the line of a token before the place, up to its end.
fn line_to(source: &[u8], at: usize, last: Option<Token>) -> &[u8]
    requires { at ≤ length source.now }
    ensures { result.now ≡ line_to source.entry.now at last }
{
    last_line(&source[..end_of(last).min(at)])
}

// What stands about the place, before which so many tokens begin.
fn around_of<'a>(source: &'a [u8], tokens: &[Token], at: u32, count: usize) -> Around<'a>
    requires within { at ≤ length source.now }
    requires few { count ≤ length tokens.now }
    requires scanned { Tokens source.now 0 tokens.now }
    ensures { plain_around result ≡ around_of source.entry.now tokens.now at count }
{
    Around {
        line: line_to(source, at as usize, last_of(tokens, count)),
        before: text_before(source, tokens, count),
        gap: gap_behind(source, at as usize, last_of(tokens, count)),
        read: text_of(source, tokens, count),
        after: text_of(source, tokens, count + 1),
    }
}

/// What stands about a place of a source that has these tokens.
pub(crate) fn around_at<'a>(source: &'a [u8], tokens: &[Token], at: u32) -> Around<'a>
    requires within { at ≤ length source.now }
    requires scanned { Tokens source.now 0 tokens.now }
    ensures { plain_around result ≡ around_at source.entry.now tokens.now at }
{
    around_of(source, tokens, at, count_before(tokens, at))
}
