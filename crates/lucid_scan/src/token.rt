//! Tokens and the places that they have in a source.

/// What a token is.
#[derive(Clone, Copy, Debug, PartialEq, Eq)]
pub enum TokenKind {
    /// A letter, then letters, digits and `_`; no reserved word.
    Name,
    /// Digits, with a value of at most 2^127 - 1.
    Int,
    /// A word between two `"`.
    Quoted,
    /// A string with its quotes, as in `` `hello there' ``.
    Text,
    /// A list as it is written, from `[%` to `%]`.
    ListText,
    /// A mark or a reserved word.
    Fixed,
}

/// A token. Its text is the slice of the source from `from` to `to`, in bytes.
#[derive(Clone, Copy, Debug, PartialEq, Eq)]
pub struct Token {
    pub kind: TokenKind,
    /// The place of its first byte.
    pub from: u32,
    /// The place behind its last byte.
    pub to: u32,
}
