//! Sources with their tokens or their refusals, up to the limits.
use crate::told::{must, none_wrong};
use lucid_scan::{MAX_SOURCE_BYTES, ScanRefusal, Token, TokenKind, scan};
use std::alloc::{AllocError, Global};
use std::test::Fail;

/// A source, and its tokens: the kind of each, where it begins and where it ends.
type Row = (&'static str, &'static [(TokenKind, u32, u32)]);

static SPELLED: [Row; 3] = [
    // the longest match
    (
        "a<>b",
        &[
            (TokenKind::Name, 0, 1),
            (TokenKind::Fixed, 1, 3),
            (TokenKind::Name, 3, 4),
        ],
    ),
    // each kind
    (
        "x1_y 007\t\"dog\"// a \" in a comment\r\n`it is' [%1 dog [% %]%] [] end",
        &[
            (TokenKind::Name, 0, 4),
            (TokenKind::Int, 5, 8),
            (TokenKind::Quoted, 9, 14),
            (TokenKind::Text, 35, 42),
            (TokenKind::ListText, 43, 58),
            (TokenKind::Fixed, 59, 61),
            (TokenKind::Fixed, 62, 65),
        ],
    ),
    // the greatest integer
    (
        "00170141183460469231731687303715884105727",
        &[(TokenKind::Int, 0, 41)],
    ),
];

fn are(tokens: &[Token], wanted: &[(TokenKind, u32, u32)]) -> bool {
    tokens.len() == wanted.len()
        && tokens
            .iter()
            .zip(wanted)
            .all(|(token, row)| (token.kind, token.from, token.to) == *row)
}

fn has_tokens(alloc: Global, row: &Row) -> Result<bool, ScanRefusal> {
    Ok(are(&scan(alloc, row.0.as_bytes())?, row.1))
}

const WORDS: &[u8] =
    b"( ) , ; = [] + - * ** < <= > >= :: <> ^ where end is current if then else fi first \
    next fby whenever wvr asa upon attime and or not true false eod error div mod eq ne hd tl length \
    substr nth mkword mkstring isint isword isstring islist istruth isnull isatom iseod iserror abs \
    cmp initial succ sby atspace";

// How many tokens the marks and the reserved words are, and the first that is no fixed one.
fn fixed_words(alloc: Global) -> Result<(usize, Option<usize>), ScanRefusal> {
    let tokens = scan(alloc, WORDS)?;
    let other = tokens
        .iter()
        .position(|token| token.kind != TokenKind::Fixed);
    Ok((tokens.len(), other))
}

#[test]
fn sources_have_tokens(rt: HostRuntime) -> Result<(), Fail> {
    for row in &SPELLED {
        must(has_tokens(rt.alloc(), row)?, row.0)?;
    }
    assert_eq!(rt; fixed_words(rt.alloc())?, (17 + 49, None));
    Ok(())
}

// Sources that are refused.
static REFUSED: [(&str, ScanRefusal); 7] = [
    ("`abc", ScanRefusal::OpenText { at: 0 }),
    ("x where x = 1 ? 2; end", ScanRefusal::BadByte { at: 14 }),
    (") ?", ScanRefusal::BadByte { at: 2 }),
    ("[% 1 // 2 %]", ScanRefusal::OpenText { at: 0 }),
    ("a :: [x]", ScanRefusal::BadByte { at: 5 }),
    ("a \"eod\"", ScanRefusal::BadByte { at: 2 }),
    (
        "170141183460469231731687303715884105728",
        ScanRefusal::BigNumber { at: 0 },
    ),
];

// Refusals, and their messages.
static MESSAGES: [(ScanRefusal, &str); 5] = [
    (ScanRefusal::TooLong, "source too long"),
    (ScanRefusal::BadByte { at: 14 }, "bad byte at 14"),
    (ScanRefusal::OpenText { at: 0 }, "open text at 0"),
    (ScanRefusal::BigNumber { at: 0 }, "number too big at 0"),
    (ScanRefusal::NoMemory, "no memory"),
];

fn refusal_of(alloc: Global, source: &[u8]) -> Option<ScanRefusal> {
    scan(alloc, source).err()
}

fn is_told_so(alloc: Global, refusal: &ScanRefusal, wanted: &str) -> Result<bool, AllocError> {
    Ok(format!(in alloc; "{refusal}")?.as_str() == wanted)
}

const SALES: &[u8] = b"total :: largest :: [] where // sales\n\
    total = sale fby total + next sale; \
    largest = sale fby if next sale > largest then next sale else largest fi; end";

// The first number of bytes of the source that is refused otherwise, or not.
fn wrong_cut(alloc: Global) -> Option<usize> {
    if SALES.len() != 151 {
        return Some(0);
    }
    for n in 0..152usize {
        let wanted = match n {
            7 => Some(ScanRefusal::BadByte { at: 6 }),
            18 => Some(ScanRefusal::BadByte { at: 17 }),
            21 => Some(ScanRefusal::BadByte { at: 20 }),
            30 => Some(ScanRefusal::BadByte { at: 29 }),
            _ => None,
        };
        if refusal_of(alloc, &SALES[..n]) != wanted {
            return Some(n);
        }
    }
    None
}

#[test]
fn sources_are_refused(rt: HostRuntime) -> Result<(), Fail> {
    let alloc = rt.alloc();
    for (source, refusal) in &REFUSED {
        must(
            refusal_of(alloc, source.as_bytes()) == Some(*refusal),
            source,
        )?;
    }
    for (refusal, wanted) in &MESSAGES {
        must(is_told_so(alloc, refusal, wanted)?, wanted)?;
    }
    none_wrong(wrong_cut(alloc), "cut")
}

// How many tokens a source of so many times this byte has.
fn count(alloc: Global, byte: u8, times: usize) -> Result<usize, ScanRefusal> {
    let source = vec![in alloc; byte; times]?;
    Ok(scan(alloc, &source)?.len())
}

// A byte, how often it stands, and how many tokens that has.
static LONG: [(u8, usize, Result<usize, ScanRefusal>); 3] = [
    (b' ', MAX_SOURCE_BYTES + 1, Err(ScanRefusal::TooLong)),
    (b' ', MAX_SOURCE_BYTES, Ok(0)),
    (b'(', 1_048_576, Ok(1_048_576)),
];

// The number of the first row that has another number of tokens.
fn wrong_count(alloc: Global) -> Option<usize> {
    for (number, (byte, times, tokens)) in LONG.iter().enumerate() {
        if count(alloc, *byte, *times) != *tokens {
            return Some(number);
        }
    }
    None
}

// What opens a text, what is repeated in it and how often, and what closes it.
type Repeated = (&'static str, &'static str, u32, &'static str);

// The text of a row.
fn source_of(alloc: Global, (open, piece, times, close): Repeated) -> Result<Vec<u8>, AllocError> {
    let mut source = Vec::from_slice(alloc, open.as_bytes())?;
    for _ in 0..times {
        source.extend_from_slice(piece.as_bytes())?;
    }
    source.extend_from_slice(close.as_bytes())?;
    Ok(source)
}

// The kind of the one token that takes the whole source; none where it isn't one token.
fn whole(alloc: Global, source: &[u8]) -> Result<Option<TokenKind>, ScanRefusal> {
    let tokens = scan(alloc, source)?;
    match tokens.as_slice() {
        [only] => {
            if only.from == 0 && only.to as usize == source.len() {
                Ok(Some(only.kind))
            } else {
                Ok(None)
            }
        }
        _ => Ok(None),
    }
}

// Texts at their limits.
static LIMITS: [(Repeated, Result<Option<TokenKind>, ScanRefusal>); 6] = [
    (("\"", "a", 65_535, "\""), Ok(Some(TokenKind::Quoted))),
    (
        ("\"", "a", 65_536, "\""),
        Err(ScanRefusal::BadByte { at: 0 }),
    ),
    (("`", "a", 65_535, "'"), Ok(Some(TokenKind::Text))),
    (
        ("`", "a", 65_536, "'"),
        Err(ScanRefusal::OpenText { at: 0 }),
    ),
    (("[%", " 1", 65_535, "%]"), Ok(Some(TokenKind::ListText))),
    (
        ("[%", " 1", 65_536, "%]"),
        Err(ScanRefusal::OpenText { at: 0 }),
    ),
];

// What the text of a row is.
fn whole_of(
    alloc: Global,
    row: Repeated,
) -> Result<Result<Option<TokenKind>, ScanRefusal>, AllocError> {
    let source = source_of(alloc, row)?;
    Ok(whole(alloc, &source))
}

// The number of the first row whose text is something else.
fn wrong_limit(alloc: Global) -> Result<Option<usize>, AllocError> {
    for (number, (row, wanted)) in LIMITS.iter().enumerate() {
        if whole_of(alloc, *row)? != *wanted {
            return Ok(Some(number));
        }
    }
    Ok(None)
}

#[test]
fn long_sources_and_texts(rt: HostRuntime) -> Result<(), Fail> {
    none_wrong(wrong_count(rt.alloc()), "long sources")?;
    none_wrong(wrong_limit(rt.alloc())?, "limits")
}
