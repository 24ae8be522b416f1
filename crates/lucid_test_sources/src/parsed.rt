//! What the parser makes of sources: trees, refusals with their places, and trees that are too deep. Each row is worked out by hand from
//! the grammar.
use lucid_parse::{ParseRefusal, parse};
use lucid_scan::{ScanRefusal, scan};
use std::alloc::{AllocError, Global};
use std::test::Fail;

// What becomes of a source: a tree, of which this is the root's place, or a refusal with its place.
#[derive(Clone, Copy, PartialEq, Eq)]
enum Answer {
    Root(u32),
    Syntax(u32),
    TooNested(u32),
    BadByte(u32),
    Other,
}

use Answer::{Root, Syntax, TooNested};

fn outcome(alloc: Global, source: &[u8]) -> Answer {
    let tokens = match scan(alloc, source) {
        Ok(tokens) => tokens,
        Err(ScanRefusal::BadByte { at }) => return Answer::BadByte(at),
        Err(_) => return Answer::Other,
    };
    match parse(alloc, source, &tokens) {
        Ok(tree) => Answer::Root(tree.at),
        Err(ParseRefusal::Syntax { at }) => Answer::Syntax(at),
        Err(ParseRefusal::TooNested { at }) => Answer::TooNested(at),
        Err(ParseRefusal::NoMemory) => Answer::Other,
    }
}

/// The piece so many times, and then the end.
fn repeated(alloc: Global, piece: &[u8], times: usize, end: &[u8]) -> Result<Vec<u8>, AllocError> {
    let mut source = Vec::new(alloc);
    for _ in 0..times {
        source.extend_from_slice(piece)?;
    }
    source.extend_from_slice(end)?;
    Ok(source)
}

/// Sources that spell a tree, with the place of the operator that binds loosest.
static ROOTS: [(&[u8], Answer); 22] = [
    (b"x where x = 1; x = 2; end", Root(2)),
    (b"a fby b where end", Root(8)),
    (b"a where end where end", Root(12)),
    (b"a fby b sby c", Root(2)),
    (b"a fby b asa c", Root(2)),
    (b"a wvr b upon c", Root(8)),
    (b"a or b or c", Root(7)),
    (b"a or b and c", Root(2)),
    (b"a and not b eq c", Root(2)),
    (b"not a eq b", Root(0)),
    (b"a eq b :: c", Root(2)),
    (b"a :: b ^ c", Root(2)),
    (b"a - b - c", Root(6)),
    (b"a - b * c", Root(2)),
    (b"2 ** 3 ** 2", Root(2)),
    (b"- 2 ** 2", Root(4)),
    (b"2 ** - 2", Root(2)),
    (b"((first (a fby b)))", Root(2)),
    (b"if a then f(b, c) else nth(d, 1) fi", Root(0)),
    (b"substr(`lucid', 1, 3)", Root(0)),
    (b"[% 1 b %] <> []", Root(10)),
    (b"n where f(x, y) = x; n is current f(1, eod); end", Root(2)),
];

/// Sources that spell none, with the place of the first token that no program goes on with.
static FAULTS: [(&[u8], Answer); 18] = [
    (b"", Syntax(0)),
    (b"// nothing", Syntax(10)),
    (b"x where x = ; end", Syntax(12)),
    (b"succ where succ = 1; end", Syntax(5)),
    (b"a eq not b", Syntax(5)),
    (b"1 + not b", Syntax(4)),
    (b"a < b < c", Syntax(6)),
    (b"f()", Syntax(2)),
    (b"f(a,)", Syntax(4)),
    (b"nth(l)", Syntax(5)),
    (b"nth(l, 1, 2)", Syntax(8)),
    (b"substr", Syntax(6)),
    (b"a b", Syntax(2)),
    (b"a where end fby b", Syntax(12)),
    (b"x where x = 1 end", Syntax(14)),
    (b"x where f() = 1; end", Syntax(10)),
    (b"x where x is 1; end", Syntax(13)),
    (b"if a then b fi", Syntax(12)),
];

// The first of the sources of which something else becomes.
fn wrong_source<'a>(alloc: Global, rows: &[(&'a [u8], Answer)]) -> Option<&'a [u8]> {
    for (source, answer) in rows {
        if outcome(alloc, source) != *answer {
            return Some(source);
        }
    }
    None
}

/// Pieces that are repeated, how often, what comes behind them, and what becomes of that.
static REPEATED: [(&[u8], usize, &[u8], Answer); 7] = [
    (b"not ", 399, b"true", Root(0)),
    (b"not ", 400, b"true", TooNested(1600)),
    (b"1 fby ", 400, b"1", TooNested(2394)),
    (b"(", 1_048_576, b"", Syntax(1_048_576)),
    (b"not ", 262_144, b"", Syntax(1_048_576)),
    (b"1+", 524_287, b"11", TooNested(1_047_773)),
    (b"f(", 524_288, b"", Syntax(1_048_576)),
];

// The number of the first of which something else becomes.
fn wrong_repeated(alloc: Global) -> Result<Option<usize>, AllocError> {
    for (number, (piece, times, end, answer)) in REPEATED.iter().enumerate() {
        let source = repeated(alloc, piece, *times, end)?;
        if outcome(alloc, &source) != *answer {
            return Ok(Some(number));
        }
    }
    Ok(None)
}

/// The total and the largest of sales.
const SALES: &[u8] =
    b"total :: largest :: [] where // sales\ntotal = sale fby total + next sale; largest = sale fby if next sale > largest then next sale else largest fi; end";

/// What becomes of its first bytes.
fn cut(len: u32) -> Answer {
    match len {
        1..=6 => Answer::Root(0),
        10..=17 | 22 | 23 => Answer::Root(6),
        151 => Answer::Root(23),
        7 => Answer::BadByte(6),
        18 => Answer::BadByte(17),
        21 => Answer::BadByte(20),
        24..=27 => Answer::Syntax(23),
        30 => Answer::BadByte(29),
        52 | 53 => Answer::Syntax(51),
        65 => Answer::Syntax(63),
        90 | 91 => Answer::Syntax(89),
        98 => Answer::Syntax(96),
        117..=119 => Answer::Syntax(116),
        123 => Answer::Syntax(121),
        132..=134 => Answer::Syntax(131),
        145 => Answer::Syntax(144),
        _ => Answer::Syntax(len),
    }
}

// The first number of bytes of which something else becomes.
fn wrong_cut(alloc: Global) -> Option<usize> {
    if SALES.len() != 151 {
        return Some(0);
    }
    for len in 1..152usize {
        if outcome(alloc, &SALES[..len]) != cut(len as u32) {
            return Some(len);
        }
    }
    None
}

#[test]
fn sources_are_parsed(rt: HostRuntime) -> Result<(), Fail> {
    let alloc = rt.alloc();
    assert_eq!(rt; wrong_source(alloc, &ROOTS), None);
    assert_eq!(rt; wrong_source(alloc, &FAULTS), None);
    assert_eq!(rt; (wrong_repeated(alloc)?, wrong_cut(alloc)), (None, None));
    Ok(())
}
