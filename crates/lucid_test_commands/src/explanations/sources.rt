//! Places by line and column, and as they are shown; what may stand at a place; what is said of lines of certificates.
use lucid_explain_places::{Position, position_of, put_place, standing};
use lucid_explain_report::stop_text;
use lucid_report::{Refusal, Stop};
use std::alloc::{AllocError, Global};
use std::test::Fail;

// The bytes of a source, and the line and the column of each.
static PLACES: [(usize, Position); 7] = [
    (0, Position { line: 1, column: 1 }),
    (1, Position { line: 1, column: 2 }),
    (2, Position { line: 1, column: 3 }),
    (3, Position { line: 2, column: 1 }),
    (4, Position { line: 3, column: 1 }),
    (5, Position { line: 3, column: 2 }),
    (7, Position { line: 3, column: 4 }),
];

// The first byte that has another place.
fn other_place() -> Option<usize> {
    let source = b"a\r\n\n bc";
    for (at, position) in &PLACES {
        if *at > 7 || position_of(source, *at) != *position {
            return Some(*at);
        }
    }
    None
}

fn is_shown(alloc: Global) -> Result<bool, AllocError> {
    let mut text = Vec::new(alloc);
    put_place(&mut text, b"p", b"x where\n\tx = \x1b1\r\nend", 13)?;
    Ok(text.as_slice() == b"p:2:6:\n x = ?1 \n     ^\n".as_slice())
}

#[test]
fn places_have_lines_and_columns_and_are_shown(rt: HostRuntime) -> Result<(), Fail> {
    assert_eq!(rt; (other_place(), is_shown(rt.alloc())?), (None, true));
    Ok(())
}

// How the tokens are told that may stand at a place.
fn told(alloc: Global, source: &str, at: usize) -> Result<String, Fail> {
    let mut told = String::new(alloc);
    if at <= source.len() {
        for candidate in &standing(alloc, source.as_bytes(), at)? {
            told.push_str(str::from_utf8(candidate.told)?)?;
            told.push_str(" ")?;
        }
    }
    Ok(told)
}

// Sources, places in them, and what may stand there.
static STANDING: [(&str, usize, &str); 7] = [
    ("x where x = ; end", 12, "a name a number `(` `if` "),
    ("x where x = 1 end", 14, "`;` `where` an operator "),
    (
        "if x = 1 then 2 else 3 fi",
        5,
        "`then` `where` an operator `(` ",
    ),
    ("x where // x", 12, "`end` a name "),
    ("x where first = 1; end", 8, "`end` a name "),
    ("if 1 then 2", 11, "`else` `where` an operator "),
    (") 1", 0, "a name a number `(` `if` "),
];

fn is_told(alloc: Global, source: &str, at: usize, wanted: &str) -> Result<bool, Fail> {
    Ok(told(alloc, source, at)?.as_str() == wanted)
}

#[test]
fn what_may_stand(rt: HostRuntime) -> Result<(), Fail> {
    for (source, at, wanted) in &STANDING {
        let is_so = is_told(rt.alloc(), source, *at, wanted)?;
        assert!(rt; is_so, "{source}");
    }
    Ok(())
}

// What is said of three stops by a certificate.
const TOO_LONG: &[u8] = b"A certificate has at most 268,435,456 bytes.\n";

const NO_JUDGMENT: &[u8] =
    b"No certificate's text goes on with this line: a context stands in a line as `c BASE PLACE CALLER` or `z BASE TIME`, and behind all of these a judgment as `j NODE CONTEXT TIME SPACE K U .. VALUE`.\n";

const WRONG: &[u8] =
    b"The judgment of this number, from 0, isn't what its node gives from the judgments that it uses, or it is the last one and not that of the program itself. The certificate is false, or it is one of another program or of other inputs.\n";

fn says(stop: &Stop, text: &[u8]) -> bool {
    stop_text(stop) == text
}

fn say_so() -> [bool; 3] {
    [
        says(&Stop::Refused(Refusal::CertificateTooLong), TOO_LONG),
        says(&Stop::Refused(Refusal::NoJudgment { line: 7 }), NO_JUDGMENT),
        says(&Stop::Wrong { judgment: 12 }, WRONG),
    ]
}

#[test]
fn stops_by_certificates(rt: HostRuntime) {
    assert_eq!(rt; say_so(), [true, true, true]);
}
