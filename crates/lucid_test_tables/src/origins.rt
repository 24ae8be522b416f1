//! Where the rows of tables come from: of each row the place in the source, and the word or the sign that stands there.
use crate::tables::scoped;
use crate::told::{first_false, none_wrong};
use lucid_compile::{Origins, find_origins};
use lucid_scope::Scoped;
use std::alloc::Global;
use std::test::Fail;

/// A source, and where the nodes, the names, the call places and the scopes of its table come from.
type Row = (
    &'static str,
    &'static str,
    &'static str,
    &'static str,
    &'static str,
);

// By hand, from how a program is a table: a node comes from its own word or sign, behind those of its parts, and the subject before the
// definitions; a name's row from the definition or the parameter, or behind these from the call; a call place from its call; scope 0 from
// the source's begin, and another from the word `where` or from the function's definition.
static ROWS: [Row; 4] = [
    (
        "f(x) + a where f(p) = p * 2; a = 1 fby a + 1; end",
        "2 x / 0 f / 7 a / 5 + / 22 p / 26 2 / 24 * / 33 1 / 39 a / 43 1 / 41 + / 35 fby",
        "17 p / 29 a / 0 f",
        "0 f",
        "0 f / 15 f",
    ),
    (
        "f(5) where f(a) = a fby f(x); x is current y; end",
        "2 5 / 0 f / 18 a / 26 x / 24 f / 20 fby / 43 y / 5 where",
        "13 a / 30 x / 0 f / 24 f",
        "0 f / 24 f",
        "0 f / 5 where / 11 f",
    ),
    (
        "(x where x is current k; end) + (x where x is current k; end) where k = 1; end",
        "1 x / 22 k / 3 where / 33 x / 54 k / 35 where / 30 + / 72 1",
        "9 x / 41 x / 68 k",
        "",
        "0 ( / 3 where / 35 where",
    ),
    (
        "if g(2, n) then n else 0 fi where g(a, b) = a where a is current b; end; end",
        "5 2 / 8 n / 3 g / 16 n / 23 0 / 0 if / 44 a / 65 b / 46 where",
        "36 a / 39 b / 52 a / 3 g",
        "3 g",
        "0 if / 34 g / 46 where",
    ),
];

// The word or the sign at a place.
fn token_at(source: &[u8], at: u32) -> &[u8] {
    let rest = source.get(at as usize..).unwrap_or(&[]);
    let length = rest
        .iter()
        .position(|byte| !byte.is_ascii_alphanumeric())
        .unwrap_or(rest.len());
    rest.get(..length.max(1)).unwrap_or(rest)
}

// The places, each with what stands there.
fn shown(alloc: Global, source: &[u8], places: &[u32]) -> Result<String, Fail> {
    let mut text = String::new(alloc);
    for at in places {
        if !text.is_empty() {
            text.push_str(" / ")?;
        }
        let token = str::from_utf8(token_at(source, *at))?;
        write!(text, "{at} {token}")?;
    }
    Ok(text)
}

// Whether the places are shown so.
fn are(alloc: Global, source: &[u8], places: &[u32], wanted: &str) -> Result<bool, Fail> {
    let text = shown(alloc, source, places)?;
    Ok(text.as_str() == wanted)
}

// Which of the lists isn't as wanted: of the nodes, the names, the call places, the scopes.
fn wrong_list(alloc: Global, found: &Origins, row: &Row) -> Result<Option<usize>, Fail> {
    let (source, nodes, names, places, scopes) = *row;
    let source = source.as_bytes();
    Ok(first_false(&[
        are(alloc, source, &found.nodes, nodes)?,
        are(alloc, source, &found.names, names)?,
        are(alloc, source, &found.places, places)?,
        are(alloc, source, &found.scopes, scopes)?,
    ]))
}

// The same of the row's source, once its names are resolved.
fn wrong_of_names(alloc: Global, scoped: &Scoped, row: &Row) -> Result<Option<usize>, Fail> {
    let found = find_origins(alloc, scoped)?;
    wrong_list(alloc, &found, row)
}

fn wrong_of_row(alloc: Global, row: &Row) -> Result<Option<usize>, Fail> {
    let scoped = scoped(alloc, row.0.as_bytes())?;
    wrong_of_names(alloc, &scoped, row)
}

#[test]
fn rows_come_from_their_places(rt: HostRuntime) -> Result<(), Fail> {
    for row in &ROWS {
        none_wrong(wrong_of_row(rt.alloc(), row)?, row.0)?;
    }
    Ok(())
}
