//! A place as it is shown.
ghost use Rattle.std.specs.Prelude.{◌≡◌, ◌≤◌, ◌++◌, length, map, replicate, codes, decimal, OnOk};
ghost use Rattle.std.specs.List.{prefix_len};
ghost use Rattle.lucid_scan.specs.Refusals.{most_source_bytes};
ghost use Rattle.lucid_explain_places.specs.Positions.{stands_in_line};
ghost use Rattle.lucid_explain_places.specs.Shown.{line_front, shown_byte, place_text};

use crate::position::{Position, position_of};
use crate::texts::put_number;
use lucid_value::is_blank;
use std::alloc::AllocError;

const MOST_SHOWN: usize = 160;

const MOST_BEFORE: usize = 80;

/// How many bytes stand before the next line end.
pub(crate) fn len_in_line(rest: &[u8]) -> usize
    ensures value { result ≡ prefix_len stands_in_line rest.now }
    ensures within { result ≤ length rest.now }
{
    rest.iter().take_while(|byte| **byte != b'\n').count()
}

// The first bytes of a line, of which the rest of the source is given: up to its end, or to the most that are shown.
fn line_front(rest: &[u8]) -> &[u8]
    ensures { result.now ≡ line_front rest.now }
{
    &rest[..len_in_line(rest).min(MOST_SHOWN)]
}

fn shown_byte(byte: u8) -> u8
    ensures { result ≡ shown_byte byte }
{
    if is_blank(byte) {
        b' '
    } else if (b' '..=b'~').contains(&byte) {
        byte
    } else {
        b'?'
    }
}

/// Appends bytes as they are shown.
pub fn put_shown(text: &mut Vec<u8>, bytes: &[u8]) -> Result<(), AllocError>
    ensures { OnOk result (text.new.items ≡ text.old.items ++ map shown_byte bytes.now) }
{
    for byte in bytes {
        text.push(shown_byte(*byte))?;
    }
    Ok(())
}

// Appends so many blanks and a caret.
fn put_caret(text: &mut Vec<u8>, before: usize) -> Result<(), AllocError>
    ensures { OnOk result (text.new.items ≡ text.old.items ++ (replicate before 32 ++ codes "^\n")) }
{
    for _blank in 0..before {
        text.push(b' ')?;
    }
    text.extend_from_slice(b"^\n")
}

// Appends the file, the line and the column.
fn put_position(text: &mut Vec<u8>, file: &[u8], position: Position) -> Result<(), AllocError>
    ensures { OnOk result (text.new.items ≡ text.old.items ++ (file.now ++ (codes ":" ++ (decimal position.line ++ (codes ":" ++ (decimal position.column ++ codes ":\n")))))) }
{
    text.extend_from_slice(file)?;
    put_number(text, b":", u64::from(position.line))?;
    put_number(text, b":", u64::from(position.column))?;
    text.extend_from_slice(b":\n")
}

/// Appends a place of the source in the file: where it is, the bytes about it, at most 160, and a caret under it.
pub fn put_place(
    text: &mut Vec<u8>,
    file: &[u8],
    source: &[u8],
    at: usize,
) -> Result<(), AllocError>
    requires within { at ≤ length source.now }
    requires short { length source.now ≤ most_source_bytes }
    ensures { OnOk result (text.new.items ≡ text.old.items ++ place_text file.now source.now at) }
{
    let position = position_of(source, at);
    let before = (position.column as usize - 1).min(MOST_BEFORE);
    put_position(text, file, position)?;
    put_shown(text, line_front(&source[at - before..]))?;
    text.extend_from_slice(b"\n")?;
    put_caret(text, before)
}
