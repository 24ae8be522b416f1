//! A line of an input, as it is told.
ghost use Rattle.std.specs.Prelude.{◌≡◌, ◌++◌, OnOk};
ghost use Rattle.std.specs.Option.{option_copied};
ghost use Rattle.std.specs.List.{list_all};
ghost use Rattle.std.specs.Char.{is_ascii_digit};
ghost use Rattle.lucid_explain_errors.specs.Inputs.{is_of, input_of, line_at, line_of, short_shown, is_quotable, string_text, string_if, is_short_word, is_short_number, bare_text, inner_text, inner_text_if, inner_of, quoted_text, has_comma, comma_text, mark_text, shown_line, line_seen, line_seen_if};

use crate::texts::{MOST_BYTES, front};
use lucid_explain_places::put_shown;
use lucid_explain_source::begins;
use lucid_value::{Name, can_be_text, can_be_word};
use std::alloc::AllocError;

// Each number of so many digits is an integer: the greatest has one more.
const MOST_DIGITS: usize = 38;

/// An input whose bytes are there.
#[derive(Drop)]
pub struct Input {
    pub name: Name,
    /// Its first bytes.
    pub bytes: Vec<u8>,
}

// Whether an input has this name.
fn is_of(input: &Input, name: &[u8]) -> bool
    ensures { result ≡ is_of input.now name.now }
{
    input.name.bytes() == name
}

// The input of a name.
fn input_of<'a>(inputs: &'a [Input], name: &[u8]) -> Option<&'a Input>
    ensures { option_copied result ≡ input_of inputs.now name.now }
{
    inputs.iter().find(|input| is_of(input, name))
}

// The line of a number, from 0.
fn line_at(bytes: &[u8], number: usize) -> Option<&[u8]>
    ensures { option_copied result ≡ line_at bytes.now number }
{
    bytes.split(|byte| *byte == b'\n').nth(number)
}

/// The line of a number, from 0, of the input of a name.
pub(crate) fn line_of<'a>(inputs: &'a [Input], name: &[u8], number: u64) -> Option<&'a [u8]>
    ensures { option_copied result ≡ line_of inputs.now name.now number }
{
    match input_of(inputs, name) {
        Some(input) => line_at(&input.bytes, number as usize),
        None => None,
    }
}

// Appends bytes as they are shown, at most so many.
fn put_short_shown(text: &mut Vec<u8>, bytes: &[u8]) -> Result<(), AllocError>
    ensures { OnOk result (text.new.items ≡ text.old.items ++ short_shown bytes.now) }
{
    if bytes.len() <= MOST_BYTES {
        return put_shown(text, bytes);
    }
    put_shown(text, front(bytes))?;
    text.extend_from_slice(b"..")
}

// Whether a line is short, and can be a string.
fn is_quotable(line: &[u8]) -> bool
    ensures { result ≡ is_quotable line.now }
{
    line.len() <= MOST_BYTES && can_be_text(line)
}

// Appends a line as a string.
fn put_string(text: &mut Vec<u8>, line: &[u8]) -> Result<(), AllocError>
    ensures { OnOk result (text.new.items ≡ text.old.items ++ string_text line.now) }
{
    text.extend_from_slice(b"As a string it is written `")?;
    text.extend_from_slice(line)?;
    text.extend_from_slice(b"'.\n")
}

// Appends a line as a string, where it can be one.
fn put_string_if(text: &mut Vec<u8>, line: &[u8]) -> Result<(), AllocError>
    ensures { OnOk result (text.new.items ≡ text.old.items ++ string_if line.now) }
{
    if is_quotable(line) {
        return put_string(text, line);
    }
    Ok(())
}

// Whether this is a short word.
fn is_short_word(inner: &[u8]) -> bool
    ensures { result ≡ is_short_word inner.now }
{
    inner.len() <= MOST_BYTES && can_be_word(inner)
}

// Whether these are digits alone.
fn are_digits(inner: &[u8]) -> bool
    ensures { result ≡ list_all is_ascii_digit inner.now }
{
    inner.iter().all(|byte| byte.is_ascii_digit())
}

// Whether this is a short number.
fn is_short_number(inner: &[u8]) -> bool
    ensures { result ≡ is_short_number inner.now }
{
    inner.len() <= MOST_DIGITS && !inner.is_empty() && are_digits(inner)
}

// Appends a word or a number as it is written.
fn put_bare(text: &mut Vec<u8>, inner: &[u8]) -> Result<(), AllocError>
    ensures { OnOk result (text.new.items ≡ text.old.items ++ bare_text inner.now) }
{
    text.extend_from_slice(b"It is written without quotes: ")?;
    text.extend_from_slice(inner)?;
    text.extend_from_slice(b"\n")
}

// Appends what stands between quotation marks: as a word or an integer, or else as a string.
fn put_inner(text: &mut Vec<u8>, inner: &[u8]) -> Result<(), AllocError>
    ensures { OnOk result (text.new.items ≡ text.old.items ++ inner_text inner.now) }
{
    if is_short_word(inner) || is_short_number(inner) {
        return put_bare(text, inner);
    }
    put_string_if(text, inner)
}

// Appends that, where there is anything.
fn put_inner_if(text: &mut Vec<u8>, inner: Option<&[u8]>) -> Result<(), AllocError>
    ensures { OnOk result (text.new.items ≡ text.old.items ++ inner_text_if (option_copied inner.entry)) }
{
    match inner {
        Some(inner) => put_inner(text, inner),
        None => Ok(()),
    }
}

// What stands behind the first quotation mark of a line, up to the second or to the end.
fn inner_of(line: &[u8]) -> Option<&[u8]>
    ensures { option_copied result ≡ inner_of line.now }
{
    line.split(|byte| *byte == b'"').nth(1)
}

// Appends how a line is written: without quotation marks, where it begins with one; else as a string.
fn put_quoted(text: &mut Vec<u8>, line: &[u8]) -> Result<(), AllocError>
    ensures { OnOk result (text.new.items ≡ text.old.items ++ quoted_text line.now) }
{
    if begins(line, b"\"") {
        return put_inner_if(text, inner_of(line));
    }
    put_string_if(text, line)
}

// Whether a comma or a semicolon stands in the line.
fn has_comma(line: &[u8]) -> bool
    ensures { result ≡ has_comma line.now }
{
    line.iter().any(|byte| *byte == b',' || *byte == b';')
}

// What is said of such a mark.
fn comma_text(line: &[u8]) -> &'static [u8]
    ensures { result.now ≡ comma_text line.now }
{
    if has_comma(line) {
        b"A line is one value: 1200 has no comma, there are no real numbers, and two columns stand in two files, or as lists, `[% 1 2 %]`.\n"
    } else {
        b""
    }
}

// What is said of a byte order mark in front, or else of a comma.
fn mark_text(line: &[u8]) -> &'static [u8]
    ensures { result.now ≡ mark_text line.now }
{
    if begins(line, b"\xef\xbb\xbf") {
        b"A byte order mark stands in front of it: save the file without it.\n"
    } else {
        comma_text(line)
    }
}

// Appends a line that isn't empty.
fn put_shown_line(text: &mut Vec<u8>, line: &[u8]) -> Result<(), AllocError>
    ensures { OnOk result (text.new.items ≡ text.old.items ++ shown_line line.now) }
{
    text.extend_from_slice(b"The line is: ")?;
    put_short_shown(text, line)?;
    text.extend_from_slice(b"\n")?;
    put_quoted(text, line)?;
    text.extend_from_slice(mark_text(line))
}

// Appends a line.
fn put_line(text: &mut Vec<u8>, line: &[u8]) -> Result<(), AllocError>
    ensures { OnOk result (text.new.items ≡ text.old.items ++ line_seen line.now) }
{
    if line.is_empty() {
        return text.extend_from_slice(b"The line is empty.\n");
    }
    put_shown_line(text, line)
}

/// Appends a line, where there is one.
pub(crate) fn put_line_seen(text: &mut Vec<u8>, line: Option<&[u8]>) -> Result<(), AllocError>
    ensures { OnOk result (text.new.items ≡ text.old.items ++ line_seen_if (option_copied line.entry)) }
{
    match line {
        Some(line) => put_line(text, line),
        None => Ok(()),
    }
}
