//! What is said of a source that the scanner refuses.
ghost use Rattle.std.specs.Prelude.{◌≡◌, ◌≤◌, ◌<◌, ◌++◌, length, take, drop, OnOk};
ghost use Rattle.std.specs.Char.{is_ascii_digit};
ghost use Rattle.std.specs.List.{prefix_len, suffix_len};
ghost use Rattle.lucid_value.specs.Names.{is_name_byte};
ghost use Rattle.lucid_scan.specs.Refusals.{Refuses, most_source_bytes};
ghost use Rattle.lucid_explain_source.specs.Advice.{byte_advice, ends_name, behind_advice, ascii_advice, is_real, last_name, is_numbered, is_loop, is_header, is_range, is_span, range_advice, is_unequal, point_advice, colon_advice, bracket_advice, bad_advice, open_advice, big_advice, long_advice, scan_text};
ghost use Rattle.lucid_explain_places.specs.Shown.{place_text};

use crate::characters::{DIFFERS, begins, character_advice};
use lucid_explain_places::{last_line, put_place};
use lucid_scan::ScanRefusal;
use lucid_value::is_name_byte;
use std::alloc::AllocError;

const LIST: &[u8] =
    b"A list of constants is written `[% 1 2 3 %]`, with blanks between its items and no commas. Of computed items it is `a :: b :: []`.\n";

const STRING: &[u8] =
    b"A string begins with a backquote and ends with ' in one line, as `two words'. It has printable ASCII alone, without these two.\n";

// What is said of a byte of ASCII with which no token begins.
fn byte_advice(byte: u8) -> &'static [u8]
    ensures { result.now ≡ byte_advice byte }
{
    match byte {
        b'/' =>
            b"Division is `div`, and what it leaves over is `mod`. A comment begins with `//`.\n",
        b'.' =>
            b"No `.` stands outside comments and strings: operators and functions stand before what they take, as in `next n` and `f(n)`.\n",
        b'"' =>
            b"A word stands between two \", as in \"red\": a letter, then letters and digits. Integers, `true` and `false` stand without \", and other texts as `two words'.\n",
        b'\'' =>
            b"A word stands between two \", as in \"red\". A string begins with a backquote and ends with ' in one line, as `two words'.\n",
        b'!' => b"Write `ne` for what differs, and `not` before a truth.\n",
        b'&' => b"Write `and`, and to join strings `^`.\n",
        b'|' => b"Write `or`. Cases are told apart by `if .. then .. else .. fi`.\n",
        b'%' => b"What a division leaves over is `mod`. A comment begins with `//`.\n",
        b'[' => LIST,
        b']' =>
            b"Before this no list is open: a `(` ends with `)`, and a list of constants with `%]`.\n",
        b'{' | b'}' =>
            b"Parentheses group, definitions stand between `where` and `end`, and a function is written `f(x) = x + 1;`.\n",
        b'_' => b"A name begins with a letter, and a number has digits alone.\n",
        b':' =>
            b"A definition is written with `=` and ends with `;`, as `n = 0 fby n + 1;` or `f(x) = x + 1;`, and `::` puts a value in front of a list. Behind a test stands `then`.\n",
        b'?' => b"A choice is written `if .. then .. else .. fi`.\n",
        b'#' => b"A comment begins with `//`.\n",
        b'@' => b"The value at another time is `X attime T`.\n",
        b'\\' => b"A function is written with a name, as `f(x) = x + 1;`.\n",
        b'$' => b"A name begins with a letter, and has letters, digits and `_` alone.\n",
        b'~' => b"Write `not` before a truth.\n",
        0 =>
            b"A byte 0 stands here: the file may be UTF-16, or no text. Save it as ASCII or UTF-8.\n",
        1..=31 | 127..=255 =>
            b"Only in comments may other bytes stand than printable ASCII, tabs and line ends.\n",
        _ => b"No token begins with this byte.\n",
    }
}

// How many bytes of a name stand at the end.
fn len_of_last(before: &[u8]) -> usize
    ensures value { result ≡ suffix_len is_name_byte before.now }
    ensures within { result ≤ length before.now }
{
    before
        .iter()
        .rev()
        .take_while(|byte| is_name_byte(**byte))
        .count()
}

// Whether a name ends there.
fn ends_name(before: &[u8]) -> bool
    ensures { result ≡ ends_name before.now }
{
    len_of_last(before) > 0
}

// What is said of a byte directly behind a name.
fn behind_advice(byte: u8) -> &'static [u8]
    ensures { result.now ≡ behind_advice byte }
{
    match byte {
        b'\'' => b"A name has letters, digits and `_` alone, and a string has no ' in it.\n",
        b'[' =>
            b"The value of n at time 2 is `n attime 2`, and item 2 of a list l, from 0, is `nth(l, 2)`.\n",
        _ => byte_advice(byte),
    }
}

// What is said of a byte of ASCII, by what stands before it.
fn ascii_advice(before: &[u8], byte: u8) -> &'static [u8]
    ensures { result.now ≡ ascii_advice before.now byte }
{
    if ends_name(before) {
        behind_advice(byte)
    } else {
        byte_advice(byte)
    }
}

// Whether this is a `.` and a digit, as in a real number.
fn is_real(rest: &[u8]) -> bool
    ensures { result ≡ is_real rest.now }
{
    rest.len() > 1 && rest[0] == b'.' && rest[1].is_ascii_digit()
}

// The bytes of a name that stand at the end.
fn last_name(before: &[u8]) -> &[u8]
    ensures { result.now ≡ last_name before.entry.now }
{
    &before[before.len() - len_of_last(before)..]
}

// How many digits stand at the beginning.
fn len_of_digits(line: &[u8]) -> usize
    ensures value { result ≡ prefix_len is_ascii_digit line.now }
    ensures within { result ≤ length line.now }
{
    line.iter().take_while(|byte| byte.is_ascii_digit()).count()
}

// Whether these are digits alone, one at least.
fn is_numbered(text: &[u8]) -> bool
    ensures { result ≡ is_numbered text.now }
{
    !text.is_empty() && len_of_digits(text) == text.len()
}

// Whether other languages begin a loop so.
fn is_loop(line: &[u8]) -> bool
    ensures { result ≡ is_loop line.now }
{
    begins(line, b"for ") || begins(line, b"while ")
}

// Whether other languages begin a program or a function so.
fn is_header(line: &[u8]) -> bool
    ensures { result ≡ is_header line.now }
{
    begins(line, b"node ") || begins(line, b"function ") || begins(line, b"def ")
}

// Whether this is a `[`, digits and two points, as in `[0..]`.
fn is_range(rest: &[u8]) -> bool
    requires { 0 < length rest.now }
    ensures { result ≡ is_range rest.now }
{
    let inner = &rest[1..];
    begins(rest, b"[") && begins(&inner[len_of_digits(inner)..], b"..")
}

// Whether this is a number, and two points behind it, as in `1..10`.
fn is_span(before: &[u8], rest: &[u8]) -> bool
    ensures { result ≡ is_span before.now rest.now }
{
    begins(rest, b"..") && is_numbered(last_name(before))
}

// What is said of a range.
fn range_advice() -> &'static [u8]
    ensures { result.now ≡ range_advice }
{
    b"There are no ranges: `n = 0 fby n + 1;` is 0, 1, 2, .., and --count N says how many are written.\n"
}

// Whether other languages write so that two values differ.
fn is_unequal(rest: &[u8]) -> bool
    ensures { result ≡ is_unequal rest.now }
{
    begins(rest, b"/=") || begins(rest, b"!=") || begins(rest, b"~=")
}

// What is said of a `.`, by what stands before it.
fn point_advice(before: &[u8], rest: &[u8]) -> &'static [u8]
    ensures { result.now ≡ point_advice before.now rest.now }
{
    if is_real(rest) {
        b"There are no real numbers: write integers.\n"
    } else if begins(rest, b".lucid") {
        b"A program names no files: these stand in the command.\n"
    } else if is_span(before, rest) {
        range_advice()
    } else if is_numbered(last_line(before)) {
        b"Is this the number of an exercise? It is no part of the program: leave it out.\n"
    } else {
        ascii_advice(before, b'.')
    }
}

// What is said of a `:`, by what stands before it.
fn colon_advice(before: &[u8]) -> &'static [u8]
    ensures { result.now ≡ colon_advice before.now }
{
    if last_name(before) == b"where".as_slice() {
        b"No `:` stands behind `where`: the definitions come there, and then `end`.\n"
    } else if is_loop(last_line(before)) {
        b"There are no loops: `n = 0 fby n + 1;` defines the values of all times, `n * n` has their squares, and --count N says how many are written.\n"
    } else if is_header(last_line(before)) {
        b"A program begins with an expression, and its definitions stand behind `where`: `n where n = 0 fby n + 1; f(x) = x + 1; end`.\n"
    } else {
        ascii_advice(before, b':')
    }
}

// What is said of a byte of ASCII, by what stands before it and what begins with it.
fn bracket_advice(before: &[u8], rest: &[u8]) -> &'static [u8]
    requires { 0 < length rest.now }
    ensures { result.now ≡ bracket_advice before.now rest.now }
{
    if is_range(rest) {
        range_advice()
    } else if begins(rest, b"{-") {
        b"A comment begins with `//`.\n"
    } else {
        ascii_advice(before, rest[0])
    }
}

// What is said of bytes with which no token begins, by what stands before them.
fn bad_advice(before: &[u8], rest: &[u8]) -> &'static [u8]
    requires { 0 < length rest.now }
    ensures { result.now ≡ bad_advice before.now rest.now }
{
    let byte = rest[0];
    if byte > 127 {
        character_advice(rest)
    } else if is_unequal(rest) {
        DIFFERS
    } else if byte == b'.' {
        point_advice(before, rest)
    } else if byte == b':' {
        colon_advice(before)
    } else {
        bracket_advice(before, rest)
    }
}

// What is said of a string or a list that has no end, or is no value, which begins so.
fn open_advice(rest: &[u8]) -> &'static [u8]
    requires { 0 < length rest.now }
    ensures { result.now ≡ open_advice rest.now }
{
    if begins(rest, b"```") {
        b"The fence ``` of a page is no part of a program: leave it out.\n"
    } else if begins(rest, b"`mod`") || begins(rest, b"`div`") {
        b"An operator stands without quotation marks, as in `n mod 2`.\n"
    } else if rest[0] == b'`' {
        STRING
    } else {
        LIST
    }
}

// What is said of the bytes at a place with which no token begins.
fn bad_advice_at(source: &[u8], at: usize) -> &'static [u8]
    requires { at < length source.now }
    ensures { result.now ≡ bad_advice (take at source.now) (drop at source.now) }
{
    bad_advice(&source[..at], &source[at..])
}

// What is said of a string or a list at a place that has no end, or is no value.
fn open_advice_at(source: &[u8], at: usize) -> &'static [u8]
    requires { at < length source.now }
    ensures { result.now ≡ open_advice (drop at source.now) }
{
    open_advice(&source[at..])
}

// What is said of an integer that is too big.
fn big_advice() -> &'static [u8]
    ensures { result.now ≡ big_advice }
{
    b"The largest integer is 170141183460469231731687303715884105727, that is 2^127 - 1.\n"
}

// What is said of a source that is too long.
fn long_advice() -> &'static [u8]
    ensures { result.now ≡ long_advice }
{
    b"A source has at most 1,048,576 bytes.\n"
}

// Appends a place and what is said of it.
fn put_advice(
    text: &mut Vec<u8>,
    file: &[u8],
    source: &[u8],
    at: u32,
    advice: &[u8],
) -> Result<(), AllocError>
    requires within { at ≤ length source.now }
    requires short { length source.now ≤ most_source_bytes }
    ensures { OnOk result (text.new.items ≡ text.old.items ++ (place_text file.now source.now at ++ advice.now)) }
{
    put_place(text, file, source, at as usize)?;
    text.extend_from_slice(advice)
}

// Appends what is said of a byte with which no token begins.
fn put_bad_byte(text: &mut Vec<u8>, file: &[u8], source: &[u8], at: u32) -> Result<(), AllocError>
    requires { Refuses source.now (ScanRefusal.BadByte at) }
    ensures { OnOk result (text.new.items ≡ text.old.items ++ scan_text file.now source.now (ScanRefusal.BadByte at)) }
{
    let advice = bad_advice_at(source, at as usize);
    put_advice(text, file, source, at, advice)
}

// Appends what is said of a string or a list that has no end, or is no value.
fn put_open_text(text: &mut Vec<u8>, file: &[u8], source: &[u8], at: u32) -> Result<(), AllocError>
    requires { Refuses source.now (ScanRefusal.OpenText at) }
    ensures { OnOk result (text.new.items ≡ text.old.items ++ scan_text file.now source.now (ScanRefusal.OpenText at)) }
{
    let advice = open_advice_at(source, at as usize);
    put_advice(text, file, source, at, advice)
}

// Appends what is said of an integer that is too big.
fn put_big_number(text: &mut Vec<u8>, file: &[u8], source: &[u8], at: u32) -> Result<(), AllocError>
    requires { Refuses source.now (ScanRefusal.BigNumber at) }
    ensures { OnOk result (text.new.items ≡ text.old.items ++ scan_text file.now source.now (ScanRefusal.BigNumber at)) }
{
    put_advice(text, file, source, at, big_advice())
}

/// Appends what is said of a source that the scanner refuses.
pub(crate) fn put_scan(
    text: &mut Vec<u8>,
    file: &[u8],
    source: &[u8],
    refusal: ScanRefusal,
) -> Result<(), AllocError>
    requires { Refuses source.now refusal }
    ensures { OnOk result (text.new.items ≡ text.old.items ++ scan_text file.now source.now refusal) }
{
    match refusal {
        ScanRefusal::TooLong => text.extend_from_slice(long_advice()),
        ScanRefusal::BadByte { at } => put_bad_byte(text, file, source, at),
        ScanRefusal::OpenText { at } => put_open_text(text, file, source, at),
        ScanRefusal::BigNumber { at } => put_big_number(text, file, source, at),
        ScanRefusal::NoMemory => Ok(()),
    }
}
