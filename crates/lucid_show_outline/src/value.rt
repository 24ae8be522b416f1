//! The text of a value in a line.
ghost use Rattle.std.specs.Prelude.{◌≡◌, ◌≤◌, ◌++◌, OnOk, decimal, length};
ghost use Rattle.lucid_value.specs.View.{plain};
ghost use Rattle.lucid_print.specs.Canonical.{constant_text};
ghost use Rattle.lucid_show_outline.specs.Values.{front_text, short_text, value_shown, constant_shown};

use itoa::Buffer;
use lucid_value::Value;
use std::alloc::{AllocError, Global};

// How many bytes of a value's text are shown, and how many of one that is longer.
const MOST_BYTES: usize = 24;

const FRONT_BYTES: usize = 20;

/// Appends the digits of a number.
pub fn put_digits(to: &mut Vec<u8>, number: u64) -> Result<(), AllocError>
    ensures { OnOk result (to.new.items ≡ to.old.items ++ decimal number) }
{
    to.extend_from_slice(Buffer::new().format(number).as_bytes())
}

// Appends the front of a long text.
#[tactic(auto, unfolding(crate::specs::Values::front_text))]
fn put_front(to: &mut Vec<u8>, text: &[u8]) -> Result<(), AllocError>
    requires { 20 ≤ length text.now }
    ensures { OnOk result (to.new.items ≡ to.old.items ++ front_text text.now) }
{
    to.extend_from_slice(&text[..FRONT_BYTES])?;
    to.extend_from_slice(b".. (")?;
    put_digits(to, text.len() as u64)?;
    to.extend_from_slice(b" bytes)")
}

// Appends a text, shortened where it is long.
#[tactic(auto, unfolding(crate::specs::Values::short_text))]
fn put_short(to: &mut Vec<u8>, text: &[u8]) -> Result<(), AllocError>
    ensures { OnOk result (to.new.items ≡ to.old.items ++ short_text text.now) }
{
    if text.len() <= MOST_BYTES {
        to.extend_from_slice(text)
    } else {
        put_front(to, text)
    }
}

/// Appends the text of a value. Of a text of more than 24 bytes, the first 20 are shown, and how many there are.
#[tactic(auto, unfolding(crate::specs::Values::value_shown))]
pub fn put_value(alloc: Global, to: &mut Vec<u8>, value: &Value) -> Result<(), AllocError>
    ensures { OnOk result (to.new.items ≡ to.old.items ++ value_shown (plain value.now)) }
{
    let mut text = Vec::new(alloc);
    value.show(alloc, &mut text)?;
    put_short(to, &text)
}

// Appends a constant as it stands in a source: a word in quotes, and the empty list as `[]`.
fn put_literal(alloc: Global, to: &mut Vec<u8>, value: &Value) -> Result<(), AllocError>
    ensures { OnOk result (to.new.items ≡ to.old.items ++ constant_text (plain value.now)) }
{
    match value {
        Value::Word(word) => {
            to.extend_from_slice(b"\"")?;
            to.extend_from_slice(word.bytes())?;
            to.extend_from_slice(b"\"")
        }
        Value::List(list) => {
            if list.len() == 0 {
                to.extend_from_slice(b"[]")
            } else {
                value.show(alloc, to)
            }
        }
        _ => value.show(alloc, to),
    }
}

/// Appends a constant, shortened as a value is.
#[tactic(auto, unfolding(crate::specs::Values::constant_shown))]
pub(crate) fn put_constant(alloc: Global, to: &mut Vec<u8>, value: &Value) -> Result<(), AllocError>
    ensures { OnOk result (to.new.items ≡ to.old.items ++ constant_shown (plain value.now)) }
{
    let mut text = Vec::new(alloc);
    put_literal(alloc, &mut text, value)?;
    put_short(to, &text)
}
