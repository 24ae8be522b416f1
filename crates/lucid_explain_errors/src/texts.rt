//! Parts of what is said.
ghost use Rattle.std.specs.Prelude.{◌≡◌, ◌++◌, codes, map, take, OnOk};
ghost use Rattle.std.specs.Option.{option_copied};
ghost use Rattle.lucid_value.specs.View.{plain};
ghost use Rattle.lucid_explain_errors.specs.Texts.{short, short_value, space_text, point_text, gets_text, called_text, called_if, traced_text, head_text};

use crate::traced::Traced;
use lucid_explain_places::put_number;
use lucid_tree::{Shape, Tree};
use lucid_value::Value;
use std::alloc::{AllocError, Global};

/// So many bytes are told of a value, a name or a line.
pub(crate) const MOST_BYTES: usize = 40;

/// The first bytes, so many.
#[tactic(auto, using(std::proofs::lemmas::List::take_min))]
pub(crate) fn front(bytes: &[u8]) -> &[u8]
    ensures { result.now ≡ take 40 bytes.now }
{
    &bytes[..MOST_BYTES.min(bytes.len())]
}

// Appends bytes, at most so many.
fn put_short(text: &mut Vec<u8>, bytes: &[u8]) -> Result<(), AllocError>
    ensures { OnOk result (text.new.items ≡ text.old.items ++ short bytes.now) }
{
    if bytes.len() <= MOST_BYTES {
        return text.extend_from_slice(bytes);
    }
    text.extend_from_slice(front(bytes))?;
    text.extend_from_slice(b"..")
}

// Appends a value.
fn put_value(alloc: Global, text: &mut Vec<u8>, value: &Value) -> Result<(), AllocError>
    ensures { OnOk result (text.new.items ≡ text.old.items ++ short_value (plain value.now)) }
{
    let mut bytes = Vec::new(alloc);
    value.show(alloc, &mut bytes)?;
    put_short(text, &bytes)
}

// Appends a space, unless it is the first.
fn put_space(text: &mut Vec<u8>, space: u64) -> Result<(), AllocError>
    ensures { OnOk result (text.new.items ≡ text.old.items ++ space_text space) }
{
    if space == 0 {
        return Ok(());
    }
    put_number(text, b", space ", space)
}

/// Appends a text and a point.
pub(crate) fn put_point(
    text: &mut Vec<u8>,
    before: &[u8],
    time: u64,
    space: u64,
) -> Result<(), AllocError>
    ensures { OnOk result (text.new.items ≡ text.old.items ++ point_text before.now time space) }
{
    put_number(text, before, time)?;
    put_space(text, space)
}

// Appends what is got, of two.
fn put_two(alloc: Global, text: &mut Vec<u8>, left: &Value, right: &Value) -> Result<(), AllocError>
    ensures { OnOk result (text.new.items ≡ text.old.items ++ (short_value (plain left.now) ++ (codes " and " ++ short_value (plain right.now)))) }
{
    put_value(alloc, text, left)?;
    text.extend_from_slice(b" and ")?;
    put_value(alloc, text, right)
}

/// Appends what an operator or a form gets.
pub(crate) fn put_gets(
    alloc: Global,
    text: &mut Vec<u8>,
    values: &[Value],
) -> Result<(), AllocError>
    ensures { OnOk result (text.new.items ≡ text.old.items ++ gets_text (map plain values.now)) }
{
    match values {
        [] => Ok(()),
        [value] => {
            text.extend_from_slice(b" gets ")?;
            put_value(alloc, text, value)
        }
        [left, right] => {
            text.extend_from_slice(b" gets ")?;
            put_two(alloc, text, left, right)
        }
        [first, second, third, ..] => {
            text.extend_from_slice(b" gets ")?;
            put_value(alloc, text, first)?;
            text.extend_from_slice(b", ")?;
            put_two(alloc, text, second, third)
        }
    }
}

// Appends how a piece of the source is called.
fn put_called(text: &mut Vec<u8>, piece: &Tree) -> Result<(), AllocError>
    ensures { OnOk result (text.new.items ≡ text.old.items ++ called_text piece.now) }
{
    match piece.shape() {
        Shape::Name { name, .. } => put_short(text, name.bytes()),
        Shape::Call { name, .. } => {
            put_short(text, name.bytes())?;
            text.extend_from_slice(b"(..)")
        }
        Shape::Form { .. } => Ok(()),
        Shape::Scope { .. } => Ok(()),
    }
}

/// Appends how a piece of the source is called, where there is one.
pub(crate) fn put_called_if(text: &mut Vec<u8>, piece: Option<&Tree>) -> Result<(), AllocError>
    ensures { OnOk result (text.new.items ≡ text.old.items ++ called_if (option_copied piece.entry)) }
{
    match piece {
        Some(piece) => put_called(text, piece),
        None => Ok(()),
    }
}

/// What is said of the value of a judgment.
pub(crate) fn traced_text(traced: Traced) -> &'static [u8]
    ensures { result.now ≡ traced_text traced }
{
    match traced {
        Traced::Error => b" is `error`.\n",
        Traced::End => b" is `eod`.\n",
    }
}

/// Appends the first line.
pub(crate) fn put_head(text: &mut Vec<u8>, traced: Traced, time: u64) -> Result<(), AllocError>
    ensures { OnOk result (text.new.items ≡ text.old.items ++ head_text traced time) }
{
    put_number(text, b"The value at time ", time)?;
    match traced {
        Traced::Error => text.extend_from_slice(b" is `error`.\n"),
        Traced::End => text.extend_from_slice(
            b" is `eod`, the end of data: a run ends before it.\n",
        ),
    }
}
