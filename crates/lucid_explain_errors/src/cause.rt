//! Why an operator gives `error`.
ghost use Rattle.std.specs.Prelude.{◌≡◌, ◌++◌, if◌then◌else◌, length, map, IfOk, OnOk};
ghost use Rattle.lucid_value.specs.Plain.{int};
ghost use Rattle.lucid_value.specs.View.{plain};
ghost use Rattle.lucid_ops.specs.Arity.{arity};
ghost use Rattle.lucid_explain_errors.specs.Causes.{is_zero, is_below_zero, division_cause, power_cause, inner_cause, cause_by, cause_of, kinds_hint, cause_text};

use crate::wanted::{Wanted, is_error};
use lucid_ops::{Op, apply};
use lucid_value::Value;
use std::alloc::{AllocError, Global};

/// Why an operator gives `error`.
#[derive(Clone, Copy, Debug, PartialEq, Eq)]
pub enum Cause {
    /// The arguments aren't what it wants.
    Kinds,
    /// The result is no integer of 128 bits.
    TooBig,
    ZeroDivisor,
    /// The exponent is below 0.
    BelowZero,
    /// The list is empty.
    Empty,
    /// The list has no item of the number.
    NoItem,
    /// The string has no such part.
    NoPart,
    /// The bytes of the string are no word's.
    NoWord,
    /// The result passes a limit of values.
    TooLarge,
}

// Whether an integer is 0.
#[tactic(auto, using(crate::proofs::Signs::zero_is, crate::proofs::Signs::not_zero))]
fn is_number_zero(number: i128) -> bool
    ensures { result ≡ is_zero (int number) }
{
    if number == 0 {
        return true;
    }
    false
}

// Whether an integer is below 0.
#[tactic(auto, using(crate::proofs::Signs::below_zero, crate::proofs::Signs::not_below_zero))]
fn is_number_below_zero(number: i128) -> bool
    ensures { result ≡ is_below_zero (int number) }
{
    if number < 0 {
        return true;
    }
    false
}

// Whether a value is the integer 0.
fn is_zero(value: &Value) -> bool
    ensures { result ≡ is_zero (plain value.now) }
{
    match value {
        Value::Int(number) => is_number_zero(*number),
        _ => false,
    }
}

// Whether a value is an integer below 0.
fn is_below_zero(value: &Value) -> bool
    ensures { result ≡ is_below_zero (plain value.now) }
{
    match value {
        Value::Int(number) => is_number_below_zero(*number),
        _ => false,
    }
}

// The cause by a divisor.
fn zero_cause(divisor: &Value) -> Cause
    ensures { result ≡ (if is_zero (plain divisor.now) then Cause.ZeroDivisor else Cause.TooBig) }
{
    if is_zero(divisor) {
        Cause::ZeroDivisor
    } else {
        Cause::TooBig
    }
}

// The cause by an exponent.
fn negative_cause(exponent: &Value) -> Cause
    ensures { result ≡ (if is_below_zero (plain exponent.now) then Cause.BelowZero else Cause.TooBig) }
{
    if is_below_zero(exponent) {
        Cause::BelowZero
    } else {
        Cause::TooBig
    }
}

// The cause of a quotient's or a remainder's error.
fn division_cause(values: &[Value]) -> Cause
    ensures { result ≡ division_cause (map plain values.now) }
{
    match values {
        [_, divisor] => zero_cause(divisor),
        _ => Cause::TooBig,
    }
}

// The cause of a power's error.
fn power_cause(values: &[Value]) -> Cause
    ensures { result ≡ power_cause (map plain values.now) }
{
    match values {
        [_, exponent] => negative_cause(exponent),
        _ => Cause::TooBig,
    }
}

// The cause of an error of arguments that are what the operator wants.
fn inner_cause(op: Op, values: &[Value]) -> Cause
    ensures { result ≡ inner_cause op (map plain values.now) }
{
    match op {
        Op::Div | Op::Mod => division_cause(values),
        Op::Pow => power_cause(values),
        Op::Head | Op::Tail => Cause::Empty,
        Op::Nth => Cause::NoItem,
        Op::Substr => Cause::NoPart,
        Op::MakeWord => Cause::NoWord,
        Op::Cons | Op::Append | Op::Join => Cause::TooLarge,
        _ => Cause::TooBig,
    }
}

/// The cause of an error of these arguments.
pub(crate) fn cause_by(op: Op, values: &[Value]) -> Cause
    ensures { result ≡ cause_by op (map plain values.now) }
{
    if Wanted::of(op).is_met_by(values) {
        inner_cause(op, values)
    } else {
        Cause::Kinds
    }
}

/// Why the operator gives `error` for these arguments; none where it gives another value.
pub fn cause_of(alloc: Global, op: Op, values: &[Value]) -> Result<Option<Cause>, AllocError>
    requires { length values.now ≡ arity op }
    ensures { IfOk result (λ cause. cause ≡ cause_of op (map plain values.now)) }
{
    let value = apply(alloc, op, values)?;
    if is_error(&value) {
        Ok(Some(cause_by(op, values)))
    } else {
        Ok(None)
    }
}

// What may be meant, where the arguments aren't what an operator wants.
fn kinds_hint(op: Op) -> &'static [u8]
    ensures { result.now ≡ kinds_hint op }
{
    match op {
        Op::Add =>
            b"Strings, as `red' and `blue', are joined by `^`, and lists by `<>`. \"red\" is a word, and words aren't joined. Each line of an input is a value, also a heading.\n",
        Op::Join =>
            b"A string is written `red', and \"red\" is a word. Lists are joined by `<>`. A power is written `**`. The string of an integer or a word x is `mkstring x`.\n",
        Op::Cons => {
            b"A list of two items is `1 :: 2 :: []`. An item with `fby` in it stands in parentheses.\n"
        }
        Op::Append => b"What differs is written with `ne`, as in `n ne 3`.\n",
        Op::Length | Op::Substr =>
            b"\"red\" is a word, and no string: the string of a word x is `mkstring x`.\n",
        Op::Head => b"The first value of a stream n is `first n`.\n",
        _ => b"",
    }
}

/// Appends what is said of a cause of an operator's error.
pub(crate) fn put_cause(text: &mut Vec<u8>, op: Op, cause: Cause) -> Result<(), AllocError>
    ensures { OnOk result (text.new.items ≡ text.old.items ++ cause_text op cause) }
{
    match cause {
        Cause::Kinds => put_kinds(text, op),
        Cause::TooBig => text.extend_from_slice(
            b"the result is no integer from -2^127 to 2^127 - 1.\n",
        ),
        Cause::ZeroDivisor => text.extend_from_slice(b"the divisor is 0.\n"),
        Cause::BelowZero => text.extend_from_slice(b"the exponent is below 0.\n"),
        Cause::Empty => text.extend_from_slice(b"the list is empty.\n"),
        Cause::NoItem => text.extend_from_slice(
            b"the list has no item of this number; the first is item 0.\n",
        ),
        Cause::NoPart => text.extend_from_slice(
            b"the string has no such part. Its first byte is byte 0, and a part ends before the last number, which is the length at most.\n",
        ),
        Cause::NoWord => text.extend_from_slice(
            b"no word is spelt so. A word is a letter, then letters and digits, and none of `true`, `false`, `eod` and `error`.\n",
        ),
        Cause::TooLarge => text.extend_from_slice(
            b"the result is too large. A list or a string weighs 65,536 at most, and lists nest 64 deep at most.\n",
        ),
    }
}

// Appends what an operator wants.
fn put_kinds(text: &mut Vec<u8>, op: Op) -> Result<(), AllocError>
    ensures { OnOk result (text.new.items ≡ text.old.items ++ cause_text op Cause.Kinds) }
{
    text.extend_from_slice(b"it wants ")?;
    text.extend_from_slice(Wanted::of(op).text())?;
    text.extend_from_slice(b".\n")?;
    text.extend_from_slice(kinds_hint(op))
}
