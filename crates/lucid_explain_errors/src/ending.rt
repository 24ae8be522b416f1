//! What is said of the judgment with which a way ends.
ghost use Rattle.std.specs.Prelude.{◌≡◌, ◌++◌, ◌+◌, ℕ, map, Some, OnOk};
ghost use Rattle.lucid_value.specs.View.{plain};
ghost use Rattle.lucid_tree.specs.Tree.{apply, stream};
ghost use Rattle.lucid_tree.specs.Shape.{head_of};
ghost use Rattle.lucid_cert_rules.specs.Certificates.{plain_judgment};
ghost use Rattle.lucid_explain_errors.specs.Steps.{plain_sight, FitsTree};
ghost use Rattle.lucid_explain_errors.specs.Ending.{wanted_text, hint, last_of, got_text, head_error, head_end, head_cause, line_text, piece_cause, seen_text, element_text, own_place_text, found_text, ending_text, ending_at};
ghost use Rattle.lucid_explain_errors.specs.Inputs.{line_of};

use crate::cause::{cause_by, put_cause};
use crate::inputs::{line_of, put_line_seen};
use crate::steps::Sight;
use crate::texts::{put_gets, put_point};
use crate::traced::Traced;
use crate::ways::values_at;
use lucid_cert_rules::JudgmentRow;
use lucid_explain_places::{put_number, put_place};
use lucid_explain_run::{own_place, piece_of};
use lucid_ops::Op;
use lucid_tree::{Decider, Form, Head, Shape, Tree};
use lucid_value::Value;
use std::alloc::{AllocError, Global};

// What a form over streams wants of what it looked at last.
fn wanted_text(decider: Decider, over_space: bool) -> &'static [u8]
    ensures { result.now ≡ wanted_text decider over_space }
{
    match decider {
        Decider::Point => b"there is no later time or space.",
        Decider::Test => b"it wants `true` or `false`.",
        Decider::Target if over_space => b"it wants a space, from 0 to 9223372036854775807.",
        Decider::Target => b"it wants a time, from 0 to 9223372036854775807.",
        Decider::Search => b"it wants `true` or `false` on its right side.",
    }
}

// What may be meant instead.
fn hint(form: Form) -> &'static [u8]
    ensures { result.now ≡ hint form }
{
    match form {
        Form::And => b" On both sides of it stands a test, as in `n > 1 and n < 5`.",
        Form::Or => b" On both sides of it stands a test, as in `n eq 1 or n eq 2`.",
        Form::Asa => b" The value of n at time 5 is `n attime 5`.",
        Form::Attime => { b" The value of n one time before is `(0 fby n)`, which is 0 at first." }
        _ => b"",
    }
}

// The last of the values, if there are any.
fn last_of(values: &[Value]) -> &[Value]
    ensures { map plain result.now ≡ last_of (map plain values.now) }
{
    &values[values.len().saturating_sub(1)..]
}

// What is traced at a point.
#[derive(Clone, Copy)]
struct Point {
    traced: Traced,
    time: u64,
    space: u64,
}

// Appends that, at a point, what has this word gets values.
fn put_got(
    alloc: Global,
    text: &mut Vec<u8>,
    at: Point,
    word: &[u8],
    values: &[Value],
) -> Result<(), AllocError>
    ensures { OnOk result (text.new.items ≡ text.old.items ++ got_text at.time at.space word.now (map plain values.now)) }
{
    put_point(text, b"At time ", at.time, at.space)?;
    text.extend_from_slice(b" `")?;
    text.extend_from_slice(word)?;
    text.extend_from_slice(b"`")?;
    put_gets(alloc, text, values)?;
    text.extend_from_slice(b": ")
}

// Appends why an operator gives an error.
fn put_operator(
    alloc: Global,
    text: &mut Vec<u8>,
    at: Point,
    op: Op,
    values: &[Value],
) -> Result<(), AllocError>
    ensures { (n : ℕ) → OnOk result (text.new.items ≡ text.old.items ++ head_error at.time at.space (map plain values.now) (apply op n)) }
{
    put_got(alloc, text, at, op.row().spelling, values)?;
    put_cause(text, op, cause_by(op, values))
}

// Appends why a form over streams gives an error.
fn put_form(
    alloc: Global,
    text: &mut Vec<u8>,
    at: Point,
    form: Form,
    values: &[Value],
) -> Result<(), AllocError>
    ensures { OnOk result (text.new.items ≡ text.old.items ++ head_error at.time at.space (map plain values.now) (stream form)) }
{
    put_got(alloc, text, at, form.spelling(), last_of(values))?;
    text.extend_from_slice(wanted_text(form.decider(), form.over_space()))?;
    text.extend_from_slice(hint(form))?;
    text.extend_from_slice(b"\n")
}

// Appends why a form has the value `error`.
fn put_error(
    alloc: Global,
    text: &mut Vec<u8>,
    at: Point,
    head: Head<'_>,
    values: &[Value],
) -> Result<(), AllocError>
    ensures { OnOk result (text.new.items ≡ text.old.items ++ head_error at.time at.space (map plain values.now) (head_of head.entry)) }
{
    match head {
        Head::Const(_) => text.extend_from_slice(b"Here `error` itself is written.\n"),
        Head::Apply { op, .. } => put_operator(alloc, text, at, op, values),
        Head::Stream(form) => put_form(alloc, text, at, form, values),
    }
}

// Appends why a form has the value `eod`.
fn put_end(text: &mut Vec<u8>, head: Head<'_>) -> Result<(), AllocError>
    ensures { OnOk result (text.new.items ≡ text.old.items ++ head_end (head_of head.entry)) }
{
    match head {
        Head::Const(_) => text.extend_from_slice(b"Here `eod` itself is written.\n"),
        Head::Apply { .. } => Ok(()),
        Head::Stream(_) => Ok(()),
    }
}

// Appends why an input's element is what is traced, by the number of its line.
fn put_line(text: &mut Vec<u8>, traced: Traced, line: u64) -> Result<(), AllocError>
    ensures { OnOk result (text.new.items ≡ text.old.items ++ line_text traced line) }
{
    match traced {
        Traced::Error => {
            put_number(text, b"Line ", line)?;
            text.extend_from_slice(
                b" of this input is no value, or it is `error` itself. A value is an integer, as -12, a word without quotes, as red, a string, as `two words', a list, as [% 1 2 %], `true` or `false`. Of an input x, `x whenever not iserror x` has the other lines, and `x whenever not iserror x and isint x` the integers.\n",
            )
        }
        Traced::End => {
            put_number(text, b"This input ends before line ", line)?;
            text.extend_from_slice(
                b", or that line is `eod` itself. At the last line of an input x `iseod next x` is true.\n",
            )
        }
    }
}

// Appends why an input's element at a time is what is traced. No time is the greatest number of 64 bits.
fn put_input(text: &mut Vec<u8>, traced: Traced, time: u64) -> Result<(), AllocError>
    ensures { OnOk result (text.new.items ≡ text.old.items ++ line_text traced (time + 1)) }
{
    match time.checked_add(1) {
        Some(line) => put_line(text, traced, line),
        None => Err(AllocError),
    }
}

// Appends why a form has the value that is traced.
fn put_by_head(
    alloc: Global,
    text: &mut Vec<u8>,
    at: Point,
    head: Head<'_>,
    values: &[Value],
) -> Result<(), AllocError>
    ensures { OnOk result (text.new.items ≡ text.old.items ++ head_cause at.traced at.time at.space (map plain values.now) (head_of head.entry)) }
{
    match at.traced {
        Traced::Error => put_error(alloc, text, at, head, values),
        Traced::End => put_end(text, head),
    }
}

// Appends why a piece has the value that is traced.
fn put_piece(
    alloc: Global,
    text: &mut Vec<u8>,
    at: Point,
    piece: &Tree,
    values: &[Value],
) -> Result<(), AllocError>
    ensures { OnOk result (text.new.items ≡ text.old.items ++ piece_cause at.traced at.time at.space (map plain values.now) piece.now) }
{
    match piece.shape() {
        Shape::Form { head, .. } => put_by_head(alloc, text, at, head, values),
        Shape::Name { .. } => put_input(text, at.traced, at.time),
        Shape::Call { .. } => Ok(()),
        Shape::Scope { .. } => Ok(()),
    }
}

// Appends the line of an input that is `error`, where it is there.
fn put_seen(text: &mut Vec<u8>, sight: &Sight<'_>, time: u64, name: &[u8]) -> Result<(), AllocError>
    ensures { OnOk result (text.new.items ≡ text.old.items ++ seen_text sight.now.traced (line_of sight.now.inputs.now name.now time)) }
{
    match sight.traced {
        Traced::Error => put_line_seen(text, line_of(sight.inputs, name, time)),
        Traced::End => Ok(()),
    }
}

// Appends the line of a piece that is an input.
fn put_element(
    text: &mut Vec<u8>,
    sight: &Sight<'_>,
    time: u64,
    piece: &Tree,
) -> Result<(), AllocError>
    ensures { OnOk result (text.new.items ≡ text.old.items ++ element_text sight.now.traced sight.now.inputs.now time piece.now) }
{
    match piece.shape() {
        Shape::Name { name, .. } => put_seen(text, sight, time, name.bytes()),
        Shape::Form { .. } => Ok(()),
        Shape::Call { .. } => Ok(()),
        Shape::Scope { .. } => Ok(()),
    }
}

// Appends the place of a piece.
fn put_own_place(text: &mut Vec<u8>, sight: &Sight<'_>, piece: &Tree) -> Result<(), AllocError>
    requires { FitsTree sight.now }
    ensures { OnOk result (text.new.items ≡ text.old.items ++ own_place_text (plain_sight sight.now) piece.now) }
{
    let at = sight.source.len().min(own_place(piece) as usize);
    put_place(text, sight.file, sight.source, at)
}

// Appends the place of a judgment's piece, and why it has its value.
fn put_found(
    alloc: Global,
    text: &mut Vec<u8>,
    sight: &Sight<'_>,
    row: &JudgmentRow,
    piece: &Tree,
) -> Result<(), AllocError>
    requires { FitsTree sight.now }
    ensures { OnOk result (text.new.items ≡ text.old.items ++ found_text (plain_sight sight.now) (plain_judgment row.now) (Some piece.now)) }
{
    let values = values_at(alloc, sight.judgments, row.uses.items())?;
    let at = Point {
        traced: sight.traced,
        time: row.time,
        space: row.space,
    };
    put_own_place(text, sight, piece)?;
    put_piece(alloc, text, at, piece, &values)?;
    put_element(text, sight, row.time, piece)
}

// Appends what is said of a judgment.
fn put_row(
    alloc: Global,
    text: &mut Vec<u8>,
    sight: &Sight<'_>,
    row: &JudgmentRow,
) -> Result<(), AllocError>
    requires { FitsTree sight.now }
    ensures { OnOk result (text.new.items ≡ text.old.items ++ ending_text (plain_sight sight.now) (Some (plain_judgment row.now))) }
{
    match piece_of(sight.tree, sight.origins, row.node) {
        Some(piece) => put_found(alloc, text, sight, row, piece),
        None => Ok(()),
    }
}

/// Appends what is said of the judgment of a number, with which a way ends.
pub(crate) fn put_ending(
    alloc: Global,
    text: &mut Vec<u8>,
    sight: &Sight<'_>,
    number: u64,
) -> Result<(), AllocError>
    requires { FitsTree sight.now }
    ensures { OnOk result (text.new.items ≡ text.old.items ++ ending_at (plain_sight sight.now) number) }
{
    match sight.judgments.get(number as usize) {
        Some(row) => put_row(alloc, text, sight, row),
        None => Ok(()),
    }
}
