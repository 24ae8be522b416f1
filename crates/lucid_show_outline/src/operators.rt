//! Operators with the texts of their operands.
ghost use Rattle.std.specs.Prelude.{◌≡◌, ◌≤◌, ◌++◌, slice_get, OnOk};
ghost use Rattle.lucid_ops.specs.Row.{plain_row};
ghost use Rattle.lucid_print.specs.Canonical.{parted, parted_more};
ghost use Rattle.lucid_show_outline.specs.Equations.{plain_parts, operand_text, arguments, called_text, before_text, between_text, applied_text};

use crate::part::Part;
use lucid_ops::{Form, OpRow};
use std::alloc::AllocError;

/// Appends the operand of this number in a place that wants this level.
#[tactic(auto, unfolding(crate::specs::Equations::operand_text))]
pub(crate) fn put_operand(
    to: &mut Vec<u8>,
    operands: &[Part],
    number: usize,
    wanted: u8,
) -> Result<(), AllocError>
    ensures { OnOk result (to.new.items ≡ to.old.items ++ operand_text wanted (slice_get (plain_parts operands.now) number)) }
{
    match operands.get(number) {
        Some(operand) => operand.put_at(wanted, to),
        None => to.extend_from_slice(b".."),
    }
}

// Appends arguments, each behind a comma. A sentence stands in parentheses.
fn put_more(to: &mut Vec<u8>, parts: &[Part]) -> Result<(), AllocError>
    ensures { OnOk result (to.new.items ≡ to.old.items ++ parted_more (arguments (plain_parts parts.now))) }
{
    for part in parts {
        to.extend_from_slice(b", ")?;
        part.put_at(1, to)?;
    }
    Ok(())
}

// Appends arguments, parted by commas.
fn put_arguments(to: &mut Vec<u8>, parts: &[Part]) -> Result<(), AllocError>
    ensures { OnOk result (to.new.items ≡ to.old.items ++ parted (arguments (plain_parts parts.now))) }
{
    match parts.split_first() {
        Some((first, more)) => {
            first.put_at(1, to)?;
            put_more(to, more)
        }
        None => Ok(()),
    }
}

// Appends an operator in front of its operands, in parentheses.
#[tactic(auto, unfolding(crate::specs::Equations::called_text))]
fn put_called(to: &mut Vec<u8>, row: OpRow, operands: &[Part]) -> Result<(), AllocError>
    ensures { OnOk result (to.new.items ≡ to.old.items ++ called_text (plain_row row) (plain_parts operands.now)) }
{
    to.extend_from_slice(row.spelling)?;
    to.extend_from_slice(b"(")?;
    put_arguments(to, operands)?;
    to.extend_from_slice(b")")
}

// Appends an operator in front of its operand.
#[tactic(auto, unfolding(crate::specs::Equations::before_text))]
fn put_before(to: &mut Vec<u8>, row: OpRow, operands: &[Part]) -> Result<(), AllocError>
    ensures { OnOk result (to.new.items ≡ to.old.items ++ before_text (plain_row row) (plain_parts operands.now)) }
{
    to.extend_from_slice(row.spelling)?;
    to.extend_from_slice(b" ")?;
    put_operand(to, operands, 0, row.level)
}

// Appends an operator between its two operands.
#[tactic(auto, unfolding(crate::specs::Equations::between_text))]
fn put_between(to: &mut Vec<u8>, row: OpRow, operands: &[Part]) -> Result<(), AllocError>
    requires { row.level ≤ 12 }
    ensures { OnOk result (to.new.items ≡ to.old.items ++ between_text (plain_row row) (plain_parts operands.now)) }
{
    put_operand(to, operands, 0, row.side.left_level(row.level))?;
    to.extend_from_slice(b" ")?;
    to.extend_from_slice(row.spelling)?;
    to.extend_from_slice(b" ")?;
    put_operand(to, operands, 1, row.side.right_level(row.level))
}

/// Appends an operator with its operands.
#[tactic(auto, unfolding(crate::specs::Equations::applied_text))]
pub(crate) fn put_applied(to: &mut Vec<u8>, row: OpRow, operands: &[Part]) -> Result<(), AllocError>
    requires { row.level ≤ 12 }
    ensures { OnOk result (to.new.items ≡ to.old.items ++ applied_text row.form (plain_row row) (plain_parts operands.now)) }
{
    match row.form {
        Form::Before => put_before(to, row, operands),
        Form::Between => put_between(to, row, operands),
        Form::Called => put_called(to, row, operands),
    }
}
