//! The way of a traced value.
ghost use Rattle.std.specs.Prelude.{◌≡◌, map, slice_get, IfOk};
ghost use Rattle.lucid_value.specs.View.{plain};
ghost use Rattle.lucid_cert_rules.specs.Certificates.{plain_judgment};
ghost use Rattle.lucid_cert_rules.specs.Needs.{uses_at};
ghost use Rattle.lucid_explain_errors.specs.Ways.{is_traced_in, may_step, step_from, Leads, value_at, traced_at};

use crate::traced::Traced;
use lucid_cert_rules::JudgmentRow;
use lucid_value::Value;
use std::alloc::{AllocError, Global};

/// A way: the judgments that it passes and the one with which it ends, by their numbers.
#[derive(Drop)]
pub struct Way {
    pub passed: Vec<u64>,
    pub end: u64,
}

// The uses of the judgment of a number.
fn uses_at(judgments: &[JudgmentRow], number: u64) -> &[u64]
    ensures { result.now ≡ uses_at (map plain_judgment judgments.now) number }
{
    match judgments.get(number as usize) {
        Some(row) => row.uses.items(),
        None => &[],
    }
}

// Whether the judgment of a number is there, and its value is what is traced.
fn is_traced_at(traced: Traced, judgments: &[JudgmentRow], number: u64) -> bool
    ensures { result ≡ is_traced_in traced (slice_get (map plain_judgment judgments.now) number) }
{
    match judgments.get(number as usize) {
        Some(row) => traced.fits(&row.value),
        None => false,
    }
}

// Whether the way may go on from the judgment of a number to that of another.
fn may_step(traced: Traced, judgments: &[JudgmentRow], number: u64, other: u64) -> bool
    ensures { result ≡ may_step traced (map plain_judgment judgments.now) number other }
{
    other < number && is_traced_at(traced, judgments, other)
}

// The step from the judgment of a number.
fn step_from(traced: Traced, judgments: &[JudgmentRow], number: u64) -> Option<u64>
    ensures { result ≡ step_from traced (map plain_judgment judgments.now) number }
{
    let uses = uses_at(judgments, number);
    uses.iter()
        .copied()
        .find(|other| may_step(traced, judgments, number, *other))
}

/// The way of what is traced from the judgment of a number.
pub fn find_way(
    alloc: Global,
    traced: Traced,
    judgments: &[JudgmentRow],
    number: u64,
) -> Result<Way, AllocError>
    ensures { IfOk result (λ way. Leads traced (map plain_judgment judgments.now) number way.passed.items way.end) }
{
    let mut passed = Vec::new(alloc);
    let mut at = number;
    'steps: while let Some(next) = step_from(traced, judgments, at) {
        passed.push(at)?;
        at = next;
    }
    Ok(Way { passed, end: at })
}

// The value of the judgment of a number; `error` where there is none.
fn value_at(judgments: &[JudgmentRow], number: u64) -> Result<Value, AllocError>
    ensures { IfOk result (λ value. plain value ≡ value_at (map plain_judgment judgments.now) number) }
{
    match judgments.get(number as usize) {
        Some(row) => row.value.clone(),
        None => Ok(Value::Fault),
    }
}

/// The values of the judgments of some numbers, in order.
pub(crate) fn values_at(
    alloc: Global,
    judgments: &[JudgmentRow],
    numbers: &[u64],
) -> Result<Vec<Value>, AllocError>
    ensures { IfOk result (λ values. map plain values.items ≡ map (value_at (map plain_judgment judgments.now)) numbers.now) }
{
    let mut values = Vec::new(alloc);
    for number in numbers {
        let value = value_at(judgments, *number)?;
        values.push(value)?;
    }
    Ok(values)
}

/// What is traced from the judgment of a number, if anything.
pub(crate) fn traced_at(judgments: &[JudgmentRow], number: u64) -> Option<Traced>
    ensures { result ≡ traced_at (map plain_judgment judgments.now) number }
{
    match judgments.get(number as usize) {
        Some(row) => Traced::of(&row.value),
        None => None,
    }
}
