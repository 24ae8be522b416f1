//! The steps that are told of a way.
ghost use Rattle.std.specs.Prelude.{◌≡◌, ◌++◌, map, Some, IfOk, OnOk};
ghost use Rattle.std.specs.List.{flat_map};
ghost use Rattle.lucid_cert_rules.specs.Certificates.{plain_judgment};
ghost use Rattle.lucid_explain_errors.specs.Steps.{plain_sight, FitsTree, is_named, named, step_text, step_at, left_out_text, steps_text};

use crate::inputs::Input;
use crate::texts::{put_called_if, put_point, traced_text};
use crate::traced::Traced;
use lucid_cert_rules::{JudgmentRow, asked_at};
use lucid_compile::Origins;
use lucid_equations::Table;
use lucid_explain_places::put_number;
use lucid_explain_run::piece_of;
use lucid_tree::Tree;
use std::alloc::{AllocError, Global};

// So many steps are told, and of more so many of the first and of the last.
const MOST_TOLD: usize = 6;

const FIRST_TOLD: usize = 2;

const LAST_TOLD: usize = 4;

/// What is told: of a source in a file, of its tree with the places from which the nodes of the tree's table come, of the judgments of a
/// certificate, and of inputs.
#[derive(Clone, Copy)]
pub(crate) struct Sight<'a> {
    pub(crate) file: &'a [u8],
    pub(crate) source: &'a [u8],
    pub(crate) tree: &'a Tree,
    pub(crate) origins: &'a Origins,
    pub(crate) judgments: &'a [JudgmentRow],
    pub(crate) inputs: &'a [Input],
    pub(crate) traced: Traced,
}

// Whether the judgment of a number is of a name or a call.
fn is_named(table: &Table, judgments: &[JudgmentRow], number: u64) -> bool
    ensures { result ≡ is_named table.now (map plain_judgment judgments.now) number }
{
    asked_at(table, judgments, number).is_some()
}

/// The judgments of names and calls among some.
pub(crate) fn named(
    alloc: Global,
    table: &Table,
    judgments: &[JudgmentRow],
    numbers: &[u64],
) -> Result<Vec<u64>, AllocError>
    ensures { IfOk result (λ those. those.items ≡ named table.now (map plain_judgment judgments.now) numbers.now) }
{
    numbers
        .iter()
        .copied()
        .filter(|number| is_named(table, judgments, *number))
        .collect(alloc)
}

// Appends a step.
fn put_step(text: &mut Vec<u8>, sight: &Sight<'_>, row: &JudgmentRow) -> Result<(), AllocError>
    requires { FitsTree sight.now }
    ensures { OnOk result (text.new.items ≡ text.old.items ++ step_text (plain_sight sight.now) (Some (plain_judgment row.now))) }
{
    put_called_if(text, piece_of(sight.tree, sight.origins, row.node))?;
    put_point(text, b" at time ", row.time, row.space)?;
    text.extend_from_slice(traced_text(sight.traced))
}

// Appends the step of a number.
fn put_step_at(text: &mut Vec<u8>, sight: &Sight<'_>, number: u64) -> Result<(), AllocError>
    requires { FitsTree sight.now }
    ensures { OnOk result (text.new.items ≡ text.old.items ++ step_at (plain_sight sight.now) number) }
{
    match sight.judgments.get(number as usize) {
        Some(row) => put_step(text, sight, row),
        None => Ok(()),
    }
}

// Appends steps.
fn put_all(text: &mut Vec<u8>, sight: &Sight<'_>, numbers: &[u64]) -> Result<(), AllocError>
    requires { FitsTree sight.now }
    ensures { OnOk result (text.new.items ≡ text.old.items ++ flat_map (step_at (plain_sight sight.now)) numbers.now) }
{
    for number in numbers {
        put_step_at(text, sight, *number)?;
    }
    Ok(())
}

// Appends how many steps are left out.
fn put_left_out(text: &mut Vec<u8>, count: u64) -> Result<(), AllocError>
    ensures { OnOk result (text.new.items ≡ text.old.items ++ left_out_text count) }
{
    put_number(text, b".. ", count)?;
    text.extend_from_slice(b" more ..\n")
}

/// Appends the steps: of many the first and the last.
pub(crate) fn put_steps(
    text: &mut Vec<u8>,
    sight: &Sight<'_>,
    numbers: &[u64],
) -> Result<(), AllocError>
    requires { FitsTree sight.now }
    ensures { OnOk result (text.new.items ≡ text.old.items ++ steps_text (plain_sight sight.now) numbers.now) }
{
    let count = numbers.len();
    if count <= MOST_TOLD {
        return put_all(text, sight, numbers);
    }
    put_all(text, sight, &numbers[..FIRST_TOLD])?;
    put_left_out(text, (count - MOST_TOLD) as u64)?;
    put_all(text, sight, &numbers[count - LAST_TOLD..])
}
