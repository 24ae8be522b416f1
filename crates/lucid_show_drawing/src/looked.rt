//! What boxes stand for, and at which others each looked.
ghost use Rattle.std.specs.Prelude.{◌≡◌, ◌+◌, ◌++◌, IfOk, OnOk};
ghost use Rattle.std.specs.List.{flat_map};
ghost use Rattle.std.specs.Option.{option_map};
ghost use Rattle.std.specs.Borrow.{Bor};
ghost use Rattle.lucid_cert_rules.specs.Certificates.{plain_judgment};
ghost use Rattle.lucid_cert_rules.specs.declared.rows.JudgmentRow.{JudgmentRow as Judgment};
ghost use Rattle.lucid_show_outline.specs.Views.{view_of};
ghost use Rattle.lucid_show_drawing.specs.Looked.{all_tests, box_at, box_for, boxes_once, looked, looked_at, looked_for, looked_through, AreTests};

use indexmap::IndexSet;
use lucid_cert_rules::{Cell, JudgmentRow, asked_at};
use lucid_show_outline::Source;
use std::alloc::AllocError;

// The box of a judgment that asks for this.
#[tactic(auto, unfolding(crate::specs::Looked::box_for))]
fn box_for(number: u64, asked: Option<Cell>) -> Cell
    ensures { result ≡ box_for number asked }
{
    match asked {
        Some(cell) => cell,
        None => Cell::Named { judgment: number },
    }
}

/// The box of a judgment: what it asks for, or one of its own.
pub(crate) fn box_at(source: &Source<'_>, number: u64) -> Cell
    ensures { result ≡ box_at (view_of source.now) number }
{
    let asked = asked_at(source.table(), source.judgments(), number);
    box_for(number, asked)
}

/// The boxes of judgments, each once.
pub(crate) fn boxes(source: &Source<'_>, numbers: &[u64]) -> Result<IndexSet<Cell>, AllocError>
    ensures { IfOk result (λ boxes. boxes.keys ≡ boxes_once (view_of source.now) numbers.now) }
{
    let mut boxes = IndexSet::new(source.alloc());
    for number in numbers {
        boxes.insert(box_at(source, *number))?;
    }
    Ok(boxes)
}

// Adds the judgments at which these looked, so many levels deep.
#[cycle(looked)]
fn add_further(
    source: &Source<'_>,
    to: &mut Vec<u64>,
    numbers: &[u64],
    levels: u64,
) -> Result<(), AllocError>
    ensures { OnOk result (to.new.items ≡ to.old.items ++ flat_map (looked levels (view_of source.now)) numbers.now) }
{
    for number in numbers {
        add_looked(source, to, *number, levels)?;
    }
    Ok(())
}

// Adds those at which a judgment looked that asks for nothing: its tests, and others through what it uses beside them.
#[cycle(looked)]
#[tactic(auto, unfolding(crate::specs::Looked::looked_through))]
fn add_through(
    source: &Source<'_>,
    to: &mut Vec<u64>,
    judgment: Option<&JudgmentRow>,
    levels: u64,
) -> Result<(), AllocError>
    ensures { OnOk result (to.new.items ≡ to.old.items ++ looked_through (view_of source.now) (flat_map (looked levels (view_of source.now)))
        (option_map (λ (j : Bor Judgment). plain_judgment j.now) judgment.entry)) }
{
    match judgment {
        Some(judgment) => {
            let tests = source.tests(judgment);
            to.extend_from_slice(tests)?;
            add_further(source, to, &judgment.uses.items()[tests.len()..], levels)
        }
        None => Ok(()),
    }
}

// Adds those at which a judgment looked that asks for this, or for nothing.
#[cycle(looked)]
#[tactic(auto, unfolding(crate::specs::Looked::looked_for))]
fn add_for(
    source: &Source<'_>,
    to: &mut Vec<u64>,
    number: u64,
    asked: Option<Cell>,
    levels: u64,
) -> Result<(), AllocError>
    ensures { OnOk result (to.new.items ≡ to.old.items ++ looked_for (view_of source.now) (flat_map (looked levels (view_of source.now))) number asked) }
{
    match asked {
        Some(_) => {
            to.push(number)?;
            Ok(())
        }
        None => add_through(source, to, source.judgment(number), levels),
    }
}

// Adds the judgments, which ask or are tests, at which that of a number looked first, so many levels deep.
#[cycle(looked)]
fn add_looked(
    source: &Source<'_>,
    to: &mut Vec<u64>,
    number: u64,
    levels: u64,
) -> Result<(), AllocError>
    ensures { OnOk result (to.new.items ≡ to.old.items ++ looked levels (view_of source.now) number) }
{
    if levels == 0 {
        Ok(())
    } else {
        let asked = asked_at(source.table(), source.judgments(), number);
        add_for(source, to, number, asked, levels - 1)
    }
}

// The boxes at which the judgment of a number looked, each once. As many levels as there are judgments before it suffice, where each uses earlier
// ones alone.
fn looked_from(source: &Source<'_>, number: u64) -> Result<IndexSet<Cell>, AllocError>
    ensures { IfOk result (λ boxes. boxes.keys ≡ boxes_once (view_of source.now) (looked (number + 1) (view_of source.now) number)) }
{
    let Some(levels) = number.checked_add(1) else {
        return Err(AllocError);
    };
    let mut numbers = Vec::new(source.alloc());
    add_looked(source, &mut numbers, number, levels)?;
    boxes(source, &numbers)
}

/// The boxes at which a box looked, each once.
pub(crate) fn looked_at(source: &Source<'_>, cell: Cell) -> Result<IndexSet<Cell>, AllocError>
    ensures { IfOk result (λ boxes. boxes.keys ≡ looked_at (view_of source.now) cell) }
{
    match cell {
        Cell::Element { .. } => Ok(IndexSet::new(source.alloc())),
        Cell::Named { judgment } => looked_from(source, judgment),
    }
}

// The tests of all searches, of each search its own.
fn all_tests(source: &Source<'_>) -> Result<Vec<u64>, AllocError>
    ensures { IfOk result (λ these. these.items ≡ all_tests (view_of source.now)) }
{
    let judgments = source.judgments();
    let mut these = Vec::new(source.alloc());
    for judgment in judgments {
        these.extend_from_slice(source.tests(judgment))?;
    }
    Ok(these)
}

/// The tests of all searches, each once.
pub(crate) fn tests(source: &Source<'_>) -> Result<Vec<u64>, AllocError>
    ensures { IfOk result (λ these. AreTests (view_of source.now) these.items) }
{
    let mut these = all_tests(source)?;
    these.sort_unstable();
    these.dedup();
    Ok(these)
}
