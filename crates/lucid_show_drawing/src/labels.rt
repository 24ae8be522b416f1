//! What stands in a grid: names, tests, values and contexts.
ghost use Rattle.std.specs.Prelude.{◌≡◌, ◌<◌, ◌++◌, OnOk, slice_get};
ghost use Rattle.std.specs.Option.{option_copied, option_map};
ghost use Rattle.std.specs.Borrow.{Bor};
ghost use Rattle.lucid_cert_rules.specs.Certificates.{plain_judgment};
ghost use Rattle.lucid_cert_rules.specs.declared.rows.JudgmentRow.{JudgmentRow as Judgment};
ghost use Rattle.lucid_show_outline.specs.Views.{view_of};
ghost use Rattle.lucid_show_drawing.specs.Labels.{called_text, line_name, each_text, row_text, row_name, label_for, label_text, value_for, test_text, told_name, told_for, origin_text, call_text, call_of, calls_text, entered_text, if_call, told_text, value_text, title_text};

use crate::asked::Asked;
use crate::spot::{Row, entry};
use lucid_cert_rules::{Cell, ContextRow, JudgmentRow};
use lucid_equations::Entry;
use lucid_print::put_tree;
use lucid_show_outline::{Source, put_digits, put_space, put_value};
use lucid_tree::{Shape, Tree};
use std::alloc::AllocError;

// Appends a name; of a call the function's, and that it has arguments.
#[tactic(auto, unfolding(crate::specs::Labels::called_text))]
fn put_called(to: &mut Vec<u8>, piece: &Tree) -> Result<(), AllocError>
    ensures { OnOk result (to.new.items ≡ to.old.items ++ called_text piece.now) }
{
    match piece.shape() {
        Shape::Name { name, .. } => to.extend_from_slice(name.bytes()),
        Shape::Call { name, .. } => {
            to.extend_from_slice(name.bytes())?;
            to.extend_from_slice(b"(..)")
        }
        Shape::Form { .. } => to.extend_from_slice(b".."),
        Shape::Scope { .. } => to.extend_from_slice(b".."),
    }
}

// The same of a piece that may not be there.
#[tactic(auto, unfolding(crate::specs::Labels::line_name))]
fn put_line_name(to: &mut Vec<u8>, piece: Option<&Tree>) -> Result<(), AllocError>
    ensures { OnOk result (to.new.items ≡ to.old.items ++ line_name (option_copied piece.entry)) }
{
    match piece {
        Some(piece) => put_called(to, piece),
        None => to.extend_from_slice(b".."),
    }
}

// Appends that a current name has its value at each time.
#[tactic(auto, unfolding(crate::specs::Labels::each_text))]
fn put_each(to: &mut Vec<u8>, entry: Option<Entry>) -> Result<(), AllocError>
    ensures { OnOk result (to.new.items ≡ to.old.items ++ each_text entry) }
{
    match entry {
        Some(Entry::Current { .. }) => to.extend_from_slice(b" (at each time)"),
        Some(_) => Ok(()),
        None => Ok(()),
    }
}

// Appends what tells a line of a panel from others of the name.
#[tactic(auto, unfolding(crate::specs::Labels::row_text))]
fn put_row(source: &Source<'_>, to: &mut Vec<u8>, row: Row) -> Result<(), AllocError>
    ensures { OnOk result (to.new.items ≡ to.old.items ++ row_text (view_of source.now).table row) }
{
    match row {
        Row::Input { .. } => Ok(()),
        Row::Name { name, space } => {
            put_space(to, space)?;
            put_each(to, entry(source, name))
        }
        Row::Test { space, .. } => put_space(to, space),
    }
}

// Appends the name of a line, by a node of it; of a test its whole text.
#[tactic(auto, unfolding(crate::specs::Labels::row_name))]
fn put_row_name(
    source: &Source<'_>,
    to: &mut Vec<u8>,
    row: Row,
    node: u32,
) -> Result<(), AllocError>
    ensures { OnOk result (to.new.items ≡ to.old.items ++ row_name row (slice_get (view_of source.now).pieces node)) }
{
    match row {
        Row::Input { .. } => put_line_name(to, source.piece(node)),
        Row::Name { .. } => put_line_name(to, source.piece(node)),
        Row::Test { .. } => source.put_tested(to, node),
    }
}

// Appends the label of the line of a judgment.
#[tactic(auto, unfolding(crate::specs::Labels::label_for))]
fn put_label_for(
    source: &Source<'_>,
    to: &mut Vec<u8>,
    row: Row,
    judgment: Option<&JudgmentRow>,
) -> Result<(), AllocError>
    ensures { OnOk result (to.new.items ≡ to.old.items
        ++ label_for (view_of source.now) row (option_map (λ (j : Bor Judgment). plain_judgment j.now) judgment.entry)) }
{
    match judgment {
        Some(judgment) => {
            put_row_name(source, to, row, judgment.node)?;
            put_row(source, to, row)
        }
        None => Ok(()),
    }
}

/// Appends the label of the line in which a value stands.
#[tactic(auto, unfolding(crate::specs::Labels::label_text))]
pub(crate) fn put_label(
    source: &Source<'_>,
    to: &mut Vec<u8>,
    asked: Asked,
) -> Result<(), AllocError>
    ensures { OnOk result (to.new.items ≡ to.old.items ++ label_text (view_of source.now) asked) }
{
    put_label_for(source, to, asked.spot.row, source.judgment(asked.number))
}

// Appends the value of a judgment.
#[tactic(auto, unfolding(crate::specs::Labels::value_for))]
fn put_value_for(
    source: &Source<'_>,
    to: &mut Vec<u8>,
    judgment: Option<&JudgmentRow>,
) -> Result<(), AllocError>
    ensures { OnOk result (to.new.items ≡ to.old.items ++ value_for (option_map (λ (j : Bor Judgment). plain_judgment j.now) judgment.entry)) }
{
    match judgment {
        Some(judgment) => put_value(source.alloc(), to, &judgment.value),
        None => Ok(()),
    }
}

/// Appends the value that is asked for.
#[tactic(auto, unfolding(crate::specs::Labels::value_text))]
pub(crate) fn put_value_of(
    source: &Source<'_>,
    to: &mut Vec<u8>,
    asked: Asked,
) -> Result<(), AllocError>
    ensures { OnOk result (to.new.items ≡ to.old.items ++ value_text (view_of source.now) asked) }
{
    put_value_for(source, to, source.judgment(asked.number))
}

// Appends a test, with its time and its space.
#[tactic(auto, unfolding(crate::specs::Labels::test_text))]
fn put_test(source: &Source<'_>, to: &mut Vec<u8>, row: &JudgmentRow) -> Result<(), AllocError>
    ensures { OnOk result (to.new.items ≡ to.old.items ++ test_text (view_of source.now) (plain_judgment row.now)) }
{
    source.put_tested(to, row.node)?;
    to.extend_from_slice(b" at ")?;
    put_digits(to, row.time)?;
    put_space(to, row.space)
}

// Appends what asks for a value, or the test.
#[tactic(auto, unfolding(crate::specs::Labels::told_name))]
fn put_told_name(
    source: &Source<'_>,
    to: &mut Vec<u8>,
    row: Row,
    judgment: &JudgmentRow,
) -> Result<(), AllocError>
    ensures { OnOk result (to.new.items ≡ to.old.items ++ told_name (view_of source.now) row (plain_judgment judgment.now)) }
{
    match row {
        Row::Input { .. } => source.put_asked(to, judgment),
        Row::Name { .. } => source.put_asked(to, judgment),
        Row::Test { .. } => put_test(source, to, judgment),
    }
}

// Appends what is told of the value of a judgment: what asks for it or is a test, the value, and how it came.
#[tactic(auto, unfolding(crate::specs::Labels::told_for))]
fn put_told_for(
    source: &Source<'_>,
    to: &mut Vec<u8>,
    row: Row,
    cell: Cell,
    judgment: Option<&JudgmentRow>,
) -> Result<(), AllocError>
    ensures { OnOk result (to.new.items ≡ to.old.items
        ++ told_for (view_of source.now) row cell (option_map (λ (j : Bor Judgment). plain_judgment j.now) judgment.entry)) }
{
    match judgment {
        Some(judgment) => {
            put_told_name(source, to, row, judgment)?;
            to.extend_from_slice(b" is ")?;
            put_value(source.alloc(), to, &judgment.value)?;
            source.put_cell(to, cell)
        }
        None => Ok(()),
    }
}

/// Appends what is told of a value that is asked for.
#[tactic(auto, unfolding(crate::specs::Labels::told_text))]
pub(crate) fn put_told(
    source: &Source<'_>,
    to: &mut Vec<u8>,
    asked: Asked,
) -> Result<(), AllocError>
    ensures { OnOk result (to.new.items ≡ to.old.items ++ told_text (view_of source.now) asked) }
{
    let judgment = source.judgment(asked.number);
    put_told_for(source, to, asked.spot.row, asked.cell, judgment)
}

// Appends what a context comes of: from which context it is called, or the time that it remembers.
#[tactic(auto, unfolding(crate::specs::Labels::origin_text))]
fn put_origin(
    source: &Source<'_>,
    to: &mut Vec<u8>,
    row: Option<&ContextRow>,
) -> Result<(), AllocError>
    ensures { OnOk result (to.new.items ≡ to.old.items ++ origin_text (view_of source.now).contexts (option_copied row.entry)) }
{
    match row {
        Some(ContextRow::Call { caller, .. }) => {
            to.extend_from_slice(b" from ")?;
            source.put_context(to, *caller)
        }
        Some(ContextRow::Frozen { time, .. }) => {
            to.extend_from_slice(b" at time ")?;
            put_digits(to, *time)
        }
        None => Ok(()),
    }
}

// Appends a call as it stands in the source.
#[tactic(auto, unfolding(crate::specs::Labels::call_text))]
fn put_call(source: &Source<'_>, to: &mut Vec<u8>, piece: &Tree) -> Result<(), AllocError>
    ensures { OnOk result (to.new.items ≡ to.old.items ++ call_text piece.now) }
{
    to.extend_from_slice(b": ")?;
    put_tree(source.alloc(), piece, to)
}

// The piece, where it is a call.
#[tactic(auto, unfolding(crate::specs::Labels::if_call))]
fn if_call(piece: &Tree) -> Option<&Tree>
    ensures { option_copied result ≡ if_call piece.now }
{
    match piece.shape() {
        Shape::Call { .. } => Some(piece),
        Shape::Name { .. } => None,
        Shape::Form { .. } => None,
        Shape::Scope { .. } => None,
    }
}

// The piece of a judgment's node, where it is a call.
#[tactic(auto, unfolding(crate::specs::Labels::call_of))]
fn call_of<'a>(source: &Source<'a>, number: u64) -> Option<&'a Tree>
    ensures { option_copied result ≡ call_of (view_of source.now) number }
{
    if_call(source.piece(source.judgment(number)?.node)?)
}

// Appends the first call that is among what is asked for.
fn put_calls(source: &Source<'_>, to: &mut Vec<u8>, panel: &[Asked]) -> Result<(), AllocError>
    ensures { OnOk result (to.new.items ≡ to.old.items ++ calls_text (view_of source.now) panel.now) }
{
    for asked in panel {
        if let Some(piece) = call_of(source, asked.number) {
            return put_call(source, to, piece);
        }
    }
    Ok(())
}

// Appends how a context is entered: by which call, and where that stands; or the time that it remembers.
#[tactic(auto, unfolding(crate::specs::Labels::entered_text))]
fn put_entered(
    source: &Source<'_>,
    to: &mut Vec<u8>,
    context: u32,
    panel: &[Asked],
) -> Result<(), AllocError>
    requires { 0 < context }
    ensures { OnOk result (to.new.items ≡ to.old.items ++ entered_text (view_of source.now) context panel.now) }
{
    put_calls(source, to, panel)?;
    let row = source.contexts().get((context - 1) as usize);
    put_origin(source, to, row)
}

/// Appends what a context is: the program, or its number and how it is entered.
#[tactic(auto, unfolding(crate::specs::Labels::title_text))]
pub(crate) fn put_title(
    source: &Source<'_>,
    to: &mut Vec<u8>,
    context: u32,
    panel: &[Asked],
) -> Result<(), AllocError>
    ensures { OnOk result (to.new.items ≡ to.old.items ++ title_text (view_of source.now) context panel.now) }
{
    source.put_context(to, context)?;
    if context == 0 {
        return Ok(());
    }
    put_entered(source, to, context, panel)
}
