//! The panels of a grid.
ghost use Rattle.std.specs.Prelude.{◌≡◌, ◌≢◌, ◌≤◌, ◌<◌, Some, All, length, map, take, IfOk, OnOk, slice_get};
ghost use Rattle.std.specs.List.{AllZip};
ghost use Rattle.lucid_show_grid.specs.Grids.{plain_grid, plain_line, plain_mark, plain_panel};
ghost use Rattle.lucid_show_outline.specs.Views.{view_of};
ghost use Rattle.lucid_show_drawing.specs.Labels.{label_text};
ghost use Rattle.lucid_show_drawing.specs.Orders.{AreFront, RowsTogether, StandTogether};
ghost use Rattle.lucid_show_drawing.specs.Panels.{kind_of, plain_roles, AreLines, ArePanels, AreTimes, IsLine, IsMark, IsPanel};

use crate::asked::Asked;
use crate::labels::{put_label, put_title, put_told, put_value_of};
use crate::looked::looked_at;
use crate::roles::{Roles, holds, kind_by};
use crate::spot::Row;
use lucid_show_grid::{Kind, Line, Mark, Panel};
use lucid_show_outline::Source;
use std::alloc::AllocError;

// What a box is.
fn kind_of(source: &Source<'_>, roles: &Roles, asked: Asked) -> Result<Kind, AllocError>
    ensures { IfOk result (λ kind. kind ≡ kind_of (view_of source.now) (plain_roles roles.now) asked) }
{
    let looked = looked_at(source, asked.cell)?;
    let is_test = roles.tests.contains(&asked.cell);
    Ok(kind_by(is_test, holds(source, asked.number), looked.as_slice()))
}

// A value as it is drawn.
fn mark(source: &Source<'_>, roles: &Roles, asked: Asked) -> Result<Mark, AllocError>
    ensures { IfOk result (λ mark. IsMark (view_of source.now) (plain_roles roles.now) asked (plain_mark mark)) }
{
    let kind = kind_of(source, roles, asked)?;
    let mut value = Vec::new(source.alloc());
    put_value_of(source, &mut value, asked)?;
    let mut told = Vec::new(source.alloc());
    put_told(source, &mut told, asked)?;
    Ok(Mark {
        time: asked.spot.time,
        kind,
        is_output: roles.outputs.contains(&asked.cell),
        value,
        told,
    })
}

// The values of a line.
fn marks(source: &Source<'_>, roles: &Roles, these: &[Asked]) -> Result<Vec<Mark>, AllocError>
    ensures { IfOk result (λ marks. AllZip (IsMark (view_of source.now) (plain_roles roles.now)) these.now (map plain_mark marks.items)) }
{
    let mut marks = Vec::new(source.alloc());
    for asked in these {
        marks.push(mark(source, roles, *asked)?)?;
    }
    Ok(marks)
}

// The line of these values, of which one is the first.
fn line(
    source: &Source<'_>,
    roles: &Roles,
    these: &[Asked],
    first: Asked,
) -> Result<Line, AllocError>
    requires front { slice_get these.now 0 ≡ Some first }
    requires same { All (λ a. a.spot.row ≡ first.spot.row) these.now }
    ensures { IfOk result (λ line. IsLine (view_of source.now) (plain_roles roles.now) these.now first (plain_line line)) }
{
    let mut label = Vec::new(source.alloc());
    put_label(source, &mut label, first)?;
    let marks = marks(source, roles, these)?;
    Ok(Line { label, marks })
}

// How many at the front stand in this line.
fn in_row(these: &[Asked], row: Row) -> usize
    ensures { AreFront (λ a. a.spot.row) these.now row result }
{
    for (count, asked) in these.iter().enumerate() {
        if asked.spot.row != row {
            return count;
        }
    }
    these.len()
}

// The lines of a panel.
fn lines(source: &Source<'_>, roles: &Roles, panel: &[Asked]) -> Result<Vec<Line>, AllocError>
    requires { RowsTogether panel.now }
    ensures { IfOk result (λ lines. AreLines (view_of source.now) (plain_roles roles.now) panel.now (map plain_line lines.items)) }
{
    let mut lines = Vec::new(source.alloc());
    let mut rest = panel;
    while let Some(first) = rest.first() {
        let (these, more) = rest.split_at(in_row(rest, first.spot.row));
        lines.push(line(source, roles, these, *first)?)?;
        rest = more;
    }
    Ok(lines)
}

// The times of a panel, each once, in order.
fn times(source: &Source<'_>, panel: &[Asked]) -> Result<Vec<u64>, AllocError>
    ensures { IfOk result (λ times. AreTimes panel.now times.items) }
{
    let mut times: Vec<u64> = panel
        .iter()
        .map(|asked| asked.spot.time)
        .collect(source.alloc())?;
    times.sort_unstable();
    times.dedup();
    Ok(times)
}

// The panel of these values, which stand in one context.
fn panel(
    source: &Source<'_>,
    roles: &Roles,
    context: u32,
    these: &[Asked],
) -> Result<Panel, AllocError>
    requires some { 0 < length these.now }
    requires same { All (λ a. a.spot.context ≡ context) these.now }
    requires together { RowsTogether these.now }
    ensures { IfOk result (λ drawn. IsPanel (view_of source.now) (plain_roles roles.now) context these.now (plain_panel drawn)) }
{
    let mut title = Vec::new(source.alloc());
    put_title(source, &mut title, context, these)?;
    let times = times(source, these)?;
    let lines = lines(source, roles, these)?;
    Ok(Panel {
        title,
        times,
        lines,
    })
}

// How many at the front stand in this context.
fn in_context(these: &[Asked], context: u32) -> usize
    ensures { AreFront (λ a. a.spot.context) these.now context result }
{
    for (count, asked) in these.iter().enumerate() {
        if asked.spot.context != context {
            return count;
        }
    }
    these.len()
}

/// The panels of what is shown.
pub(crate) fn panels(
    source: &Source<'_>,
    roles: &Roles,
    shown: &[Asked],
) -> Result<Vec<Panel>, AllocError>
    requires { StandTogether shown.now }
    ensures { IfOk result (λ panels. ArePanels (view_of source.now) (plain_roles roles.now) shown.now (map plain_panel panels.items)) }
{
    let mut panels = Vec::new(source.alloc());
    let mut rest = shown;
    while let Some(first) = rest.first() {
        let context = first.spot.context;
        let (these, more) = rest.split_at(in_context(rest, context));
        panels.push(panel(source, roles, context, these)?)?;
        rest = more;
    }
    Ok(panels)
}
