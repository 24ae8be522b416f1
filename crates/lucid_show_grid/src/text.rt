//! A grid as lines of text.
ghost use Rattle.std.specs.Prelude.{◌≡◌, ◌≤◌, ◌++◌, IfOk, OnOk, map};
ghost use Rattle.lucid_show_grid.specs.Grids.{plain_grid, plain_line, plain_mark, plain_panel};
ghost use Rattle.lucid_show_grid.specs.Text.{value_at, times_text, values_text, shown, heads_text, line_text, lines_text, left_out_line, laid_text, panel_text, panels_text, grid_text};

use crate::grid::{Grid, Line, Mark, Panel};
use crate::put::{put_left, put_left_out, put_number, put_right, put_text};
use crate::widths::{Columns, columns_of};
use std::alloc::{AllocError, Global};

// How many columns a line of text has at most.
const MOST_COLUMNS: usize = 100;

// The value at a time, or a dot.
#[tactic(auto, using(crate::proofs::Loops::value_more))]
fn value_at(marks: &[Mark], time: u64) -> &[u8]
    ensures { result.now ≡ value_at (map plain_mark marks.now) time }
{
    for mark in marks {
        if mark.time == time {
            return &mark.value;
        }
    }
    b"."
}

fn put_times(to: &mut Vec<u8>, times: &[u64], columns: usize) -> Result<(), AllocError>
    ensures { OnOk result (to.new.items ≡ to.old.items ++ times_text columns times.now) }
{
    for time in times {
        put_number(to, *time, columns)?;
    }
    Ok(())
}

fn put_values(
    to: &mut Vec<u8>,
    marks: &[Mark],
    times: &[u64],
    columns: usize,
) -> Result<(), AllocError>
    ensures { OnOk result (to.new.items ≡ to.old.items ++ values_text columns (map plain_mark marks.now) times.now) }
{
    for time in times {
        put_right(to, value_at(marks, *time), columns)?;
    }
    Ok(())
}

// The times that are shown: the last, as many as have room, and one at least.
#[tactic(auto, unfolding(crate::specs::Text::shown))]
fn shown(columns: Columns, times: &[u64]) -> &[u64]
    requires { 2 ≤ columns.values }
    ensures { result.now ≡ shown columns times.now }
{
    let room = MOST_COLUMNS.saturating_sub(columns.labels);
    let count = (room / columns.values).max(1);
    &times[times.len().saturating_sub(count)..]
}

// Appends the line of the times.
#[tactic(auto, unfolding(crate::specs::Text::heads_text))]
fn put_heads(to: &mut Vec<u8>, columns: Columns, times: &[u64]) -> Result<(), AllocError>
    ensures { OnOk result (to.new.items ≡ to.old.items ++ heads_text columns times.now) }
{
    put_left(to, b"time", columns.labels)?;
    put_times(to, times, columns.values)?;
    put_text(to, b"\n")
}

// Appends the line of a name.
#[tactic(auto, unfolding(crate::specs::Text::line_text))]
fn put_line(
    to: &mut Vec<u8>,
    columns: Columns,
    times: &[u64],
    line: &Line,
) -> Result<(), AllocError>
    ensures { OnOk result (to.new.items ≡ to.old.items ++ line_text columns times.now (plain_line line.now)) }
{
    put_left(to, &line.label, columns.labels)?;
    put_values(to, &line.marks, times, columns.values)?;
    put_text(to, b"\n")
}

fn put_lines(
    to: &mut Vec<u8>,
    columns: Columns,
    times: &[u64],
    lines: &[Line],
) -> Result<(), AllocError>
    ensures { OnOk result (to.new.items ≡ to.old.items ++ lines_text columns times.now (map plain_line lines.now)) }
{
    for line in lines {
        put_line(to, columns, times, line)?;
    }
    Ok(())
}

// Appends a line that tells how many of something are left out, where there are such.
#[tactic(auto, unfolding(crate::specs::Text::left_out_line))]
fn put_left_out_line(to: &mut Vec<u8>, what: &[u8], count: u64) -> Result<(), AllocError>
    ensures { OnOk result (to.new.items ≡ to.old.items ++ left_out_line what.now count) }
{
    if count == 0 {
        return Ok(());
    }
    put_left_out(to, what, count)?;
    put_text(to, b"\n")
}

// Appends the lines of a panel.
#[tactic(auto, unfolding(crate::specs::Text::laid_text))]
fn put_laid(to: &mut Vec<u8>, columns: Columns, panel: &Panel) -> Result<(), AllocError>
    requires { 2 ≤ columns.values }
    ensures { OnOk result (to.new.items ≡ to.old.items ++ laid_text columns (plain_panel panel.now)) }
{
    let times = shown(columns, &panel.times);
    put_heads(to, columns, times)?;
    put_lines(to, columns, times, &panel.lines)?;
    let earlier = panel.times.len().saturating_sub(times.len());
    put_left_out_line(to, b"earlier times", earlier as u64)
}

// Appends a panel.
#[tactic(auto, unfolding(crate::specs::Text::panel_text))]
fn put_panel(to: &mut Vec<u8>, panel: &Panel) -> Result<(), AllocError>
    ensures { OnOk result (to.new.items ≡ to.old.items ++ panel_text (plain_panel panel.now)) }
{
    put_text(to, b"\n[")?;
    put_text(to, &panel.title)?;
    put_text(to, b"]\n")?;
    put_laid(to, columns_of(panel), panel)
}

fn put_panels(to: &mut Vec<u8>, panels: &[Panel]) -> Result<(), AllocError>
    ensures { OnOk result (to.new.items ≡ to.old.items ++ panels_text (map plain_panel panels.now)) }
{
    for panel in panels {
        put_panel(to, panel)?;
    }
    Ok(())
}

/// The grid as lines of text: the heading, a panel below the other, and how many values are left out.
#[tactic(auto, unfolding(crate::specs::Text::grid_text))]
pub fn grid_text(alloc: Global, grid: &Grid) -> Result<Vec<u8>, AllocError>
    ensures { IfOk result (λ text. text.items ≡ grid_text (plain_grid grid.now)) }
{
    let mut text = Vec::new(alloc);
    put_text(&mut text, &grid.heading)?;
    put_text(&mut text, b"\n")?;
    put_panels(&mut text, &grid.panels)?;
    put_left_out_line(&mut text, b"values", grid.left_out)?;
    Ok(text)
}
