//! Where the boxes of a picture stand, in pixels.
ghost use Rattle.std.specs.Prelude.{◌≡◌, ◌+◌, ◌*◌, ◌++◌, IfOk, IfSome, OnOk, map};
ghost use Rattle.lucid_show_grid.specs.Grids.{plain_line, plain_mark, plain_panel};
ghost use Rattle.lucid_show_grid.specs.Places.{HasRisen, frame_of, place_at, middle, index_of, plain_placed, place_mark, place_lines, height, below, place_panels, bottom};

use crate::grid::{Line, Mark, Panel};
use crate::widths::columns_of;
use std::alloc::{AllocError, Global};

/// How a panel stands: its top, and how wide its labels and its boxes are.
#[derive(Clone, Copy)]
pub(crate) struct Frame {
    pub(crate) top: u64,
    pub(crate) label: u64,
    pub(crate) width: u64,
}

/// Where a box stands: its left, its top, and how wide it is.
#[derive(Clone, Copy)]
pub(crate) struct Place {
    pub(crate) x: u64,
    pub(crate) y: u64,
    pub(crate) width: u64,
}

/// A value, and where its box stands.
#[derive(Clone, Copy)]
pub(crate) struct Placed<'a> {
    pub(crate) place: Place,
    pub(crate) mark: &'a Mark,
}

// The column of a time, and a column up to which the times rise.
#[derive(Clone, Copy)]
struct Found {
    column: usize,
    risen: usize,
}

/// The sum of two lengths.
pub(crate) fn plus(a: u64, b: u64) -> Result<u64, AllocError>
    ensures { IfOk result (λ sum. sum ≡ a + b) }
{
    match a.checked_add(b) {
        Some(sum) => Ok(sum),
        None => Err(AllocError),
    }
}

/// So many of a length.
pub(crate) fn times(a: u64, b: u64) -> Result<u64, AllocError>
    ensures { IfOk result (λ product. product ≡ a * b) }
{
    match a.checked_mul(b) {
        Some(product) => Ok(product),
        None => Err(AllocError),
    }
}

/// How a panel stands below so many pixels.
#[tactic(auto, unfolding(crate::specs::Places::frame_of))]
pub(crate) fn frame_of(panel: &Panel, top: u64) -> Result<Frame, AllocError>
    ensures { IfOk result (λ it. it ≡ frame_of top (plain_panel panel.now)) }
{
    let columns = columns_of(panel);
    let label = times(8, columns.labels as u64)?;
    let width = times(8, columns.values as u64)?;
    Ok(Frame { top, label, width })
}

/// Where a box stands, by the numbers of its line and its column.
#[tactic(auto, unfolding(crate::specs::Places::place_at))]
pub(crate) fn place_at(frame: Frame, line: u64, column: u64) -> Result<Place, AllocError>
    ensures { IfOk result (λ it. it ≡ place_at frame line column) }
{
    let across = times(column, plus(frame.width, 26)?)?;
    let x = plus(20, plus(frame.label, across)?)?;
    let y = plus(frame.top, plus(58, times(64, line)?)?)?;
    let width = frame.width;
    Ok(Place { x, y, width })
}

/// The middle of a box, from the left.
#[tactic(auto, unfolding(crate::specs::Places::middle))]
pub(crate) fn middle(at: Place) -> Result<u64, AllocError>
    ensures { IfOk result (λ x. x ≡ middle at) }
{
    plus(at.x, at.width / 2)
}

// The column of a time.
#[tactic(auto, using(crate::proofs::Loops::index_more))]
fn index_of(times: &[u64], time: u64) -> usize
    ensures { result ≡ index_of times.now time }
{
    for (column, other) in times.iter().enumerate() {
        if *other == time {
            return column;
        }
    }
    times.len()
}

// The column of a time, where it isn't before a column up to which the times rise, nor behind a later time.
#[tactic(auto, using(crate::proofs::Found::first_at))]
fn column_behind(times: &[u64], risen: usize, time: u64) -> Option<usize>
    requires { HasRisen times.now risen }
    ensures { IfSome result (λ column. (column ≡ index_of times.now time) × HasRisen times.now column) }
{
    if risen >= times.len() || times[risen] > time {
        return None;
    }
    for column in risen..times.len() {
        if times[column] == time {
            return Some(column);
        }
        if times[column] > time {
            return None;
        }
    }
    None
}

// The column of a time. In a line the times rise, so it is mostly found by going on from the one before, and not from the first.
fn find_column(times: &[u64], risen: usize, time: u64) -> Found
    requires { HasRisen times.now risen }
    ensures column { result.column ≡ index_of times.now time }
    ensures risen { HasRisen times.now result.risen }
{
    match column_behind(times, risen, time) {
        Some(column) => Found {
            column,
            risen: column,
        },
        None => Found {
            column: index_of(times, time),
            risen,
        },
    }
}

// The values of a line, each in the column of its time.
#[tactic(auto, using(crate::proofs::Loops::place_marks_more))]
fn place_marks<'a>(
    placed: &mut Vec<Placed<'a>>,
    frame: Frame,
    times: &[u64],
    line: u64,
    marks: &'a [Mark],
) -> Result<(), AllocError>
    ensures { OnOk result (map plain_placed placed.new.items ≡ map plain_placed placed.old.items ++ map (place_mark frame times.now line) (map plain_mark marks.now)) }
{
    let mut risen = 0;
    for mark in marks {
        let found = find_column(times, risen, mark.time);
        let place = place_at(frame, line, found.column as u64)?;
        placed.push(Placed { place, mark })?;
        risen = found.risen;
    }
    Ok(())
}

#[tactic(auto, using(crate::proofs::Loops::place_lines_more))]
fn place_lines<'a>(
    placed: &mut Vec<Placed<'a>>,
    frame: Frame,
    times: &[u64],
    lines: &'a [Line],
) -> Result<(), AllocError>
    ensures { OnOk result (map plain_placed placed.new.items ≡ map plain_placed placed.old.items ++ place_lines frame times.now 0 (map plain_line lines.now)) }
{
    for (number, line) in lines.iter().enumerate() {
        place_marks(placed, frame, times, number as u64, &line.marks)?;
    }
    Ok(())
}

// The values of a panel.
fn place_panel<'a>(
    placed: &mut Vec<Placed<'a>>,
    panel: &'a Panel,
    top: u64,
) -> Result<(), AllocError>
    ensures { OnOk result (map plain_placed placed.new.items ≡ map plain_placed placed.old.items
        ++ place_lines (frame_of top (plain_panel panel.now)) (plain_panel panel.now).times 0 (plain_panel panel.now).lines) }
{
    place_lines(placed, frame_of(panel, top)?, &panel.times, &panel.lines)
}

/// How high a panel is.
#[tactic(auto, unfolding(crate::specs::Places::height))]
pub(crate) fn height(panel: &Panel) -> Result<u64, AllocError>
    ensures { IfOk result (λ h. h ≡ height (plain_panel panel.now)) }
{
    plus(times(64, panel.lines.len() as u64)?, 38)
}

/// The top of what stands below a panel.
#[tactic(auto, unfolding(crate::specs::Places::below))]
pub(crate) fn below(panel: &Panel, top: u64) -> Result<u64, AllocError>
    ensures { IfOk result (λ y. y ≡ below top (plain_panel panel.now)) }
{
    plus(top, plus(height(panel)?, 16)?)
}

/// The values of panels, by their numbers, each where its box stands.
#[tactic(auto, using(crate::proofs::Loops::place_panels_more))]
pub(crate) fn place_panels(
    alloc: Global,
    panels: &[Panel],
    top: u64,
) -> Result<Vec<Placed<'_>>, AllocError>
    ensures { IfOk result (λ placed. map plain_placed placed.items ≡ place_panels top (map plain_panel panels.now)) }
{
    let mut placed = Vec::new(alloc);
    let mut y = top;
    for panel in panels {
        place_panel(&mut placed, panel, y)?;
        y = below(panel, y)?;
    }
    Ok(placed)
}

/// The top of what stands below all panels.
#[tactic(auto, using(crate::proofs::Loops::bottom_more))]
pub(crate) fn bottom(panels: &[Panel], top: u64) -> Result<u64, AllocError>
    ensures { IfOk result (λ y. y ≡ bottom top (map plain_panel panels.now)) }
{
    let mut y = top;
    for panel in panels {
        y = below(panel, y)?;
    }
    Ok(y)
}
