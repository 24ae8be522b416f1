//! A grid as a picture: SVG that stands alone.
ghost use Rattle.std.specs.Prelude.{◌≡◌, ◌+◌, ◌++◌, IfOk, OnOk, map};
ghost use Rattle.lucid_show_grid.specs.Grids.{plain_grid, plain_line, plain_panel};
ghost use Rattle.lucid_show_grid.specs.Places.{frame_of};
ghost use Rattle.lucid_show_grid.specs.Picture.{across, head_text, heads, name_text, names, edge_text, frame_text, panel_frames, right_edge, width_of, foot_of, size_text, opening_text, left_out_label, heading_text, closing_text, picture_text};

use crate::arrows::put_arrows;
use crate::boxes::put_boxes;
use crate::escape::put_label;
use crate::grid::{Grid, Line, Panel};
use crate::parts::Part::{Attribute, Escaped, Number, Text};
use crate::parts::put_parts;
use crate::places::{
    Frame, below, bottom, frame_of, height, middle, place_at, place_panels, plus, times,
};
use crate::put::{put_left_out, put_text};
use itoa::Buffer;
use std::alloc::{AllocError, Global};

const ABOUT: &[u8] =
    b"</title>\n<desc>A box for each value that was asked for and each test of a search, in the line of its name or its text and the column of its time, and an arrow from each box to each that it needed. A box with a thick edge was needed by the output itself. A round box needed no other. A box with sharp corners is a test of a search, with a dashed edge where it isn't true.</desc>\n";

const STYLE: &[u8] =
    b"<style type=\"text/css\">.panel{fill:#f7f7f7;stroke:#999}.title{font-size:12px;fill:#222}.time{font-size:12px;text-anchor:middle;fill:#222}.label,.value{font-family:DejaVu Sans Mono,monospace;fill:#000}.value{text-anchor:middle}.arrow,.key-arrow{fill:none;stroke:#1f4e8c;stroke-width:1.4;marker-end:url(#head)}.inner,.key-inner{fill:#fff;stroke:#222}.leaf,.key-leaf{fill:#dff0d8;stroke:#2d6a2d}.output,.key-output{fill:#ffe9b3;stroke:#7a4a00;stroke-width:3}.true,.key-true{fill:#b9e3b9;stroke:#1d5a1d}.false,.key-false{fill:#f6d9d9;stroke:#8c1f1f;stroke-dasharray:5 3}.heading{font-size:15px}.key{font-size:12px}</style>\n<defs><marker id=\"head\" markerWidth=\"9\" markerHeight=\"9\" refX=\"8\" refY=\"4\" orient=\"auto\"><path d=\"M 0 0 L 8 4 L 0 8 z\" fill=\"#1f4e8c\"/></marker></defs>\n<rect width=\"100%\" height=\"100%\" fill=\"#fff\"/>\n";

const KEY: &[u8] =
    b")\"><rect class=\"key-output\" width=\"24\" height=\"16\" rx=\"4\"/><text class=\"key\" x=\"32\" y=\"13\">needed by the output</text><rect class=\"key-leaf\" x=\"180\" width=\"24\" height=\"16\" rx=\"8\"/><text class=\"key\" x=\"212\" y=\"13\">needed no other</text><rect class=\"key-true\" x=\"340\" width=\"24\" height=\"16\"/><rect class=\"key-false\" x=\"372\" width=\"24\" height=\"16\"/><text class=\"key\" x=\"404\" y=\"13\">test of a search: true, not true</text><path class=\"key-arrow\" d=\"M 616 8 L 642 8\"/><text class=\"key\" x=\"650\" y=\"13\">needed</text></g>\n";

// How wide a panel is: as its labels and boxes beside each other, and as its title.
#[tactic(auto, unfolding(crate::specs::Picture::across))]
fn across(panel: &Panel, frame: Frame) -> Result<u64, AllocError>
    ensures { IfOk result (λ wide. wide ≡ across frame (plain_panel panel.now)) }
{
    let boxes = times(panel.times.len() as u64, plus(frame.width, 26)?)?;
    let title = times(8, panel.title.len() as u64)?;
    Ok(plus(frame.label, boxes)?.max(title))
}

// Appends a time above its column.
#[tactic(auto, unfolding(crate::specs::Picture::head_text))]
fn put_head(to: &mut Vec<u8>, frame: Frame, column: u64, time: u64) -> Result<(), AllocError>
    ensures { OnOk result (to.new.items ≡ to.old.items ++ head_text frame column time) }
{
    let x = middle(place_at(frame, 0, column)?)?;
    let y = plus(frame.top, 34)?;
    put_label(to, b"time", x, y, Buffer::new().format(time).as_bytes())
}

// Appends the times across.
fn put_heads(to: &mut Vec<u8>, frame: Frame, times: &[u64]) -> Result<(), AllocError>
    ensures { OnOk result (to.new.items ≡ to.old.items ++ heads frame 0 times.now) }
{
    for (column, time) in times.iter().enumerate() {
        put_head(to, frame, column as u64, *time)?;
    }
    Ok(())
}

// Appends a name beside its line.
#[tactic(auto, unfolding(crate::specs::Picture::name_text))]
fn put_name(to: &mut Vec<u8>, frame: Frame, number: u64, line: &Line) -> Result<(), AllocError>
    ensures { OnOk result (to.new.items ≡ to.old.items ++ name_text frame number (plain_line line.now)) }
{
    let at = place_at(frame, number, 0)?;
    put_label(to, b"label", 20, plus(at.y, 20)?, &line.label)
}

// Appends the names.
fn put_names(to: &mut Vec<u8>, frame: Frame, lines: &[Line]) -> Result<(), AllocError>
    ensures { OnOk result (to.new.items ≡ to.old.items ++ names frame 0 (map plain_line lines.now)) }
{
    for (number, line) in lines.iter().enumerate() {
        put_name(to, frame, number as u64, line)?;
    }
    Ok(())
}

// Appends the edge of a panel.
#[tactic(auto, unfolding(crate::specs::Picture::edge_text))]
fn put_edge(to: &mut Vec<u8>, panel: &Panel, frame: Frame) -> Result<(), AllocError>
    ensures { OnOk result (to.new.items ≡ to.old.items ++ edge_text frame (plain_panel panel.now)) }
{
    let width = plus(across(panel, frame)?, 16)?;
    let height = height(panel)?;
    put_parts(
        to,
        &[
            Text(b"<rect class=\"panel\""),
            Attribute(b"x", 12),
            Attribute(b"y", frame.top),
            Attribute(b"width", width),
            Attribute(b"height", height),
            Attribute(b"rx", 8),
            Text(b"/>\n"),
        ],
    )
}

// Appends the edge of a panel, its title, the times across, and the names.
#[tactic(auto, unfolding(crate::specs::Picture::frame_text))]
fn put_frame(to: &mut Vec<u8>, panel: &Panel, frame: Frame) -> Result<(), AllocError>
    ensures { OnOk result (to.new.items ≡ to.old.items ++ frame_text frame (plain_panel panel.now)) }
{
    put_edge(to, panel, frame)?;
    put_label(to, b"title", 20, plus(frame.top, 17)?, &panel.title)?;
    put_label(to, b"label", 20, plus(frame.top, 34)?, b"time")?;
    put_heads(to, frame, &panel.times)?;
    put_names(to, frame, &panel.lines)
}

// Appends the frame of a panel with this top.
fn put_panel(to: &mut Vec<u8>, panel: &Panel, top: u64) -> Result<(), AllocError>
    ensures { OnOk result (to.new.items ≡ to.old.items ++ frame_text (frame_of top (plain_panel panel.now)) (plain_panel panel.now)) }
{
    put_frame(to, panel, frame_of(panel, top)?)
}

// Appends the frames of panels.
fn put_panels(to: &mut Vec<u8>, panels: &[Panel], top: u64) -> Result<(), AllocError>
    ensures { OnOk result (to.new.items ≡ to.old.items ++ panel_frames top (map plain_panel panels.now)) }
{
    let mut y = top;
    for panel in panels {
        put_panel(to, panel, y)?;
        y = below(panel, y)?;
    }
    Ok(())
}

// How far a panel reaches to the right.
fn reach(panel: &Panel) -> Result<u64, AllocError>
    ensures { IfOk result (λ wide. wide ≡ across (frame_of 0 (plain_panel panel.now)) (plain_panel panel.now) + 40) }
{
    plus(across(panel, frame_of(panel, 0)?)?, 40)
}

// How wide the picture is: as wide as this at least, and as its widest panel.
#[tactic(auto, using(crate::proofs::Loops::right_edge_more))]
fn right_edge(panels: &[Panel], least: u64) -> Result<u64, AllocError>
    ensures { IfOk result (λ wide. wide ≡ right_edge least (map plain_panel panels.now)) }
{
    let mut wide = least;
    for panel in panels {
        wide = wide.max(reach(panel)?);
    }
    Ok(wide)
}

// How wide the picture is.
#[tactic(auto, unfolding(crate::specs::Picture::width_of))]
fn width_of(grid: &Grid) -> Result<u64, AllocError>
    ensures { IfOk result (λ wide. wide ≡ width_of (plain_grid grid.now)) }
{
    let heading = plus(times(9, grid.heading.len() as u64)?, 40)?;
    right_edge(&grid.panels, heading.max(720))
}

// The top of what stands at the foot of the picture.
#[tactic(auto, unfolding(crate::specs::Picture::foot_of))]
fn foot_of(grid: &Grid) -> Result<u64, AllocError>
    ensures { IfOk result (λ y. y ≡ foot_of (plain_grid grid.now)) }
{
    bottom(&grid.panels, 64)
}

// Appends how wide and how high the picture is.
#[tactic(auto, unfolding(crate::specs::Picture::size_text))]
fn put_size(to: &mut Vec<u8>, width: u64, height: u64) -> Result<(), AllocError>
    ensures { OnOk result (to.new.items ≡ to.old.items ++ size_text width height) }
{
    put_parts(
        to,
        &[
            Attribute(b"width", width),
            Attribute(b"height", height),
            Text(b" viewBox=\"0 0 "),
            Number(width),
            Text(b" "),
            Number(height),
            Text(b"\""),
        ],
    )
}

// Appends the head of the file: its size, what it is for readers of screens, and the styles.
#[tactic(auto, unfolding(crate::specs::Picture::opening_text))]
fn put_opening(to: &mut Vec<u8>, grid: &Grid) -> Result<(), AllocError>
    ensures { OnOk result (to.new.items ≡ to.old.items ++ opening_text (plain_grid grid.now)) }
{
    let (width, height) = (width_of(grid)?, plus(foot_of(grid)?, 40)?);
    put_text(
        to,
        b"<svg xmlns=\"http://www.w3.org/2000/svg\" version=\"1.1\" xml:space=\"preserve\"",
    )?;
    put_size(to, width, height)?;
    put_parts(
        to,
        &[
            Text(b" font-family=\"DejaVu Sans, Verdana, sans-serif\" font-size=\"13\">\n<title>"),
            Escaped(&grid.heading),
            Text(ABOUT),
            Text(STYLE),
        ],
    )
}

// Appends how many values are left out, where there are such.
#[tactic(auto, unfolding(crate::specs::Picture::left_out_label))]
fn put_left_out_label(alloc: Global, to: &mut Vec<u8>, count: u64) -> Result<(), AllocError>
    ensures { OnOk result (to.new.items ≡ to.old.items ++ left_out_label count) }
{
    if count == 0 {
        return Ok(());
    }
    let mut text = Vec::new(alloc);
    put_left_out(&mut text, b"values", count)?;
    put_label(to, b"title", 20, 52, &text)
}

// Appends what the picture is of, and how many values are left out.
#[tactic(auto, unfolding(crate::specs::Picture::heading_text))]
fn put_heading(alloc: Global, to: &mut Vec<u8>, grid: &Grid) -> Result<(), AllocError>
    ensures { OnOk result (to.new.items ≡ to.old.items ++ heading_text (plain_grid grid.now)) }
{
    put_label(to, b"heading", 20, 30, &grid.heading)?;
    put_left_out_label(alloc, to, grid.left_out)
}

// Appends what each kind of box is, at the foot, and the end of the file.
#[tactic(auto, unfolding(crate::specs::Picture::closing_text, crate::specs::Picture::key))]
fn put_closing(to: &mut Vec<u8>, grid: &Grid) -> Result<(), AllocError>
    ensures { OnOk result (to.new.items ≡ to.old.items ++ closing_text (plain_grid grid.now)) }
{
    let top = plus(foot_of(grid)?, 4)?;
    put_parts(
        to,
        &[
            Text(b"<g transform=\"translate(20 "),
            Number(top),
            Text(KEY),
            Text(b"</svg>\n"),
        ],
    )
}

/// The grid as a picture: the frames of its panels, an arrow from each value to each that it needed, and a box for each value.
#[tactic(auto, unfolding(crate::specs::Picture::picture_text))]
pub fn picture_text(alloc: Global, grid: &Grid) -> Result<Vec<u8>, AllocError>
    ensures { IfOk result (λ text. text.items ≡ picture_text (plain_grid grid.now)) }
{
    let values = place_panels(alloc, &grid.panels, 64)?;
    let mut text = Vec::new(alloc);
    put_opening(&mut text, grid)?;
    put_heading(alloc, &mut text, grid)?;
    put_panels(&mut text, &grid.panels, 64)?;
    put_arrows(&mut text, &values, &grid.arrows)?;
    put_boxes(&mut text, &values)?;
    put_closing(&mut text, grid)?;
    Ok(text)
}
