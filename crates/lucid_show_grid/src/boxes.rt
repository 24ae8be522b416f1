//! The boxes of values.
ghost use Rattle.std.specs.Prelude.{◌≡◌, ◌++◌, OnOk, map};
ghost use Rattle.lucid_show_grid.specs.Places.{plain_placed};
ghost use Rattle.lucid_show_grid.specs.Boxes.{class_text, corner, output_text, edges_text, value_text, box_text, boxes_text};

use crate::escape::put_label;
use crate::grid::Kind;
use crate::parts::Part::{Attribute, Escaped, Text};
use crate::parts::put_parts;
use crate::places::{Place, Placed, middle, plus};
use crate::put::put_text;
use std::alloc::AllocError;

// By which style a kind of value is drawn.
#[tactic(auto, unfolding(crate::specs::Boxes::class_text))]
fn class_of(kind: Kind) -> &'static [u8]
    ensures { result.now ≡ class_text kind }
{
    match kind {
        Kind::Inner => b"inner",
        Kind::Leaf => b"leaf",
        Kind::Test { holds } => { if holds { b"true" } else { b"false" } }
    }
}

// How round its corners are.
#[tactic(auto, unfolding(crate::specs::Boxes::corner))]
fn corner(kind: Kind) -> u64
    ensures { result ≡ corner kind }
{
    match kind {
        Kind::Inner => 4,
        Kind::Leaf => 15,
        Kind::Test { .. } => 0,
    }
}

// By which style, beside that of its kind, what the output needed is drawn.
#[tactic(auto, unfolding(crate::specs::Boxes::output_text))]
fn output_class(is_output: bool) -> &'static [u8]
    ensures { result.now ≡ output_text is_output }
{
    if is_output { b" output" } else { b"" }
}

// Appends where a box stands, and its shape.
#[tactic(auto, unfolding(crate::specs::Boxes::edges_text))]
fn put_edges(to: &mut Vec<u8>, place: Place, kind: Kind) -> Result<(), AllocError>
    ensures { OnOk result (to.new.items ≡ to.old.items ++ edges_text place kind) }
{
    put_parts(
        to,
        &[
            Attribute(b"x", place.x),
            Attribute(b"y", place.y),
            Attribute(b"width", place.width),
            Attribute(b"height", 30),
            Attribute(b"rx", corner(kind)),
        ],
    )
}

// Appends a value in the middle of its box.
#[tactic(auto, unfolding(crate::specs::Boxes::value_text))]
fn put_value(to: &mut Vec<u8>, place: Place, value: &[u8]) -> Result<(), AllocError>
    ensures { OnOk result (to.new.items ≡ to.old.items ++ value_text place value.now) }
{
    put_label(to, b"value", middle(place)?, plus(place.y, 20)?, value)
}

// Appends the box of a value.
#[tactic(auto, unfolding(crate::specs::Boxes::box_text))]
fn put_box(to: &mut Vec<u8>, placed: &Placed<'_>) -> Result<(), AllocError>
    ensures { OnOk result (to.new.items ≡ to.old.items ++ box_text (plain_placed placed.now)) }
{
    let place = placed.place;
    let mark = placed.mark;
    put_parts(
        to,
        &[
            Text(b"<g><title>"),
            Escaped(&mark.told),
            Text(b"</title><rect class=\""),
            Text(class_of(mark.kind)),
            Text(output_class(mark.is_output)),
            Text(b"\""),
        ],
    )?;
    put_edges(to, place, mark.kind)?;
    put_text(to, b"/>")?;
    put_value(to, place, &mark.value)?;
    put_text(to, b"</g>\n")
}

/// Appends the boxes of values.
pub(crate) fn put_boxes(to: &mut Vec<u8>, values: &[Placed<'_>]) -> Result<(), AllocError>
    ensures { OnOk result (to.new.items ≡ to.old.items ++ boxes_text (map plain_placed values.now)) }
{
    for placed in values {
        put_box(to, placed)?;
    }
    Ok(())
}
