//! Arrows.
ghost use Rattle.std.specs.Prelude.{◌≡◌, ◌++◌, IfOk, OnOk, map};
ghost use Rattle.lucid_show_grid.specs.Places.{plain_placed};
ghost use Rattle.lucid_show_grid.specs.Arrows.{is_beside, bend_between, aside, point_text, straight_text, curved_text, between, arrow_text, place_of, arrows_text};

use crate::grid::Arrow;
use crate::parts::Part::{Point, Text};
use crate::parts::put_parts;
use crate::places::{Place, Placed, middle, plus};
use crate::put::{put_digits, put_text};
use std::alloc::AllocError;

/// Where an arrow begins and ends, and at which heights it leaves the one box and reaches the other.
#[derive(Clone, Copy)]
pub(crate) struct Bend {
    pub(crate) begin_x: u64,
    pub(crate) begin_y: u64,
    pub(crate) leave_y: u64,
    pub(crate) reach_y: u64,
    pub(crate) end_x: u64,
    pub(crate) end_y: u64,
}

// Whether an arrow goes from a box to the one at its left.
#[tactic(auto, unfolding(crate::specs::Arrows::is_beside))]
fn is_beside(from: Place, to: Place) -> Result<bool, AllocError>
    ensures { IfOk result (λ it. it ≡ is_beside from to) }
{
    let next = plus(to.x, plus(to.width, 26)?)?;
    Ok(from.y == to.y && from.x == next)
}

// The bend of an arrow: from a box downwards to one, upwards to one, or over the boxes between two of one line.
#[tactic(auto, unfolding(crate::specs::Arrows::bend_between))]
fn bend_between(from: Place, to: Place) -> Result<Bend, AllocError>
    ensures { IfOk result (λ it. it ≡ bend_between from to) }
{
    let (begin, end) = (middle(from)?, middle(to)?);
    if from.y < to.y {
        return Ok(Bend {
            begin_x: begin.saturating_sub(8),
            begin_y: plus(from.y, 30)?,
            leave_y: plus(from.y, 50)?,
            reach_y: to.y.saturating_sub(20),
            end_x: end.saturating_sub(8),
            end_y: to.y,
        });
    }
    if to.y < from.y {
        return Ok(Bend {
            begin_x: plus(begin, 8)?,
            begin_y: from.y,
            leave_y: from.y.saturating_sub(20),
            reach_y: plus(to.y, 50)?,
            end_x: plus(end, 8)?,
            end_y: plus(to.y, 30)?,
        });
    }
    Ok(Bend {
        begin_x: begin,
        begin_y: from.y,
        leave_y: from.y.saturating_sub(26),
        reach_y: from.y.saturating_sub(26),
        end_x: end,
        end_y: to.y,
    })
}

// How far an arrow goes round the boxes between two that stand one below the other.
#[tactic(auto, unfolding(crate::specs::Arrows::aside))]
fn aside(from: Place, to: Place) -> Result<u64, AllocError>
    ensures { IfOk result (λ it. it ≡ aside from to) }
{
    let is_far = to.y.saturating_sub(from.y) > 64 || from.y.saturating_sub(to.y) > 64;
    if middle(from)? == middle(to)? && is_far {
        return plus(from.width / 2, 30);
    }
    Ok(0)
}

/// Appends a point of a path.
#[tactic(auto, unfolding(crate::specs::Arrows::point_text))]
pub(crate) fn put_point(to: &mut Vec<u8>, x: u64, y: u64) -> Result<(), AllocError>
    ensures { OnOk result (to.new.items ≡ to.old.items ++ point_text x y) }
{
    put_text(to, b" ")?;
    put_digits(to, x)?;
    put_text(to, b" ")?;
    put_digits(to, y)
}

// Appends a straight arrow from the left edge of a box to the right edge of another.
#[tactic(auto, unfolding(crate::specs::Arrows::straight_text))]
fn put_straight(to: &mut Vec<u8>, from: Place, target: Place) -> Result<(), AllocError>
    ensures { OnOk result (to.new.items ≡ to.old.items ++ straight_text from target) }
{
    let begin_y = plus(from.y, 15)?;
    let (end_x, end_y) = (plus(target.x, target.width)?, plus(target.y, 15)?);
    put_parts(
        to,
        &[
            Text(b"<path class=\"arrow\" d=\"M"),
            Point(from.x, begin_y),
            Text(b" L"),
            Point(end_x, end_y),
            Text(b"\"/>\n"),
        ],
    )
}

// Appends an arrow with a bend, so far aside.
#[tactic(auto, unfolding(crate::specs::Arrows::curved_text))]
fn put_curved(to: &mut Vec<u8>, bend: Bend, aside: u64) -> Result<(), AllocError>
    ensures { OnOk result (to.new.items ≡ to.old.items ++ curved_text bend aside) }
{
    put_parts(
        to,
        &[
            Text(b"<path class=\"arrow\" d=\"M"),
            Point(bend.begin_x, bend.begin_y),
            Text(b" C"),
            Point(bend.begin_x.saturating_sub(aside), bend.leave_y),
            Point(bend.end_x.saturating_sub(aside), bend.reach_y),
            Point(bend.end_x, bend.end_y),
            Text(b"\"/>\n"),
        ],
    )
}

// Appends the arrow from a box to another.
#[tactic(auto, unfolding(crate::specs::Arrows::between))]
fn put_between(to: &mut Vec<u8>, from: Place, target: Place) -> Result<(), AllocError>
    ensures { OnOk result (to.new.items ≡ to.old.items ++ between from target) }
{
    if is_beside(from, target)? {
        return put_straight(to, from, target);
    }
    put_curved(to, bend_between(from, target)?, aside(from, target)?)
}

// Appends the arrow from a box to another, where both are there.
#[tactic(auto, unfolding(crate::specs::Arrows::arrow_text))]
fn put_arrow(to: &mut Vec<u8>, from: Option<Place>, target: Option<Place>) -> Result<(), AllocError>
    ensures { OnOk result (to.new.items ≡ to.old.items ++ arrow_text from target) }
{
    match (from, target) {
        (Some(from), Some(target)) => put_between(to, from, target),
        _ => Ok(()),
    }
}

// Where the box of the value of a number stands.
fn place_of(values: &[Placed<'_>], number: usize) -> Option<Place>
    ensures { result ≡ place_of (map plain_placed values.now) number }
{
    match values.get(number) {
        Some(placed) => Some(placed.place),
        None => None,
    }
}

/// Appends arrows between values.
#[tactic(auto, using(crate::proofs::Loops::arrows_more))]
pub(crate) fn put_arrows(
    to: &mut Vec<u8>,
    values: &[Placed<'_>],
    arrows: &[Arrow],
) -> Result<(), AllocError>
    ensures { OnOk result (to.new.items ≡ to.old.items ++ arrows_text (map plain_placed values.now) arrows.now) }
{
    for arrow in arrows {
        put_arrow(to, place_of(values, arrow.from), place_of(values, arrow.to))?;
    }
    Ok(())
}
