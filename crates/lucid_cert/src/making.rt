//! A judgment in the making.
ghost use Rattle.std.specs.Prelude.{◌≤◌, ◌↔◌, IsTrue};
ghost use Rattle.lucid_tree.specs.Rows.{last};
ghost use Rattle.lucid_cert_rules.specs.RestPlans.{IsAtPoint, least_of};

use lucid_cert_rules::{Look, Position, Then};

/// What a judgment in the making wants next.
#[derive(Clone, Copy)]
pub(crate) enum Next {
    /// The value of a part at a point.
    Look(Look),
    /// The value that a frozen time, a reference or a call goes on with, so many references further on.
    Position { at: Position, references: u32 },
}

/// A node in a context at a point.
#[derive(Clone, Copy)]
pub(crate) struct Spot {
    pub(crate) at: Position,
    pub(crate) space: u64,
}

/// A judgment in the making: a node in a context at a point, how many references deep it may look, the uses so far, and what it wants next.
#[derive(Drop)]
pub(crate) struct Making {
    pub(crate) at: Position,
    pub(crate) space: u64,
    pub(crate) limit: u32,
    pub(crate) uses: Vec<u64>,
    pub(crate) next: Next,
}

/// Whether approximations of this limit take the look: a search's is past its time, and a count's the time that it goes to.
pub(crate) fn is_allowed(look: &Look, limit: u32) -> bool
    ensures allowed { IsTrue result ↔ (least_of look.now.then look.now.time ≤ limit) }
    ensures time { IsTrue result → IsAtPoint look.now.then look.now.time look.now.space → look.now.time ≤ last }
{
    let limit = u64::from(limit);
    match look.then {
        Then::Find { .. } => look.time < limit,
        Then::Count { until, .. } => until <= limit,
        _ => true,
    }
}
