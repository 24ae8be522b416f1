//! The rows of an equation table.
use crate::lists::Numbers32;
use lucid_ops::Op;

/// A node, with its parts by their numbers.
#[derive(Clone, Copy)]
pub enum Node {
    /// A constant, by its number.
    Const { constant: u32 },
    /// The element of an input at the time, by the input's number.
    Input { stream: u32 },
    /// A data operator on its arguments; the places past its arity are 0.
    Apply { op: Op, args: [u32; 3] },
    /// `if test then yes else no fi`.
    If { test: u32, yes: u32, no: u32 },
    /// `left and right`.
    And { left: u32, right: u32 },
    /// `left or right`.
    Or { left: u32, right: u32 },
    /// `first of`.
    First { of: u32 },
    /// `next of`.
    Next { of: u32 },
    /// `left fby right`.
    Fby { left: u32, right: u32 },
    /// `left whenever right`.
    Whenever { left: u32, right: u32 },
    /// `left asa right`.
    Asa { left: u32, right: u32 },
    /// `left upon right`.
    Upon { left: u32, right: u32 },
    /// `left attime right`.
    Attime { left: u32, right: u32 },
    /// `initial of`.
    Initial { of: u32 },
    /// `succ of`.
    Succ { of: u32 },
    /// `left sby right`.
    Sby { left: u32, right: u32 },
    /// `left atspace right`.
    Atspace { left: u32, right: u32 },
    /// The subject, at the same point, in the context with the time added as a frozen one.
    Freeze { subject: u32 },
    /// A name's row, in the context of the first `level` frames.
    Refer { name: u32, level: u32 },
    /// A call's row, in the context of the first `level` frames with the call added, from a call place.
    Call { name: u32, place: u32, level: u32 },
}

/// What a name is.
#[derive(Clone, Copy)]
pub enum Entry {
    /// A plain name: its right side.
    Plain { body: u32 },
    /// A parameter, by its index from 0.
    Parameter { index: u32 },
    /// A current name: its right side.
    Current { body: u32 },
    /// A call: the function's right side.
    Called { body: u32 },
}

/// What a scope is.
#[derive(Clone, Copy)]
pub enum ScopeKind {
    /// Outside all frames.
    Root,
    /// In a function, in the frame of a call.
    Called,
    /// In a block with a current definition, in the frame of a frozen time.
    Frozen,
}

/// A scope, with the scope round it.
#[derive(Clone, Copy)]
pub struct ScopeRow {
    pub parent: u32,
    pub kind: ScopeKind,
}

/// A node, with the scope in which it stands.
#[derive(Clone, Copy)]
pub struct NodeRow {
    pub scope: u32,
    pub node: Node,
}

/// A name, with the scope of its definition, parameter or call.
#[derive(Clone, Copy)]
pub struct NameRow {
    pub scope: u32,
    pub kind: Entry,
}

/// A call place, with its scope, the name of its call, and the nodes of its actuals.
#[derive(Drop)]
pub struct PlaceRow {
    pub scope: u32,
    pub name: u32,
    pub actuals: Numbers32,
}
