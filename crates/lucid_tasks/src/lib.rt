//! The forest of waiting tasks.
//!
//! A task is one node at one tag and time. It asks tasks for the values of its parts, and waits for them; it is ready while it
//! waits for none. A task without a parent is a root of the forest.
#![tactic(auto)]

pub use lucid_tags::Key;
use lucid_tags::Tag;
pub use tasks::Tasks;

mod list;
mod pool;
mod rows;
mod tasks;

/// One node at one tag and time, with the approximation that is left as its depth.
///
/// The tag and the node fill 16 bytes, so that a task is copied by whole words.
#[derive(Clone, Copy, PartialEq, Eq, Debug)]
pub struct Task {
    /// The context and the space.
    pub tag: Tag,
    /// The number of the node.
    pub node: u32,
    /// The time.
    pub time: u64,
    /// How many names deep it may still look.
    pub depth: u32,
}

/// Where a search stands: the time of its next look, and how many true values it passed.
#[derive(Clone, Copy, PartialEq, Eq, Debug)]
pub struct Cursor {
    /// The time of the next look.
    pub time: u64,
    /// The true values before it.
    pub count: u64,
}

/// A part of a task: the slot of the task's row, and which part it is.
#[derive(Clone, Copy, PartialEq, Eq, Debug)]
pub struct Part {
    /// The slot of the row.
    pub slot: usize,
    /// Which of its three parts, from 0.
    pub index: u32,
}
