//! Trees and what they mean: the forms over streams, with one row of each, the approximations of a program, and the laws that they obey.
#![tactic(auto)]

pub use crate::definitions::Definitions;
pub use crate::depth::MAX_TREE_DEPTH;
pub use crate::form::{Decider, Delay, Form, FormRow};
pub use crate::lists::{Names, Places32};
pub use crate::parts::Parts;
pub use crate::shape::{Head, Shape};
pub use crate::tree::{Block, Def, DefKind, Defs, Kind, Tree, Trees};

/// The last time, and the last space.
pub const LAST: u64 = (1 << 63) - 1;

mod copy;
mod definitions;
mod depth;
mod form;
pub mod form_laws;
pub mod laws;
mod lists;
mod make;
mod parts;
mod rebuild;
pub mod samples;
mod shape;
mod tree;
