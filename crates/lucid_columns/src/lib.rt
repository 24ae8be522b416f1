//! Several names of a program's outermost block, side by side.
#![tactic(auto)]

pub use crate::columns::column_tree;
pub use crate::refusal::ColumnRefusal;

mod columns;
pub mod laws;
mod refusal;
