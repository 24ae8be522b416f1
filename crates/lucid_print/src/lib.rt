//! The canonical source of a tree: one line, with the least parentheses that the grammar needs.
#![tactic(auto)]

pub use crate::print::{print_tree, put_tree};

pub mod laws;
mod print;
mod style;
