//! Lists and stacks, each seen as the list of its items; and lemmas of numbers, options, truths and lists as the standard library has them.
#![tactic(auto)]

pub use few::Few;
pub use items::{Items, Numbers};
pub use stack::Stack;

mod few;
mod items;
mod stack;
