//! The texts of a demand: the equations of its values with the names at their times, and its outline.
#![tactic(auto)]

pub use crate::asked::put_space;
pub use crate::choice::chosen;
pub use crate::outline::outline_text;
pub use crate::source::Source;
pub use crate::value::{put_digits, put_value};

mod asked;
mod choice;
mod does;
mod equation;
mod forms;
pub mod laws;
mod line;
mod operators;
mod outline;
mod part;
mod pieces;
mod runs;
mod searches;
mod source;
mod value;
