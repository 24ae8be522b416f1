//! Explanations of what the command reports of a program that compiles: inputs that have no file, values that are too deep, and judgments of
//! a certificate that don't follow. Each judgment comes with its piece of the source.
#![tactic(auto)]

pub use crate::depth::{TooDeep, explain_depth};
pub use crate::find::{own_place, part_at};
pub use crate::inputs::{Lacking, explain_free, explain_inputs};
pub use crate::judgment::{explain_judgment, piece_of};
pub use crate::prompt::explain_prompt;

mod depth;
mod find;
mod inputs;
mod judgment;
pub mod laws;
pub mod piece_laws;
mod prompt;
mod rows;
mod words;
