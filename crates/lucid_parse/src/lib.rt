//! The parser: the operators of a source, over data and over streams, with the one row of each; and from the tokens of a source to the tree
//! that they spell.
#![tactic(auto)]

pub use crate::operator::{Operator, OperatorRow};
pub use crate::parser::parse;
pub use crate::refusal::ParseRefusal;

mod build;
mod depth;
pub mod laws;
mod machine;
mod make;
mod nodes;
mod operator;
pub mod operator_laws;
mod parser;
mod refusal;
mod spelling;
mod state;
mod terminal;
mod terminals;
