//! The compiler: from resolved trees to equation tables, each approximation kept.
#![tactic(auto)]

pub use crate::compiler::compile;
pub use crate::tracing::{Origins, find_origins};

mod building;
mod compiler;
mod forms;
pub mod laws;
mod linking;
mod numbering;
mod tracing;
