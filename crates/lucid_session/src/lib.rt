//! A run: the lines of a program from its values on demand, of one stream or of several side by side.
//!
//! All that is said of a run is said over a subject, which says what stands at each time; the program's table is one.
#![tactic(auto)]

pub use crate::running::{MOST_COLUMNS, run, run_columns};

mod cells;
pub mod laws;
mod lines;
mod running;
