//! The flat form of an equation table: its text, the table that a text is, and the program of a table where that is sound.
#![tactic(auto)]

pub use crate::program::{BuildRefusal, build};
pub use crate::read::{FlatRefusal, read_flat};
pub use crate::show::show_flat;

mod forms;
mod gather;
pub mod laws;
mod lines;
mod names;
mod nest;
mod nodes;
mod ops;
mod places;
mod program;
mod put;
mod read;
mod rows;
mod show;
pub mod sound_laws;
mod words;
