//! A grid of values, with names down, times across and a panel for each context: as lines of text, and as a picture with arrows between values.
#![tactic(auto)]

pub use crate::grid::{Arrow, Grid, Kind, Line, Mark, Panel};
pub use crate::picture::picture_text;
pub use crate::text::grid_text;

mod arrows;
mod boxes;
mod escape;
mod grid;
pub mod laws;
mod parts;
mod picture;
mod places;
mod put;
mod text;
mod widths;
