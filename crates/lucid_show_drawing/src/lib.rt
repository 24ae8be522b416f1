//! The grid of a demand: a value for each name, context and point that a certificate's references go to, the tests of its searches, and arrows
//! from each to what it looked at.
#![tactic(auto)]

pub use crate::drawing::grid;

mod arrows;
mod asked;
mod drawing;
mod labels;
pub mod laws;
mod looked;
mod panels;
mod roles;
mod spot;
