//! The command that shows a demand: its words, and how what a value was computed from is shown, or a run step by step.
#![tactic(auto)]

pub use crate::command::{lucid_show, lucid_show_from_arguments};
pub use crate::means::Means;

mod command;
mod form;
mod help;
pub mod laws;
mod line;
mod means;
mod named;
mod run_words;
mod running;
mod showing;
mod words;
