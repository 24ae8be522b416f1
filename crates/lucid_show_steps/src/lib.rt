//! A run step by step, under the policy of its words: what is asked for, computed, found and dropped, and each line with how much was done so far.
#![tactic(auto)]

pub use crate::log::Log;
pub use crate::names::{Names, names_of};
pub use crate::run::{Noted, run_noted, text_of};

mod event;
mod log;
mod names;
mod noting;
mod run;
mod seen;
mod step;
mod steps;
mod text;
