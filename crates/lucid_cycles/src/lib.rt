//! The test of cycles by sums of delays: a depth that is enough for a program at each time, or a cycle of references without delay.
#![tactic(auto)]

pub use crate::edge::Edge;
pub use crate::judging::{enough, judge};
pub use crate::judgment::{Delays, JudgeRefusal, Judgment};

mod cycle;
mod edge;
mod judging;
mod judgment;
mod laws;
mod line;
mod names;
mod rounds;
mod settle;
mod walk;
