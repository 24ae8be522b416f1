//! The facts of waiting tasks, of the store and of one step, as definitions and lemmas; why a demand is refused. The code has what a waiting
//! row and a program decide alone: what the row does next, where its reference leads, what only moves its point, and where its search may
//! begin.
//!
//! Nothing is asked for, held or read here: who acts on a decision does that.
#![tactic(auto)]

pub use crate::aim::{Aim, Called, Named, call_aim, name_aim};
pub use crate::decision::{Decision, argument, decide};
pub use crate::fault::DemandFault;
pub use crate::moving::moved_on;
pub use crate::searches::{Search, is_search, search_of};

mod aim;
mod decision;
mod fault;
mod moving;
mod searches;
