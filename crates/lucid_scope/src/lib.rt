//! Scopes: what each name of a program belongs to, and the faults of names.
#![tactic(auto)]

pub use crate::refusal::ScopeRefusal;
pub use crate::resolution::{resolve, resolve_owned};
pub use crate::scoped::{Binding, Scoped};

mod hashing;
pub mod laws;
mod marks;
mod refusal;
mod resolution;
mod scoped;
mod settle;
mod steps;
mod table;
mod walk;
