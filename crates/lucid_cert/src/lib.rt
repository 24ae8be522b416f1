//! Certificates against a program and its inputs: checked without an engine, whoever made them; and made, for a value at a time.
#![tactic(auto)]

pub use crate::check::check_why;
pub use crate::fault::CheckFault;
pub use crate::uses::{applied, told};
pub use crate::walk::certify;

mod check;
pub mod check_laws;
mod compared;
mod elements;
mod fault;
pub mod laws;
mod maker;
mod making;
mod uses;
mod walk;
