//! The meaning of programs is the least solution of their equations: of rules, and of equations between streams; and what may be rewritten
//! in programs by it.
#![tactic(auto)]

pub mod instances;
pub mod laws;
pub mod rule_laws;
