//! The warehouse of computed values.
//!
//! A value of a name at a tag and a time is a daton. The warehouse holds datons by their keys, knows how many sweeps ago each
//! was last touched, and which key was touched last, so that a policy can choose what to drop.
#![tactic(auto)]

pub use lucid_tags::Key;
pub use warehouse::Warehouse;

mod ages;
mod datons;
mod order;
mod warehouse;
