//! Equation tables: rows that name each other by numbers, what they mean, and the readers of a program. And the steps of a form: which part
//! it looks at first, and what it does by what that part's value tells. The engine decides by them, and certificates are followed by them.
#![tactic(auto)]

pub use crate::answer::Answer;
pub use crate::lists::{NameRows, NodeRows, Numbers32, PlaceRows, ScopeRows, Values};
pub use crate::parts::PartNumbers;
pub use crate::program::Program;
pub use crate::rows::{Entry, NameRow, Node, NodeRow, PlaceRow, ScopeKind, ScopeRow};
pub use crate::step::{Given, PartAt, Place, Start, Step, after, begin, judged};
pub use crate::table::Table;

mod answer;
mod differ;
pub mod laws;
mod lists;
mod parts;
mod program;
mod range;
mod rows;
mod step;
mod table;
