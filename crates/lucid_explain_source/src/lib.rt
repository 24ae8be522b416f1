//! Explanations of what the command reports of a source: where a place is, what went wrong there, and how to mend it.
#![tactic(auto)]

pub use crate::accepted::scoped_of;
pub use crate::characters::begins;
pub use crate::columns::explain_columns;
pub use crate::definitions::{put_definition, put_name};
pub use crate::fault::Fault;
pub use crate::names::{has_parameter, name_front};
pub use crate::scopes::{find_everywhere, find_in_scope};
pub use crate::sources::{Explanation, explain_source};

mod accepted;
mod advice;
mod characters;
mod columns;
mod definitions;
mod fault;
pub mod laws;
mod names;
mod scopes;
mod sources;
