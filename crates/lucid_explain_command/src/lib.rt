//! The command with its report explained: the same output and the same status, more behind the line of the report, and behind a run where an `error`
//! came from.
#![tactic(auto)]

pub use crate::command::{lucid_explain, lucid_explain_from_arguments};
pub use crate::help::text_asked;
pub use crate::kept::Kept;
pub use crate::noted::Noted;
pub use crate::remembering::Remembering;
pub use crate::watched::Watched;

mod again;
mod behind;
mod certified;
mod command;
mod errors;
mod help;
mod kept;
mod noted;
mod piece;
mod prompt;
mod remembering;
mod watched;
