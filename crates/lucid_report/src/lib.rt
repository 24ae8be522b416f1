//! How a call begins and ends: the arguments of a command line, why a call is refused or stopped, its status and exit code, and the line that is
//! reported of it. Each line is pinned byte for byte (specs/Lines.antt), and so is the status (specs/Status.antt).
#![tactic(auto)]

pub use crate::arguments::{all_arguments, text_asked, words_of};
pub use crate::refusal::Refusal;
pub use crate::report::{tell, write_outcome};
pub use crate::status::Status;
pub use crate::stop::{Done, Stop};
pub use crate::streams::closed_streams;

mod arguments;
mod refusal;
mod report;
mod status;
mod stop;
mod streams;
