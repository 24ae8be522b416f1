//! Why a value is `error` or the end of data: the way through its certificate down to the cause, and the cause.
#![tactic(auto)]

pub use crate::cause::{Cause, cause_of};
pub use crate::error::explain_error;
pub use crate::inputs::Input;
pub use crate::traced::Traced;
pub use crate::wanted::Wanted;
pub use crate::ways::{Way, find_way};

mod cause;
mod ending;
mod error;
mod inputs;
pub mod laws;
mod steps;
mod texts;
mod traced;
mod wanted;
mod ways;
