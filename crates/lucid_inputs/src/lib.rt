//! Inputs whose elements are read on demand. An element is that of its line. A line is consumed through its line end and not past it, and
//! none before it is asked for.
#![tactic(auto)]

mod fault;
mod laws;
mod lines;
mod on_demand;
mod stream;

pub use fault::InputFault;
pub use laws::{asked_again, elements_fit, fresh_fits, keeps_within, places_differ};
pub use on_demand::Inputs;
