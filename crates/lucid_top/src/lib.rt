//! The command whole. It runs a pLucid program and writes the values of its stream, one a line. Or it writes a text of the program: its
//! canonical source, the judgment of its cycles, or its flat form, a table without functions. Or it makes or checks a certificate of a value
//! of the program.
#![tactic(auto)]

pub use crate::arguments::lucid_from_arguments;
pub use crate::certificates::{Certified, make_why};
pub use crate::task::Task;
pub use crate::top::{lucid, lucid_under, outcome_of};
pub use crate::writing::write_out;

mod arguments;
mod basis;
mod certificates;
mod checking;
mod columns;
mod files;
mod flat;
pub mod headline;
mod judging;
mod laws;
mod making;
mod places;
mod reading;
mod running;
mod runs;
pub mod solution_laws;
mod task;
mod terms;
mod top;
mod writing;
