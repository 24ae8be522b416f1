//! For tests: programs over files in memory, and demands on their engines, under each policy and each pick.

pub use crate::trials::choices::{ORDERS, Order, PLANS, Plan};
pub use crate::trials::demands::{Demands, Outcome, times_below};
pub use crate::trials::over_files::{Demand, OverFiles};
pub use crate::trials::random::Random;
pub use crate::trials::setup::{MOST_BYTES, Parts, Setup};
pub use crate::trials::texts::{TOO_DEEP, scoped_of, value_text};

mod choices;
mod demands;
mod over_files;
mod random;
mod setup;
mod texts;
