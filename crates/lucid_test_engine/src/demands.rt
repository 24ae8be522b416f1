//! Worked rows of the engine: values, refusals, what is held and what is read, under each policy and each pick.

mod engines;
mod refusals;
mod rows;
mod wanted;
