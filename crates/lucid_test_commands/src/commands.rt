//! The worked rows of the command.

mod certificates;
mod columns;
mod cycles;
mod failures;
mod flat;
mod given;
mod inputs;
mod programs;
mod refused;
mod row;
mod streams;
mod tables;
