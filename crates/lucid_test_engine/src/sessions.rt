//! Worked rows of runs, by `run` and `run_columns` themselves over files and sinks in memory.

mod choices;
mod columns;
mod pieces;
mod program_run;
