//! For tests: worked programs, each of them once, with what they mean and what they cost, worked out by hand from the rules of the forms.
//! And the value of a program by plain recursion on its tree, with which every other evaluator is compared: slow on purpose, it keeps nothing.
//! Each table is named by one function alone, which hands it on: a proof reads all its rows again for each function that names it.
#![tactic(auto)]

pub use crate::contexts::in_contexts;
pub use crate::inputs::over_inputs;
pub use crate::program::approximation;
pub use crate::running::run;
pub use crate::sources::{
    ADVANCE, COUNTING, DEEP_TREE, DOUBLING_TEXT, FACTORIAL, FALSE_AND, FIBONACCI, GROWING_LIST,
    LAST_TIME, LONG_ADVANCE, MADE_NAMES, NESTED_CURRENT, NESTED_ITERATION, NO_VALUE, RUNNING_SUM,
    SALES, SEARCH_WITHOUT_END, THIRDS, THREE_NAMES, TWO_SUMS, VALUE_AT_A_TIME,
};
pub use crate::space::over_space;
pub use crate::streams::Stream;
pub use crate::time::over_time;
pub use crate::undefined::without_value;
pub use crate::worked::Worked;

mod contexts;
mod env;
mod eval;
mod inputs;
mod program;
mod running;
mod sources;
mod space;
mod streams;
mod time;
mod undefined;
mod worked;
