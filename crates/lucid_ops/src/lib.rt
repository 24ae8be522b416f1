//! The operators of the language: their table and what they give.
#![tactic(auto)]

pub use crate::application::{apply, apply_to_one, apply_to_three, apply_to_two};
pub use crate::laws::{narrow_integers_keep_their_results, standard_rows_are_a_table};
pub use crate::op::{Form, Op, OpRow, Side};
pub use crate::rows::standard;
pub use crate::table::{OpTable, Table, TableRow};

mod application;
mod integers;
mod laws;
mod op;
mod power;
mod rows;
mod table;
