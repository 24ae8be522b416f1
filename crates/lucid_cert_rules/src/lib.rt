//! Certificates: why a program has its value at a time, judgment by judgment. Their rows and their text, both ways; what follows, of a
//! certificate, and that what follows is meant; and what a value was computed from.
#![tactic(auto)]

pub use crate::cell::{Cell, asked_at};
pub use crate::contexts::{context_at, enter_all, rows_of};
pub use crate::laws::one_why;
pub use crate::lists::{ContextRows, JudgmentRows};
pub use crate::passing::{Position, onward};
pub use crate::read::{WhyRefusal, read_why};
pub use crate::rest::{Look, Rest, Then, begin};
pub use crate::rows::{ContextRow, JudgmentRow, Why};
pub use crate::show::show_why;
pub use crate::telling::{Entry, outline};
pub use crate::walk::needs;

mod cell;
mod contexts;
pub mod following_laws;
mod laws;
mod lists;
pub mod need_laws;
mod passing;
mod put;
mod read;
mod read_rows;
mod rest;
mod rows;
mod show;
mod telling;
mod walk;
