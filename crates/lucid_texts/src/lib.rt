//! Texts of lines of words: one blank between each two words, numbers in one spelling, the text of a value, and the first line with
//! which no text goes on.
#![tactic(auto)]

pub use crate::laws::one_value;
pub use crate::lines::{Lines, add_lines};
pub use crate::put::{put_number, put_word};
pub use crate::values::read_text;
pub use crate::words::{at_end, cut, next_number, next_word, number};

mod laws;
mod lines;
mod put;
mod values;
mod words;
