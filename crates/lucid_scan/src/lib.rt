//! The scanner: splits a source text into its tokens by longest match.
#![tactic(auto)]

pub use crate::refusal::ScanRefusal;
pub use crate::scanner::{MAX_SOURCE_BYTES, scan};
pub use crate::token::{Token, TokenKind};

mod bytes;
mod front;
pub mod laws;
mod marks;
mod refusal;
mod scanner;
mod token;
