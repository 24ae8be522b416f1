//! Places of a source: their lines and columns, how they are shown, and what may stand there.
#![tactic(auto)]

pub use crate::around::Around;
pub use crate::candidates::{Candidate, standing};
pub use crate::hints::is_capital;
pub use crate::position::{Position, last_line, position_of};
pub use crate::shown::{put_place, put_shown};
pub use crate::syntax::explain_syntax;
pub use crate::texts::{put_number, put_where};

mod around;
mod candidates;
mod hints;
pub mod laws;
mod position;
mod shown;
mod syntax;
mod texts;
