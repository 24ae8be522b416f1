//! Why tokens are no tree.

use std::alloc::{AllocError, AllocFailed};
use thiserror::Error;

/// Why tokens were refused. A place is an offset in bytes.
#[derive(Debug, Drop, Error)]
pub enum ParseRefusal {
    /// The tokens spell no tree. The place is that of the first token such that no program begins with the tokens through it,
    /// or the source's length where a program begins with all of them.
    #[error("syntax at {at}")]
    Syntax { at: u32 },
    /// The tokens spell a tree of depth over 400. The place is the least one of a node at depth 401.
    #[error("too nested at {at}")]
    TooNested { at: u32 },
    /// There was no memory for the tree.
    #[error("no memory")]
    NoMemory,
}

impl From<AllocError> for ParseRefusal {
    ghost use Rattle.std.specs.Prelude.{◌≡◌};
    ghost use Rattle.lucid_parse.specs.declared.refusal.ParseRefusal.TheVariants.{NoMemory};

    ghost from_gives = { λ _ refusal. refusal ≡ NoMemory };

    fn from(_: AllocError) -> Self {
        ParseRefusal::NoMemory
    }
}

impl<T: Drop> From<AllocFailed<T>> for ParseRefusal {
    ghost use Rattle.std.specs.Prelude.{◌≡◌};
    ghost use Rattle.lucid_parse.specs.declared.refusal.ParseRefusal.TheVariants.{NoMemory};

    ghost from_gives = { λ _ refusal. refusal ≡ NoMemory };

    fn from(_: AllocFailed<T>) -> Self {
        ParseRefusal::NoMemory
    }
}
