//! Why columns are refused.
ghost use Rattle.std.specs.Prelude.{◌≡◌};
ghost use Rattle.lucid_columns.specs.declared.refusal.ColumnRefusal.TheVariants.{NoMemory};

use std::alloc::AllocError;
use thiserror::Error;

/// Why the columns of a program are refused.
#[derive(Debug, Drop, Error)]
pub enum ColumnRefusal {
    /// The program is no block, or its outermost block has no plain definition of the name of this number, from 0.
    #[error("no column {index}")]
    NoColumn { index: u32 },
    /// Want of memory.
    #[error("no memory")]
    NoMemory,
}

impl From<AllocError> for ColumnRefusal {
    ghost from_gives = { λ _ made. made ≡ NoMemory };

    fn from(_: AllocError) -> ColumnRefusal {
        ColumnRefusal::NoMemory
    }
}
