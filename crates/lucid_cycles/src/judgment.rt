//! What a judgment of a program says, and why there is none.
ghost use Rattle.std.specs.Prelude.{◌≡◌};
ghost use Rattle.lucid_cycles.specs.declared.judgment.JudgeRefusal.TheVariants.{NoMemory};

use lucid_lists::{Items, Numbers};
use std::alloc::AllocError;
use thiserror::Error;

/// Delays of a cycle.
pub type Delays = Items<i64>;

/// What the delays along the cycles of references say of a program.
#[derive(Drop)]
pub enum Judgment {
    /// The depth limit `factor * t + add` is enough for the value at time t. The potentials are those of the plain names, in the order
    /// of the places of their definitions.
    Enough {
        factor: u64,
        add: u64,
        potentials: Numbers,
    },
    /// A cycle of references whose delays have a sum of at most 0: the numbers of the names at which its edges begin, and the delays
    /// of these edges. The plain names are numbered from 0 by the places of their definitions.
    Cycle {
        names: Numbers,
        delays: Delays,
    },
}

/// Why a program isn't judged.
#[derive(Debug, Drop, Error)]
pub enum JudgeRefusal {
    /// A form, a call or a definition that isn't judged stands at the place.
    #[error("not judged at {at}")]
    Outside { at: u32 },
    /// More than 2,000 plain names are defined.
    #[error("too many names")]
    TooMany,
    /// Want of memory.
    #[error("no memory")]
    NoMemory,
}

impl From<AllocError> for JudgeRefusal {
    ghost from_gives = { λ _ made. made ≡ NoMemory };

    fn from(_error: AllocError) -> JudgeRefusal {
        JudgeRefusal::NoMemory
    }
}
