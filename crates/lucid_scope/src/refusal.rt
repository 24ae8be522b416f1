//! Why the names of a tree are refused.
ghost use Rattle.std.specs.Prelude.{◌≡◌};
ghost use Rattle.lucid_scope.specs.declared.refusal.ScopeRefusal.TheVariants.{NoMemory};

use std::alloc::AllocError;
use thiserror::Error;

/// Why the names of a tree are refused. Each place is that of a name.
#[derive(Debug, Drop, Error)]
pub enum ScopeRefusal {
    /// A definition whose name an earlier definition of the block has, or a parameter whose name an earlier one has.
    #[error("defined twice at {at}")]
    Twice { at: u32 },
    /// A call of a name that no scope defines.
    #[error("no such function at {at}")]
    NoFunction { at: u32 },
    /// A call of a plain name, a current name or a parameter.
    #[error("not a function at {at}")]
    NotFunction { at: u32 },
    /// A function's name without arguments.
    #[error("function without arguments at {at}")]
    IsFunction { at: u32 },
    /// A call with another number of arguments than the function has parameters.
    #[error("wrong number of arguments at {at}: {wanted} wanted, {given} given")]
    Arity { at: u32, wanted: u32, given: u32 },
    /// Want of memory.
    #[error("no memory")]
    NoMemory,
}

impl From<AllocError> for ScopeRefusal {
    ghost from_gives = { λ _ made. made ≡ NoMemory };

    fn from(_error: AllocError) -> ScopeRefusal {
        ScopeRefusal::NoMemory
    }
}
