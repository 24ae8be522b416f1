// Why a call on the outside is refused.
ghost use Rattle.std.specs.Prelude.{◌≡◌};
ghost use Rattle.lucid_ports.specs.declared.fault.PortFault.TheVariants.{NoMemory};

use std::alloc::{AllocError, AllocFailed};
use thiserror::Error;

/// Why a call on the outside is refused.
#[derive(Clone, Copy, Debug, PartialEq, Eq, Error)]
pub enum PortFault {
    /// The outside failed. The count of faults of the object rose in this call.
    #[error("the outside failed")]
    Failed,
    /// There was no memory for the call.
    #[error("no memory")]
    NoMemory,
}

impl From<AllocError> for PortFault {
    ghost from_gives = { λ _ e. e ≡ NoMemory };

    fn from(_: AllocError) -> PortFault {
        PortFault::NoMemory
    }
}

impl<T: Drop> From<AllocFailed<T>> for PortFault {
    ghost from_gives = { λ _ e. e ≡ NoMemory };

    fn from(_: AllocFailed<T>) -> PortFault {
        PortFault::NoMemory
    }
}
