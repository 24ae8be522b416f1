//! Why a demand is refused.
ghost use Rattle.std.specs.Prelude.{◌≡◌};
ghost use Rattle.lucid_demand_steps.specs.declared.fault.DemandFault.TheVariants.{NoMemory};
ghost use Rattle.lucid_demand_steps.specs.Faults.{fault_of};

use lucid_inputs::InputFault;
use std::alloc::AllocError;

/// Why a demand is refused.
#[derive(thiserror::Error, Clone, Copy, PartialEq, Eq, Debug, Drop)]
pub enum DemandFault {
    /// The approximation of the limit has no value there.
    #[error("too deep")]
    TooDeep,
    /// An input can't be read.
    #[error("read fault")]
    ReadFault,
    /// An element that was asked for lies past the bytes that may be read of its stream.
    #[error("input {stream} too large")]
    TooLarge { stream: u32 },
    /// There is no memory.
    #[error("no memory")]
    NoMemory,
}

impl From<AllocError> for DemandFault {
    ghost from_gives = { λ _ e. e ≡ NoMemory };

    fn from(_: AllocError) -> DemandFault {
        DemandFault::NoMemory
    }
}

impl From<InputFault> for DemandFault {
    ghost from_gives = { λ refused e. e ≡ fault_of refused };

    fn from(fault: InputFault) -> DemandFault {
        match fault {
            InputFault::ReadFault => DemandFault::ReadFault,
            InputFault::TooLarge { stream } => DemandFault::TooLarge { stream },
            InputFault::NoMemory => DemandFault::NoMemory,
        }
    }
}
