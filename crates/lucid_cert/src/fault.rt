//! Why a certificate isn't right.
ghost use Rattle.std.specs.Prelude.{◌≡◌};
ghost use Rattle.lucid_cert.specs.Faults.{fault_of};
ghost use Rattle.lucid_cert.specs.declared.fault.CheckFault.TheVariants.{NoMemory};

use lucid_inputs::InputFault;
use std::alloc::AllocError;

/// Why a check is refused.
#[derive(thiserror::Error, Clone, Copy, PartialEq, Eq, Debug, Drop)]
pub enum CheckFault {
    /// The judgment of this number, from 0, doesn't follow; or it is the last, and not of the root in the empty context at space 0.
    #[error("judgment {judgment} does not follow")]
    Wrong { judgment: u64 },
    /// An input can't be read.
    #[error("read fault")]
    ReadFault,
    /// An element that a judgment tells lies past the bytes that may be read of its stream.
    #[error("input {stream} too large")]
    TooLarge { stream: u32 },
    /// There is no memory.
    #[error("no memory")]
    NoMemory,
}

impl From<AllocError> for CheckFault {
    ghost from_gives = { λ _ e. e ≡ NoMemory };

    fn from(_: AllocError) -> CheckFault {
        CheckFault::NoMemory
    }
}

impl From<InputFault> for CheckFault {
    ghost from_gives = { λ refused e. e ≡ fault_of refused };

    fn from(fault: InputFault) -> CheckFault {
        match fault {
            InputFault::ReadFault => CheckFault::ReadFault,
            InputFault::TooLarge { stream } => CheckFault::TooLarge { stream },
            InputFault::NoMemory => CheckFault::NoMemory,
        }
    }
}
