// Why an element isn't given.
ghost use Rattle.std.specs.Prelude.{◌≡◌};
ghost use Rattle.lucid_inputs.specs.declared.fault.InputFault.TheVariants.{NoMemory};
ghost use Rattle.lucid_inputs.specs.Faults.{fault_of};

use lucid_ports::PortFault;
use std::alloc::AllocError;
use thiserror::Error;

/// Why an element of an input isn't given.
#[derive(Clone, Copy, Debug, PartialEq, Eq, Error)]
pub enum InputFault {
    /// A read failed.
    #[error("read fault")]
    ReadFault,
    /// The element lies past the bytes that may be read of this stream.
    #[error("input {stream} too large")]
    TooLarge { stream: u32 },
    /// There was no memory.
    #[error("no memory")]
    NoMemory,
}

impl From<PortFault> for InputFault {
    ghost from_gives = { λ fault e. e ≡ fault_of fault };

    fn from(fault: PortFault) -> InputFault {
        match fault {
            PortFault::Failed => InputFault::ReadFault,
            PortFault::NoMemory => InputFault::NoMemory,
        }
    }
}

impl From<AllocError> for InputFault {
    ghost from_gives = { λ _ e. e ≡ NoMemory };

    fn from(_: AllocError) -> InputFault {
        InputFault::NoMemory
    }
}
