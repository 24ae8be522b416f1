//! Why a source has no tokens.
ghost use Rattle.std.specs.Prelude.{◌≡◌, ◌^◌, ◌<◌};
ghost use Rattle.lucid_scan.specs.Refusals.{refusal_of};

use std::alloc::{AllocError, AllocFailed};
use thiserror::Error;

/// Why a source was refused. A place is an offset in bytes.
#[derive(Clone, Copy, Debug, PartialEq, Eq, Error)]
pub enum ScanRefusal {
    /// The source has more than 1,048,576 bytes.
    #[error("source too long")]
    TooLong,
    /// No token begins at the place, and neither a number nor an open text does.
    #[error("bad byte at {at}")]
    BadByte { at: u32 },
    /// The string or the list that begins at the place has no end, or is no value.
    #[error("open text at {at}")]
    OpenText { at: u32 },
    /// The integer at the place is above 2^127 - 1.
    #[error("number too big at {at}")]
    BigNumber { at: u32 },
    /// There was no memory for the tokens.
    #[error("no memory")]
    NoMemory,
}

impl From<AllocError> for ScanRefusal {
    ghost use Rattle.lucid_scan.specs.declared.refusal.ScanRefusal.TheVariants.{NoMemory};

    ghost from_gives = { λ _ refusal. refusal ≡ NoMemory };

    fn from(_: AllocError) -> Self {
        ScanRefusal::NoMemory
    }
}

impl<T: Drop> From<AllocFailed<T>> for ScanRefusal {
    ghost use Rattle.lucid_scan.specs.declared.refusal.ScanRefusal.TheVariants.{NoMemory};

    ghost from_gives = { λ _ refusal. refusal ≡ NoMemory };

    fn from(_: AllocFailed<T>) -> Self {
        ScanRefusal::NoMemory
    }
}

/// The refusal of a source in which no token stands at the place, where these bytes are.
pub fn refusal_of(rest: &[u8], at: u32) -> ScanRefusal
    ensures { result ≡ refusal_of rest.now at }
{
    match rest {
        [b'0'..=b'9', ..] => ScanRefusal::BigNumber { at },
        [b'`', ..] | [b'[', b'%', ..] => ScanRefusal::OpenText { at },
        _ => ScanRefusal::BadByte { at },
    }
}
