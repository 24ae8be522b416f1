//! What explanations look at beside the call.
ghost use Rattle.std.specs.Prelude.{◌≡◌, Bool, IfOk};
ghost use Rattle.lucid_explain_report.specs.Files.{Files, IsAgain};

use lucid_ports::{Places, PortFault, RealPlaces, read_at_most};
use lucid_scan::MAX_SOURCE_BYTES;
use std::alloc::{AllocError, Global};
use std::fs;
use std::io::IsTerminal;

/// One byte more than a source may have: so much of it is read again.
pub const PAST_SOURCE: usize = MAX_SOURCE_BYTES + 1;

/// What comes of reading a file again.
#[derive(Drop)]
pub enum Again {
    /// Its first bytes.
    Bytes(Vec<u8>),
    /// It can't be opened or read.
    Unread,
    /// It isn't a regular file, as a pipe: what was read of it doesn't come again.
    Gone,
}

/// What explanations look at beside the call.
pub trait Outlook {
    ghost terminal: { Self → Bool };

    ghost files: { Self → Files };

    /// Whether the standard input is a terminal.
    fn is_terminal(&self) -> bool
        ensures { result ≡ terminal self.now };

    /// The first bytes of the file of this name, at most so many. An error is want of memory.
    fn reread(&self, alloc: Global, name: &str, most: usize) -> Result<Again, AllocError>
        ensures { IfOk result (IsAgain (files self.now) name.now most) };
}

/// The real files and the real standard input. They tell nothing of contents.
#[derive(Drop)]
pub struct RealOutlook<'a> {
    rt: &'a HostRuntime,
    terminal: bool,
}

impl<'a> RealOutlook<'a> {
    /// Looks at what there is now.
    pub fn make(rt: &'a HostRuntime) -> RealOutlook<'a> {
        RealOutlook {
            rt,
            terminal: rt.stdin().is_terminal(),
        }
    }

    // The first bytes of a regular file.
    fn first_bytes(&self, alloc: Global, name: &str, most: usize) -> Result<Vec<u8>, PortFault> {
        let mut places = RealPlaces::make(alloc, self.rt);
        let place = places.reach(alloc, name)?;
        read_at_most(alloc, &mut places, place, most)
    }
}

impl<'a> Outlook for RealOutlook<'a> {
    ghost use Rattle.std.specs.Prelude.{None};

    ghost terminal = { λ outlook. outlook.terminal };

    ghost files = { λ outlook name. None };

    fn is_terminal(&self) -> bool {
        self.terminal
    }

    fn reread(&self, alloc: Global, name: &str, most: usize) -> Result<Again, AllocError> {
        match fs::metadata(self.rt, name) {
            Ok(metadata) if !metadata.is_file() => Ok(Again::Gone),
            _ => match self.first_bytes(alloc, name, most) {
                Ok(bytes) => Ok(Again::Bytes(bytes)),
                Err(PortFault::Failed) => Ok(Again::Unread),
                Err(PortFault::NoMemory) => Err(AllocError),
            },
        }
    }
}
