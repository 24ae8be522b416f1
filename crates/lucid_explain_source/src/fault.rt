//! Why a source is refused.
ghost use Rattle.std.specs.Prelude.{◌≡◌, ◌↔◌, IsTrue};
ghost use Rattle.lucid_explain_source.specs.Faults.{scan_fault, names_fault};

use lucid_scan::ScanRefusal;
use lucid_scope::ScopeRefusal;

/// Why a source is refused, in the order in which the causes are looked for. A place is an offset in bytes.
#[derive(Clone, Copy, PartialEq, Eq)]
pub enum Fault {
    /// It has more than 1,048,576 bytes.
    TooLong,
    /// No token begins at the place, and neither a number nor an open text does.
    BadByte { at: u32 },
    /// The string or the list that begins at the place has no end, or is no value.
    OpenText { at: u32 },
    /// The integer at the place is too big.
    BigNumber { at: u32 },
    /// The tokens spell no program.
    Syntax { at: u32 },
    /// The tree is more than 400 deep.
    TooNested { at: u32 },
    /// A name is defined twice.
    Twice { at: u32 },
    /// A call of a name that nothing defines.
    NoFunction { at: u32 },
    /// A call of what is no function.
    NotFunction { at: u32 },
    /// A function's name without arguments.
    IsFunction { at: u32 },
    /// A call with another number of arguments than the function has parameters.
    Arity { at: u32, wanted: u32, given: u32 },
}

impl Fault {
    /// That for which the scanner refuses a source; want of memory is none.
    pub(crate) fn of_scan(refusal: ScanRefusal) -> Option<Fault>
        ensures { result ≡ scan_fault refusal }
    {
        match refusal {
            ScanRefusal::TooLong => Some(Fault::TooLong),
            ScanRefusal::BadByte { at } => Some(Fault::BadByte { at }),
            ScanRefusal::OpenText { at } => Some(Fault::OpenText { at }),
            ScanRefusal::BigNumber { at } => Some(Fault::BigNumber { at }),
            ScanRefusal::NoMemory => None,
        }
    }

    /// That for which the names of a tree are refused.
    pub(crate) fn of_names(refusal: &ScopeRefusal) -> Option<Fault>
        ensures { result ≡ names_fault refusal.now }
    {
        match refusal {
            ScopeRefusal::Twice { at } => Some(Fault::Twice { at: *at }),
            ScopeRefusal::NoFunction { at } => Some(Fault::NoFunction { at: *at }),
            ScopeRefusal::NotFunction { at } => Some(Fault::NotFunction { at: *at }),
            ScopeRefusal::IsFunction { at } => Some(Fault::IsFunction { at: *at }),
            ScopeRefusal::Arity { at, wanted, given } => Some(Fault::Arity {
                at: *at,
                wanted: *wanted,
                given: *given,
            }),
            ScopeRefusal::NoMemory => None,
        }
    }

    /// Whether it is the other one.
    pub fn is_same(self, other: Fault) -> bool
        ensures { IsTrue result ↔ (self ≡ other) }
    {
        self == other
    }
}
