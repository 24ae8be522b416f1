//! What comes of a call.
ghost use Rattle.std.specs.Prelude.{◌≡◌};
ghost use Rattle.lucid_report.specs.declared.stop.Stop.TheVariants.{NoMemory};
ghost use Rattle.lucid_report.specs.Refusals.{words_stop, scan_stop, parse_stop, scope_stop, judge_stop, flat_stop, build_stop, why_stop};

use crate::refusal::Refusal;
use lucid_cert_rules::WhyRefusal;
use lucid_cycles::JudgeRefusal;
use lucid_flat::{BuildRefusal, FlatRefusal};
use lucid_parse::ParseRefusal;
use lucid_ports::Summary;
use lucid_scan::ScanRefusal;
use lucid_scope::ScopeRefusal;
use lucid_value::Name;
use lucid_words::WordsRefusal;
use std::alloc::{AllocError, AllocFailed};

/// What a call has done.
#[derive(Clone, Copy)]
pub enum Done {
    /// The program was run. `stats` says whether the summary is reported.
    Ran { summary: Summary, stats: bool },
    /// The text that is asked for was written.
    Written,
}

/// Why a call ends before it has done what the words ask for.
#[derive(Drop)]
pub enum Stop {
    /// The call is refused.
    Refused(Refusal),
    /// A call on the places failed.
    ReadFault,
    /// A write on the output failed.
    WriteFault,
    /// The value at the time is deeper than the limit. `stats` says whether the two counts of the run are reported.
    TooDeep {
        time: u64,
        lost: u64,
        cleared: u64,
        stats: bool,
    },
    /// An element of this input lies past the bytes that may be read.
    TooLarge {
        stream: u32,
        name: Name,
    },
    /// The certificate that is checked is wrong at the judgment of this number, from 0.
    Wrong {
        judgment: u64,
    },
    /// There was no memory.
    NoMemory,
}

impl From<AllocError> for Stop {
    ghost from_gives = { λ _ stop. stop ≡ NoMemory };

    fn from(_: AllocError) -> Stop {
        Stop::NoMemory
    }
}

impl<T: Drop> From<AllocFailed<T>> for Stop {
    ghost from_gives = { λ _ stop. stop ≡ NoMemory };

    fn from(_: AllocFailed<T>) -> Stop {
        Stop::NoMemory
    }
}

impl From<WordsRefusal> for Stop {
    ghost from_gives = { λ refusal stop. stop ≡ words_stop refusal };

    fn from(refusal: WordsRefusal) -> Stop {
        match refusal {
            WordsRefusal::Usage => Stop::Refused(Refusal::Usage),
            WordsRefusal::NoMemory => Stop::NoMemory,
        }
    }
}

impl From<ScanRefusal> for Stop {
    ghost from_gives = { λ refusal stop. stop ≡ scan_stop refusal };

    fn from(refusal: ScanRefusal) -> Stop {
        match refusal {
            ScanRefusal::TooLong => Stop::Refused(Refusal::TooLong),
            ScanRefusal::BadByte { at } => Stop::Refused(Refusal::BadByte { at }),
            ScanRefusal::OpenText { at } => Stop::Refused(Refusal::OpenText { at }),
            ScanRefusal::BigNumber { at } => Stop::Refused(Refusal::BigNumber { at }),
            ScanRefusal::NoMemory => Stop::NoMemory,
        }
    }
}

impl From<ParseRefusal> for Stop {
    ghost from_gives = { λ refusal stop. stop ≡ parse_stop refusal };

    fn from(refusal: ParseRefusal) -> Stop {
        match refusal {
            ParseRefusal::Syntax { at } => Stop::Refused(Refusal::Syntax { at }),
            ParseRefusal::TooNested { at } => Stop::Refused(Refusal::TooNested { at }),
            ParseRefusal::NoMemory => Stop::NoMemory,
        }
    }
}

impl From<ScopeRefusal> for Stop {
    ghost from_gives = { λ refusal stop. stop ≡ scope_stop refusal };

    fn from(refusal: ScopeRefusal) -> Stop {
        match refusal {
            ScopeRefusal::Twice { at } => Stop::Refused(Refusal::Twice { at }),
            ScopeRefusal::NoFunction { at } => Stop::Refused(Refusal::NoFunction { at }),
            ScopeRefusal::NotFunction { at } => Stop::Refused(Refusal::NotFunction { at }),
            ScopeRefusal::IsFunction { at } => Stop::Refused(Refusal::IsFunction { at }),
            ScopeRefusal::Arity { at, wanted, given } => {
                Stop::Refused(Refusal::Arity { at, wanted, given })
            }
            ScopeRefusal::NoMemory => Stop::NoMemory,
        }
    }
}

impl From<JudgeRefusal> for Stop {
    ghost from_gives = { λ refusal stop. stop ≡ judge_stop refusal };

    fn from(refusal: JudgeRefusal) -> Stop {
        match refusal {
            JudgeRefusal::Outside { at } => Stop::Refused(Refusal::NotJudged { at }),
            JudgeRefusal::TooMany => Stop::Refused(Refusal::TooManyNames),
            JudgeRefusal::NoMemory => Stop::NoMemory,
        }
    }
}

impl From<FlatRefusal> for Stop {
    ghost from_gives = { λ refusal stop. stop ≡ flat_stop refusal };

    fn from(refusal: FlatRefusal) -> Stop {
        match refusal {
            FlatRefusal::Form { line } => Stop::Refused(Refusal::NoFlatLine { line }),
            FlatRefusal::NoMemory => Stop::NoMemory,
        }
    }
}

impl From<BuildRefusal> for Stop {
    ghost from_gives = { λ refusal stop. stop ≡ build_stop refusal };

    fn from(refusal: BuildRefusal) -> Stop {
        match refusal {
            BuildRefusal::Scope { at } => Stop::Refused(Refusal::FlatScope { at }),
            BuildRefusal::Node { at } => Stop::Refused(Refusal::FlatNode { at }),
            BuildRefusal::Name { at } => Stop::Refused(Refusal::FlatName { at }),
            BuildRefusal::Place { at } => Stop::Refused(Refusal::FlatPlace { at }),
            BuildRefusal::Root => Stop::Refused(Refusal::FlatRoot),
            BuildRefusal::NoMemory => Stop::NoMemory,
        }
    }
}

impl From<WhyRefusal> for Stop {
    ghost from_gives = { λ refusal stop. stop ≡ why_stop refusal };

    fn from(refusal: WhyRefusal) -> Stop {
        match refusal {
            WhyRefusal::Form { line } => Stop::Refused(Refusal::NoJudgment { line }),
            WhyRefusal::NoMemory => Stop::NoMemory,
        }
    }
}
