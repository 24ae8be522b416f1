// The plain types of a run.
ghost use Rattle.std.specs.Prelude.{◌≤◌};
ghost use Rattle.lucid_ports.specs.Limits.{most_asked};

use thiserror::Error;

/// The most that an option of a run may ask for: lines, references that are open one inside another, turns, and values that are held.
pub const MAX_ASKED: u32 = 1_000_000;

/// How much a run may do: how many lines it writes at most, and how many references a value may be deep. Both are from
/// 1 to `MAX_ASKED`.
#[derive(Clone, Copy, Debug, PartialEq, Eq)]
pub struct Options {
    pub count: u32,
    pub depth: u32,
    pub ghost some_lines: { 1 ≤ count },
    pub ghost count_within: { count ≤ most_asked },
    pub ghost some_depth: { 1 ≤ depth },
    pub ghost depth_within: { depth ≤ most_asked },
}

/// What a run has done.
#[derive(Clone, Copy, Debug, PartialEq, Eq)]
pub struct Summary {
    /// The number of lines written.
    pub lines: u32,
    /// Whether the end of data ended the run.
    pub ended: bool,
    /// The number of values that the warehouse holds at the end.
    pub held: u64,
    /// How many values found no memory in the warehouse.
    pub lost: u64,
    /// How often the tags and the warehouse were cleared.
    pub cleared: u64,
}

/// Why a run ended early.
#[derive(Clone, Copy, Debug, PartialEq, Eq, Error)]
pub enum RunFault {
    /// The value at a time is deeper than the options allow. The two counts are those of a `Summary`.
    #[error("too deep at time {time}")]
    TooDeep { time: u64, lost: u64, cleared: u64 },
    /// A read failed.
    #[error("read fault")]
    ReadFault,
    /// A write failed.
    #[error("write fault")]
    WriteFault,
    /// An element of this input lies past the bytes that may be read.
    #[error("input {stream} too large")]
    TooLarge { stream: u32 },
    /// There was no memory.
    #[error("no memory")]
    NoMemory,
}
