//! How a call ends.
ghost use Rattle.std.specs.Prelude.{◌≡◌};
ghost use Rattle.std.specs.Process.{exit_status};
ghost use Rattle.lucid_report.specs.Status.{code_of, refusal_status, stop_status, status_of};

use crate::refusal::Refusal;
use crate::stop::{Done, Stop};
use std::process::ExitCode;

/// How a call ends.
#[derive(Clone, Copy, Debug, PartialEq, Eq)]
pub enum Status {
    /// What the words ask for was done.
    Done,
    /// The source, or what the words ask of it, is refused.
    Refused,
    /// The words are refused.
    Usage,
    /// A call on the places failed.
    ReadFault,
    /// A write on the output failed.
    WriteFault,
    /// A value is deeper than the limit.
    TooDeep,
    /// An input is too large.
    TooLarge,
    /// There was no memory.
    NoMemory,
}

impl Status {
    // The number of the exit code.
    fn code(self) -> u8
        ensures { result ≡ code_of self }
    {
        match self {
            Status::Done => 0,
            Status::Refused => 1,
            Status::Usage => 2,
            Status::ReadFault => 3,
            Status::WriteFault => 4,
            Status::TooDeep => 5,
            Status::TooLarge => 6,
            Status::NoMemory => 7,
        }
    }

    /// The exit code.
    pub fn exit_code(self) -> ExitCode
        ensures { exit_status result ≡ code_of self }
    {
        ExitCode::from(self.code())
    }

    // The status of a refusal.
    fn of_refusal(refusal: &Refusal) -> Status
        ensures { result ≡ refusal_status refusal.now }
    {
        match refusal {
            Refusal::Usage | Refusal::NotFree { .. } | Refusal::GivenTwice { .. } => Status::Usage,
            _ => Status::Refused,
        }
    }

    // The status of a call that was stopped.
    fn of_stop(stop: &Stop) -> Status
        ensures { result ≡ stop_status stop.now }
    {
        match stop {
            Stop::Refused(refusal) => Status::of_refusal(refusal),
            Stop::ReadFault => Status::ReadFault,
            Stop::WriteFault => Status::WriteFault,
            Stop::TooDeep { .. } => Status::TooDeep,
            Stop::TooLarge { .. } => Status::TooLarge,
            Stop::Wrong { .. } => Status::Refused,
            Stop::NoMemory => Status::NoMemory,
        }
    }

    /// The status of what comes of a call.
    pub fn of(outcome: &Result<Done, Stop>) -> Status
        ensures { result ≡ status_of outcome.now }
    {
        match outcome {
            Ok(_) => Status::Done,
            Err(stop) => Status::of_stop(stop),
        }
    }
}
