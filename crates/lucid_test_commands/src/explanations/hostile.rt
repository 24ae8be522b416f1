//! An output for which there is never memory, and a source that is a pipe.
use crate::explanations::call::{OneFile, call, call_into};
use lucid_explain_command::Watched;
use lucid_ports::{PortFault, Sink};
use lucid_report::Status;
use std::alloc::{AllocError, Global};
use std::test::Fail;

// A sink for which there is never memory.
#[derive(Drop)]
struct NoRoom {}

impl Sink for NoRoom {
    ghost use Rattle.std.specs.Prelude.{None};

    ghost written = { λ sink. None };

    ghost faults = { λ sink. 0 };

    ghost late = { λ sink. 0 };

    fn write(&mut self, _piece: &[u8]) -> Result<usize, PortFault> {
        Err(PortFault::NoMemory)
    }
}

// What is said of the program `a`, which comes again.
const ONE_INPUT: OneFile<'static> = OneFile {
    source: Some(b"a"),
    terminal: false,
};

const NO_MEMORY: &str =
    "no memory\nThere is not memory enough. A smaller --depth needs less, and so does --policy last with a small --room.\n";

fn is_told(alloc: Global) -> Result<bool, AllocError> {
    let mut out = Watched::make(NoRoom {});
    let answer = call_into(alloc, "p", b"1", &mut out, &ONE_INPUT)?;
    Ok(answer.tells(Status::NoMemory, NO_MEMORY))
}

// What comes again of a pipe.
const PIPE: OneFile<'static> = OneFile {
    source: None,
    terminal: false,
};

const BAD_BYTE: &str =
    "bad byte at 2\np:1:3:\n1 / 2\n  ^\nDivision is `div`, and what it leaves over is `mod`. A comment begins with `//`.\n";

fn is_explained(alloc: Global) -> Result<bool, AllocError> {
    let answer = call(alloc, "p", b"1 / 2", &PIPE)?;
    Ok(answer.tells(Status::Refused, BAD_BYTE))
}

#[test]
fn no_memory_and_a_pipe(rt: HostRuntime) -> Result<(), Fail> {
    let facts = [is_told(rt.alloc())?, is_explained(rt.alloc())?];
    assert_eq!(rt; facts, [true, true]);
    Ok(())
}
