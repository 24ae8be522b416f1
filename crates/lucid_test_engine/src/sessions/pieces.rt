//! Each line is one piece that is handed to the sink, and a refused one ends the run.
ghost use Rattle.std.specs.Prelude.{Some};
ghost use Rattle.lucid_ports.specs.Sink.{sink_bytes};

use crate::sessions::program_run::{columns_of, options_of, run_of};
use crate::told::{all_hold, must};
use crate::trials::Setup;
use lucid_ports::{MemorySink, PortFault, RunFault, Sink, Summary, late_after};
use lucid_retire::Keep;
use lucid_schedule::Newest;
use lucid_test_programs::GROWING_LIST;
use std::alloc::{AllocError, Global};
use std::test::Fail;

/// A sink in memory, and the pieces that are handed to it, each with a bar behind it.
#[derive(Drop)]
struct Pieces {
    sink: MemorySink,
    pieces: Vec<u8>,
    faults: u64,
    late: u64,
}

impl Sink for Pieces {
    ghost written = { λ s. Some (sink_bytes s.sink) };

    ghost faults = { λ s. s.faults };

    ghost late = { λ s. s.late };

    fn write(&mut self, piece: &[u8]) -> Result<usize, PortFault> {
        self.late = late_after(self.faults, self.late);
        self.pieces.extend_from_slice(piece)?;
        self.pieces.push(b'|')?;
        match self.sink.write(piece) {
            Ok(taken) => Ok(taken),
            Err(PortFault::Failed) => {
                self.faults = self.faults.saturating_add(1);
                Err(PortFault::Failed)
            }
            Err(PortFault::NoMemory) => Err(PortFault::NoMemory),
        }
    }
}

/// A source, how many columns it has, or none where it is run as a stream, the number of the write that fails, how many lines are asked for, the
/// pieces that are handed on, and what is written.
type Row = (
    &'static str,
    Option<u32>,
    Option<u64>,
    u32,
    &'static str,
    &'static str,
);

// The lines of the growing list have different lengths, and the second column ends early. A line that is refused is the last piece.
static ROWS: [Row; 7] = [
    (
        GROWING_LIST,
        None,
        None,
        4,
        "[% %]\n|[% 0 %]\n|[% 1 0 %]\n|[% 2 1 0 %]\n|",
        "[% %]\n[% 0 %]\n[% 1 0 %]\n[% 2 1 0 %]\n",
    ),
    (GROWING_LIST, None, Some(0), 4, "[% %]\n|", ""),
    (
        GROWING_LIST,
        None,
        Some(1),
        4,
        "[% %]\n|[% 0 %]\n|",
        "[% %]\n",
    ),
    (
        GROWING_LIST,
        None,
        Some(2),
        4,
        "[% %]\n|[% 0 %]\n|[% 1 0 %]\n|",
        "[% %]\n[% 0 %]\n",
    ),
    (
        GROWING_LIST,
        None,
        Some(3),
        4,
        "[% %]\n|[% 0 %]\n|[% 1 0 %]\n|[% 2 1 0 %]\n|",
        "[% %]\n[% 0 %]\n[% 1 0 %]\n",
    ),
    (
        "1 sby 2 fby eod",
        Some(2),
        None,
        3,
        "1\t2\n|1\t\n|1\t\n|",
        "1\t2\n1\t\n1\t\n",
    ),
    (
        "1 sby 2 fby eod",
        Some(2),
        Some(1),
        3,
        "1\t2\n|1\t\n|",
        "1\t2\n",
    ),
];

// The run of a row's program, as a stream or by its columns.
fn answer_of(
    alloc: Global,
    row: &Row,
    out: &mut Pieces,
) -> Result<Result<Summary, RunFault>, Fail> {
    let (source, columns, _, count, _, _) = *row;
    let setup = Setup::of(source, &[]);
    let options = options_of(count, 100)?;
    match columns {
        Some(columns) => columns_of(alloc, &setup, columns, &options, out, Keep),
        None => run_of(alloc, &setup, &options, out, Keep, Newest),
    }
}

// Whether a run of the row with this answer ends so.
fn ends_so(row: &Row, answer: Result<Summary, RunFault>) -> bool {
    let (_, _, failure, count, _, _) = *row;
    match answer {
        Ok(summary) => failure.is_none() && summary.lines == count,
        Err(fault) => failure.is_some() && fault == RunFault::WriteFault,
    }
}

fn failures_of(alloc: Global, row: &Row) -> Result<Vec<u64>, AllocError> {
    let mut failures = Vec::new(alloc);
    if let Some(number) = row.2 {
        failures.push(number)?;
    }
    Ok(failures)
}

// Whether the row's pieces are handed on, and its text is written.
fn is_written(alloc: Global, row: &Row) -> Result<bool, Fail> {
    let mut out = Pieces {
        sink: MemorySink::make(alloc, 100, failures_of(alloc, row)?),
        pieces: Vec::new(alloc),
        faults: 0,
        late: 0,
    };
    let answer = answer_of(alloc, row, &mut out)?;
    Ok(all_hold(&[
        ends_so(row, answer),
        out.pieces.as_slice() == row.4.as_bytes(),
        out.sink.written() == row.5.as_bytes(),
    ]))
}

#[test]
fn a_line_is_one_piece(rt: HostRuntime) -> Result<(), Fail> {
    for row in &ROWS {
        must(is_written(rt.alloc(), row)?, row.4)?;
    }
    Ok(())
}
