//! Runs of sources by the plain evaluator. Each row is worked out by hand.
use crate::tables::tree_of;
use crate::told::{first_false, must};
use crate::values::{shows, streams_of};
use lucid_ports::{MemorySink, Options, RunFault, Summary};
use lucid_test_programs::{COUNTING, DEEP_TREE, NO_VALUE, run};
use std::alloc::Global;
use std::test::Fail;

/// A source, the writes that fail, what a run of at most three lines with a limit of 50 answers, and what it writes.
type Row = (
    &'static str,
    [u64; 1],
    Result<Summary, RunFault>,
    &'static str,
);

// The answer of a run of three lines at most, and what it wrote.
fn three_lines(
    alloc: Global,
    source: &str,
    failures: &[u64],
) -> Result<(Result<Summary, RunFault>, MemorySink), Fail> {
    let tree = tree_of(alloc, source.as_bytes())?;
    let mut out = MemorySink::make(alloc, 100, Vec::from_slice(alloc, failures)?);
    let options = Options {
        count: 3,
        depth: 50,
    };
    let answer = run(alloc, &[], &tree, &mut out, &options);
    Ok((answer, out))
}

const THREE_LINES: Result<Summary, RunFault> = Ok(Summary {
    lines: 3,
    ended: false,
    held: 0,
    lost: 0,
    cleared: 0,
});

const ENDED: Result<Summary, RunFault> = Ok(Summary {
    lines: 0,
    ended: true,
    held: 0,
    lost: 0,
    cleared: 0,
});

const TOO_DEEP: Result<Summary, RunFault> = Err(RunFault::TooDeep {
    time: 0,
    lost: 0,
    cleared: 0,
});

static ROWS: [Row; 7] = [
    ("1", [9], THREE_LINES, "1\n1\n1\n"),
    ("1 whenever 5", [9], THREE_LINES, "error\nerror\nerror\n"),
    ("1 asa false", [9], TOO_DEEP, ""),
    ("eod + error", [9], ENDED, ""),
    (COUNTING, [9], THREE_LINES, "0\n1\n2\n"),
    (COUNTING, [1], Err(RunFault::WriteFault), "0\n"),
    (NO_VALUE, [9], TOO_DEEP, ""),
];

// Whether a run answers and writes so.
fn runs_so(alloc: Global, row: &Row) -> Result<bool, Fail> {
    let (source, failures, answer, written) = *row;
    let (answered, out) = three_lines(alloc, source, &failures)?;
    let facts = [answered == answer, out.written() == written.as_bytes()];
    Ok(first_false(&facts).is_none())
}

// The last element, end of data past it, and an input that isn't there.
fn reads_its_input(alloc: Global) -> Result<bool, Fail> {
    let streams = streams_of(alloc, &[("x", "7\n8\n")])?;
    let facts = [
        shows(alloc, &streams, "x", (1, 1), Some("8"))?,
        shows(alloc, &streams, "x", (2, 1), Some("eod"))?,
        shows(alloc, &[], "x", (0, 1), None)?,
    ];
    Ok(first_false(&facts).is_none())
}

#[test]
fn lines_ends_and_faults(rt: HostRuntime) -> Result<(), Fail> {
    for row in &ROWS {
        must(runs_so(rt.alloc(), row)?, row.0)?;
    }
    must(reads_its_input(rt.alloc())?, "an input")
}

// As deep as the tree, as often as the limit.
#[test]
fn a_deep_tree_at_a_deep_limit(rt: HostRuntime) -> Result<(), Fail> {
    must(
        shows(rt.alloc(), &[], DEEP_TREE, (0, 100), None)?,
        DEEP_TREE,
    )
}
