//! Runs of columns. A program's columns are its values at the spaces from 0 on, so names stand side by side by `sby`.
use crate::sessions::program_run::{columns_of, options_of};
use crate::told::{all_hold, must};
use crate::trials::Setup;
use lucid_ports::{MemorySink, RunFault, Summary};
use lucid_retire::{Keep, Last, Nothing, Retire};
use lucid_test_programs::COUNTING;
use std::alloc::Global;
use std::test::Fail;

/// A source, how many columns it has, the bytes of its input, how many lines are asked for and how deep, and what is written.
struct Row {
    source: &'static str,
    columns: u32,
    input: &'static str,
    count: u32,
    depth: u32,
    lines: &'static str,
    end: End,
}

/// How a run ends.
#[derive(Clone, Copy)]
enum End {
    /// With all lines that are asked for.
    Counted,
    /// With the end of all columns, before the count.
    Ended,
    /// With all lines, when so many values are held, and none was lost.
    Held(u64),
    /// With a value too deep at this time.
    TooDeep(u64),
}

// What runs so, whatever is held.
static ROWS: [Row; 9] = [
    // three columns, of which one ends early
    Row {
        source: "a sby b sby c where a = 1 fby a + 1; b = a * a; c = 5 fby eod; end",
        columns: 3,
        input: "",
        count: 3,
        depth: 100,
        lines: "1\t1\t5\n2\t4\t\n3\t9\t\n",
        end: End::Counted,
    },
    // all end at once, at the end of their input
    Row {
        source: "n sby n + n",
        columns: 2,
        input: "3\n4\n",
        count: 9,
        depth: 100,
        lines: "3\t6\n4\t8\n",
        end: End::Ended,
    },
    // the last to end ends the run; what comes behind an end isn't shown
    Row {
        source: "a sby b where a = 1 fby eod fby 7; b = 1 fby 2 fby 3 fby eod; end",
        columns: 2,
        input: "",
        count: 9,
        depth: 100,
        lines: "1\t1\n\t2\n\t3\n",
        end: End::Ended,
    },
    // one column is the stream
    Row {
        source: COUNTING,
        columns: 1,
        input: "",
        count: 2,
        depth: 100,
        lines: "0\n1\n",
        end: End::Counted,
    },
    // a column that has ended at once leaves its place
    Row {
        source: "eod sby 1 sby eod",
        columns: 3,
        input: "",
        count: 2,
        depth: 100,
        lines: "\t1\t\n\t1\t\n",
        end: End::Counted,
    },
    // behind the end of a column nothing is asked of it: here it would have no value
    Row {
        source: "a sby b where a = eod fby x; x = x; b = 1 fby b + 1; end",
        columns: 2,
        input: "",
        count: 3,
        depth: 100,
        lines: "\t1\n\t2\n\t3\n",
        end: End::Counted,
    },
    // an error is a value, and no end
    Row {
        source: "error sby 1 sby []",
        columns: 3,
        input: "",
        count: 2,
        depth: 100,
        lines: "error\t1\t[% %]\nerror\t1\t[% %]\n",
        end: End::Counted,
    },
    // as many as may stand side by side
    Row {
        source: "0 sby 1 sby 2 sby 3 sby 4 sby 5 sby 6 sby 7 sby 8 sby 9 sby 10 sby 11 sby 12 sby 13 sby 14 sby 15",
        columns: 16,
        input: "",
        count: 1,
        depth: 100,
        lines: "0\t1\t2\t3\t4\t5\t6\t7\t8\t9\t10\t11\t12\t13\t14\t15\n",
        end: End::Counted,
    },
    // no line where all have ended
    Row {
        source: "eod",
        columns: 16,
        input: "",
        count: 2,
        depth: 100,
        lines: "",
        end: End::Ended,
    },
];

// The answer of the row's run by a policy.
fn answer_of<R: Retire>(
    alloc: Global,
    row: &Row,
    out: &mut MemorySink,
    policy: R,
) -> Result<Result<Summary, RunFault>, Fail> {
    // The input of a row's program, where it has one, is named so.
    let files = [("n", row.input)];
    let setup = Setup::of(row.source, &files);
    let options = options_of(row.count, row.depth)?;
    columns_of(alloc, &setup, row.columns, &options, out, policy)
}

// Whether a run of the row with this answer ends as the row says.
fn ends_so(row: &Row, answer: Result<Summary, RunFault>) -> bool {
    match (row.end, answer) {
        (End::Counted, Ok(summary)) => !summary.ended && summary.lines == row.count,
        (End::Ended, Ok(summary)) => summary.ended,
        (End::Held(held), Ok(summary)) => {
            let all = Summary {
                lines: row.count,
                ended: false,
                held,
                lost: 0,
                cleared: 0,
            };
            summary == all
        }
        (End::TooDeep(at), Err(fault)) => {
            let deep = RunFault::TooDeep {
                time: at,
                lost: 0,
                cleared: 0,
            };
            fault == deep
        }
        _ => false,
    }
}

// The run of the row by a policy is as the row says.
fn runs_so<R: Retire>(alloc: Global, row: &Row, policy: R) -> Result<(), Fail> {
    let mut out = MemorySink::make(alloc, 1_000, Vec::new(alloc));
    let answer = answer_of(alloc, row, &mut out, policy)?;
    let facts = [ends_so(row, answer), out.written() == row.lines.as_bytes()];
    must(all_hold(&facts), row.source)
}

// The same whatever is held.
fn runs_so_by_each(alloc: Global, row: &Row) -> Result<(), Fail> {
    runs_so(alloc, row, Keep)?;
    runs_so(alloc, row, Nothing)?;
    runs_so(alloc, row, Last::make(alloc, 1)?)
}

// The second column needs a limit of the time and two, the first of one less.
static UNHELD: Row = Row {
    source: "a sby b where a = 1 fby a + 1; b = a; end",
    columns: 2,
    input: "",
    count: 5,
    depth: 3,
    lines: "1\t1\n2\t2\n",
    end: End::TooDeep(2),
};

static HELD: [Row; 3] = [
    // What an earlier column left held serves a later one: so the same limit is enough.
    Row {
        source: "a sby b where a = 1 fby a + 1; b = a; end",
        columns: 2,
        input: "",
        count: 5,
        depth: 3,
        lines: "1\t1\n2\t2\n3\t3\n4\t4\n5\t5\n",
        end: End::Counted,
    },
    // At three times two names are needed, and the third at two: at the second it has ended.
    Row {
        source: "a sby b sby c where a = 1 fby a + 1; b = a * a; c = 5 fby eod; end",
        columns: 3,
        input: "",
        count: 3,
        depth: 100,
        lines: "1\t1\t5\n2\t4\t\n3\t9\t\n",
        end: End::Held(8),
    },
    // Each name is computed once for all columns: as many are held as different values are needed.
    Row {
        source: "a sby a sby a + 1 where a = 1 fby a + 1; end",
        columns: 3,
        input: "",
        count: 5,
        depth: 9,
        lines: "1\t1\t2\n2\t2\t3\n3\t3\t4\n4\t4\t5\n5\t5\t6\n",
        end: End::Held(5),
    },
];

#[test]
fn columns_stand_side_by_side(rt: HostRuntime) -> Result<(), Fail> {
    let alloc = rt.alloc();
    for row in &ROWS {
        runs_so_by_each(alloc, row)?;
    }
    for row in &HELD {
        runs_so(alloc, row, Keep)?;
    }
    runs_so(alloc, &UNHELD, Nothing)
}

// By the demand of the first column at time 499,999 so many contexts are known, and all is cleared before the second is asked, which needs
// nothing. These lines are the last ones.
static CLEARED: Row = Row {
    source: "(m where m is current n; end where n is current k; end) sby 7 where k = 0 fby k + 1; end",
    columns: 2,
    input: "",
    count: 500_000,
    depth: 100,
    lines: "499998\t7\n499999\t7\n",
    end: End::Counted,
};

fn is_cleared(alloc: Global) -> Result<bool, Fail> {
    let mut out = MemorySink::make(alloc, 100, Vec::new(alloc));
    let answer = answer_of(alloc, &CLEARED, &mut out, Keep)?;
    let all = Summary {
        lines: 500_000,
        ended: false,
        held: 0,
        lost: 0,
        cleared: 1,
    };
    Ok(all_hold(&[
        answer == Ok(all),
        out.written().ends_with(CLEARED.lines.as_bytes()),
    ]))
}

#[test]
fn columns_that_are_cleared(rt: HostRuntime) -> Result<(), Fail> {
    must(is_cleared(rt.alloc())?, CLEARED.source)
}
