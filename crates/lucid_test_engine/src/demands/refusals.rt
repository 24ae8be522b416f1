//! One engine that is asked again: after a refusal it answers as a new one does, and what is held costs no depth. Each row is worked out
//! by hand.
use crate::demands::wanted::Wanted;
use crate::trials::{Demand, MOST_BYTES, ORDERS, Order, PLANS, Plan, Setup};
use lucid_ports::FailAt;
use lucid_test_programs::{COUNTING, RUNNING_SUM, SEARCH_WITHOUT_END};
use std::alloc::Global;
use std::test::Fail;

/// Demands on one engine, one after another: the time and the limit of each, and what it gives.
struct Row {
    plans: &'static [Plan],
    orders: &'static [Order],
    setup: Setup<'static>,
    answers: &'static [(u32, u32, &'static str)],
    /// How many bytes of each input are consumed at the end.
    consumed: [u64; 2],
    /// How many values are held at the end, where that is said.
    held: Option<u64>,
}

// A program over files that are read without a failure, as a static names it.
macro_rules! setup {
    ($source:expr, $files:expr) => {
        Setup {
            source: $source,
            files: $files,
            failures: &[],
            most: MOST_BYTES,
        }
    };
}

fn answers_so(alloc: Global, row: &Row) -> Result<(), Fail> {
    let mut demands = Vec::new(alloc);
    let mut answers = Vec::new(alloc);
    for (time, limit, answer) in row.answers {
        demands.push(Demand::at(*time, *limit))?;
        answers.push(*answer)?;
    }
    let wanted = Wanted {
        held: row.held,
        ..Wanted::of(row.setup, &demands, &answers, row.consumed)
    };
    wanted.by_each(alloc, row.plans, row.orders)
}

fn each_answers_so(alloc: Global, rows: &[Row]) -> Result<(), Fail> {
    for row in rows {
        answers_so(alloc, row)?;
    }
    Ok(())
}

static REFUSED: [Row; 6] = [
    // too deep
    Row {
        plans: &PLANS,
        orders: &ORDERS,
        setup: setup!(COUNTING, &[]),
        answers: &[(3, 3, "too deep"), (3, 4, "3"), (0, 1, "0")],
        consumed: [0, 0],
        held: None,
    },
    Row {
        plans: &PLANS,
        orders: &ORDERS,
        setup: setup!(SEARCH_WITHOUT_END, &[]),
        answers: &[(0, 50, "too deep"), (1, 20, "too deep")],
        consumed: [0, 0],
        held: None,
    },
    // a read that fails
    Row {
        plans: &PLANS,
        orders: &ORDERS,
        setup: Setup {
            source: RUNNING_SUM,
            files: &[("a", "3\n4\n5")],
            failures: &[FailAt {
                place: 0,
                position: 3,
            }],
            most: MOST_BYTES,
        },
        answers: &[(2, 9, "read fault"), (2, 9, "12"), (0, 9, "3"), (1, 9, "7")],
        consumed: [5, 0],
        held: None,
    },
    Row {
        plans: &PLANS,
        orders: &ORDERS,
        setup: Setup {
            source: "a + b",
            files: &[("a", "3\n4\n"), ("b", "10\n20\n")],
            failures: &[
                FailAt {
                    place: 1,
                    position: 0,
                },
                FailAt {
                    place: 1,
                    position: 4,
                },
            ],
            most: MOST_BYTES,
        },
        answers: &[
            (0, 9, "read fault"),
            (0, 9, "13"),
            (1, 9, "read fault"),
            (1, 9, "24"),
            (2, 9, "eod"),
        ],
        consumed: [4, 6],
        held: None,
    },
    // an element past the bytes that may be read
    Row {
        plans: &PLANS,
        orders: &ORDERS,
        setup: Setup {
            source: RUNNING_SUM,
            files: &[("a", "3\n45678\n9")],
            failures: &[],
            most: 4,
        },
        answers: &[
            (1, 9, "too large"),
            (0, 9, "3"),
            (1, 9, "too large"),
            (2, 9, "too large"),
        ],
        consumed: [4, 0],
        held: None,
    },
    Row {
        plans: &PLANS,
        orders: &ORDERS,
        setup: Setup {
            source: "if b then b else a fi",
            files: &[("b", "false\ntrue\n"), ("a", "12345\n")],
            failures: &[],
            most: 12,
        },
        answers: &[(1, 9, "true"), (0, 9, "12345"), (2, 9, "eod")],
        consumed: [11, 6],
        held: None,
    },
];

// What p says at time 0 needs a limit of 6, and later 1.
const DEEP_TEST: &str =
    "x whenever p where x = 0 fby x + 1; p = (k attime 4) eq 4 fby true; k = 0 fby k + 1; end";

static DEPTHS: [Row; 5] = [
    // A held value answers at any depth, so one reference is enough for each time.
    Row {
        plans: &[Plan::Keep],
        orders: &ORDERS,
        setup: setup!(COUNTING, &[]),
        answers: &[
            (0, 1, "0"),
            (1, 1, "1"),
            (2, 1, "2"),
            (3, 1, "3"),
            (1, 1, "1"),
            (5, 1, "too deep"),
            (5, 2, "5"),
        ],
        consumed: [0, 0],
        held: None,
    },
    // Where nothing is held, each demand needs what the first one would.
    Row {
        plans: &[Plan::Nothing],
        orders: &ORDERS,
        setup: setup!(COUNTING, &[]),
        answers: &[
            (0, 1, "0"),
            (1, 1, "too deep"),
            (1, 2, "1"),
            (2, 2, "too deep"),
            (2, 3, "2"),
        ],
        consumed: [0, 0],
        held: None,
    },
    // A search that begins at a noted position doesn't look at what comes before. Where nothing is held, no position is either.
    Row {
        plans: &[Plan::Keep],
        orders: &ORDERS,
        setup: setup!(DEEP_TEST, &[]),
        answers: &[
            (1, 5, "too deep"),
            (1, 6, "1"),
            (1, 2, "1"),
            (2, 3, "2"),
            (4, 4, "too deep"),
            (4, 5, "4"),
        ],
        consumed: [0, 0],
        held: None,
    },
    Row {
        plans: &[Plan::Nothing],
        orders: &ORDERS,
        setup: setup!(DEEP_TEST, &[]),
        answers: &[
            (1, 5, "too deep"),
            (1, 6, "1"),
            (1, 5, "too deep"),
            (2, 6, "2"),
            (2, 5, "too deep"),
        ],
        consumed: [0, 0],
        held: None,
    },
    // With a limit that is enough, whatever is dropped.
    Row {
        plans: &PLANS,
        orders: &ORDERS,
        setup: setup!(DEEP_TEST, &[]),
        answers: &[
            (1, 9, "1"),
            (0, 9, "0"),
            (4, 9, "4"),
            (2, 9, "2"),
            (3, 9, "3"),
            (4, 9, "4"),
        ],
        consumed: [0, 0],
        held: None,
    },
];

// The name x has no value, and each demand of it is refused. Which of the others were demanded before tells who was picked.
static PICKED: [Row; 3] = [
    Row {
        plans: &[Plan::Keep, Plan::Nothing],
        orders: &[Order::Newest],
        setup: setup!("a + x where x = x; end", &[("a", "1\n")]),
        answers: &[(0, 5, "too deep")],
        consumed: [0, 0],
        held: None,
    },
    Row {
        plans: &[Plan::Keep, Plan::Nothing],
        orders: &[Order::Oldest],
        setup: setup!("a + x where x = x; end", &[("a", "1\n")]),
        answers: &[(0, 5, "too deep")],
        consumed: [2, 0],
        held: None,
    },
    // No argument is evaluated to its end before the other begins.
    Row {
        plans: &[Plan::Keep, Plan::Nothing],
        orders: &[Order::Oldest],
        setup: setup!(
            "(a + x) + (b + x) where x = x; end",
            &[("a", "1\n"), ("b", "2\n")]
        ),
        answers: &[(0, 5, "too deep")],
        consumed: [2, 2],
        held: None,
    },
];

// A task waits for each reference, so the machine's stack isn't used.
static DEEP: [Row; 1] = [Row {
    plans: &[Plan::Keep],
    orders: &[Order::Newest],
    setup: setup!("x attime 500000 where x = 0 fby x + 1; end", &[]),
    answers: &[(0, 500_000, "too deep"), (0, 500_001, "500000")],
    consumed: [0, 0],
    held: Some(500_001),
}];

#[test]
fn demands_one_after_another(rt: HostRuntime) -> Result<(), Fail> {
    let alloc = rt.alloc();
    each_answers_so(alloc, &REFUSED)?;
    each_answers_so(alloc, &DEPTHS)?;
    each_answers_so(alloc, &PICKED)?;
    each_answers_so(alloc, &DEEP)
}
