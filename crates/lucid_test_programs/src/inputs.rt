//! Programs over inputs.
use crate::sources::{RUNNING_SUM, SALES};
use crate::worked::{PLAIN, Worked};

static OVER_INPUTS: [Worked; 15] = [
    Worked {
        name: "two inputs",
        source: "a + b",
        inputs: &[("a", "1\n2\n"), ("b", "10\n20\n")],
        values: &["11", "22"],
        consumed: [4, 6],
        ..PLAIN
    },
    Worked {
        name: "first element alone is read",
        source: "first a",
        inputs: &[("a", "7\n8\n9\n")],
        values: &["7", "7", "7"],
        consumed: [2, 0],
        ..PLAIN
    },
    Worked {
        name: "lines that are no values",
        source: "a",
        inputs: &[("a", "3 x y\n\ndog\n")],
        values: &["error", "error", "dog"],
        consumed: [11, 0],
        ..PLAIN
    },
    Worked {
        name: "end of data in the input",
        source: "a",
        inputs: &[("a", "1\neod\n2\n")],
        values: &["1", "eod"],
        consumed: [6, 0],
        ..PLAIN
    },
    Worked {
        name: "the last time of an input",
        source: "a attime 9223372036854775807",
        inputs: &[("a", "1\n")],
        values: &["eod"],
        consumed: [2, 0],
        ..PLAIN
    },
    Worked {
        name: "succ of an input",
        source: "succ a",
        inputs: &[("a", "3\n4\n")],
        values: &["3", "4"],
        consumed: [4, 0],
        ..PLAIN
    },
    // The sums of the elements so far. The last line has no line end.
    Worked {
        name: "running sum",
        source: RUNNING_SUM,
        inputs: &[("a", "3\n4\n5")],
        values: &["3", "7", "12", "eod"],
        enough: 5,
        consumed: [5, 0],
        held: 4,
        ..PLAIN
    },
    // The total and the largest of sales: both are held at 0 to 3.
    Worked {
        name: "total and largest of sales",
        source: SALES,
        inputs: &[("sale", "120\r\n80\r\n200\r\n")],
        values: &["[% 120 120 %]", "[% 200 120 %]", "[% 400 200 %]", "eod"],
        enough: 5,
        consumed: [14, 0],
        held: 8,
        ..PLAIN
    },
    // How often the present element has come: c and e at each time t, and n at 0 to t. Behind the last element the input is end of data, and so is
    // what looks at it.
    Worked {
        name: "running counts",
        source: "c where c = n where e is current a; n = (if a eq e then 1 else 0 fi) fby n + (if next a eq e then 1 else 0 fi); end; end",
        inputs: &[("a", "5\n5\n7\n5\n")],
        values: &["1", "2", "1", "3", "eod"],
        enough: 8,
        consumed: [8, 0],
        held: 25,
        ..PLAIN
    },
    // p at 0 to 3
    Worked {
        name: "two inputs in turns",
        source: "if p then a upon not p else b upon not p fi where p = true fby not p; end",
        inputs: &[("a", "10\n20\n30\n"), ("b", "1\n2\n3\n")],
        values: &["10", "1", "20", "2"],
        enough: 5,
        consumed: [6, 4],
        held: 4,
        ..PLAIN
    },
    Worked {
        name: "unread right side of `and`",
        source: "a and b",
        inputs: &[("a", "false\ntrue\n"), ("b", "1\ntrue\n")],
        values: &["false"],
        consumed: [6, 0],
        ..PLAIN
    },
    Worked {
        name: "unread right side of `or`",
        source: "a or b",
        inputs: &[("a", "true\ntrue\n"), ("b", "1\ntrue\n")],
        values: &["true"],
        consumed: [5, 0],
        ..PLAIN
    },
    Worked {
        name: "unread branch",
        source: "if a then b else 0 fi",
        inputs: &[("a", "false\ntrue\n"), ("b", "5\n6\n")],
        values: &["0", "6"],
        consumed: [11, 4],
        ..PLAIN
    },
    Worked {
        name: "input at times of another",
        source: "a attime b",
        inputs: &[("a", "10\n20\n30\n"), ("b", "2\n0\n")],
        values: &["30", "10"],
        consumed: [9, 4],
        ..PLAIN
    },
    // The second true value of b stands at 2, and its third is an error.
    Worked {
        name: "input where another is true",
        source: "a whenever b",
        inputs: &[
            ("a", "10\n20\n30\n40\n"),
            ("b", "true\nfalse\ntrue\n7\ntrue\n"),
        ],
        values: &["10", "30", "error", "error"],
        enough: 4,
        consumed: [9, 18],
        ..PLAIN
    },
];

/// Programs over inputs.
pub fn over_inputs() -> &'static [Worked] {
    &OVER_INPUTS
}
