//! Sources and words that are refused.
use crate::commands::row::{REFUSED, Row, USAGE};
use lucid_test_programs::COUNTING;

// Bytes that are no tokens, and tokens that spell no program.
pub(crate) static SOURCES: [Row<'static>; 6] = [
    Row {
        source: "",
        report: "syntax at 0\n",
        ..REFUSED
    },
    Row {
        source: "`abc",
        report: "open text at 0\n",
        ..REFUSED
    },
    Row {
        source: "x where x = 1 ? 2; end",
        report: "bad byte at 14\n",
        ..REFUSED
    },
    Row {
        source: "170141183460469231731687303715884105728",
        report: "number too big at 0\n",
        ..REFUSED
    },
    Row {
        source: "x where x = ; end",
        report: "syntax at 12\n",
        ..REFUSED
    },
    // a reserved word as a name
    Row {
        source: "succ where succ = 1; end",
        report: "syntax at 5\n",
        ..REFUSED
    },
];

pub(crate) static NAMES: [Row<'static>; 6] = [
    Row {
        source: "x where x = 1; x = 2; end",
        report: "defined twice at 15\n",
        ..REFUSED
    },
    Row {
        source: "f(1)",
        report: "no such function at 0\n",
        ..REFUSED
    },
    Row {
        source: "f(1) where f = 2; end",
        report: "not a function at 0\n",
        ..REFUSED
    },
    Row {
        source: "f where f(x) = x; end",
        report: "function without arguments at 0\n",
        ..REFUSED
    },
    Row {
        source: "f(1, 2) where f(x) = x; end",
        report: "wrong number of arguments at 0: 1 wanted, 2 given\n",
        ..REFUSED
    },
    // two inputs without files
    Row {
        source: "a + b",
        report: "no input for two names\n",
        ..REFUSED
    },
];

pub(crate) static WORDS: [Row<'static>; 6] = [
    // no words
    Row {
        words: "",
        source: COUNTING,
        ..USAGE
    },
    Row {
        words: "--count 0 p",
        source: COUNTING,
        ..USAGE
    },
    Row {
        words: "p -",
        source: COUNTING,
        ..USAGE
    },
    Row {
        words: "-",
        source: COUNTING,
        ..USAGE
    },
    Row {
        words: "p a=f",
        source: "1",
        inputs: &[("f", "1\n")],
        report: "no input is named a\n",
        ..USAGE
    },
    Row {
        words: "p a=f a=g",
        source: "a",
        inputs: &[("f", "1\n"), ("g", "2\n")],
        report: "a is given twice\n",
        ..USAGE
    },
];
