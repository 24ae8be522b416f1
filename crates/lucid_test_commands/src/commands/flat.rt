//! The flat form: what is written of a program, and what runs and is refused as a source. Its rules are those of the form: a line for each
//! row, and each row's names lead somewhere.
use crate::commands::row::{DONE, REFUSED, Row, USAGE};
use lucid_report::Status;
use lucid_test_programs::COUNTING;

const ONE: &str = "lucid flat 1\nconst 1\nnode 0 const 0\nroot 0\n";

// The inputs b and a, in this order, and their sum.
const SUM: &str =
    "lucid flat 1\ninput b\ninput a\nnode 0 input 0\nnode 0 input 1\nnode 0 apply add 0 1 0\nroot 2\n";

pub(crate) static WRITTEN: [Row<'static>; 4] = [
    Row {
        words: "--flat p",
        source: "1",
        out: ONE,
        ..DONE
    },
    // words that a run would look at are not looked at
    Row {
        words: "--flat --stats --count 7 p x=f",
        source: "1",
        out: ONE,
        ..DONE
    },
    Row {
        words: "--flat p",
        source: "x where x = 1; x = 2; end",
        report: "defined twice at 15\n",
        ..REFUSED
    },
    Row {
        words: "--flat p",
        source: COUNTING,
        writes: &[0],
        status: Status::WriteFault,
        report: "write fault\n",
        ..DONE
    },
];

pub(crate) static RUN: [Row<'static>; 6] = [
    Row {
        words: "--from-flat --count 2 p",
        source: ONE,
        out: "1\n1\n",
        ..DONE
    },
    Row {
        words: "--from-flat --stats --count 2 p",
        source: ONE,
        out: "1\n1\n",
        report: "lines 2 held 0 lost 0 cleared 0\n",
        ..DONE
    },
    // the places are reached in the order of the inputs
    Row {
        words: "--from-flat --count 1 p a=f b=g",
        source: SUM,
        inputs: &[("f", "1\n2\n"), ("g", "10\n")],
        out: "11\n",
        taken: Some(&[3, 2]),
        ..DONE
    },
    Row {
        words: "--from-flat p a=f",
        source: SUM,
        inputs: &[("f", "1\n2\n"), ("-", "10\n20\n")],
        out: "11\n22\n",
        ..DONE
    },
    // a name that refers to itself
    Row {
        words: "--from-flat p",
        source: "lucid flat 1\nnode 0 refer 0 0\nplain 0 0\nroot 0\n",
        status: Status::TooDeep,
        report: "too deep at time 0\n",
        ..DONE
    },
    Row {
        words: "--from-flat p b=g",
        source: SUM,
        inputs: &[("g", "10\n")],
        status: Status::ReadFault,
        report: "read fault\n",
        ..DONE
    },
];

// The files of the inputs.
pub(crate) static INPUTS: [Row<'static>; 4] = [
    Row {
        words: "--from-flat p",
        source: SUM,
        report: "no input for two names\n",
        ..REFUSED
    },
    Row {
        words: "--from-flat p c=f",
        source: SUM,
        report: "no input is named c\n",
        ..USAGE
    },
    Row {
        words: "--from-flat p a=f a=f",
        source: SUM,
        report: "a is given twice\n",
        ..USAGE
    },
    // two options that exclude each other
    Row {
        words: "--from-flat --flat p",
        source: ONE,
        ..USAGE
    },
];

// The first wrong row of a table, and the first line with which no text goes on.
pub(crate) static WRONG: [Row<'static>; 12] = [
    Row {
        words: "--from-flat p",
        source: "lucid flat 1\nscope 1 called\nconst 1\nnode 0 const 0\nroot 0\n",
        report: "flat scope 1 is wrong\n",
        ..REFUSED
    },
    Row {
        words: "--from-flat p",
        source: "lucid flat 1\nconst 1\nnode 0 refer 0 0\nroot 0\n",
        report: "flat node 0 is wrong\n",
        ..REFUSED
    },
    Row {
        words: "--from-flat p",
        source: "lucid flat 1\nconst 1\nnode 0 const 0\nplain 0 1\nroot 0\n",
        report: "flat name 0 is wrong\n",
        ..REFUSED
    },
    Row {
        words: "--from-flat p",
        source: "lucid flat 1\nconst 1\nnode 0 const 0\nplain 0 0\nplace 0 0\nroot 0\n",
        report: "flat place 0 is wrong\n",
        ..REFUSED
    },
    Row {
        words: "--from-flat p",
        source: "lucid flat 1\nconst 1\nnode 0 const 0\nroot 1\n",
        report: "flat root is wrong\n",
        ..REFUSED
    },
    Row {
        words: "--from-flat p a=f",
        source: "lucid flat 1\ninput a\ninput a\nnode 0 input 0\nroot 0\n",
        report: "flat root is wrong\n",
        ..REFUSED
    },
    // the rows come before the names of the inputs
    Row {
        words: "--from-flat p c=f",
        source: "lucid flat 1\nnode 0 input 0\nroot 0\n",
        report: "flat node 0 is wrong\n",
        ..REFUSED
    },
    Row {
        words: "--from-flat p",
        source: "lucid flat 1\nconst 1\nnod 0 const 0\nroot 0\n",
        report: "line 3 is no flat line\n",
        ..REFUSED
    },
    Row {
        words: "--from-flat p",
        source: "lucid flat 1\nconst 1\nnode 0 const 00\nroot 0\n",
        report: "line 3 is no flat line\n",
        ..REFUSED
    },
    // a last line that isn't ended
    Row {
        words: "--from-flat p",
        source: "lucid flat 1\nconst 1\nnode 0 const 0\nroot 0",
        report: "line 4 is no flat line\n",
        ..REFUSED
    },
    Row {
        words: "--from-flat p",
        source: "",
        report: "line 1 is no flat line\n",
        ..REFUSED
    },
    // a text in place of a flat form
    Row {
        words: "--from-flat p",
        source: COUNTING,
        report: "line 1 is no flat line\n",
        ..REFUSED
    },
];
