//! Certificates that are made and checked: a value that they tell, a judgment that doesn't follow, and the order of what is looked at.
use crate::commands::row::{DONE, REFUSED, Row, TOO_DEEP, USAGE};
use lucid_ports::FailAt;
use lucid_report::Status;

// Factorials, each by an iteration of its own; and a certificate of the value at time 3.
const FACTORIALS: &str =
    "f asa i eq n where n is current k; i = 0 fby i + 1; f = 1 fby f * (i + 1); end where k = 0 fby k + 1; end";

const SIX: &str =
    "z 0 3\nj 6 1 0 0 0 0\nj 10 1 0 0 1 0 0\nj 1 1 0 0 1 1 0\nj 19 0 0 0 0 0\nj 23 0 0 0 1 3 0\nj 20 0 0 0 1 4 0\n\
     j 21 0 0 0 0 1\nj 22 0 0 0 2 5 6 1\nj 23 0 1 0 1 7 1\nj 20 0 1 0 1 8 1\nj 21 0 1 0 0 1\nj 22 0 1 0 2 9 10 2\n\
     j 23 0 2 0 1 11 2\nj 20 0 2 0 1 12 2\nj 21 0 2 0 0 1\nj 22 0 2 0 2 13 14 3\nj 23 0 3 0 1 15 3\n\
     j 5 0 3 0 1 16 3\nj 2 1 0 0 1 17 3\nj 3 1 0 0 2 2 18 false\nj 7 1 0 0 1 1 0\nj 8 1 0 0 0 1\n\
     j 9 1 0 0 2 20 21 1\nj 10 1 1 0 1 22 1\nj 1 1 1 0 1 23 1\nj 2 1 1 0 1 17 3\nj 3 1 1 0 2 24 25 false\n\
     j 7 1 1 0 1 23 1\nj 8 1 1 0 0 1\nj 9 1 1 0 2 27 28 2\nj 10 1 2 0 1 29 2\nj 1 1 2 0 1 30 2\nj 2 1 2 0 1 17 3\n\
     j 3 1 2 0 2 31 32 false\nj 7 1 2 0 1 30 2\nj 8 1 2 0 0 1\nj 9 1 2 0 2 34 35 3\nj 10 1 3 0 1 36 3\n\
     j 1 1 3 0 1 37 3\nj 2 1 3 0 1 17 3\nj 3 1 3 0 2 38 39 true\nj 11 1 0 0 0 1\nj 17 1 0 0 1 41 1\n\
     j 12 1 0 0 1 42 1\nj 13 1 0 0 1 1 0\nj 14 1 0 0 0 1\nj 15 1 0 0 2 44 45 1\nj 16 1 0 0 2 43 46 1\n\
     j 17 1 1 0 1 47 1\nj 12 1 1 0 1 48 1\nj 13 1 1 0 1 23 1\nj 14 1 1 0 0 1\nj 15 1 1 0 2 50 51 2\n\
     j 16 1 1 0 2 49 52 2\nj 17 1 2 0 1 53 2\nj 12 1 2 0 1 54 2\nj 13 1 2 0 1 30 2\nj 14 1 2 0 0 1\n\
     j 15 1 2 0 2 56 57 3\nj 16 1 2 0 2 55 58 6\nj 17 1 3 0 1 59 6\nj 0 1 3 0 1 60 6\n\
     j 4 1 3 0 5 19 26 33 40 61 6\nj 18 0 3 0 1 62 6\n";

// Every third number; and a certificate of the value at time 3.
const THIRDS: &str = "n whenever n mod 3 eq 0 where n = 0 fby n + 1; end";

const NINE: &str =
    "j 7 0 0 0 0 0\nj 11 0 0 0 1 0 0\nj 1 0 0 0 1 1 0\nj 2 0 0 0 0 3\nj 3 0 0 0 2 2 3 0\nj 4 0 0 0 0 0\n\
     j 5 0 0 0 2 4 5 true\nj 8 0 0 0 1 1 0\nj 9 0 0 0 0 1\nj 10 0 0 0 2 7 8 1\nj 11 0 1 0 1 9 1\nj 1 0 1 0 1 10 1\n\
     j 2 0 1 0 0 3\nj 3 0 1 0 2 11 12 1\nj 4 0 1 0 0 0\nj 5 0 1 0 2 13 14 false\nj 8 0 1 0 1 10 1\nj 9 0 1 0 0 1\n\
     j 10 0 1 0 2 16 17 2\nj 11 0 2 0 1 18 2\nj 1 0 2 0 1 19 2\nj 2 0 2 0 0 3\nj 3 0 2 0 2 20 21 2\nj 4 0 2 0 0 0\n\
     j 5 0 2 0 2 22 23 false\nj 8 0 2 0 1 19 2\nj 9 0 2 0 0 1\nj 10 0 2 0 2 25 26 3\nj 11 0 3 0 1 27 3\n\
     j 1 0 3 0 1 28 3\nj 2 0 3 0 0 3\nj 3 0 3 0 2 29 30 0\nj 4 0 3 0 0 0\nj 5 0 3 0 2 31 32 true\n\
     j 8 0 3 0 1 28 3\nj 9 0 3 0 0 1\nj 10 0 3 0 2 34 35 4\nj 11 0 4 0 1 36 4\nj 1 0 4 0 1 37 4\nj 2 0 4 0 0 3\n\
     j 3 0 4 0 2 38 39 1\nj 4 0 4 0 0 0\nj 5 0 4 0 2 40 41 false\nj 8 0 4 0 1 37 4\nj 9 0 4 0 0 1\n\
     j 10 0 4 0 2 43 44 5\nj 11 0 5 0 1 45 5\nj 1 0 5 0 1 46 5\nj 2 0 5 0 0 3\nj 3 0 5 0 2 47 48 2\nj 4 0 5 0 0 0\n\
     j 5 0 5 0 2 49 50 false\nj 8 0 5 0 1 46 5\nj 9 0 5 0 0 1\nj 10 0 5 0 2 52 53 6\nj 11 0 6 0 1 54 6\n\
     j 1 0 6 0 1 55 6\nj 2 0 6 0 0 3\nj 3 0 6 0 2 56 57 0\nj 4 0 6 0 0 0\nj 5 0 6 0 2 58 59 true\n\
     j 8 0 6 0 1 55 6\nj 9 0 6 0 0 1\nj 10 0 6 0 2 61 62 7\nj 11 0 7 0 1 63 7\nj 1 0 7 0 1 64 7\nj 2 0 7 0 0 3\n\
     j 3 0 7 0 2 65 66 1\nj 4 0 7 0 0 0\nj 5 0 7 0 2 67 68 false\nj 8 0 7 0 1 64 7\nj 9 0 7 0 0 1\n\
     j 10 0 7 0 2 70 71 8\nj 11 0 8 0 1 72 8\nj 1 0 8 0 1 73 8\nj 2 0 8 0 0 3\nj 3 0 8 0 2 74 75 2\nj 4 0 8 0 0 0\n\
     j 5 0 8 0 2 76 77 false\nj 8 0 8 0 1 73 8\nj 9 0 8 0 0 1\nj 10 0 8 0 2 79 80 9\nj 11 0 9 0 1 81 9\n\
     j 1 0 9 0 1 82 9\nj 2 0 9 0 0 3\nj 3 0 9 0 2 83 84 0\nj 4 0 9 0 0 0\nj 5 0 9 0 2 85 86 true\n\
     j 0 0 9 0 1 82 9\nj 6 0 3 0 11 6 15 24 33 42 51 60 69 78 87 88 9\n";

// A certificate of a sum at time 2, past the end of the first input.
const END: &str = "j 0 0 2 0 0 eod\nj 1 0 2 0 0 3\nj 2 0 2 0 2 0 1 eod\n";

// What is made; the rows of RIGHT check the first two again.
pub(crate) static MADE: [Row<'static>; 7] = [
    Row {
        words: "--why 3 p",
        source: FACTORIALS,
        out: SIX,
        ..DONE
    },
    Row {
        words: "--why 3 p",
        source: THIRDS,
        out: NINE,
        ..DONE
    },
    // the inputs are read as far as the value looks at them, here past the end of the first
    Row {
        words: "--why 2 p a=f b=g",
        source: "a + b",
        inputs: &[("f", "4\n5\n"), ("g", "1\n2\n3\n4\n")],
        out: END,
        taken: Some(&[4, 6]),
        ..DONE
    },
    // what no value looks at is not read
    Row {
        words: "--why 5 p",
        source: "if true then 7 else a fi",
        inputs: &[("-", "4\n")],
        out: "j 0 0 5 0 0 true\nj 1 0 5 0 0 7\nj 3 0 5 0 2 0 1 7\n",
        taken: Some(&[0]),
        ..DONE
    },
    // of the words of a run the depth alone is looked at; at the last time too
    Row {
        words: "--why 9223372036854775807 --depth 1 --stats --count 7 --policy none p",
        source: "7",
        out: "j 0 0 9223372036854775807 0 0 7\n",
        ..DONE
    },
    Row {
        words: "--why 0 --make 1",
        out: "j 1 0 0 0 0 1\nj 7 0 0 0 1 0 1\nj 8 0 0 0 1 1 1\nj 14 0 0 0 1 2 1\nj 0 0 0 0 1 3 1\n",
        ..DONE
    },
    // the end of data has one too
    Row {
        words: "--why 1 p",
        source: "a",
        inputs: &[("-", "4\n")],
        out: "j 0 0 1 0 0 eod\n",
        ..DONE
    },
];

// Too deep, without figures; a limit that is just enough; and what is refused before: words, source, names, files.
pub(crate) static NOT_MADE: [Row<'static>; 9] = [
    Row {
        words: "--why 0 p",
        source: "x where x = x; end",
        report: "too deep at time 0\n",
        ..TOO_DEEP
    },
    Row {
        words: "--why 3 --stats --depth 3 p",
        source: "x where x = 0 fby x + 1; end",
        report: "too deep at time 3\n",
        ..TOO_DEEP
    },
    Row {
        words: "--why 9 --depth 1 --make 1",
        report: "too deep at time 9\n",
        ..TOO_DEEP
    },
    Row {
        words: "--why 9223372036854775808 p",
        source: "7",
        ..USAGE
    },
    Row {
        words: "--why 3 --from-flat p",
        source: "7",
        ..USAGE
    },
    Row {
        words: "--why 3 p",
        source: "x where x = 1; x = 2; end",
        report: "defined twice at 15\n",
        ..REFUSED
    },
    Row {
        words: "--why 3 p",
        source: "a + b",
        report: "no input for two names\n",
        ..REFUSED
    },
    Row {
        words: "--why 3 p b=f",
        source: "a",
        report: "no input is named b\n",
        ..USAGE
    },
    Row {
        words: "--why 3 p",
        source: "a",
        status: Status::ReadFault,
        report: "read fault\n",
        ..DONE
    },
];

pub(crate) static RIGHT: [Row<'static>; 6] = [
    Row {
        words: "--check w p",
        source: FACTORIALS,
        inputs: &[("w", SIX)],
        out: "6 at 3\n",
        taken: Some(&[1160]),
        ..DONE
    },
    Row {
        words: "--check w p",
        source: THIRDS,
        inputs: &[("w", NINE)],
        out: "9 at 3\n",
        ..DONE
    },
    // the inputs come behind the certificate, and are read as far as it tells
    Row {
        words: "--check w p a=f b=g",
        source: "a + b",
        inputs: &[("w", END), ("f", "4\n5\n"), ("g", "1\n2\n3\n4\n")],
        out: "eod at 2\n",
        taken: Some(&[50, 4, 6]),
        ..DONE
    },
    // of an input that no judgment tells nothing is read, and another time is as good
    Row {
        words: "--check w p",
        source: "if true then 7 else a fi",
        inputs: &[
            ("w", "j 0 0 5 0 0 true\nj 1 0 5 0 0 7\nj 3 0 5 0 2 0 1 7\n"),
            ("-", "4\n"),
        ],
        out: "7 at 5\n",
        taken: Some(&[49, 0]),
        ..DONE
    },
    // words that a run would look at are not looked at
    Row {
        words: "--check w --stats --count 7 --policy none p",
        source: "7",
        inputs: &[("w", "j 0 0 0 0 0 7\n")],
        out: "7 at 0\n",
        ..DONE
    },
    // a made program, whose certificate has the first place
    Row {
        words: "--check w --make 1",
        inputs: &[(
            "w",
            "j 1 0 0 0 0 1\nj 7 0 0 0 1 0 1\nj 8 0 0 0 1 1 1\nj 14 0 0 0 1 2 1\nj 0 0 0 0 1 3 1\n",
        )],
        out: "1 at 0\n",
        ..DONE
    },
];

pub(crate) static WRONG: [Row<'static>; 5] = [
    Row {
        words: "--check w p",
        source: "7",
        inputs: &[("w", "j 0 0 5 0 0 8\n")],
        report: "judgment 0 does not follow\n",
        ..REFUSED
    },
    // the last isn't the root's
    Row {
        words: "--check w p",
        source: "1 + 1",
        inputs: &[("w", "j 0 0 0 0 0 1\nj 1 0 0 0 0 1\n")],
        report: "judgment 1 does not follow\n",
        ..REFUSED
    },
    // nothing is read behind the judgment that doesn't follow
    Row {
        words: "--check w p a=f b=g",
        source: "a + b",
        inputs: &[
            ("w", "j 0 0 0 0 0 5\nj 1 0 2 0 0 3\nj 2 0 2 0 2 0 1 eod\n"),
            ("f", "4\n5\n"),
            ("g", "1\n2\n3\n4\n"),
        ],
        report: "judgment 0 does not follow\n",
        taken: Some(&[48, 2, 0]),
        ..REFUSED
    },
    Row {
        words: "--check w p",
        source: "7",
        inputs: &[("w", "j 0 0 5 0 0 07\n")],
        report: "line 1 is no judgment\n",
        ..REFUSED
    },
    Row {
        words: "--check w p",
        source: "7",
        inputs: &[("w", "")],
        report: "line 1 is no judgment\n",
        ..REFUSED
    },
];

// What is looked at first: the words, the source and its names, the files of the inputs, the certificate, the inputs.
pub(crate) static ORDER: [Row<'static>; 8] = [
    Row {
        words: "--check w --why 3 p",
        source: "7",
        ..USAGE
    },
    Row {
        words: "--check w --from-flat p",
        source: "7",
        ..USAGE
    },
    Row {
        words: "--check w p",
        source: "x where x = 1; x = 2; end",
        report: "defined twice at 15\n",
        ..REFUSED
    },
    Row {
        words: "--check w p",
        source: "a + b",
        report: "no input for two names\n",
        ..REFUSED
    },
    Row {
        words: "--check w p b=f",
        source: "a",
        report: "no input is named b\n",
        ..USAGE
    },
    Row {
        words: "--check w p",
        source: "7",
        status: Status::ReadFault,
        report: "read fault\n",
        ..DONE
    },
    Row {
        words: "--check w p",
        source: "a",
        inputs: &[("w", "j 0 0\n")],
        report: "line 1 is no judgment\n",
        ..REFUSED
    },
    Row {
        words: "--check w p",
        source: "a",
        inputs: &[("w", "j 0 0 0 0 0 8\n")],
        status: Status::ReadFault,
        report: "read fault\n",
        ..DONE
    },
];

pub(crate) static FAILURES: [Row<'static>; 5] = [
    Row {
        words: "--why 1 p",
        source: "a",
        inputs: &[("-", "4\n5\n")],
        reads: &[FailAt {
            place: 1,
            position: 3,
        }],
        status: Status::ReadFault,
        report: "read fault\n",
        taken: Some(&[3]),
        ..DONE
    },
    Row {
        words: "--why 1 p",
        source: "7",
        writes: &[0],
        status: Status::WriteFault,
        report: "write fault\n",
        ..DONE
    },
    Row {
        words: "--check w p",
        source: "7",
        inputs: &[("w", "j 0 0 5 0 0 7\n")],
        reads: &[FailAt {
            place: 1,
            position: 3,
        }],
        status: Status::ReadFault,
        report: "read fault\n",
        taken: Some(&[3]),
        ..DONE
    },
    Row {
        words: "--check w p",
        source: "a",
        inputs: &[("w", "j 0 0 1 0 0 5\n"), ("-", "4\n5\n")],
        reads: &[FailAt {
            place: 2,
            position: 3,
        }],
        status: Status::ReadFault,
        report: "read fault\n",
        ..DONE
    },
    Row {
        words: "--check w p",
        source: "7",
        inputs: &[("w", "j 0 0 5 0 0 7\n")],
        writes: &[0],
        status: Status::WriteFault,
        report: "write fault\n",
        ..DONE
    },
];
