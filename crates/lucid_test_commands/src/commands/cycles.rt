//! Judgments by the delays along cycles of references.
use crate::commands::row::{DONE, REFUSED, Row};
use lucid_report::Status;
use lucid_test_programs::{COUNTING, FIBONACCI, SEARCH_WITHOUT_END};

// A depth that is enough, or a cycle. Words that a run would look at are not looked at.
pub(crate) static JUDGED: [Row<'static>; 8] = [
    Row {
        words: "--cycles p",
        source: COUNTING,
        out: "depth 1 * t + 2\n",
        ..DONE
    },
    // two names, and cycles of delay 2 and 1
    Row {
        words: "--cycles p",
        source: FIBONACCI,
        out: "depth 2 * t + 2\n",
        ..DONE
    },
    Row {
        words: "--cycles p",
        source: "x where x = 0 fby y; y = next x; end",
        out: "cycle x at 8, y at 21: sum 0\n",
        ..DONE
    },
    Row {
        words: "--cycles p",
        source: "x where x = next x; end",
        out: "cycle x at 8: sum -1\n",
        ..DONE
    },
    // a made program, without a line of figures
    Row {
        words: "--make 1000 --cycles",
        out: "depth 1001 * t + 1002\n",
        ..DONE
    },
    Row {
        words: "--cycles --stats --count 7 --policy none p",
        source: COUNTING,
        out: "depth 1 * t + 2\n",
        ..DONE
    },
    // a file for a name that isn't free, and two names without files
    Row {
        words: "--cycles p x=f",
        source: "a + b",
        out: "depth 1 * t + 2\n",
        ..DONE
    },
    Row {
        words: "--cycles p",
        source: COUNTING,
        writes: &[0],
        status: Status::WriteFault,
        report: "write fault\n",
        ..DONE
    },
];

pub(crate) static NOT_JUDGED: [Row<'static>; 4] = [
    Row {
        words: "--cycles p",
        source: SEARCH_WITHOUT_END,
        report: "not judged at 2\n",
        ..REFUSED
    },
    // a made program of 2,001 names
    Row {
        words: "--make 2000 --cycles",
        report: "too many names\n",
        ..REFUSED
    },
    // the text and its names come first
    Row {
        words: "--cycles p",
        source: "1 asa",
        report: "syntax at 5\n",
        ..REFUSED
    },
    Row {
        words: "--cycles p",
        source: "x asa false where x = 1; x = 2; end",
        report: "defined twice at 25\n",
        ..REFUSED
    },
];
