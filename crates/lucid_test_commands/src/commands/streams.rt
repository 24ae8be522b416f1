//! Programs without inputs: their lines by default and by the policies, values that are too deep, and what is printed and made.
use crate::commands::row::{DONE, Row, TOO_DEEP};
use lucid_test_programs::{COUNTING, DEEP_TREE, NO_VALUE, SEARCH_WITHOUT_END, THIRDS};

// Twenty lines where no count is given.
pub(crate) static UNCOUNTED: [Row<'static>; 1] = [Row {
    source: COUNTING,
    out: "0\n1\n2\n3\n4\n5\n6\n7\n8\n9\n10\n11\n12\n13\n14\n15\n16\n17\n18\n19\n",
    ..DONE
}];

// Every third number, whatever is forgotten.
pub(crate) static POLICIES: [Row<'static>; 3] = [
    Row {
        words: "--count 4 --policy last --room 1 p",
        source: THIRDS,
        out: "0\n3\n6\n9\n",
        ..DONE
    },
    Row {
        words: "--count 4 --policy age --age 1 p",
        source: THIRDS,
        out: "0\n3\n6\n9\n",
        ..DONE
    },
    // depth with a store
    Row {
        words: "--count 5 --depth 3 --policy keep p",
        source: COUNTING,
        out: "0\n1\n2\n3\n4\n",
        ..DONE
    },
];

// Values that are too deep.
pub(crate) static DEEP: [Row<'static>; 5] = [
    // depth without a store
    Row {
        words: "--count 5 --depth 3 --policy none p",
        source: COUNTING,
        out: "0\n1\n2\n",
        report: "too deep at time 3\n",
        ..TOO_DEEP
    },
    // a name that is itself
    Row {
        source: NO_VALUE,
        report: "too deep at time 0\n",
        ..TOO_DEEP
    },
    // the same through a tree that is 30 deep
    Row {
        words: "--depth 100 p",
        source: DEEP_TREE,
        report: "too deep at time 0\n",
        ..TOO_DEEP
    },
    // a search without end
    Row {
        words: "--depth 50 p",
        source: SEARCH_WITHOUT_END,
        report: "too deep at time 0\n",
        ..TOO_DEEP
    },
    Row {
        words: "--depth 50 --stats p",
        source: SEARCH_WITHOUT_END,
        report: "too deep at time 0 lost 0 cleared 0\n",
        ..TOO_DEEP
    },
];

// Canonical sources, and a made program with its figures.
pub(crate) static PRINTED_AND_MADE: [Row<'static>; 3] = [
    Row {
        words: "--print p",
        source: "a+b*c wvr(p)",
        out: "a + b * c whenever p\n",
        ..DONE
    },
    Row {
        words: "--print p",
        source: "(a - b) - (c - d)",
        out: "a - b - (c - d)\n",
        ..DONE
    },
    Row {
        words: "--make 2 --count 5",
        out: "1\n2\n4\n8\n15\n",
        report: "lines 5 held 12 lost 0 cleared 0\n",
        ..DONE
    },
];
