//! Columns: several names of the outermost block side by side, and what is refused as a column.
use crate::commands::row::{DONE, REFUSED, Row, TOO_DEEP, USAGE};
use lucid_test_programs::THREE_NAMES;

const THREE_LINES: &str = "1\t1\t5\n2\t4\t\n3\t9\t\n";

const SUM_AND_DOUBLE: &str = "s where s = a fby s + next a; d = a * 2; end";

pub(crate) static SHOWN: [Row<'static>; 9] = [
    // three columns, of which the last ends early
    Row {
        words: "--columns a,b,c --count 3 p",
        source: THREE_NAMES,
        out: THREE_LINES,
        ..DONE
    },
    // all end at once
    Row {
        words: "--columns a,b p",
        source: "a where a = 1 fby eod; b = 2 fby eod; end",
        out: "1\t2\n",
        ..DONE
    },
    // the first ends before the second
    Row {
        words: "--columns a,b p",
        source: "a where a = 1 fby eod; b = 1 fby 2 fby eod; end",
        out: "1\t1\n\t2\n",
        ..DONE
    },
    // a column that has ended stays so, whatever its name means later
    Row {
        words: "--columns a,c --count 4 p",
        source: "a where a = 1 fby a + 1; c = 1 fby eod fby 2; end",
        out: "1\t1\n2\t\n3\t\n4\t\n",
        ..DONE
    },
    // the end at once writes no line
    Row {
        words: "--columns a,a p",
        source: "a where a = eod; end",
        ..DONE
    },
    // an error is no end
    Row {
        words: "--columns a,b --count 2 p",
        source: "a where a = 1 fby a + 1; b = error; end",
        out: "1\terror\n2\terror\n",
        ..DONE
    },
    // sixteen names
    Row {
        words: "--columns a,b,a,b,a,b,a,b,a,b,a,b,a,b,a,b --count 2 p",
        source: "a where a = 1; b = 2 fby 3; end",
        out: "1\t2\t1\t2\t1\t2\t1\t2\t1\t2\t1\t2\t1\t2\t1\t2\n1\t3\t1\t3\t1\t3\t1\t3\t1\t3\t1\t3\t1\t3\t1\t3\n",
        ..DONE
    },
    // the subject of the program isn't looked at
    Row {
        words: "--columns a --count 2 p",
        source: "b where a = 1 fby 2; end",
        out: "1\n2\n",
        ..DONE
    },
    // a column over space is its value at space 0
    Row {
        words: "--columns q,p --count 3 p",
        source: "p where p = 1 sby 2; q = succ p; end",
        out: "2\t1\n2\t1\n2\t1\n",
        ..DONE
    },
];

pub(crate) static INPUTS: [Row<'static>; 5] = [
    // an input that two columns share is read once
    Row {
        words: "--columns s,d p",
        source: SUM_AND_DOUBLE,
        inputs: &[("-", "3\n4\n5")],
        out: "3\t6\n7\t8\n12\t10\n",
        taken: Some(&[5]),
        ..DONE
    },
    // no more is read than the columns need
    Row {
        words: "--columns f,g --count 2 p",
        source: "f where f = first a; g = 2 * f; end",
        inputs: &[("-", "7\n8\n9\n")],
        out: "7\t14\n7\t14\n",
        taken: Some(&[2]),
        ..DONE
    },
    // an input of one column alone is read while that is open
    Row {
        words: "--columns a,c --count 3 p x=f y=g",
        source: "a where a = x; c = y; end",
        inputs: &[("f", "1\n"), ("g", "7\n8\n9\n")],
        out: "1\t7\n\t8\n\t9\n",
        taken: Some(&[2, 6]),
        ..DONE
    },
    // an input of the subject alone is none
    Row {
        words: "--columns a p b=f",
        source: "b where a = 1; end",
        inputs: &[("f", "1\n")],
        report: "no input is named b\n",
        ..USAGE
    },
    Row {
        words: "--columns c,d p",
        source: "1 where c = a; d = b; end",
        inputs: &[("-", "1\n")],
        report: "no input for two names\n",
        ..REFUSED
    },
];

pub(crate) static POLICIES: [Row<'static>; 6] = [
    Row {
        words: "--columns a,b,c --count 3 --policy none p",
        source: THREE_NAMES,
        out: THREE_LINES,
        ..DONE
    },
    Row {
        words: "--columns a,b,c --count 3 --policy last --room 1 p",
        source: THREE_NAMES,
        out: THREE_LINES,
        ..DONE
    },
    Row {
        words: "--columns a,b,c --count 3 --policy age --age 1 p",
        source: THREE_NAMES,
        out: THREE_LINES,
        ..DONE
    },
    // `b` needs what `a` needed: it is held once. `c` has ended after its second value
    Row {
        words: "--columns a,b,c --count 3 --stats p",
        source: THREE_NAMES,
        out: THREE_LINES,
        report: "lines 3 held 8 lost 0 cleared 0\n",
        ..DONE
    },
    // a name twice is held once
    Row {
        words: "--columns a,a --count 2 --stats p",
        source: THREE_NAMES,
        out: "1\t1\n2\t2\n",
        report: "lines 2 held 2 lost 0 cleared 0\n",
        ..DONE
    },
    // a made program
    Row {
        words: "--make 2 --columns v0,v2 --count 3",
        out: "1\t1\n2\t2\n3\t4\n",
        report: "lines 3 held 8 lost 0 cleared 0\n",
        ..DONE
    },
];

pub(crate) static DEEP: [Row<'static>; 5] = [
    // the second column is too deep at once: no part of the line is written
    Row {
        words: "--columns a,b --depth 50 p",
        source: "a where a = 1; b = b; end",
        report: "too deep at time 0\n",
        ..TOO_DEEP
    },
    Row {
        words: "--columns a,b --depth 50 p",
        source: "a where a = 0 fby a + 1; b = if a eq 2 then b else a fi; end",
        out: "0\t0\n1\t1\n",
        report: "too deep at time 2\n",
        ..TOO_DEEP
    },
    Row {
        words: "--columns a,b --depth 50 --stats p",
        source: "a where a = 0 fby a + 1; b = if a eq 2 then b else a fi; end",
        out: "0\t0\n1\t1\n",
        report: "too deep at time 2 lost 0 cleared 0\n",
        ..TOO_DEEP
    },
    // a column that has ended is asked no more
    Row {
        words: "--columns a,b --count 3 --depth 50 p",
        source: "a where a = 0 fby a + 1; b = 1 fby eod fby (b attime 2); end",
        out: "0\t1\n1\t\n2\t\n",
        ..DONE
    },
    // without a store each value needs the ones before
    Row {
        words: "--columns a,b --count 5 --depth 3 --policy none p",
        source: "a where a = 0 fby a + 1; b = 7; end",
        out: "0\t7\n1\t7\n2\t7\n",
        report: "too deep at time 3\n",
        ..TOO_DEEP
    },
];

pub(crate) static NONE: [Row<'static>; 12] = [
    Row {
        words: "--columns a,z p",
        source: THREE_NAMES,
        report: "no column z\n",
        ..REFUSED
    },
    // the first that is none is told
    Row {
        words: "--columns a,y,z p",
        source: THREE_NAMES,
        report: "no column y\n",
        ..REFUSED
    },
    // a free name
    Row {
        words: "--columns a p",
        source: "b where b = a; end",
        report: "no column a\n",
        ..REFUSED
    },
    // a function
    Row {
        words: "--columns f p",
        source: "f(1) where f(x) = x; a = 1; end",
        report: "no column f\n",
        ..REFUSED
    },
    // a current name
    Row {
        words: "--columns n p",
        source: "b where n is current a; b = n; end",
        report: "no column n\n",
        ..REFUSED
    },
    // a name of an inner block
    Row {
        words: "--columns x,y p",
        source: "x where x = y where y = 1; end; end",
        report: "no column y\n",
        ..REFUSED
    },
    // a program that is no block
    Row {
        words: "--columns a p",
        source: "1",
        report: "no column a\n",
        ..REFUSED
    },
    // names at fault are told first
    Row {
        words: "--columns z p",
        source: "f where f(x) = x; a = 1; end",
        report: "function without arguments at 0\n",
        ..REFUSED
    },
    // no list of names
    Row {
        words: "--columns a, p",
        source: THREE_NAMES,
        ..USAGE
    },
    // seventeen names
    Row {
        words: "--columns a,a,a,a,a,a,a,a,a,a,a,a,a,a,a,a,a p",
        source: THREE_NAMES,
        ..USAGE
    },
    Row {
        words: "--columns a --print p",
        source: THREE_NAMES,
        ..USAGE
    },
    Row {
        words: "--columns a --from-flat p",
        source: "lucid flat 1\nconst 1\nnode 0 const 0\nroot 0\n",
        ..USAGE
    },
];
