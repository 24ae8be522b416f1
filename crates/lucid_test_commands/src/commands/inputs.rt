//! Programs over inputs: their lines, and how many bytes they consume.
use crate::commands::row::{DONE, Row, call, places_of};
use crate::told::must;
use lucid_ports::{FailAt, Narrow};
use lucid_report::Status;
use lucid_test_programs::{COUNTING, RUNNING_SUM};
use std::alloc::Global;
use std::test::Fail;

/// The total and the largest of sales, with a comment.
const SALES: &str =
    "total :: largest :: [] where // sales\ntotal = sale fby total + next sale; largest = sale fby if next sale > largest then next sale else largest fi; end";

const THREE_SALES: &str = "120\r\n80\r\n200\r\n";

const TOTALS: &str = "[% 120 120 %]\n[% 200 120 %]\n[% 400 200 %]\n";

pub(crate) static LINES: [Row<'static>; 2] = [
    // two inputs, of which one ends first
    Row {
        words: "p a=f b=g",
        source: "a + b",
        inputs: &[("f", "1\n2\n"), ("g", "10\n")],
        out: "11\n",
        ..DONE
    },
    // a source with a comment
    Row {
        source: SALES,
        inputs: &[("-", THREE_SALES)],
        out: TOTALS,
        ..DONE
    },
];

// A write fault, and read faults.
pub(crate) static FAULTS: [Row<'static>; 3] = [
    // the second write fails
    Row {
        source: COUNTING,
        writes: &[1],
        status: Status::WriteFault,
        out: "0\n",
        report: "write fault\n",
        ..DONE
    },
    // the read past the third byte of the input fails
    Row {
        source: RUNNING_SUM,
        inputs: &[("-", "3\n4\n5")],
        reads: &[FailAt {
            place: 1,
            position: 3,
        }],
        status: Status::ReadFault,
        out: "3\n",
        report: "read fault\n",
        taken: Some(&[3]),
        ..DONE
    },
    // no such program
    Row {
        words: "q",
        source: COUNTING,
        status: Status::ReadFault,
        report: "read fault\n",
        ..DONE
    },
];

// The sales, where a byte is shown at a time.
fn byte_by_byte(alloc: Global) -> Result<bool, Fail> {
    let places = places_of(alloc, SALES.as_bytes(), &[("-", THREE_SALES)], &[])?;
    let answer = call(alloc, "p", &mut Narrow::make(places, 1), 100, &[])?;
    Ok(answer.tells(Status::Done, TOTALS, ""))
}

#[test]
fn sales_byte_by_byte(rt: HostRuntime) -> Result<(), Fail> {
    must(byte_by_byte(rt.alloc())?, "the sales, byte by byte")
}
