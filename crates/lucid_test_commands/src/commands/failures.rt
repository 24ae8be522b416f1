//! Failures in turn: a read or a write fails at each place at which it can.
ghost use Rattle.std.specs.Prelude.{◌≤◌};

use crate::commands::row::{call, places_of, taken};
use lucid_ports::FailAt;
use lucid_report::Status;
use lucid_test_programs::{COUNTING, RUNNING_SUM};
use std::alloc::Global;
use std::test::Fail;

// The running sum of three elements, where the call that would look at that position of that place fails: whether this is written, and so many
// bytes of each input that is reached are consumed.
fn read_fails(alloc: Global, failure: FailAt, out: &str, consumed: &[u64]) -> Result<bool, Fail> {
    let source = RUNNING_SUM.as_bytes();
    let mut places = places_of(alloc, source, &[("-", "3\n4\n5")], &[failure])?;
    let answer = call(alloc, "p", &mut places, 100, &[])?;
    let told = answer.tells(Status::ReadFault, out, "read fault\n");
    Ok(told && taken(alloc, &mut places)?.as_slice() == consumed)
}

// A position of the input, what is written, and the bytes consumed.
static OF_INPUT: [(u64, &str, u64); 6] = [
    (0, "", 0),
    (1, "", 1),
    (2, "3\n", 2),
    (3, "3\n", 3),
    (4, "3\n7\n", 4),
    (5, "3\n7\n", 5),
];

// The first position of the input at which a failure goes otherwise.
fn wrong_of_input(alloc: Global) -> Result<Option<u64>, Fail> {
    for (position, out, consumed) in &OF_INPUT {
        let failure = FailAt {
            place: 1,
            position: *position,
        };
        if !read_fails(alloc, failure, out, &[*consumed])? {
            return Ok(Some(*position));
        }
    }
    Ok(None)
}

// The same of the source, of which the position of its end is one of them; then no input is reached.
fn wrong_of_source(alloc: Global) -> Result<Option<u64>, Fail> {
    for position in 0..34 {
        if !read_fails(alloc, FailAt { place: 0, position }, "", &[])? {
            return Ok(Some(position));
        }
    }
    Ok(None)
}

// Counting up, where the write of that number fails and each write takes at most `most` bytes: whether this was written before.
fn write_fails(alloc: Global, most: usize, number: u64, out: &str) -> Result<bool, Fail>
    requires { 1 ≤ most }
{
    let mut places = places_of(alloc, COUNTING.as_bytes(), &[], &[])?;
    let answer = call(alloc, "--count 5 p", &mut places, most, &[number])?;
    Ok(answer.tells(Status::WriteFault, out, "write fault\n"))
}

// The number of the write that fails, and what was written before where a write takes one byte, and where it takes a line.
static OF_OUT: [(u64, &str, &str); 5] = [
    (0, "", ""),
    (1, "0", "0\n"),
    (2, "0\n", "0\n1\n"),
    (3, "0\n1", "0\n1\n2\n"),
    (4, "0\n1\n", "0\n1\n2\n3\n"),
];

// The first write whose failure goes otherwise.
fn wrong_write(alloc: Global) -> Result<Option<u64>, Fail> {
    for (number, bytes, lines) in &OF_OUT {
        if !write_fails(alloc, 1, *number, bytes)? || !write_fails(alloc, 100, *number, lines)? {
            return Ok(Some(*number));
        }
    }
    Ok(None)
}

#[test]
fn each_read_and_each_write_fails(rt: HostRuntime) -> Result<(), Fail> {
    let alloc = rt.alloc();
    let wrong = [
        wrong_of_input(alloc)?,
        wrong_of_source(alloc)?,
        wrong_write(alloc)?,
    ];
    assert_eq!(rt; (RUNNING_SUM.len(), wrong), (33, [None, None, None]));
    Ok(())
}
