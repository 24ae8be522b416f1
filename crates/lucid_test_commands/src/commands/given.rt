//! A call under a policy and a pick that are given.
use crate::commands::row::{Answer, places_of};
use crate::told::{must, word_list};
use lucid_ports::MemorySink;
use lucid_report::Status;
use lucid_retire::Nothing;
use lucid_schedule::Oldest;
use lucid_test_programs::COUNTING;
use lucid_top::lucid_under;
use std::alloc::Global;
use std::test::Fail;

// Nothing is kept, though by its words the call would keep all: so the value at time 3 is too deep.
fn drops(alloc: Global) -> Result<bool, Fail> {
    let words = word_list(alloc, "--count 5 --depth 3 p")?;
    let mut places = places_of(alloc, COUNTING.as_bytes(), &[], &[])?;
    let mut out = MemorySink::make(alloc, 100, Vec::new(alloc));
    let mut report = MemorySink::make(alloc, 100, Vec::new(alloc));
    let status = lucid_under(
        alloc,
        &words,
        Nothing,
        Oldest,
        &mut places,
        &mut out,
        &mut report,
    );
    let answer = Answer {
        status,
        out,
        report,
    };
    Ok(answer.tells(Status::TooDeep, "0\n1\n2\n", "too deep at time 3\n"))
}

#[test]
fn the_given_policy_drops(rt: HostRuntime) -> Result<(), Fail> {
    must(drops(rt.alloc())?, "nothing is kept")
}
