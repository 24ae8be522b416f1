//! The worked programs, the same under each policy and each pick, and what is too deep alike.
use crate::demands::wanted::Wanted;
use crate::trials::{ORDERS, PLANS, Setup, times_below};
use lucid_test_programs::{Worked, in_contexts, over_inputs, over_space, over_time};
use std::alloc::Global;
use std::test::Fail;

/// A program without names, a limit, and what the demands at the times from 0 on give by it.
type LimitedRow = (&'static str, u32, &'static [&'static str]);

// A limit that is enough for each program.
const ENOUGH: u32 = 100;

// The demands at the times from 0 on give the program's values, whatever is dropped and whatever is picked.
fn answers_alike(alloc: Global, program: &Worked) -> Result<(), Fail> {
    let times = times_below(alloc, u32::try_from(program.values.len())?, ENOUGH)?;
    let wanted = Wanted {
        name: program.name,
        held: Some(program.held),
        ..Wanted::of(
            Setup::of(program.source, program.inputs),
            &times,
            program.values,
            program.consumed,
        )
    };
    wanted.by_each(alloc, &PLANS, &ORDERS)
}

fn each_alike(alloc: Global, programs: &[Worked]) -> Result<(), Fail> {
    for program in programs {
        answers_alike(alloc, program)?;
    }
    Ok(())
}

#[test]
fn worked_programs(rt: HostRuntime) -> Result<(), Fail> {
    let alloc = rt.alloc();
    each_alike(alloc, over_time())?;
    each_alike(alloc, over_space())?;
    each_alike(alloc, in_contexts())?;
    each_alike(alloc, over_inputs())
}

// Where no name is needed, nothing is held, and too deep comes alike under each policy.
static LIMITED: [LimitedRow; 7] = [
    ("1 asa false", 50, &["too deep"]),
    // A search looks at the times below the limit alone, also for what ends it.
    (
        "1 asa (false fby false fby 5)",
        2,
        &["too deep", "too deep"],
    ),
    ("1 asa (false fby false fby 5)", 3, &["error", "error"]),
    ("1 asa (false fby false fby eod)", 3, &["eod"]),
    ("1 whenever (false fby true)", 2, &["1", "too deep"]),
    // upon needs a limit of its time, even where its test ends it at once.
    ("1 upon 5", 2, &["1", "error", "error", "too deep"]),
    ("1 upon true", 2, &["1", "1", "1", "too deep"]),
];

// The demands at the times from 0 on give these answers by the limit, and nothing is held.
fn answers_by_limit(alloc: Global, row: &LimitedRow) -> Result<(), Fail> {
    let (source, limit, answers) = *row;
    let times = times_below(alloc, u32::try_from(answers.len())?, limit)?;
    let wanted = Wanted {
        held: Some(0),
        ..Wanted::of(Setup::of(source, &[]), &times, answers, [0, 0])
    };
    wanted.by_each(alloc, &PLANS, &ORDERS)
}

#[test]
fn limits(rt: HostRuntime) -> Result<(), Fail> {
    for row in &LIMITED {
        answers_by_limit(rt.alloc(), row)?;
    }
    Ok(())
}
