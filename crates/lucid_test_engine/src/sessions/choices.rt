//! Whatever drops values and whatever is picked, a run of a worked program writes its lines.
use crate::sessions::program_run::{options_of, run_of};
use crate::told::{all_hold, must};
use crate::trials::Setup;
use lucid_ports::{MemorySink, Summary};
use lucid_retire::{Keep, Last, Nothing, Retire, Scrap, Scripted};
use lucid_schedule::{Listed, Newest, Oldest, Pick};
use lucid_store::Key;
use lucid_tags::Tags;
use lucid_test_programs::{Worked, in_contexts, over_inputs, over_time};
use std::alloc::{AllocError, Global};
use std::test::Fail;

// The summary of the program's run by a policy and a pick.
fn summary_of<R: Retire, S: Pick>(
    alloc: Global,
    program: &Worked,
    out: &mut MemorySink,
    policy: R,
    pick: S,
) -> Result<Summary, Fail> {
    let setup = Setup::of(program.source, program.inputs);
    let options = options_of(u32::try_from(program.count())?, 100)?;
    Ok(run_of(alloc, &setup, &options, out, policy, pick)??)
}

// The run by a policy and a pick writes the program's lines, and ends where the program does.
fn passes_by<R: Retire, S: Pick>(
    alloc: Global,
    program: &Worked,
    lines: &str,
    policy: R,
    pick: S,
) -> Result<(), Fail> {
    let mut out = MemorySink::make(alloc, 100, Vec::new(alloc));
    let summary = summary_of(alloc, program, &mut out, policy, pick)?;
    let facts = [
        out.written() == lines.as_bytes(),
        summary.ended == program.ends(),
    ];
    must(all_hold(&facts), program.name)
}

// A thousand numbers below 11.
fn numbers(alloc: Global) -> Result<Vec<usize>, AllocError> {
    let mut numbers = Vec::new(alloc);
    for k in 0..1000 {
        numbers.push(k * 7 % 11)?;
    }
    Ok(numbers)
}

// At each of the first turns two keys, of which some are held.
fn scraps(alloc: Global) -> Result<Vec<Scrap>, AllocError> {
    let mut scraps = Vec::new(alloc);
    let root = Tags::make(alloc).root();
    for turn in 0..200 {
        for name in 0..2 {
            let key = Key {
                name,
                tag: root,
                time: turn % 5,
            };
            scraps.push(Scrap { turn, key })?;
        }
    }
    Ok(scraps)
}

// The program passes by each policy.
fn passes_by_each_policy<S: Pick + Copy>(
    alloc: Global,
    program: &Worked,
    lines: &str,
    pick: S,
) -> Result<(), Fail> {
    passes_by(alloc, program, lines, Keep, pick)?;
    passes_by(alloc, program, lines, Nothing, pick)?;
    passes_by(alloc, program, lines, Last::make(alloc, 1)?, pick)?;
    let policy = Scripted::make(alloc, scraps(alloc)?);
    passes_by(alloc, program, lines, policy, pick)
}

// The same by listed numbers, where all is held, and where some is dropped.
fn passes_by_listed_numbers(alloc: Global, program: &Worked, lines: &str) -> Result<(), Fail> {
    passes_by(alloc, program, lines, Keep, Listed::make(numbers(alloc)?))?;
    let policy = Scripted::make(alloc, scraps(alloc)?);
    passes_by(alloc, program, lines, policy, Listed::make(numbers(alloc)?))
}

fn passes(alloc: Global, program: &Worked, lines: &str) -> Result<(), Fail> {
    passes_by_each_policy(alloc, program, lines, Newest)?;
    passes_by_each_policy(alloc, program, lines, Oldest)?;
    passes_by_listed_numbers(alloc, program, lines)
}

fn each_passes(alloc: Global, programs: &[Worked]) -> Result<(), Fail> {
    for program in programs {
        let lines = program.lines(alloc)?;
        passes(alloc, program, &lines)?;
    }
    Ok(())
}

#[test]
fn worked_programs(rt: HostRuntime) -> Result<(), Fail> {
    let alloc = rt.alloc();
    each_passes(alloc, over_time())?;
    each_passes(alloc, in_contexts())?;
    each_passes(alloc, over_inputs())
}
