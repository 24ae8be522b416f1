//! The run of a program over files in memory.
use crate::trials::{Parts, Setup};
use lucid_ports::{MAX_ASKED, Options, RunFault, Sink, Summary};
use lucid_retire::Retire;
use lucid_schedule::{Newest, Pick};
use lucid_session::{MOST_COLUMNS, run, run_columns};
use std::alloc::Global;
use std::test::Fail;

/// The options, where both numbers are in range.
pub(crate) fn options_of(count: u32, depth: u32) -> Result<Options, Fail> {
    if count < 1 || count > MAX_ASKED || depth < 1 || depth > MAX_ASKED {
        return Err(Fail::new("an option is out of range"));
    }
    Ok(Options { count, depth })
}

/// What the run of a setup's program over its files answers.
pub(crate) fn run_of<K: Sink, R: Retire, S: Pick>(
    alloc: Global,
    setup: &Setup,
    options: &Options,
    out: &mut K,
    policy: R,
    pick: S,
) -> Result<Result<Summary, RunFault>, Fail> {
    let Parts {
        program,
        inputs,
        mut places,
    } = Parts::make(alloc, setup)?;
    Ok(run(
        alloc,
        program,
        &mut places,
        inputs,
        out,
        policy,
        pick,
        options,
    ))
}

/// The same of its columns, where there may be so many, by the newest task first.
pub(crate) fn columns_of<K: Sink, R: Retire>(
    alloc: Global,
    setup: &Setup,
    columns: u32,
    options: &Options,
    out: &mut K,
    policy: R,
) -> Result<Result<Summary, RunFault>, Fail> {
    if columns as usize > MOST_COLUMNS {
        return Err(Fail::new("too many columns"));
    }
    let Parts {
        program,
        inputs,
        mut places,
    } = Parts::make(alloc, setup)?;
    Ok(run_columns(
        alloc,
        program,
        columns,
        &mut places,
        inputs,
        out,
        policy,
        Newest,
        options,
    ))
}
