//! All rows, each by the ways in which it is tried.
use crate::commands::row::{Row, Way, each_passes_by};
use crate::commands::{certificates, columns, cycles, flat, inputs, refused, streams};
use std::alloc::Global;
use std::test::Fail;

fn each_table(alloc: Global, tables: &[&[Row]], way: Way) -> Result<(), Fail> {
    for rows in tables {
        each_passes_by(alloc, rows, way)?;
    }
    Ok(())
}

#[test]
fn rows_by_their_sources(rt: HostRuntime) -> Result<(), Fail> {
    let tables = [
        streams::UNCOUNTED.as_slice(),
        streams::POLICIES.as_slice(),
        streams::DEEP.as_slice(),
        streams::PRINTED_AND_MADE.as_slice(),
        inputs::LINES.as_slice(),
        inputs::FAULTS.as_slice(),
        refused::SOURCES.as_slice(),
        refused::NAMES.as_slice(),
        refused::WORDS.as_slice(),
        columns::SHOWN.as_slice(),
        columns::INPUTS.as_slice(),
        columns::POLICIES.as_slice(),
        columns::DEEP.as_slice(),
        columns::NONE.as_slice(),
        cycles::JUDGED.as_slice(),
        cycles::NOT_JUDGED.as_slice(),
        flat::WRITTEN.as_slice(),
        flat::RUN.as_slice(),
        flat::INPUTS.as_slice(),
        flat::WRONG.as_slice(),
        certificates::MADE.as_slice(),
        certificates::NOT_MADE.as_slice(),
        certificates::RIGHT.as_slice(),
        certificates::WRONG.as_slice(),
        certificates::ORDER.as_slice(),
        certificates::FAILURES.as_slice(),
    ];
    each_table(rt.alloc(), &tables, Way::Source)
}

#[test]
fn rows_by_their_flat_forms_and_as_columns(rt: HostRuntime) -> Result<(), Fail> {
    let tables = [
        streams::UNCOUNTED.as_slice(),
        streams::POLICIES.as_slice(),
        streams::DEEP.as_slice(),
        inputs::LINES.as_slice(),
        inputs::FAULTS.as_slice(),
    ];
    each_table(rt.alloc(), &tables, Way::Flat)?;
    each_passes_by(rt.alloc(), &inputs::LINES, Way::Alone)
}
