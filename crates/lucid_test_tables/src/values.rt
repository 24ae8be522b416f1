//! The values of the worked programs by the plain evaluator.
use crate::tables::tree_of;
use crate::told::must;
use lucid_scan::{ScanRefusal, scan};
use lucid_test_programs::{
    Stream, Worked, approximation, in_contexts, over_inputs, over_space, over_time, without_value,
};
use lucid_value::{Name, ReadRefusal, Value, read_value};
use std::alloc::Global;
use std::test::Fail;

/// A limit that is enough for each program.
const ENOUGH: u32 = 100;

// The element of a line.
fn element_of(alloc: Global, line: &str) -> Result<Value, Fail> {
    match read_value(alloc, line.as_bytes()) {
        Ok(value) => Ok(value),
        Err(ReadRefusal::NotValue) => Ok(Value::Fault),
        Err(refusal) => Err(refusal.into()),
    }
}

// The input of these bytes.
fn stream_of(alloc: Global, name: &str, bytes: &str) -> Result<Stream, Fail> {
    let mut elements = Vec::new(alloc);
    for line in bytes.lines() {
        elements.push(element_of(alloc, line)?)?;
    }
    let name = Name::make(alloc, name.as_bytes())?;
    Ok(Stream { name, elements })
}

/// The inputs of these names and bytes.
pub(crate) fn streams_of(alloc: Global, inputs: &[(&str, &str)]) -> Result<Vec<Stream>, Fail> {
    let mut streams = Vec::new(alloc);
    for (name, bytes) in inputs {
        streams.push(stream_of(alloc, name, bytes)?)?;
    }
    Ok(streams)
}

// The value of a source at a time, at space 0, by the approximation of the limit; nothing where that is undefined.
fn value_at(
    alloc: Global,
    streams: &[Stream],
    source: &str,
    time: u32,
    limit: u32,
) -> Result<Option<Value>, Fail> {
    let tree = tree_of(alloc, source.as_bytes())?;
    let value = approximation(alloc, streams, &tree, u64::from(time), 0, limit);
    Ok(value?)
}

// The text of that value.
fn text_at(
    alloc: Global,
    streams: &[Stream],
    source: &str,
    time: u32,
    limit: u32,
) -> Result<Option<String>, Fail> {
    let Some(value) = value_at(alloc, streams, source, time, limit)? else {
        return Ok(None);
    };
    let mut bytes = Vec::new(alloc);
    value.show(alloc, &mut bytes)?;
    Ok(Some(String::from_utf8(bytes)?))
}

/// Whether that is the value's text, or nothing, at a time and by a limit.
pub(crate) fn shows(
    alloc: Global,
    streams: &[Stream],
    source: &str,
    (time, limit): (u32, u32),
    wanted: Option<&str>,
) -> Result<bool, Fail> {
    Ok(text_at(alloc, streams, source, time, limit)?.as_deref() == wanted)
}

// The program has its values over the inputs.
fn shows_over(alloc: Global, streams: &[Stream], program: &Worked) -> Result<(), Fail> {
    for (time, text) in program.values.iter().enumerate() {
        let at = (u32::try_from(time)?, ENOUGH);
        must(
            shows(alloc, streams, program.source, at, Some(*text))?,
            program.name,
        )?;
    }
    Ok(())
}

fn each_shows(alloc: Global, programs: &[Worked]) -> Result<(), Fail> {
    for program in programs {
        let streams = streams_of(alloc, program.inputs)?;
        shows_over(alloc, &streams, program)?;
    }
    Ok(())
}

// Neither of these limits gives the program a value at time 0.
fn are_undefined(alloc: Global, programs: &[Worked]) -> Result<(), Fail> {
    for program in programs {
        must(
            shows(alloc, &[], program.source, (0, 50), None)?,
            program.name,
        )?;
        must(
            shows(alloc, &[], program.source, (0, 100), None)?,
            program.name,
        )?;
    }
    Ok(())
}

// The program has each of its values by its least limit, and none just below that.
fn needs_its_limits(alloc: Global, program: &Worked) -> Result<(), Fail> {
    for (time, (limit, text)) in program.least.iter().zip(program.values).enumerate() {
        let time = u32::try_from(time)?;
        let below = (time, limit.saturating_sub(1));
        must(
            shows(alloc, &[], program.source, (time, *limit), Some(*text))?,
            program.name,
        )?;
        must(
            shows(alloc, &[], program.source, below, None)?,
            program.name,
        )?;
    }
    Ok(())
}

fn each_needs_its_limits(alloc: Global, programs: &[Worked]) -> Result<(), Fail> {
    for program in programs {
        needs_its_limits(alloc, program)?;
    }
    Ok(())
}

#[test]
fn worked_programs(rt: HostRuntime) -> Result<(), Fail> {
    let alloc = rt.alloc();
    each_shows(alloc, over_time())?;
    each_shows(alloc, over_space())?;
    each_shows(alloc, in_contexts())?;
    each_shows(alloc, over_inputs())?;
    are_undefined(alloc, without_value())?;
    each_needs_its_limits(alloc, over_time())?;
    each_needs_its_limits(alloc, over_space())
}

#[test]
fn an_integer_past_the_widest_is_refused(rt: HostRuntime) {
    let refused = scan(rt.alloc(), b"170141183460469231731687303715884105728").err();
    assert_eq!(rt; refused, Some(ScanRefusal::BigNumber { at: 0 }));
}
