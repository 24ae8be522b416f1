//! A run: the values of a program at the times from 0 on, each on a line.
ghost use Rattle.std.specs.Prelude.{◌≡◌, ◌<◌, ◌≤◌, ◌++◌, ◌^◌, ◌∷◌, [], ℕ, IfOk, IfErr, OnOk};
ghost use Rattle.std.specs.Bool.{MatchBool};
ghost use Rattle.lucid_value.specs.Plain.{eod};
ghost use Rattle.lucid_value.specs.View.{plain};
ghost use Rattle.lucid_ports.specs.Writing.{with_all};
ghost use Rattle.lucid_tree.specs.WellMade.{IsWellMade};
ghost use Rattle.lucid_tree.specs.Output.{line};
ghost use Rattle.lucid_test_programs.specs.Streams.{elements_of};
ghost use Rattle.lucid_test_programs.specs.Runs.{Finishes, Stops};
ghost use Rattle.lucid_test_programs.specs.WritingLines.{IsLineAt, StopsLine};

use crate::program::approximation;
use crate::streams::Stream;
use lucid_ports::{Options, PortFault, RunFault, Sink, Summary, write_whole};
use lucid_tree::Tree;
use lucid_value::Value;
use std::alloc::{AllocError, Global};

// What stands at a time: the output line of a value, the end of data, or nothing, where the approximation is undefined.
enum Line {
    Bytes(Vec<u8>),
    End,
    Undefined,
}

fn is_end(value: &Value) -> bool
    ensures { MatchBool result (plain value.now ≡ eod) (plain value.now ≡ eod → ⊥) }
{
    matches!(value, Value::Eod)
}

// The output line of a value.
fn line_of(alloc: Global, value: &Value) -> Result<Vec<u8>, AllocError>
    ensures { IfOk result (λ bytes. bytes.items ≡ line (plain value.now)) }
{
    let mut bytes = Vec::new(alloc);
    value.show(alloc, &mut bytes)?;
    bytes.push(b'\n')?;
    Ok(bytes)
}

// What stands at a time.
fn line_at(
    alloc: Global,
    streams: &[Stream],
    tree: &Tree,
    time: u64,
    limit: u32,
) -> Result<Line, AllocError>
    requires well_made { IsWellMade tree.now }
    requires time { time < 2 ^ 63 }
    ensures { IfOk result (IsLineAt (elements_of streams.now) limit tree.now time) }
{
    let Some(value) = approximation(alloc, streams, tree, time, 0, limit)? else {
        return Ok(Line::Undefined);
    };
    if is_end(&value) {
        return Ok(Line::End);
    }
    Ok(Line::Bytes(line_of(alloc, &value)?))
}

// Writes a line.
fn write_line<K: Sink>(out: &mut K, line: &[u8]) -> Result<(), RunFault>
    ensures whole { OnOk result (K.written out.new ≡ with_all line.now (K.written out.old)) }
    ensures stops { IfErr result (λ fault. StopsLine line.now (K.written out.old) (K.written out.new) (K.faults out.old) (K.faults out.new) fault) }
    ensures count { K.faults out.old ≤ K.faults out.new }
{
    match write_whole(out, line) {
        Ok(()) => Ok(()),
        Err(PortFault::Failed) => Err(RunFault::WriteFault),
        Err(PortFault::NoMemory) => Err(RunFault::NoMemory),
    }
}

/// Writes the lines of a program over inputs in memory, from time 0 on, to the first end of data or to the count of the options.
/// Each value is that of the approximation whose number is the depth of the options.
pub fn run<K: Sink>(
    alloc: Global,
    streams: &[Stream],
    tree: &Tree,
    out: &mut K,
    options: &Options,
) -> Result<Summary, RunFault>
    requires { IsWellMade tree.now }
    ensures done { IfOk result (λ summary. Finishes (elements_of streams.now) options.now.depth tree.now options.now.count summary (K.written out.old) (K.written out.new)) }
    ensures stops { IfErr result (λ fault. Stops (elements_of streams.now) options.now.depth tree.now options.now.count (K.written out.old) (K.written out.new) (K.faults out.old) (K.faults out.new) fault) }
    ensures count { K.faults out.old ≤ K.faults out.new }
{
    for time in 0..options.count {
        let bytes = match line_at(alloc, streams, tree, u64::from(time), options.depth) {
            Ok(Line::Bytes(bytes)) => bytes,
            Ok(Line::End) => return Ok(summary(time, true)),
            Ok(Line::Undefined) => return Err(too_deep(time)),
            Err(_) => return Err(RunFault::NoMemory),
        };
        match write_line(out, &bytes) {
            Ok(()) => {}
            Err(fault) => return Err(fault),
        }
    }
    Ok(summary(options.count, false))
}

fn too_deep(time: u32) -> RunFault
    ensures { result ≡ RunFault.TooDeep time 0 0 }
{
    RunFault::TooDeep {
        time: u64::from(time),
        lost: 0,
        cleared: 0,
    }
}

fn summary(lines: u32, ended: bool) -> Summary
    ensures lines { result.lines ≡ lines }
    ensures ended { result.ended ≡ ended }
    ensures nothing_stored { (result.held ≡ 0) × (result.lost ≡ 0) × (result.cleared ≡ 0) }
{
    Summary {
        lines,
        ended,
        held: 0,
        lost: 0,
        cleared: 0,
    }
}
