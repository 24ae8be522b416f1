//! What an engine is made over: a program, and its inputs in files in memory.
ghost use Rattle.std.specs.Prelude.{◌≡◌, length, IfOk, OnOk};
ghost use Rattle.lucid_ports.specs.MemoryView.{memory_world};
ghost use Rattle.lucid_inputs.specs.Inputs.{streams};
ghost use Rattle.lucid_equations.specs.Programs.{table_of};
ghost use Rattle.lucid_demand_steps.specs.Engine.{AreAskable};

use crate::trials::texts::scoped_of;
use lucid_compile::compile;
use lucid_equations::Program;
use lucid_inputs::{Inputs, fresh_fits};
use lucid_ports::{FailAt, MemoryFile, MemoryPlaces, Places};
use lucid_value::Name;
use std::alloc::Global;
use std::test::Fail;

/// How many bytes of an input may be read, where nothing else is said.
pub const MOST_BYTES: u64 = 268_435_456;

/// A program, and the files of its inputs.
#[derive(Clone, Copy)]
pub struct Setup<'a> {
    pub source: &'a str,
    /// The bytes of each input, by its name.
    pub files: &'a [(&'a str, &'a str)],
    pub failures: &'a [FailAt],
    /// How many bytes of each input may be read.
    pub most: u64,
}

impl<'a> Setup<'a> {
    /// A program over files that are read without a failure.
    pub const fn of(source: &'a str, files: &'a [(&'a str, &'a str)]) -> Setup<'a> {
        Setup {
            source,
            files,
            failures: &[],
            most: MOST_BYTES,
        }
    }
}

/// A program, its inputs, of which nothing is read, and their places, numbered as the inputs are.
#[derive(Drop)]
pub struct Parts {
    pub program: Program,
    pub inputs: Inputs,
    pub places: MemoryPlaces,
}

fn memory_places(alloc: Global, setup: &Setup) -> Result<MemoryPlaces, Fail>
    ensures { IfOk result (λ places. (memory_world places).reached ≡ 0) }
{
    let mut files = Vec::new(alloc);
    for (name, bytes) in setup.files {
        files.push(MemoryFile {
            name: String::from_str(alloc, name)?,
            bytes: Vec::from_slice(alloc, bytes.as_bytes())?,
        })?;
    }
    let failures = Vec::from_slice(alloc, setup.failures)?;
    Ok(MemoryPlaces::make(alloc, files, failures))
}

fn no_streams(alloc: Global, places: &MemoryPlaces, most: u64) -> Result<Inputs, Fail>
    ensures count { IfOk result (λ inputs. length (streams inputs) ≡ 0) }
    ensures askable { IfOk result (λ inputs. AreAskable (streams inputs) (memory_world places.now)) }
{
    let numbers = Vec::new(alloc);
    let inputs = Inputs::make(alloc, numbers, most)?;
    Ok(inputs)
}

// The stream of the file of a name.
fn one_stream(
    alloc: Global,
    places: &mut MemoryPlaces,
    name: &Name,
    most: u64,
) -> Result<Inputs, Fail>
    requires { (memory_world places.old).reached ≡ 0 }
    ensures count { IfOk result (λ inputs. length (streams inputs) ≡ 1) }
    ensures reached { OnOk result ((memory_world places.new).reached ≡ 1) }
    ensures askable { IfOk result (λ inputs. AreAskable (streams inputs) (memory_world places.new)) }
{
    fresh_fits();
    let name = str::from_utf8(name.bytes())?;
    let place = places.reach(alloc, name)?;
    let numbers = Vec::from_slice(alloc, &[place])?;
    let inputs = Inputs::make(alloc, numbers, most)?;
    Ok(inputs)
}

// The streams of the files of two names.
fn two_streams(
    alloc: Global,
    places: &mut MemoryPlaces,
    first: &Name,
    second: &Name,
    most: u64,
) -> Result<Inputs, Fail>
    requires { (memory_world places.old).reached ≡ 0 }
    ensures count { IfOk result (λ inputs. length (streams inputs) ≡ 2) }
    ensures reached { OnOk result ((memory_world places.new).reached ≡ 2) }
    ensures askable { IfOk result (λ inputs. AreAskable (streams inputs) (memory_world places.new)) }
{
    fresh_fits();
    let first = str::from_utf8(first.bytes())?;
    let second = str::from_utf8(second.bytes())?;
    let a = places.reach(alloc, first)?;
    let b = places.reach(alloc, second)?;
    let numbers = Vec::from_slice(alloc, &[a, b])?;
    let inputs = Inputs::make(alloc, numbers, most)?;
    Ok(inputs)
}

// The streams of the files of these names, which are two at most.
fn streams_of(
    alloc: Global,
    places: &mut MemoryPlaces,
    names: &[Name],
    most: u64,
) -> Result<Inputs, Fail>
    requires { (memory_world places.old).reached ≡ 0 }
    ensures count { IfOk result (λ inputs. length (streams inputs) ≡ length names.now) }
    ensures reached { OnOk result ((memory_world places.new).reached ≡ length names.now) }
    ensures askable { IfOk result (λ inputs. AreAskable (streams inputs) (memory_world places.new)) }
{
    match names {
        [] => no_streams(alloc, places, most),
        [only] => one_stream(alloc, places, only, most),
        [first, second] => two_streams(alloc, places, first, second, most),
        _ => Err(Fail::new("more than two inputs")),
    }
}

fn program_of(alloc: Global, source: &str) -> Result<Program, Fail> {
    let program = compile(alloc, &scoped_of(alloc, source)?);
    Ok(program?)
}

// The inputs of a program, each of which is read from the file of its name, and their places.
fn inputs_of(
    alloc: Global,
    setup: &Setup,
    program: &Program,
) -> Result<(Inputs, MemoryPlaces), Fail>
    ensures streams { IfOk result (λ made. length (streams made.0) ≡ length (table_of program.now).inputs) }
    ensures askable { IfOk result (λ made. AreAskable (streams made.0) (memory_world made.1)) }
    ensures reached { IfOk result (λ made. (memory_world made.1).reached ≡ length (table_of program.now).inputs) }
{
    let mut places = memory_places(alloc, setup)?;
    let names = program.table().inputs.items();
    let inputs = streams_of(alloc, &mut places, names, setup.most)?;
    Ok((inputs, places))
}

impl Parts {
    /// A program, each of whose inputs is read from the file of its name.
    pub fn make(alloc: Global, setup: &Setup) -> Result<Parts, Fail>
        ensures streams { IfOk result (λ parts. length (streams parts.inputs) ≡ length (table_of parts.program).inputs) }
        ensures askable { IfOk result (λ parts. AreAskable (streams parts.inputs) (memory_world parts.places)) }
        ensures reached { IfOk result (λ parts. (memory_world parts.places).reached ≡ length (table_of parts.program).inputs) }
    {
        let program = program_of(alloc, setup.source)?;
        let (inputs, places) = inputs_of(alloc, setup, &program)?;
        Ok(Parts {
            program,
            inputs,
            places,
        })
    }
}
