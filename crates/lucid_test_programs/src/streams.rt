//! Inputs that stand in memory.
ghost use Rattle.std.specs.Prelude.{◌≡◌, IfOk};
ghost use Rattle.std.specs.Option.{option_map};
ghost use Rattle.lucid_value.specs.View.{plain};
ghost use Rattle.lucid_test_programs.specs.Streams.{element_in, elements_of, first_stream};

use crate::env::same;
use lucid_value::{Name, Value};
use std::alloc::{AllocError, Global};

/// An input: its name and its elements, behind which end of data stands without end.
#[derive(Drop)]
pub struct Stream {
    pub name: Name,
    pub elements: Vec<Value>,
}

fn element_of(alloc: Global, elements: &[Value], index: u64) -> Result<Value, AllocError>
    ensures { IfOk result (λ value. plain value ≡ element_in elements.now index) }
{
    match elements.get(index as usize) {
        Some(value) => value.copy(alloc),
        None => Ok(Value::Eod),
    }
}

// The first stream of that name.
fn stream_of<'a>(streams: &'a [Stream], name: &Name) -> Option<&'a Stream>
    ensures { option_map (λ s. s.now) result ≡ first_stream name.now streams.now }
{
    streams.iter().find(|stream| same(name, &stream.name))
}

/// Element `index`, from 0, of the input with that name: `Eod` past its last one, and `None` where there is no such input.
pub fn element(
    alloc: Global,
    streams: &[Stream],
    name: &Name,
    index: u64,
) -> Result<Option<Value>, AllocError>
    ensures { IfOk result (λ value. option_map plain value ≡ elements_of streams.now name.now index) }
{
    match stream_of(streams, name) {
        Some(stream) => Ok(Some(element_of(alloc, &stream.elements, index)?)),
        None => Ok(None),
    }
}
