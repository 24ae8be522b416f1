//! A worked program.
use std::alloc::{AllocError, Global};

/// A worked program.
#[derive(Clone, Copy)]
pub struct Worked {
    /// By which a row that fails is told.
    pub name: &'static str,
    pub source: &'static str,
    /// The bytes of its inputs, by their names, in the order in which the program uses them first.
    pub inputs: &'static [(&'static str, &'static str)],
    /// The texts of its values at the times from 0 on; there is none where it has no value at time 0.
    pub values: &'static [&'static str],
    /// The texts of its values at the times behind these.
    pub later: &'static [&'static str],
    /// A limit by which it has all these values.
    pub enough: u32,
    /// The least limit by which it has each value, where that is worked out.
    pub least: &'static [u32],
    /// How many bytes of the first and of the second input are consumed once `values` are known.
    pub consumed: [u64; 2],
    /// How many values are held then, where nothing is dropped: one for each name that was needed, in its context, at its time and space.
    pub held: u64,
}

/// What most programs have: no input, nothing that is held, and values that need one reference at most.
pub(crate) const PLAIN: Worked = Worked {
    name: "",
    source: "",
    inputs: &[],
    values: &[],
    later: &[],
    enough: 1,
    least: &[],
    consumed: [0, 0],
    held: 0,
};

/// The text of the end of data.
const END: &str = "eod";

// The values before the end of data, each ended by a line end, behind what is there; whether the end comes.
fn add_lines(lines: &mut String, values: &[&str]) -> Result<bool, AllocError> {
    for value in values {
        if *value == END {
            return Ok(true);
        }
        lines.push_str(value)?;
        lines.push_str("\n")?;
    }
    Ok(false)
}

impl Worked {
    /// How many values are told.
    pub fn count(&self) -> usize {
        self.values.len().saturating_add(self.later.len())
    }

    /// Whether the end of data is among the values.
    pub fn ends(&self) -> bool {
        self.values
            .iter()
            .chain(self.later.iter())
            .any(|value| *value == END)
    }

    /// The lines of a run for as many values as are told.
    pub fn lines(&self, alloc: Global) -> Result<String, AllocError> {
        let mut lines = String::new(alloc);
        if !add_lines(&mut lines, self.values)? {
            add_lines(&mut lines, self.later)?;
        }
        Ok(lines)
    }
}
