//! The line that a judgment is written as.
ghost use Rattle.std.specs.Prelude.{◌≡◌, ◌++◌, ℕ, codes, OnOk, IfOk, MatchResult};
ghost use Rattle.std.specs.Fmt.{signed_decimal};
ghost use Rattle.std.specs.List.{join_by};
ghost use Rattle.lucid_scope.specs.Scoped.{scoped_tree};
ghost use Rattle.lucid_cycles.specs.Cycles.{total};
ghost use Rattle.lucid_cycles.specs.JudgmentLine.{definition_text, name_text, judgment_line};
ghost use Rattle.lucid_cycles.specs.Found.{text_at};
ghost use Rattle.lucid_cycles.specs.Readers.{Finds, finds-goes};

use crate::judgment::Judgment;
use crate::walk::{Mark, Reader, walk};
use itoa::Buffer;
use lucid_scope::Scoped;
use lucid_value::Name;
use std::alloc::{AllocError, Global};

/// The definition of a plain name: its place, and the name.
#[derive(Drop)]
pub(crate) struct Definition {
    at: u32,
    name: Name,
}

// The definitions of plain names that are met.
impl Reader for Vec<Definition> {
    type Stop = AllocError;

    ghost reads = { Finds };

    ghost goes = { finds-goes };

    fn read(&mut self, mark: Mark<'_>) -> Result<(), AllocError> {
        if let Mark::Name { at, name } = mark {
            let name = name.copy()?;
            self.push(Definition { at, name })?;
        }
        Ok(())
    }
}

// The definitions of a program's plain names, in the order of their places: that of the name with number k is at k.
fn definitions_in_order(alloc: Global, scoped: &Scoped) -> Result<Vec<Definition>, AllocError>
    ensures { IfOk result (λ v. (k : ℕ) → text_at v.items k ≡ name_text (scoped_tree scoped.now) k) }
{
    let mut found = Vec::new(alloc);
    walk(&mut found, scoped)?;
    found.sort_by_key(|def| def.at)?;
    Ok(found)
}

// The sum of the delays. Each of them is within 2^63, and so is their number.
fn sum_of(delays: &[i64]) -> i128
    ensures { result ≡ total delays.now }
{
    let mut sum = 0;
    for delay in delays {
        sum += i128::from(*delay);
    }
    sum
}

// Appends a name and the place of its definition.
fn put_definition(line: &mut Vec<u8>, def: &Definition) -> Result<(), AllocError>
    ensures { OnOk result (line.new.items ≡ line.old.items ++ definition_text def.now) }
{
    line.extend_from_slice(def.name.bytes())?;
    line.extend_from_slice(b" at ")?;
    line.extend_from_slice(Buffer::new().format(def.at).as_bytes())
}

// Appends the name with this number and the place of its definition, or nothing where there is no such name.
fn put_name(line: &mut Vec<u8>, found: &[Definition], number: u64) -> Result<(), AllocError>
    ensures { OnOk result (line.new.items ≡ line.old.items ++ text_at found.now number) }
{
    match found.get(number as usize) {
        Some(def) => put_definition(line, def),
        None => Ok(()),
    }
}

// Appends the names with these numbers, parted by a comma and a blank.
fn put_names(line: &mut Vec<u8>, found: &[Definition], numbers: &[u64]) -> Result<(), AllocError>
    ensures { OnOk result (line.new.items ≡ line.old.items ++ join_by (text_at found.now) (codes ", ") numbers.now) }
{
    if let Some((first, others)) = numbers.split_first() {
        put_name(line, found, *first)?;
        for number in others {
            line.extend_from_slice(b", ")?;
            put_name(line, found, *number)?;
        }
    }
    Ok(())
}

fn cycle_line(
    alloc: Global,
    scoped: &Scoped,
    names: &[u64],
    delays: &[i64],
) -> Result<Vec<u8>, AllocError>
    ensures { IfOk result (λ line. line.items ≡ codes "cycle " ++ (join_by (name_text (scoped_tree scoped.now)) (codes ", ") names.now ++ (codes ": sum " ++ (signed_decimal (total delays.now) ++ codes "\n")))) }
{
    let found = definitions_in_order(alloc, scoped)?;
    let sum = sum_of(delays);
    let mut line = Vec::from_slice(alloc, b"cycle ")?;
    put_names(&mut line, &found, names)?;
    line.extend_from_slice(format!(in alloc; ": sum {sum}\n")?.as_bytes())?;
    Ok(line)
}

impl Judgment {
    fn line(&self, alloc: Global, scoped: &Scoped) -> Result<Vec<u8>, AllocError>
        ensures { IfOk result (λ line. line.items ≡ judgment_line (scoped_tree scoped.now) self.now) }
    {
        match self {
            Judgment::Enough { factor, add, .. } => {
                Ok(format!(in alloc; "depth {factor} * t + {add}\n")?.into_bytes())
            }
            Judgment::Cycle { names, delays } => {
                cycle_line(alloc, scoped, names.items(), delays.items())
            }
        }
    }

    /// Appends the line of a judgment of this program, with its line feed: `depth A * t + C`, or `cycle x at N, y at N: sum S` with the
    /// places of the names' definitions and the sum of the delays. At a refusal the text is as it was.
    pub fn show(&self, alloc: Global, scoped: &Scoped, to: &mut Vec<u8>) -> Result<(), AllocError>
        ensures { MatchResult result (λ _. to.new.items ≡ to.old.items ++ judgment_line (scoped_tree scoped.now) self.now)
            (λ _. to.new.items ≡ to.old.items) }
    {
        let line = self.line(alloc, scoped)?;
        to.extend_from_slice(&line)
    }
}
