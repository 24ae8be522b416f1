//! The text of an outline.
ghost use Rattle.std.specs.Prelude.{◌≡◌, ◌++◌, IfOk, OnOk};
ghost use Rattle.lucid_show_outline.specs.Views.{view_of};
ghost use Rattle.lucid_show_outline.specs.Lines.{entries_text, count_text, lines_text, told_lines, IsOutlineOf, IsOutline};

use crate::choice::chosen;
use crate::source::Source;
use crate::value::put_digits;
use lucid_cert_rules::{Entry, outline};
use std::alloc::AllocError;

// Appends the lines of entries.
fn put_entries(source: &Source<'_>, to: &mut Vec<u8>, entries: &[Entry]) -> Result<(), AllocError>
    ensures { OnOk result (to.new.items ≡ to.old.items ++ entries_text (view_of source.now) entries.now) }
{
    for entry in entries {
        source.put_line(to, entry)?;
    }
    Ok(())
}

// Appends how many lines of a kind there are, where there are such.
#[tactic(auto, unfolding(crate::specs::Lines::count_text))]
fn put_count(to: &mut Vec<u8>, kind: &[u8], count: usize) -> Result<(), AllocError>
    ensures { OnOk result (to.new.items ≡ to.old.items ++ count_text kind.now count) }
{
    if count == 0 {
        return Ok(());
    }
    to.extend_from_slice(b".. (lines ")?;
    to.extend_from_slice(kind)?;
    to.extend_from_slice(b": ")?;
    put_digits(to, count as u64)?;
    to.extend_from_slice(b")\n")
}

// The text of these entries under the line of the judgment of a number: at most so many lines.
fn text_of(
    source: &Source<'_>,
    most: u32,
    number: u64,
    entries: &[Entry],
) -> Result<Vec<u8>, AllocError>
    ensures { IfOk result (λ text. text.items ≡ lines_text (view_of source.now) most number entries.now) }
{
    let shown = entries.len().min(most as usize);
    let mut text = Vec::new(source.alloc);
    source.put_output(&mut text, number)?;
    put_entries(source, &mut text, &entries[..shown])?;
    put_count(&mut text, b"left out", entries.len() - shown)?;
    Ok(text)
}

// The text of those of these entries whose names are chosen.
fn told_text(
    source: &Source<'_>,
    most: u32,
    number: u64,
    entries: &[Entry],
) -> Result<Vec<u8>, AllocError>
    ensures { IfOk result (λ text. text.items ≡ told_lines (view_of source.now) most number entries.now) }
{
    let told = chosen(source, entries)?;
    let mut text = text_of(source, most, number, &told)?;
    let others = entries.len().saturating_sub(told.len());
    put_count(&mut text, b"of other names", others)?;
    Ok(text)
}

// The outline of the judgment of a number.
fn outline_of(source: &Source<'_>, most: u32, number: u64) -> Result<Vec<u8>, AllocError>
    ensures { IfOk result (λ text. IsOutlineOf (view_of source.now) most number text.items) }
{
    let entries = outline(source.alloc, source.table, source.judgments, number)?;
    told_text(source, most, number, &entries)
}

/// The outline of the last judgment: a line for what the output is, and under it the lines of what it needed, at most so many. Where names are
/// chosen, their lines alone are told. How many others there are is told too.
pub fn outline_text(source: &Source<'_>, most: u32) -> Result<Vec<u8>, AllocError>
    ensures { IfOk result (λ text. IsOutline (view_of source.now) most text.items) }
{
    outline_of(source, most, source.last())
}
