//! Texts at the end of others.
ghost use Rattle.std.specs.Prelude.{◌≡◌, ◌++◌, OnOk, decimal};
ghost use Rattle.lucid_show_grid.specs.Fields.{blanks, left, right, left_out_text};

use crate::parts::Part::{Number, Text};
use crate::parts::put_parts;
use itoa::Buffer;
use std::alloc::AllocError;

/// Appends a text.
pub(crate) fn put_text(to: &mut Vec<u8>, text: &[u8]) -> Result<(), AllocError>
    ensures { OnOk result (to.new.items ≡ to.old.items ++ text.now) }
{
    to.extend_from_slice(text)
}

/// Appends the digits of a number.
pub(crate) fn put_digits(to: &mut Vec<u8>, number: u64) -> Result<(), AllocError>
    ensures { OnOk result (to.new.items ≡ to.old.items ++ decimal number) }
{
    to.extend_from_slice(Buffer::new().format(number).as_bytes())
}

// Appends so many blanks.
#[tactic(auto, unfolding(crate::specs::Fields::blanks))]
fn put_blanks(to: &mut Vec<u8>, count: usize) -> Result<(), AllocError>
    ensures { OnOk result (to.new.items ≡ to.old.items ++ blanks count) }
{
    for _blank in 0..count {
        to.push(b' ')?;
    }
    Ok(())
}

/// Appends a text at the left end of so many columns.
#[tactic(auto, unfolding(crate::specs::Fields::left))]
pub(crate) fn put_left(to: &mut Vec<u8>, text: &[u8], columns: usize) -> Result<(), AllocError>
    ensures { OnOk result (to.new.items ≡ to.old.items ++ left columns text.now) }
{
    to.extend_from_slice(text)?;
    put_blanks(to, columns.saturating_sub(text.len()))
}

/// Appends a text at the right end of so many columns.
#[tactic(auto, unfolding(crate::specs::Fields::right))]
pub(crate) fn put_right(to: &mut Vec<u8>, text: &[u8], columns: usize) -> Result<(), AllocError>
    ensures { OnOk result (to.new.items ≡ to.old.items ++ right columns text.now) }
{
    put_blanks(to, columns.saturating_sub(text.len()))?;
    to.extend_from_slice(text)
}

/// Appends a number at the right end of so many columns.
pub(crate) fn put_number(to: &mut Vec<u8>, number: u64, columns: usize) -> Result<(), AllocError>
    ensures { OnOk result (to.new.items ≡ to.old.items ++ right columns (decimal number)) }
{
    let mut digits = Buffer::new();
    put_right(to, digits.format(number).as_bytes(), columns)
}

/// Appends how many of something are left out.
#[tactic(auto, unfolding(crate::specs::Fields::left_out_text))]
pub(crate) fn put_left_out(to: &mut Vec<u8>, what: &[u8], count: u64) -> Result<(), AllocError>
    ensures { OnOk result (to.new.items ≡ to.old.items ++ left_out_text what.now count) }
{
    put_parts(
        to,
        &[
            Text(b".. ("),
            Text(what),
            Text(b" left out: "),
            Number(count),
            Text(b")"),
        ],
    )
}
