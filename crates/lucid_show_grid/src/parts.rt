//! Texts that are made of parts.
ghost use Rattle.std.specs.Prelude.{◌≡◌, ◌++◌, OnOk};
ghost use Rattle.lucid_show_grid.specs.Parts.{part_text, parts_text};

use crate::arrows::put_point;
use crate::escape::{put_attribute, put_escaped};
use crate::put::{put_digits, put_text};
use std::alloc::AllocError;

/// A part of a text.
#[derive(Clone, Copy)]
pub(crate) enum Part<'a> {
    /// These bytes.
    Text(&'a [u8]),
    /// The digits of a number.
    Number(u64),
    /// A text as it stands between tags.
    Escaped(&'a [u8]),
    /// An attribute that is a number.
    Attribute(&'a [u8], u64),
    /// A point of a path.
    Point(u64, u64),
}

fn put_part(to: &mut Vec<u8>, part: Part<'_>) -> Result<(), AllocError>
    ensures { OnOk result (to.new.items ≡ to.old.items ++ part_text part.entry) }
{
    match part {
        Part::Text(text) => put_text(to, text),
        Part::Number(number) => put_digits(to, number),
        Part::Escaped(text) => put_escaped(to, text),
        Part::Attribute(name, number) => put_attribute(to, name, number),
        Part::Point(x, y) => put_point(to, x, y),
    }
}

/// Appends parts, one behind the other.
pub(crate) fn put_parts(to: &mut Vec<u8>, parts: &[Part<'_>]) -> Result<(), AllocError>
    ensures { OnOk result (to.new.items ≡ to.old.items ++ parts_text parts.now) }
{
    for part in parts {
        put_part(to, *part)?;
    }
    Ok(())
}
