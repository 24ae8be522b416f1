//! Parts of what is said.
ghost use Rattle.std.specs.Prelude.{◌≡◌, ◌≤◌, ◌++◌, length, decimal, OnOk};
ghost use Rattle.lucid_scan.specs.Refusals.{most_source_bytes};
ghost use Rattle.lucid_explain_places.specs.Positions.{where_text};

use crate::position::position_of;
use itoa::Buffer;
use std::alloc::AllocError;

/// Appends a text and a number.
pub fn put_number(text: &mut Vec<u8>, before: &[u8], number: u64) -> Result<(), AllocError>
    ensures { OnOk result (text.new.items ≡ text.old.items ++ (before.now ++ decimal number)) }
{
    text.extend_from_slice(before)?;
    text.extend_from_slice(Buffer::new().format(number).as_bytes())
}

/// Appends a text, and then the line and the column of a place of the source.
pub fn put_where(
    text: &mut Vec<u8>,
    before: &[u8],
    source: &[u8],
    at: usize,
) -> Result<(), AllocError>
    requires within { at ≤ length source.now }
    requires short { length source.now ≤ most_source_bytes }
    ensures { OnOk result (text.new.items ≡ text.old.items ++ where_text before.now source.now at) }
{
    let position = position_of(source, at);
    put_number(text, before, u64::from(position.line))?;
    put_number(text, b", column ", u64::from(position.column))?;
    text.extend_from_slice(b".\n")
}
