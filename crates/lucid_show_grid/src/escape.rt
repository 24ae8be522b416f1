//! Texts and numbers between the tags of a picture.
ghost use Rattle.std.specs.Prelude.{◌≡◌, ◌++◌, OnOk};
ghost use Rattle.lucid_show_grid.specs.Escapes.{escaped_byte, escaped, attribute_text, label_text};

use crate::parts::Part::{Attribute, Escaped, Text};
use crate::parts::put_parts;
use crate::put::{put_digits, put_text};
use std::alloc::AllocError;

// Appends a byte as it stands between tags: one that has a meaning there by its name, and one that isn't printable as a question mark.
#[tactic(auto, unfolding(crate::specs::Escapes::escaped_byte))]
fn put_byte(to: &mut Vec<u8>, byte: u8) -> Result<(), AllocError>
    ensures { OnOk result (to.new.items ≡ to.old.items ++ escaped_byte byte) }
{
    if byte == b'&' {
        return put_text(to, b"&amp;");
    }
    if byte == b'<' {
        return put_text(to, b"&lt;");
    }
    if byte == b'>' {
        return put_text(to, b"&gt;");
    }
    if byte == b'"' {
        return put_text(to, b"&quot;");
    }
    if byte == b'\'' {
        return put_text(to, b"&#39;");
    }
    if byte < 32 || byte > 126 {
        return put_text(to, b"?");
    }
    put_text(to, &[byte])
}

/// Appends a text as it stands between tags.
pub(crate) fn put_escaped(to: &mut Vec<u8>, text: &[u8]) -> Result<(), AllocError>
    ensures { OnOk result (to.new.items ≡ to.old.items ++ escaped text.now) }
{
    for byte in text {
        put_byte(to, *byte)?;
    }
    Ok(())
}

/// Appends an attribute that is a number.
#[tactic(auto, unfolding(crate::specs::Escapes::attribute_text))]
pub(crate) fn put_attribute(to: &mut Vec<u8>, name: &[u8], number: u64) -> Result<(), AllocError>
    ensures { OnOk result (to.new.items ≡ to.old.items ++ attribute_text name.now number) }
{
    put_text(to, b" ")?;
    put_text(to, name)?;
    put_text(to, b"=\"")?;
    put_digits(to, number)?;
    put_text(to, b"\"")
}

/// Appends a text of a class at a point.
#[tactic(auto, unfolding(crate::specs::Escapes::label_text))]
pub(crate) fn put_label<'a>(
    to: &mut Vec<u8>,
    class: &'a [u8],
    x: u64,
    y: u64,
    text: &'a [u8],
) -> Result<(), AllocError>
    ensures { OnOk result (to.new.items ≡ to.old.items ++ label_text class.now x y text.now) }
{
    put_parts(
        to,
        &[
            Text(b"<text class=\""),
            Text(class),
            Text(b"\""),
            Attribute(b"x", x),
            Attribute(b"y", y),
            Text(b">"),
            Escaped(text),
            Text(b"</text>\n"),
        ],
    )
}
