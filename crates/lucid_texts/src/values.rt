//! The value that bytes are the text of.
ghost use Rattle.std.specs.Prelude.{IfOk};
ghost use Rattle.lucid_texts.specs.ValueLines.{IsValueOf};

use lucid_value::{ReadRefusal, Value, one_line_reading, read_value, text_is_read};
use std::alloc::{AllocError, Global};

/// The value whose text the bytes are. Reading takes more than the one text of each value, and this doesn't.
pub fn read_text(alloc: Global, bytes: &[u8]) -> Result<Option<Value>, AllocError>
    ensures { IfOk result (λ read. IsValueOf bytes.now read) }
{
    // For the proof: a value's text is read as that value, and no line is read as two values.
    text_is_read();
    one_line_reading();
    let value = match read_value(alloc, bytes) {
        Ok(value) => value,
        Err(ReadRefusal::NotValue) => return Ok(None),
        Err(ReadRefusal::NoMemory) => return Err(AllocError),
    };
    let mut text = Vec::new(alloc);
    value.show(alloc, &mut text)?;
    if text.as_slice() == bytes {
        Ok(Some(value))
    } else {
        Ok(None)
    }
}
