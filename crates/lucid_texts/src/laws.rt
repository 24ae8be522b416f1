//! Laws of texts. The functions do nothing: each one's contract is the law.
ghost use Rattle.lucid_texts.specs.Laws.{OneValue};

use lucid_value::{one_line_reading, text_is_read};

/// No text is that of two values.
pub fn one_value()
    ensures { OneValue }
{
    text_is_read();
    one_line_reading();
}
