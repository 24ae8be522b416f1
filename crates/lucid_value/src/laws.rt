//! Laws of texts and reading. The functions do nothing: each one's contract is the law.
ghost use Rattle.lucid_value.specs.Laws.{TextIsRead, OneReading, OneLineReading, OneListFront, ElementIs, OneElement};

/// The text of a value is read as that value.
pub fn text_is_read()
    ensures { TextIsRead }
{}

/// No bytes are read as two values.
pub fn one_reading()
    ensures { OneReading }
{}

/// No line is read as two values.
pub fn one_line_reading()
    ensures { OneLineReading }
{}

/// No list's bytes begin another list's.
pub fn one_list_front()
    ensures { OneListFront }
{}

/// The function of elements gives each element.
pub fn element_is()
    ensures { ElementIs }
{}

/// An element is one value.
pub fn one_element()
    ensures { OneElement }
{}
