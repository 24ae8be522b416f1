//! What fails a test: a row that isn't so, told by its name or its source; several facts at once. Rows are looked at by functions that own what
//! they need and give back a truth, for a test that asserts each row pays for each assertion with all that is owned then.
use std::test::Fail;

/// The number of the first that doesn't hold, from 0.
pub(crate) fn first_false(facts: &[bool]) -> Option<usize> {
    for (number, fact) in facts.iter().enumerate() {
        if !*fact {
            return Some(number);
        }
    }
    None
}

/// A row or a fact that isn't so fails the test, which tells its number.
pub(crate) fn none_wrong(wrong: Option<usize>, name: &str) -> Result<(), Fail> {
    match wrong {
        None => Ok(()),
        Some(number) => Err(Fail::new(format_args!("{name}: {number}"))),
    }
}

/// A row that isn't so fails the test, which tells its name.
pub(crate) fn must(holds: bool, name: &str) -> Result<(), Fail> {
    if holds { Ok(()) } else { Err(Fail::new(name)) }
}

/// Whether all of these hold.
pub(crate) fn all_hold(facts: &[bool]) -> bool {
    !facts.contains(&false)
}
