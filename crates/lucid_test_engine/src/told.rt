//! What fails a test: a row that isn't so, told by its name. No row is asserted while an engine or a program is owned, since each assertion is
//! a branch more to prove, with all that is owned then.
use std::test::Fail;

/// A row that isn't so fails the test, which tells its name.
pub(crate) fn must(holds: bool, name: &str) -> Result<(), Fail> {
    if holds { Ok(()) } else { Err(Fail::new(name)) }
}

/// Whether all of these hold.
pub(crate) fn all_hold(facts: &[bool]) -> bool {
    !facts.contains(&false)
}
