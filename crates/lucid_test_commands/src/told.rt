//! The words of a call, and what fails a test.
use std::alloc::{AllocError, Global};
use std::test::Fail;

/// The words, parted by blanks.
pub(crate) fn word_list(alloc: Global, words: &str) -> Result<Vec<String>, AllocError> {
    let mut list = Vec::new(alloc);
    for word in words.split_whitespace() {
        list.push(String::from_str(alloc, word)?)?;
    }
    Ok(list)
}

/// A row that isn't so fails the test, which tells its name.
pub(crate) fn must(holds: bool, name: &str) -> Result<(), Fail> {
    if holds { Ok(()) } else { Err(Fail::new(name)) }
}
