//! Words and numbers appended to a text, each behind a blank.
ghost use Rattle.std.specs.Prelude.{◌≡◌, ◌∷◌, ◌++◌, [], OnOk, decimal};
ghost use Rattle.lucid_texts.specs.Words.{spaced};

use itoa::Buffer;
use std::alloc::AllocError;

/// Appends a blank and a word.
pub fn put_word(to: &mut Vec<u8>, word: &[u8]) -> Result<(), AllocError>
    ensures { OnOk result (to.new.items ≡ to.old.items ++ spaced (word.now ∷ [])) }
{
    to.extend_from_slice(b" ")?;
    to.extend_from_slice(word)
}

/// Appends a blank and a number.
pub fn put_number(to: &mut Vec<u8>, n: u64) -> Result<(), AllocError>
    ensures { OnOk result (to.new.items ≡ to.old.items ++ spaced (decimal n ∷ [])) }
{
    let mut digits = Buffer::new();
    put_word(to, digits.format(n).as_bytes())
}
