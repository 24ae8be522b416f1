//! The words of a line, one blank between each two, and the numbers that words are.
ghost use Rattle.std.specs.Prelude.{◌≡◌, ◌<◌, ◌∷◌, ◌++◌, IfSome, MatchOption};
ghost use Rattle.std.specs.Option.{option_copied, option_map};
ghost use Rattle.lucid_texts.specs.Words.{HasNone, words_left, number_of, take_word, take_number, is_end};

use itoa::Buffer;
use memchr::memchr;

/// The bytes before the first such byte, and those behind it.
pub fn cut(bytes: &[u8], byte: u8) -> Option<(&[u8], &[u8])>
    ensures { MatchOption result (HasNone byte bytes.now) (λ x. (bytes.now ≡ x.0.now ++ byte ∷ x.1.now) × HasNone byte x.0.now) }
{
    let end = memchr(byte, bytes)?;
    Some((&bytes[..end], &bytes[end + 1..]))
}

/// The next word, and what is left behind it.
pub fn next_word(rest: Option<&[u8]>) -> Option<(&[u8], Option<&[u8]>)>
    ensures { option_map (λ x. (x.0.now, words_left (option_copied x.1))) result ≡ take_word (words_left (option_copied rest.entry)) }
{
    let bytes = rest?;
    match cut(bytes, b' ') {
        Some((word, behind)) => Some((word, Some(behind))),
        None => Some((bytes, None)),
    }
}

// The number below the bound whose digits the text is.
fn digits_of(text: &str, bound: u64) -> Option<u64>
    ensures { result ≡ number_of bound text.now }
{
    match text.parse::<u64>() {
        Ok(n) => {
            if n >= bound {
                return None;
            }
            // Parsing takes a sign and leading zeros too.
            let mut digits = Buffer::new();
            if digits.format(n) == text {
                Some(n)
            } else {
                None
            }
        }
        Err(_) => None,
    }
}

/// The number that a word is: decimal digits without leading zeros, below the bound.
pub fn number(word: &[u8], bound: u64) -> Option<u64>
    ensures { result ≡ number_of bound word.now }
{
    match std::str::from_utf8(word) {
        Ok(text) => digits_of(text, bound),
        Err(_) => None,
    }
}

/// The number below the bound that the next word is, and what is left behind it.
#[tactic(auto, unfolding(crate::specs::Words::take_number))]
pub fn next_number(rest: Option<&[u8]>, bound: u64) -> Option<(u64, Option<&[u8]>)>
    ensures taken { option_map (λ x. (x.0, words_left (option_copied x.1))) result ≡ take_number bound (words_left (option_copied rest.entry)) }
    ensures below { IfSome result (λ x. x.0 < bound) }
{
    let (word, rest) = next_word(rest)?;
    let n = number(word, bound)?;
    Some((n, rest))
}

/// Whether no word is left.
pub fn at_end(rest: Option<&[u8]>) -> bool
    ensures { result ≡ is_end (words_left (option_copied rest.entry)) }
{
    rest.is_none()
}
