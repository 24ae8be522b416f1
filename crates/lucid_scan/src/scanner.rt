//! The tokens of a source.
ghost use Rattle.std.specs.Prelude.{◌≡◌, ◌≤◌, length, IfOk, IfErr};
ghost use Rattle.lucid_scan.specs.Tokens.{Tokens};
ghost use Rattle.lucid_scan.specs.Refusals.{Refuses, most_source_bytes};

use crate::bytes::gap_len;
use crate::front::token_at;
use crate::refusal::{ScanRefusal, refusal_of};
use crate::token::Token;
use std::alloc::Global;

/// The most bytes of a source. A longer one is refused.
pub const MAX_SOURCE_BYTES: usize = 1_048_576;

/// The tokens of the source, each the longest that stands at its place.
///
/// The time is linear in the source. By the laws `tokens_are_not_refused` and `refusal_is_unique` of this crate, each answer but
/// want of memory comes exactly where its clause holds.
pub fn scan(alloc: Global, source: &[u8]) -> Result<Vec<Token>, ScanRefusal>
    ensures tokens { IfOk result (λ tokens. Tokens source.now 0 tokens.items) }
    ensures short { IfOk result (λ _. length source.now ≤ most_source_bytes) }
    ensures refused { IfErr result (Refuses source.now) }
{
    if source.len() > MAX_SOURCE_BYTES {
        return Err(ScanRefusal::TooLong);
    }
    let mut tokens = Vec::new(alloc);
    let mut at = 0;
    loop {
        let from = at + gap_len(&source[at..]);
        if from >= source.len() {
            return Ok(tokens);
        }
        let found = token_at(alloc, &source[from..])?;
        match found {
            Some(front) => {
                at = from + front.len;
                tokens.push(Token {
                    kind: front.kind,
                    from: from as u32,
                    to: at as u32,
                })?;
            }
            None => return Err(refusal_of(&source[from..], from as u32)),
        }
    }
}
