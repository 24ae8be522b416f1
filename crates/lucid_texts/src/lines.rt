//! The lines of a text, read one after the other up to the first with which no text goes on.
ghost use Rattle.std.specs.Prelude.{◌≡◌, ◌∷◌, ◌++◌, ◌↔◌, [], true, IfOk, MatchOption};
ghost use Rattle.std.specs.Bool.{MatchBool};
ghost use Rattle.std.specs.List.{AllByRecursion};
ghost use Rattle.lucid_texts.specs.TextLines.{IsLine, CanGoOn, CannotGoOn, IsFirstWrongLine, text_of};

use crate::words::cut;
use std::alloc::{AllocError, Global};

/// What gathers the lines of a text.
pub trait Lines {
    ghost use Rattle.std.specs.Prelude.{ℕ, List};

    /// Which lists of lines are those of a text.
    ghost is_text: { List (List ℕ) → Type 0 };

    /// The lines so far.
    ghost lines: { Self → List (List ℕ) };

    /// What holds of all that is gathered.
    ghost keeps: { Self → Type 0 };

    /// No line of a text is empty or has a line end.
    fn lines_of_texts()
        ensures { (ls : List (List ℕ)) → is_text ls → AllByRecursion IsLine ls };

    /// Adds a line, where a text goes on with it.
    fn add(&mut self, alloc: Global, line: &[u8]) -> Result<bool, AllocError>
        requires { keeps self.old }
        ensures { IfOk result (λ added. MatchBool added (keeps self.new × (lines self.new ≡ lines self.old ++ line.now ∷ []) × CanGoOn is_text (lines self.new)) (CannotGoOn is_text (lines self.old ++ line.now ∷ []))) };

    /// Whether the lines so far are those of a text.
    fn is_whole(&self) -> bool
        requires { keeps self.now }
        ensures { (result ≡ true) ↔ is_text (lines self.now) };
}

/// Adds the lines of the bytes, and gives the number of the first with which no text goes on, if there is one: where the bytes end too
/// early, the number after that of their last whole line.
pub fn add_lines<L: Lines>(
    alloc: Global,
    to: &mut L,
    bytes: &[u8],
) -> Result<Option<u64>, AllocError>
    requires keeps { L.keeps to.old }
    requires none { L.lines to.old ≡ [] }
    requires some { CanGoOn L.is_text [] }
    ensures { IfOk result (λ wrong. MatchOption wrong (L.keeps to.new × L.is_text (L.lines to.new) × (bytes.now ≡ text_of (L.lines to.new))) (λ line. IsFirstWrongLine L.is_text bytes.now line)) }
{
    // For the proof: what a text is made of are lines.
    L::lines_of_texts();
    let mut rest = bytes;
    let mut read: u64 = 0;
    while let Some((line, behind)) = cut(rest, b'\n') {
        if !to.add(alloc, line)? {
            return Ok(Some(read + 1));
        }
        rest = behind;
        read += 1;
    }
    if rest.is_empty() && to.is_whole() {
        Ok(None)
    } else {
        Ok(Some(read + 1))
    }
}
