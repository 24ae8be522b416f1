// Writers of which it is settled whether they tell what they hold.
ghost use Rattle.std.specs.Prelude.{IsSome};

use std::fs::File;
use std::io::{Stderr, Stdout, Write};

/// A writer that tells at all times what it holds, as a vector does, or never, as standard output.
pub trait Output: Write {
    /// Where it tells of one state, it tells of each.
    ghost settled: { (v w : Self) → IsSome (Self.contents v) → IsSome (Self.contents w) };
}

impl Output for Stdout {
    ghost settled = { λ _ _ told. told };
}

impl Output for Stderr {
    ghost settled = { λ _ _ told. told };
}

impl Output for File {
    ghost settled = { λ _ _ told. told };
}

impl Output for Vec<u8> {
    ghost settled = { λ _ _ told. told };
}
