// What real places read from.
ghost use Rattle.std.specs.Prelude.{◌≡◌, ◌<◌, ◌≤◌, ℕ, List, Option, length, take, option_map, IfSome, IfNone};
ghost use Rattle.std.specs.Io.{StartsWith};
ghost use Rattle.lucid_ports.specs.Supply.{IsEnd, standard_input};
ghost use Rattle.lucid_ports.specs.World.{Contents, advanced, unread};

/// A reader of bytes in order.
pub trait Supply {
    /// The bytes read and those that are left, where the reader tells them.
    ghost contents: { Self → Option Contents };

    /// What more is known of a call of `read`: of the reader before, the answer and the reader after.
    ghost read_gives: { Self → Option ℕ → Self → Type 0 } = { λ _ _ _. Unit {0} };

    /// Reads the first bytes that are left to the front of the buffer, and gives their number; none where it fails, and
    /// then nothing is read.
    fn read(&mut self, buffer: &mut [u8]) -> Option<usize>
        ensures bound { IfSome result (λ n. n ≤ length buffer.new) }
        ensures front { IfSome result (λ n. IfSome (contents self.old) (λ c. StartsWith c.left (take n buffer.new))) }
        ensures end { IfSome result (λ n. n ≡ 0 → 0 < length buffer.old → IsEnd (contents self.old)) }
        ensures read { IfSome result (λ n. contents self.new ≡ option_map (advanced n) (contents self.old)) }
        ensures failed { IfNone result (contents self.new ≡ contents self.old) }
        ensures gives { read_gives self.old result self.new };
}

/// Such a reader that shows what is left ahead.
pub trait Preview: Supply {
    /// What more is known of a call of `show`: of the reader before, the answer and the reader after.
    ghost show_gives: { Self → Option ℕ → Self → Type 0 } = { λ _ _ _. Unit {0} };

    /// Copies the first bytes that are left to the front of the buffer, and gives their number; none where it fails.
    /// Nothing is read.
    fn show(&mut self, buffer: &mut [u8]) -> Option<usize>
        ensures bound { IfSome result (λ n. n ≤ length buffer.new) }
        ensures front { IfSome result (λ n. IfSome (Self.contents self.old) (λ c. StartsWith c.left (take n buffer.new))) }
        ensures end { IfSome result (λ n. n ≡ 0 → 0 < length buffer.old → IsEnd (Self.contents self.old)) }
        ensures same { Self.contents self.new ≡ Self.contents self.old }
        ensures gives { show_gives self.old result self.new };

    /// Reads the first `count` bytes that are left, and drops them.
    fn skip(&mut self, count: usize)
        ensures { Self.contents self.new ≡ option_map (advanced count) (Self.contents self.old) };
}

/// What opens files and standard input.
pub trait Outside {
    type File: Supply + Drop;

    type Input: Preview + Drop;

    /// The bytes that each name holds, where that is told. Standard input has the name `-`.
    ghost holds: { Self → List ℕ → Option (List ℕ) };

    /// What more is known where a name isn't opened.
    ghost refuses: { Self → List ℕ → Type 0 } = { λ _ _. Unit {0} };

    /// Opens a file, of which nothing is read yet.
    fn open(&self, name: &str) -> Option<Self::File>
        ensures opened { IfSome result (λ file. Self.File.contents file ≡ option_map unread (holds self.now name.now)) }
        ensures refused { IfNone result (refuses self.now name.now) };

    /// Standard input, of which nothing is read yet.
    fn input(&self) -> Option<Self::Input>
        ensures opened { IfSome result (λ input. Self.Input.contents input ≡ option_map unread (holds self.now standard_input)) }
        ensures refused { IfNone result (refuses self.now standard_input) };
}
