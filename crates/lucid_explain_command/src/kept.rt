//! What is kept of the place that is reached first.
ghost use Rattle.std.specs.Prelude.{◌≤◌, vec_len};

use std::alloc::{AllocError, Global};

/// What is kept of the place that is reached first: the bytes that were consumed, and behind them those that are shown.
#[derive(Drop)]
pub struct Kept {
    bytes: Vec<u8>,
    // How many of them were consumed, and how many of these before the last piece was shown.
    consumed: usize,
    from: usize,
    ghost begun: { from ≤ consumed },
    ghost within: { consumed ≤ vec_len bytes },
}

impl Kept {
    ghost use Rattle.std.specs.Prelude.{◌≡◌, ◌≢◌, ◌+◌, ◌≤◌, ◌++◌, length, take, drop, OnOk, OnErr};
    ghost use Rattle.lucid_explain_command.specs.Keeping.{plain_kept, nothing_kept};

    /// Nothing yet.
    pub(crate) fn nothing(alloc: Global) -> Kept
        ensures { plain_kept result ≡ nothing_kept }
    {
        Kept {
            bytes: Vec::new(alloc),
            consumed: 0,
            from: 0,
        }
    }

    // Nothing any more.
    fn clear(&mut self)
        ensures { plain_kept self.new ≡ nothing_kept }
    {
        self.from = 0;
        self.consumed = 0;
        self.bytes.clear();
    }

    /// The place of this number is reached: the first has the number 0, and nothing is kept of it yet.
    pub(crate) fn begin(&mut self, number: u32)
        ensures first { number ≡ 0 → plain_kept self.new ≡ nothing_kept }
        ensures other { number ≢ 0 → plain_kept self.new ≡ plain_kept self.old }
    {
        if number == 0 {
            self.clear();
        }
    }

    /// The bytes that were consumed.
    pub(crate) fn taken(&self) -> &[u8]
        ensures { result.now ≡ (plain_kept self.now).taken }
    {
        &self.bytes[..self.consumed]
    }

    /// The bytes that are shown.
    pub(crate) fn shown(&self) -> &[u8]
        ensures { result.now ≡ (plain_kept self.now).shown }
    {
        &self.bytes[self.consumed..]
    }

    /// Shows more bytes. Where there is no memory nothing changes.
    pub(crate) fn add(&mut self, piece: &[u8]) -> Result<(), AllocError>
        ensures taken { (plain_kept self.new).taken ≡ (plain_kept self.old).taken }
        ensures used { (plain_kept self.new).used ≡ (plain_kept self.old).used }
        ensures shown { OnOk result ((plain_kept self.new).shown ≡ (plain_kept self.old).shown ++ piece.now) }
        ensures same { OnErr result (plain_kept self.new ≡ plain_kept self.old) }
    {
        self.bytes.extend_from_slice(piece)
    }

    /// The bytes shown are a piece of their own.
    pub(crate) fn renew(&mut self)
        ensures { plain_kept self.new ≡ record { taken = (plain_kept self.old).taken; shown = (plain_kept self.old).shown; used = 0 } }
    {
        self.from = self.consumed;
    }

    /// Consumes the first bytes that are shown.
    pub(crate) fn consume(&mut self, n: usize)
        requires { n ≤ length (plain_kept self.old).shown }
        ensures taken { (plain_kept self.new).taken ≡ (plain_kept self.old).taken ++ take n (plain_kept self.old).shown }
        ensures shown { (plain_kept self.new).shown ≡ drop n (plain_kept self.old).shown }
        ensures used { (plain_kept self.new).used ≡ (plain_kept self.old).used + n }
    {
        self.consumed += n;
    }
}
