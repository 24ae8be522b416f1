// The bytes that were read of a place and not yet consumed.
ghost use Rattle.std.specs.Prelude.{◌≡◌, ◌+◌, ◌-◌, ◌<◌, ◌≤◌, ◌^◌, [], length, take, drop, slice_range, option_map, IfOk, IfSome, IfNone, vec_len};
ghost use Rattle.std.specs.Io.{StartsWith};
ghost use Rattle.lucid_ports.specs.Supply.{IsEnd, shown_kept, shown_taken, with_taken};
ghost use Rattle.lucid_ports.specs.Window.{Shown};
ghost use Rattle.lucid_ports.specs.World.{advanced};

use crate::supply::{Preview, Supply};
use std::alloc::{AllocError, Global};
use std::marker::Model;

const CAPACITY: usize = 65536;

// `buffer[start..end]` is read and not yet consumed. Of the piece last shown `used` bytes were consumed since.
#[derive(Drop)]
pub(crate) struct Window {
    buffer: Vec<u8>,
    start: usize,
    end: usize,
    used: usize,
}

impl Model for Window {
    ghost Value = { Shown };

    ghost view = { λ w. record { bytes = slice_range w.buffer.items w.start w.end; used = w.used } };

    ghost invariant = { λ w. (w.start ≤ w.end) × (w.end ≤ vec_len w.buffer) × (0 < vec_len w.buffer) × (w.end - w.start + w.used < 2 ^ 64) };
}

impl Window {
    pub(crate) fn make(alloc: Global) -> Result<Window, AllocError>
        ensures { IfOk result (λ w. w ≡ record { bytes = []; used = 0 }) }
    {
        Ok(Window {
            buffer: vec![in alloc; 0; CAPACITY]?,
            start: 0,
            end: 0,
            used: 0,
        })
    }

    pub(crate) fn as_slice(&self) -> &[u8]
        ensures { result.now ≡ self.now.bytes }
    {
        &self.buffer[self.start..self.end]
    }

    // The bytes shown are a piece of their own.
    pub(crate) fn renew(&mut self)
        ensures { self.new ≡ record { bytes = self.old.bytes; used = 0 } }
    {
        self.used = 0;
    }

    // Shows what one read of a reader gives, which takes it; none where that fails.
    pub(crate) fn read<R: Supply>(&mut self, from: &mut R) -> Option<()>
        requires { self.old.bytes ≡ [] }
        ensures tied { shown_taken self.new.bytes (R.contents from.new) ≡ self.new.bytes }
        ensures contents { with_taken self.new.bytes (R.contents from.new) ≡ R.contents from.old }
        ensures end { IfSome result (λ _. self.new.bytes ≡ [] → IsEnd (R.contents from.old)) }
        ensures used { IfSome result (λ _. self.new.used ≡ 0) }
        ensures same { IfNone result (self.new ≡ self.old) }
        ensures once { R.read_gives from.old (option_map (λ _. length self.new.bytes) result) from.new }
    {
        let count = read_over(from, &mut self.buffer)?;
        self.start = 0;
        self.end = count;
        self.used = 0;
        Some(())
    }

    // Shows what a reader shows, which keeps it; none where that fails.
    pub(crate) fn show<R: Preview>(&mut self, from: &mut R) -> Option<()>
        requires { self.old.bytes ≡ [] }
        ensures tied { shown_kept self.new.bytes (R.contents from.new) ≡ self.new.bytes }
        ensures contents { R.contents from.new ≡ R.contents from.old }
        ensures end { IfSome result (λ _. self.new.bytes ≡ [] → IsEnd (R.contents from.old)) }
        ensures used { IfSome result (λ _. self.new.used ≡ 0) }
        ensures same { IfNone result (self.new ≡ self.old) }
        ensures once { R.show_gives from.old (option_map (λ _. length self.new.bytes) result) from.new }
    {
        let count = show_over(from, &mut self.buffer)?;
        self.start = 0;
        self.end = count;
        self.used = 0;
        Some(())
    }

    pub(crate) fn consume(&mut self, count: usize)
        requires { count ≤ length self.old.bytes }
        ensures { self.new ≡ record { bytes = drop count self.old.bytes; used = self.old.used + count } }
    {
        self.start += count;
        self.used += count;
    }
}

// Reads once into the whole buffer.
fn read_over<R: Supply>(from: &mut R, buffer: &mut Vec<u8>) -> Option<usize>
    ensures len { vec_len buffer.new ≡ vec_len buffer.old }
    ensures bound { IfSome result (λ n. n ≤ vec_len buffer.new) }
    ensures front { IfSome result (λ n. IfSome (R.contents from.old) (λ c. StartsWith c.left (take n buffer.new.items))) }
    ensures end { IfSome result (λ n. n ≡ 0 → 0 < vec_len buffer.old → IsEnd (R.contents from.old)) }
    ensures read { IfSome result (λ n. R.contents from.new ≡ option_map (advanced n) (R.contents from.old)) }
    ensures failed { IfNone result (R.contents from.new ≡ R.contents from.old) }
    ensures once { R.read_gives from.old result from.new }
{
    from.read(buffer.as_mut_slice())
}

// Copies what the reader shows, as far as the buffer goes.
fn show_over<R: Preview>(from: &mut R, buffer: &mut Vec<u8>) -> Option<usize>
    ensures len { vec_len buffer.new ≡ vec_len buffer.old }
    ensures bound { IfSome result (λ n. n ≤ vec_len buffer.new) }
    ensures front { IfSome result (λ n. IfSome (R.contents from.old) (λ c. StartsWith c.left (take n buffer.new.items))) }
    ensures end { IfSome result (λ n. n ≡ 0 → 0 < vec_len buffer.old → IsEnd (R.contents from.old)) }
    ensures same { R.contents from.new ≡ R.contents from.old }
    ensures once { R.show_gives from.old result from.new }
{
    from.show(buffer.as_mut_slice())
}
