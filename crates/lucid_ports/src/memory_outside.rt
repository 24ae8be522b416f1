// What real places read from, in memory.
ghost use Rattle.std.specs.Prelude.{◌≡◌, ◌<◌, ◌≤◌, [], None, Some, IsSome, length, take, drop};
ghost use Rattle.std.specs.Io.{StartsWith};
ghost use Rattle.lucid_ports.specs.Files.{bytes_named};
ghost use Rattle.lucid_ports.specs.MemoryOutsideView.{outside_files, reader_contents};
ghost use Rattle.lucid_ports.specs.World.{advanced};

use crate::files::{MemoryFile, bytes_of, find_file};
use crate::host::copy_front;
use crate::piece_limit::PieceLimit;
use crate::supply::{Outside, Preview, Supply};

/// Files in memory, of which one call gives no more than a few bytes. That of the name `-` is standard input.
#[derive(Clone, Copy, Drop)]
pub struct MemoryOutside<'a> {
    files: &'a [MemoryFile],
    most: PieceLimit,
}

/// A reader of bytes in memory, which tells them and never fails.
#[derive(Drop)]
pub struct MemoryReader<'a> {
    bytes: &'a [u8],
    position: usize,
    most: PieceLimit,
}

impl<'a> MemoryOutside<'a> {
    /// A name holds the bytes of the first file of that name.
    pub fn make(files: &'a [MemoryFile], most: usize) -> MemoryOutside<'a>
        requires { 1 ≤ most }
        ensures { outside_files result ≡ files.now }
    {
        MemoryOutside {
            files,
            most: PieceLimit { bytes: most },
        }
    }
}

impl<'a> MemoryReader<'a> {
    fn left(&self) -> &[u8]
        ensures { result.now ≡ (reader_contents self.now).left }
    {
        if self.position < self.bytes.len() {
            &self.bytes[self.position..]
        } else {
            &[]
        }
    }

    // Copies the first bytes that are left to the front of the buffer, as many as one call gives.
    fn copy(&self, buffer: &mut [u8]) -> usize
        ensures bound { result ≤ length buffer.new }
        ensures front { StartsWith (reader_contents self.now).left (take result buffer.new) }
        ensures end { result ≡ 0 → 0 < length buffer.old → (reader_contents self.now).left ≡ [] }
    {
        let left = self.left();
        let few = left.len().min(self.most.bytes);
        copy_front(&left[..few], buffer)
    }

    // Moves past the first bytes that are left.
    fn advance(&mut self, count: usize)
        ensures { reader_contents self.new ≡ advanced count (reader_contents self.old) }
    {
        self.position += count.min(self.left().len());
    }
}

impl<'a> Outside for MemoryOutside<'a> {
    type File = MemoryReader<'a>;

    type Input = MemoryReader<'a>;

    ghost holds = { λ outside. bytes_named (outside_files outside) };

    ghost refuses = { λ outside name. bytes_named (outside_files outside) name ≡ None };

    fn open(&self, name: &str) -> Option<MemoryReader<'a>> {
        let file = find_file(self.files, name)?;
        Some(MemoryReader {
            bytes: bytes_of(self.files, file),
            position: 0,
            most: self.most,
        })
    }

    fn input(&self) -> Option<MemoryReader<'a>> {
        self.open("-")
    }
}

impl<'a> Supply for MemoryReader<'a> {
    ghost contents = { λ reader. Some (reader_contents reader) };

    ghost read_gives = { λ _ answer _. IsSome answer };

    fn read(&mut self, buffer: &mut [u8]) -> Option<usize> {
        let count = self.copy(buffer);
        self.advance(count);
        Some(count)
    }
}

impl<'a> Preview for MemoryReader<'a> {
    ghost show_gives = { λ _ answer _. IsSome answer };

    fn show(&mut self, buffer: &mut [u8]) -> Option<usize> {
        Some(self.copy(buffer))
    }

    fn skip(&mut self, count: usize) {
        self.advance(count);
    }
}
