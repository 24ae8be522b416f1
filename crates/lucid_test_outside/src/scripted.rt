// A runtime whose files and standard input give what is written down for them.
ghost use Rattle.std.specs.Prelude.{◌≡◌, ◌+◌, ◌≤◌, IfOk, length, string_len};

use std::alloc::Allocator;
use std::cell::Cell;
use std::fs::{Metadata, OpenOptions};
use std::io::{self, BufRead, Empty, ErrorKind, Input, Lines, Read, Seek, SeekFrom, Write};
use std::rt::Files;

/// What a reader has for its next call.
#[derive(Clone, Copy)]
pub enum Step {
    /// These bytes, by one call or several.
    Bytes(&'static [u8]),
    /// An end, after which the next step comes.
    End,
    /// A failure.
    Fault,
}

/// Each file and standard input give these steps in turn, and then their end.
#[derive(Clone, Copy, Drop)]
pub struct Scripted<'a> {
    /// The steps.
    pub steps: &'static [Step],
    /// How many bytes a reader shows ahead at most.
    pub ahead: usize,
    /// How many bytes were taken of the reader that was opened last.
    pub taken: &'a Cell<usize>,
}

/// A reader that gives steps in turn.
#[derive(Drop)]
pub struct Reader<'a> {
    steps: &'static [Step],
    current: &'static [u8],
    ahead: usize,
    taken: &'a Cell<usize>,
}

impl<'a> Reader<'a> {
    fn open(script: &Scripted<'a>) -> Reader<'a> {
        script.taken.set(0);
        Reader {
            steps: script.steps,
            current: &[],
            ahead: script.ahead,
            taken: script.taken,
        }
    }

    // The bytes of the present step, or else those of the next.
    fn current(&mut self) -> io::Result<&'static [u8]> {
        if self.current.is_empty() {
            let Some((step, rest)) = self.steps.split_first() else {
                return Ok(&[]);
            };
            self.steps = rest;
            match *step {
                Step::Bytes(bytes) => self.current = bytes,
                Step::End => (),
                Step::Fault => return Err(io::Error::from(ErrorKind::Other)),
            }
        }
        Ok(self.current)
    }

    fn take(&mut self, count: usize)
        requires { count ≤ length self.old.current.now }
    {
        let bytes = self.current;
        self.current = &bytes[count..];
        self.taken.set(self.taken.get().saturating_add(count));
    }
}

impl<'a> Read for Reader<'a> {
    fn read(&mut self, buffer: &mut [u8]) -> io::Result<usize> {
        self.current()?;
        let bytes = self.current;
        let count = bytes.len().min(buffer.len());
        buffer[..count].copy_from_slice(&bytes[..count]);
        self.take(count);
        Ok(count)
    }
}

impl<'a> BufRead for Reader<'a> {
    fn fill_buf(&mut self) -> io::Result<&[u8]> {
        let bytes = self.current()?;
        let count = bytes.len().min(self.ahead);
        Ok(&bytes[..count])
    }

    fn consume(&mut self, amount: usize) {
        let count = amount.min(self.current.len());
        self.take(count);
    }
}

fn unsupported() -> io::Error {
    io::Error::from(ErrorKind::Unsupported)
}

impl<'a> Write for Reader<'a> {
    fn write(&mut self, _piece: &[u8]) -> io::Result<usize> {
        Err(unsupported())
    }

    fn flush(&mut self) -> io::Result<()> {
        Ok(())
    }
}

impl<'a> Seek for Reader<'a> {
    fn seek(&mut self, _to: SeekFrom) -> io::Result<u64> {
        Err(unsupported())
    }
}

impl<'a> std::fs::OpenFile for Reader<'a> {
    fn metadata(&self) -> io::Result<Metadata> {
        Err(unsupported())
    }

    fn set_len(&self, _size: u64) -> io::Result<()> {
        Err(unsupported())
    }

    fn sync_all(&self) -> io::Result<()> {
        Ok(())
    }

    fn sync_data(&self) -> io::Result<()> {
        Ok(())
    }
}

impl<'a> Files for Scripted<'a> {
    type File = Reader<'a>;

    type Dir = Empty;

    fn open_file(&self, _how: &OpenOptions, _path: &str) -> io::Result<Reader<'a>> {
        Ok(Reader::open(self))
    }

    fn open_dir(&self, _path: &str) -> io::Result<Empty> {
        Err(unsupported())
    }

    fn metadata(&self, _path: &str) -> io::Result<Metadata> {
        Err(unsupported())
    }

    fn symlink_metadata(&self, _path: &str) -> io::Result<Metadata> {
        Err(unsupported())
    }

    fn copy(&self, _from: &str, _to: &str) -> io::Result<u64> {
        Err(unsupported())
    }

    fn rename(&self, _from: &str, _to: &str) -> io::Result<()> {
        Err(unsupported())
    }

    fn remove_file(&self, _path: &str) -> io::Result<()> {
        Err(unsupported())
    }

    fn create_dir(&self, _path: &str) -> io::Result<()> {
        Err(unsupported())
    }

    fn remove_dir(&self, _path: &str) -> io::Result<()> {
        Err(unsupported())
    }

    fn remove_dir_all<B: Allocator>(&self, _alloc: B, _path: &str) -> io::Result<()> {
        Err(unsupported())
    }
}

impl<'a> Input for Scripted<'a> {
    type Reader = Reader<'a>;

    fn read_line<A: Allocator + Clone>(&self, buffer: &mut String<A>) -> io::Result<usize>
        ensures ok { IfOk result (λ n. string_len buffer.new ≡ string_len buffer.old + n) }
    {
        self.reader().read_line(buffer)
    }

    fn lines<A: Allocator>(&self, alloc: A) -> Lines<Reader<'a>, A> {
        self.reader().lines(alloc)
    }

    fn reader(&self) -> Reader<'a> {
        Reader::open(self)
    }
}
