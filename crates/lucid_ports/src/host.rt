// The kit's runtime, as what real places read from.
ghost use Rattle.std.specs.Prelude.{◌≡◌, ◌+◌, ◌<◌, ◌≤◌, ◌++◌, None, min, length, take, drop, IfSome, IfNone};
ghost use Rattle.std.specs.Io.{StartsWith};
ghost use Rattle.std.specs.Io.KnownBytes.{Keeps, Consumes, IsAtEnd};

use crate::supply::{Outside, Preview, Supply};
use std::fs;
use std::io::{BufRead, Input, Read};
use std::rt::Files;

/// The files and the standard input of a runtime. It tells nothing of contents.
#[derive(Drop)]
pub struct Host<R> {
    rt: R,
}

/// A reader of the kit. It tells nothing of contents.
#[derive(Drop)]
pub struct HostReader<R> {
    reader: R,
}

impl<R> Host<R> {
    pub(crate) fn make(rt: R) -> Host<R> {
        Host { rt }
    }
}

impl<R: Files + Input> Outside for Host<R> {
    type File = HostReader<<R as Files>::File>;

    type Input = HostReader<<R as Input>::Reader>;

    ghost holds = { λ _ _. None };

    fn open(&self, name: &str) -> Option<HostReader<<R as Files>::File>> {
        let reader = fs::open(&self.rt, name).ok()?;
        Some(HostReader { reader })
    }

    fn input(&self) -> Option<HostReader<<R as Input>::Reader>> {
        let reader = self.rt.reader();
        Some(HostReader { reader })
    }
}

impl<R: Read> Supply for HostReader<R> {
    ghost contents = { λ _. None };

    fn read(&mut self, buffer: &mut [u8]) -> Option<usize> {
        read_once(&mut self.reader, buffer)
    }
}

impl<R: BufRead> Preview for HostReader<R> {
    fn show(&mut self, buffer: &mut [u8]) -> Option<usize> {
        copy_ahead(&mut self.reader, buffer)
    }

    fn skip(&mut self, count: usize) {
        self.reader.consume(count);
    }
}

// Reads once.
fn read_once<R: Read>(from: &mut R, buffer: &mut [u8]) -> Option<usize>
    ensures bound { IfSome result (λ n. n ≤ length buffer.new) }
    ensures some { IfSome result (λ n. Consumes (R.remaining from.old) (R.remaining from.new) (take n buffer.new)) }
    ensures end { IfSome result (λ n. n ≡ 0 → 0 < length buffer.old → IsAtEnd (R.remaining from.new)) }
    ensures none { IfNone result (Keeps (R.remaining from.old) (R.remaining from.new)) }
{
    from.read(buffer).ok()
}

// Copies what the reader shows, as far as the buffer goes; nothing is taken of the reader.
fn copy_ahead<R: BufRead>(from: &mut R, buffer: &mut [u8]) -> Option<usize>
    ensures bound { IfSome result (λ n. n ≤ length buffer.new) }
    ensures remains { Keeps (R.remaining from.old) (R.remaining from.new) }
    ensures front { IfSome result (λ n. IfSome (R.remaining from.old) (λ xs. StartsWith xs (take n buffer.new))) }
    ensures end { IfSome result (λ n. n ≡ 0 → 0 < length buffer.old → IsAtEnd (R.remaining from.old)) }
{
    let shown = from.fill_buf().ok()?;
    Some(copy_front(shown, buffer))
}

// Copies as many bytes as both have to the front of the buffer, and gives their number.
pub(crate) fn copy_front(shown: &[u8], buffer: &mut [u8]) -> usize
    ensures count { result ≡ min (length shown.now) (length buffer.old) }
    ensures copied { buffer.new ≡ take result shown.now ++ drop result buffer.old }
{
    let count = shown.len().min(buffer.len());
    buffer[..count].copy_from_slice(&shown[..count]);
    count
}
