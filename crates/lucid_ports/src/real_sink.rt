// The real sinks.
ghost use Rattle.std.specs.Prelude.{◌≡◌, ◌≤◌, [], length, IfNone, IfSome};
ghost use Rattle.lucid_ports.specs.Faults.{faults_after};
ghost use Rattle.lucid_ports.specs.RealSinkView.{real_sink_late, sink_count, sink_writer};
ghost use Rattle.lucid_ports.specs.Writing.{with_front};

use crate::late::late_after;
use crate::output::Output;
use crate::{PortFault, Sink};

/// Standard output, standard error or another writer, flushed at each write. What was written is what the writer holds,
/// where it tells that.
///
/// A refused write is a fault, and so is a write that takes nothing of a piece that isn't empty. A flush is no part of what
/// is appended: one that fails is tried again at the next write, and where it fails there, that is a fault.
#[derive(Drop)]
pub struct RealSink<W> {
    writer: W,
    unflushed: bool,
    faults: u64,
    late: u64,
}

impl<W: Output> RealSink<W> {
    /// A sink over a writer, as `rt.stdout()` gives one.
    pub fn make(writer: W) -> RealSink<W>
        ensures faults { sink_count result ≡ 0 }
        ensures late { real_sink_late result ≡ 0 }
        ensures writer { sink_writer result ≡ writer }
    {
        RealSink {
            writer,
            unflushed: false,
            faults: 0,
            late: 0,
        }
    }

    /// What it writes to.
    pub fn writer(&self) -> &W
        ensures { result.now ≡ sink_writer self.now }
    {
        &self.writer
    }

    // Writes the first bytes of a piece and flushes them; none at a fault, where nothing is written.
    fn write_and_flush(&mut self, piece: &[u8]) -> Option<usize>
        ensures bound { IfSome result (λ n. n ≤ length piece.now) }
        ensures progress { IfSome result (λ n. n ≡ 0 → piece.now ≡ []) }
        ensures appended { IfSome result (λ n. W.contents (sink_writer self.new) ≡ with_front n piece.now (W.contents (sink_writer self.old))) }
        ensures refused { IfNone result (W.contents (sink_writer self.new) ≡ W.contents (sink_writer self.old)) }
        ensures faults { sink_count self.new ≡ sink_count self.old }
        ensures late { real_sink_late self.new ≡ real_sink_late self.old }
    {
        if self.unflushed && !is_flushed(&mut self.writer) {
            return None;
        }
        let taken = append(&mut self.writer, piece)?;
        if taken == 0 && !piece.is_empty() {
            return None;
        }
        self.unflushed = !is_flushed(&mut self.writer);
        Some(taken)
    }
}

// Flushes a writer, and tells whether that succeeded.
fn is_flushed<W: Output>(writer: &mut W) -> bool
    ensures { W.contents writer.new ≡ W.contents writer.old }
{
    writer.flush().is_ok()
}

// Writes the first bytes of a piece, and gives their number; none where that is refused.
fn append<W: Output>(writer: &mut W, piece: &[u8]) -> Option<usize>
    ensures bound { IfSome result (λ n. n ≤ length piece.now) }
    ensures appended { IfSome result (λ n. W.contents writer.new ≡ with_front n piece.now (W.contents writer.old)) }
    ensures refused { IfNone result (W.contents writer.new ≡ W.contents writer.old) }
{
    writer.write(piece).ok()
}

impl<W: Output> Sink for RealSink<W> {
    ghost written = { λ s. W.contents (sink_writer s) };

    ghost faults = { sink_count };

    ghost late = { real_sink_late };

    ghost write_gives = { λ old piece result new. sink_count new ≡ faults_after (sink_count old) result };

    fn write(&mut self, piece: &[u8]) -> Result<usize, PortFault> {
        self.late = late_after(self.faults, self.late);
        match self.write_and_flush(piece) {
            Some(taken) => Ok(taken),
            None => {
                self.faults = self.faults.saturating_add(1);
                Err(PortFault::Failed)
            }
        }
    }
}
