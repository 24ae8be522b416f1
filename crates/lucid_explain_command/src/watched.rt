//! A sink that notes the first line that is `error`.
ghost use Rattle.std.specs.Prelude.{◌≡◌, [], IfSome};
ghost use Rattle.std.proofs.Props.{props};
ghost use Rattle.lucid_explain_command.specs.Noting.{plain_noted, seen_in, Notes};
ghost use Rattle.lucid_explain_command.specs.Watching.{plain_marks, AreMarks};

use crate::noted::Noted;
use lucid_ports::{PortFault, Sink};

/// A sink that notes the first line that is `error`.
#[derive(Drop)]
pub struct Watched<K: Sink> {
    sink: K,
    noted: Noted,
    ghost notes: { AreMarks (K.written sink) (plain_marks noted) } by { Prim.hlevel props },
}

impl<K: Sink> Watched<K> {
    /// The same sink, to which nothing is written yet.
    pub fn make(sink: K) -> Watched<K>
        requires { IfSome (K.written sink) (λ bytes. bytes ≡ []) }
        ensures sink { result.sink ≡ sink }
        ensures noted { plain_noted result.noted ≡ seen_in [] }
    {
        Watched {
            sink,
            noted: Noted::nothing(),
        }
    }

    /// What is noted of the lines that were written.
    pub fn noted(&self) -> Noted
        ensures value { plain_noted result ≡ plain_noted self.now.noted }
        ensures notes { Notes (K.written self.now.sink) (plain_noted result) }
    {
        self.noted
    }
}

impl<K: Sink> Sink for Watched<K> {
    ghost written = { λ w. K.written w.sink };

    ghost faults = { λ w. K.faults w.sink };

    ghost late = { λ w. K.late w.sink };

    // What is taken is noted.
    fn write(&mut self, piece: &[u8]) -> Result<usize, PortFault> {
        let taken = self.sink.write(piece)?;
        self.noted = self.noted.note_all(&piece[..taken]);
        Ok(taken)
    }
}
