//! A few bytes of a place, as they are shown.
ghost use Rattle.std.specs.Prelude.{◌≡◌, ◌≤◌, take};

/// So many bytes are shown at a time, at most.
const MOST: usize = 256;

/// A few bytes of a place, as they are shown.
#[derive(Drop)]
pub struct Piece {
    bytes: [u8; MOST],
    length: usize,
    ghost within: { length ≤ 256 },
}

// Copies the first bytes, and gives their number.
fn copy_front(shown: &[u8], buffer: &mut [u8; MOST]) -> usize
    ensures within { result ≤ 256 }
    ensures copied { take result buffer.new ≡ take 256 shown.now }
{
    let count = shown.len().min(MOST);
    buffer[..count].copy_from_slice(&shown[..count]);
    count
}

impl Piece {
    ghost use Rattle.std.specs.Prelude.{◌≡◌, take};
    ghost use Rattle.lucid_explain_command.specs.Keeping.{plain_piece};

    /// None.
    pub(crate) fn nothing() -> Piece {
        Piece {
            bytes: [0; MOST],
            length: 0,
        }
    }

    /// Copies the first of these.
    pub(crate) fn copy(&mut self, shown: &[u8])
        ensures { plain_piece self.new ≡ take 256 shown.now }
    {
        self.length = copy_front(shown, &mut self.bytes);
    }

    /// The bytes.
    pub(crate) fn shown(&self) -> &[u8]
        ensures { result.now ≡ plain_piece self.now }
    {
        &self.bytes[..self.length]
    }
}
