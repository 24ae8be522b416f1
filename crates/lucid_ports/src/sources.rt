// What places without end read from.
ghost use Rattle.std.specs.Prelude.{◌≡◌, ◌+◌, ◌<◌, ◌^◌, length, option_map, vec_len};
ghost use Rattle.lucid_ports.specs.Endless.{Spot, next_bytes, position_in};
ghost use Rattle.lucid_ports.specs.Files.{bytes_at};

use crate::files::{MemoryFile, rest_of};

// Files, and a piece of one byte at least, which comes again and again. With no file a place reads the piece.
#[derive(Drop)]
pub(crate) struct Sources {
    pub(crate) files: Vec<MemoryFile>,
    pub(crate) piece: Vec<u8>,
    ghost some: { 0 < vec_len piece },
}

impl Sources {
    // The position in the file, or in the present turn of the piece.
    pub(crate) fn position_in(&self, file: Option<usize>, position: usize) -> usize
        ensures { result ≡ position_in (length self.now.piece.items) file position }
    {
        match file {
            Some(_) => position,
            None => position % self.piece.len(),
        }
    }

    // What comes next from a position on.
    pub(crate) fn next_from(&self, file: Option<usize>, position: usize) -> &[u8]
        ensures value { result.now ≡ next_bytes self.now.piece.items (record { source = option_map (bytes_at self.now.files.items) file; position = position }) }
        ensures fits { position + length result.now < 2 ^ 64 }
    {
        match file {
            Some(file) => rest_of(&self.files, file, position),
            None if position < self.piece.len() => &self.piece[position..],
            None => &[],
        }
    }
}
