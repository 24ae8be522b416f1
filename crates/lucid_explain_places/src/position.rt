//! The line and the column of a place.
ghost use Rattle.std.specs.Prelude.{◌≡◌, ◌+◌, ◌≤◌, length};
ghost use Rattle.std.specs.List.{count_by, suffix_len};
ghost use Rattle.lucid_scan.specs.Refusals.{most_source_bytes};
ghost use Rattle.lucid_explain_places.specs.Positions.{ends_line, stands_in_line, line_of, column_of, last_line};

/// Where a place is, by its line and its column in bytes, both from 1.
#[derive(Clone, Copy, Debug, PartialEq, Eq)]
pub struct Position {
    pub line: u32,
    pub column: u32,
}

// How many lines end in the bytes.
fn count_ends(bytes: &[u8]) -> usize
    ensures { result ≡ count_by ends_line bytes.now }
{
    bytes.iter().filter(|byte| **byte == b'\n').count()
}

// How many bytes come after the last line end.
fn len_of_line(bytes: &[u8]) -> usize
    ensures value { result ≡ suffix_len stands_in_line bytes.now }
    ensures within { result ≤ length bytes.now }
{
    bytes
        .iter()
        .rev()
        .take_while(|byte| **byte != b'\n')
        .count()
}

/// The bytes of a line that stand at the end.
pub fn last_line(before: &[u8]) -> &[u8]
    ensures { result.now ≡ last_line before.entry.now }
{
    &before[before.len() - len_of_line(before)..]
}

/// The line and the column of a place in a source, or of its end.
pub fn position_of(source: &[u8], at: usize) -> Position
    requires within { at ≤ length source.now }
    requires short { length source.now ≤ most_source_bytes }
    ensures line { result.line ≡ line_of source.now at }
    ensures column { result.column ≡ column_of source.now at }
    ensures within { result.column ≤ at + 1 }
{
    let before = &source[..at];
    Position {
        line: count_ends(before) as u32 + 1,
        column: len_of_line(before) as u32 + 1,
    }
}
