//! What is noted of lines as they are written.
ghost use Rattle.std.specs.Prelude.{◌≡◌, [], fold};
ghost use Rattle.lucid_explain_command.specs.Watching.{plain_marks, marks_in, matched_more, is_whole, first_of, note};

// The line that is looked for.
const ERROR: [u8; 5] = *b"error";

/// What is noted of lines.
#[derive(Clone, Copy)]
pub struct Noted {
    /// How many have ended.
    pub lines: u64,
    // How many bytes the open line has, where these are the first of `error`.
    matched: Option<usize>,
    /// The first that was `error`, by its number from 0.
    pub first: Option<u64>,
}

// One byte more of the open line.
fn matched_more(matched: Option<usize>, byte: u8) -> Option<usize>
    ensures { result ≡ matched_more matched byte }
{
    let count = matched?;
    if count < ERROR.len() && ERROR[count] == byte {
        Some(count + 1)
    } else {
        None
    }
}

// Whether the open line is `error`.
fn is_whole(matched: Option<usize>) -> bool
    ensures { result ≡ is_whole matched }
{
    match matched {
        Some(count) => count == ERROR.len(),
        None => false,
    }
}

// The first line that was `error`, if one was, or else this one, if it is.
fn first_of(first: Option<u64>, line: u64, matched: Option<usize>) -> Option<u64>
    ensures { result ≡ first_of first line matched }
{
    match first {
        Some(number) => Some(number),
        None if is_whole(matched) => Some(line),
        None => None,
    }
}

impl Noted {
    /// Nothing.
    pub(crate) fn nothing() -> Noted
        ensures { plain_marks result ≡ marks_in [] }
    {
        Noted {
            lines: 0,
            matched: Some(0),
            first: None,
        }
    }

    // One byte more.
    fn note(self, byte: u8) -> Noted
        ensures { plain_marks result ≡ note (plain_marks self) byte }
    {
        if byte == b'\n' {
            Noted {
                lines: self.lines.saturating_add(1),
                matched: Some(0),
                first: first_of(self.first, self.lines, self.matched),
            }
        } else {
            Noted {
                lines: self.lines,
                matched: matched_more(self.matched, byte),
                first: self.first,
            }
        }
    }

    /// More bytes.
    pub(crate) fn note_all(self, bytes: &[u8]) -> Noted
        ensures { plain_marks result ≡ fold note (plain_marks self) bytes.now }
    {
        let mut noted = self;
        for byte in bytes {
            noted = noted.note(*byte);
        }
        noted
    }
}
