//! Calls of the command that explains its reports, over one file in memory.
ghost use Rattle.std.specs.Prelude.{◌≡◌, IfOk};
ghost use Rattle.lucid_ports.specs.MemoryView.{memory_world};

use crate::told::word_list;
use lucid_explain_command::{Remembering, Watched, lucid_explain};
use lucid_explain_report::{Again, Outlook};
use lucid_ports::{MemoryFile, MemoryPlaces, MemorySink, Sink};
use lucid_report::Status;
use std::alloc::{AllocError, Global};

/// What comes again of the file `p`, and whether the standard input is a terminal.
#[derive(Drop)]
pub(crate) struct OneFile<'a> {
    pub(crate) source: Option<&'a [u8]>,
    pub(crate) terminal: bool,
}

impl<'a> Outlook for OneFile<'a> {
    ghost use Rattle.std.specs.Prelude.{None};

    ghost terminal = { λ outlook. outlook.terminal };

    ghost files = { λ outlook name. None };

    fn is_terminal(&self) -> bool {
        self.terminal
    }

    fn reread(&self, alloc: Global, name: &str, most: usize) -> Result<Again, AllocError> {
        let Some(source) = self.source else {
            return Ok(Again::Gone);
        };
        if name != "p" {
            return Ok(Again::Unread);
        }
        let bytes = Vec::from_slice(alloc, &source[..source.len().min(most)])?;
        Ok(Again::Bytes(bytes))
    }
}

/// What a call answered, and the sink to which it reported.
#[derive(Drop)]
pub(crate) struct Answer {
    pub(crate) status: Status,
    pub(crate) report: MemorySink,
}

impl Answer {
    /// Whether these are its status and what it reported.
    pub(crate) fn tells(&self, status: Status, report: &str) -> bool {
        self.status == status && self.report.written() == report.as_bytes()
    }
}

// The file `p` with the source.
fn places_of(alloc: Global, source: &[u8]) -> Result<MemoryPlaces, AllocError>
    ensures { IfOk result (λ places. (memory_world places).reached ≡ 0) }
{
    let mut files = Vec::new(alloc);
    files.push(MemoryFile {
        name: String::from_str(alloc, "p")?,
        bytes: Vec::from_slice(alloc, source)?,
    })?;
    Ok(MemoryPlaces::make(alloc, files, Vec::new(alloc)))
}

/// Calls the command with the words, parted by blanks, over the file `p`, with an output.
pub(crate) fn call_into<K: Sink>(
    alloc: Global,
    words: &str,
    source: &[u8],
    out: &mut Watched<K>,
    outlook: &OneFile<'_>,
) -> Result<Answer, AllocError> {
    let words = word_list(alloc, words)?;
    let inner = places_of(alloc, source)?;
    let mut places = Remembering::make(alloc, inner);
    let mut report = MemorySink::make(alloc, 100, Vec::new(alloc));
    let status = lucid_explain(alloc, &words, &mut places, outlook, out, &mut report);
    Ok(Answer { status, report })
}

/// The same with an output in memory.
pub(crate) fn call(
    alloc: Global,
    words: &str,
    source: &[u8],
    outlook: &OneFile<'_>,
) -> Result<Answer, AllocError> {
    let mut out = Watched::make(MemorySink::make(alloc, 100, Vec::new(alloc)));
    call_into(alloc, words, source, &mut out, outlook)
}

/// The same where the file comes again, and there is no terminal.
pub(crate) fn plain_call(alloc: Global, words: &str, source: &[u8]) -> Result<Answer, AllocError> {
    let outlook = OneFile {
        source: Some(source),
        terminal: false,
    };
    call(alloc, words, source, &outlook)
}
