//! The certificate of a time, made again in memory.
ghost use Rattle.std.specs.Prelude.{◌≡◌, map, IfOk, option_map};
ghost use Rattle.std.specs.String.{string_bytes};
ghost use Rattle.lucid_ports.specs.Sink.{sink_bytes};
ghost use Rattle.lucid_words.specs.Asked.{plain_words};
ghost use Rattle.lucid_explain_command.specs.Errors.{why_words, Finds, Calls, IsMade};

use crate::again::files_again;
use itoa::Buffer;
use lucid_explain_report::Outlook;
use lucid_ports::{MemoryFile, MemoryPlaces, MemorySink};
use lucid_report::Status;
use lucid_top::lucid;
use lucid_words::Words;
use std::alloc::{AllocError, Global};

/// A call of the program in the file of this name, what it read of that, and the time of which it is asked.
#[derive(Clone, Copy)]
pub(crate) struct Asked<'a> {
    pub(crate) words: &'a [String],
    pub(crate) asked: &'a Words,
    pub(crate) name: &'a str,
    pub(crate) source: &'a [u8],
    pub(crate) time: u64,
}

// The words of the call that makes the certificate of a time.
fn why_words(alloc: Global, time: u64, words: &[String]) -> Result<Vec<String>, AllocError>
    ensures { IfOk result (λ made. map string_bytes made.items ≡ why_words time (map string_bytes words.now)) }
{
    let mut made = Vec::new(alloc);
    made.push(String::from_str(alloc, "--why")?)?;
    made.push(String::from_str(alloc, Buffer::new().format(time))?)?;
    for word in words {
        made.push(word.clone()?)?;
    }
    Ok(made)
}

// What was written, where a call is done.
fn found_by(alloc: Global, status: Status, out: &MemorySink) -> Result<Option<Vec<u8>>, AllocError>
    ensures { IfOk result (λ found. Finds status (sink_bytes out.now) (option_map (λ bytes. bytes.items) found)) }
{
    match status {
        Status::Done => Ok(Some(Vec::from_slice(alloc, out.written())?)),
        Status::NoMemory => Err(AllocError),
        _ => Ok(None),
    }
}

// What the command writes with these words over the files, where it is done.
fn call_over(
    alloc: Global,
    words: &[String],
    files: Vec<MemoryFile>,
) -> Result<Option<Vec<u8>>, AllocError>
    ensures { IfOk result (λ found. Calls (map string_bytes words.now) files.items (option_map (λ bytes. bytes.items) found)) }
{
    let mut places = MemoryPlaces::make(alloc, files, Vec::new(alloc));
    let mut out = MemorySink::make(alloc, usize::MAX, Vec::new(alloc));
    let mut report = MemorySink::make(alloc, usize::MAX, Vec::new(alloc));
    let status = lucid(alloc, words, &mut places, &mut out, &mut report);
    found_by(alloc, status, &out)
}

/// The certificate of the value at the time, by the source as it was read and the files of inputs as they are read again; none where none is made.
pub(crate) fn certificate_of<F: Outlook>(
    alloc: Global,
    call: &Asked<'_>,
    outlook: &F,
) -> Result<Option<Vec<u8>>, AllocError>
    ensures { IfOk result (λ found. IsMade (F.files outlook.now) (map string_bytes call.now.words.now) (plain_words call.now.asked.now) call.now.name.now call.now.source.now call.now.time (option_map (λ bytes. bytes.items) found)) }
{
    let files = files_again(alloc, call.name, call.source, &call.asked.given, outlook)?;
    let words = why_words(alloc, call.time, call.words)?;
    call_over(alloc, &words, files)
}
