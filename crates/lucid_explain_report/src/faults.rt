//! What is said of a read fault.
ghost use Rattle.std.specs.Prelude.{◌≡◌, ◌++◌, map, [], ◌∷◌, IfOk, OnOk};
ghost use Rattle.std.specs.List.{list_any};
ghost use Rattle.lucid_value.specs.Reading.{is_blank};
ghost use Rattle.lucid_words.specs.Asked.{plain_words};
ghost use Rattle.lucid_words.specs.Plain.{plain_given, plain_source};
ghost use Rattle.lucid_explain_report.specs.Files.{Held, IsSeen, is_unread, plain_again};
ghost use Rattle.lucid_explain_report.specs.Said.{shown_text, source_files, certificate_files, given_file, files_asked, unread_text, has_mark, is_written, written_text, fault_text, TellsFiles, unknown_text, or_unknown, SaysFiles};

use crate::outlook::{Again, Outlook};
use lucid_explain_places::put_shown;
use lucid_value::is_blank;
use lucid_words::{Given, Source, Words};
use std::alloc::{AllocError, Global};

// So much of a word or a name is shown.
const MOST_SHOWN: usize = 160;

/// Appends bytes as they are shown, at most 160.
pub(crate) fn put_front(text: &mut Vec<u8>, bytes: &[u8]) -> Result<(), AllocError>
    ensures { OnOk result (text.new.items ≡ text.old.items ++ shown_text bytes.now) }
{
    put_shown(text, &bytes[..MOST_SHOWN.min(bytes.len())])
}

// Whether nothing could be read.
fn shows_unread(again: &Again) -> bool
    ensures { result ≡ is_unread (plain_again again.now) }
{
    match again {
        Again::Unread => true,
        Again::Bytes(_) | Again::Gone => false,
    }
}

// Whether the file can't be read now.
fn is_unread<F: Outlook>(alloc: Global, name: &str, outlook: &F) -> Result<bool, AllocError>
    ensures { IfOk result (λ b. (seen : Held) × IsSeen (F.files outlook.now) name.now 1 seen × (b ≡ is_unread seen)) }
{
    let again = outlook.reread(alloc, name, 1)?;
    Ok(shows_unread(&again))
}

// Appends that a file can't be read.
fn put_unread(text: &mut Vec<u8>, name: &str) -> Result<(), AllocError>
    ensures { OnOk result (text.new.items ≡ text.old.items ++ unread_text name.now) }
{
    text.extend_from_slice(b"This file can't be opened or read: ")?;
    put_front(text, name.as_bytes())?;
    text.extend_from_slice(b"\n")
}

// Whether a blank stands there.
fn has_blank(name: &[u8]) -> bool
    ensures { result ≡ list_any is_blank name.now }
{
    name.iter().any(|byte| is_blank(*byte))
}

// Whether a `.` or a `/` stands there.
fn has_mark(name: &[u8]) -> bool
    ensures { result ≡ has_mark name.now }
{
    name.iter().any(|byte| *byte == b'.' || *byte == b'/')
}

// Whether this is a program or values themselves, in place of the name of their file.
fn is_written(name: &[u8]) -> bool
    ensures { result ≡ is_written name.now }
{
    has_blank(name) && !has_mark(name)
}

// What is said of them.
fn written_text(name: &[u8]) -> &'static [u8]
    ensures { result.now ≡ written_text name.now }
{
    if is_written(name) {
        b"A program stands in a file: put this into one, say program.lucid, and give its name. The values of an input stand in a file too.\n"
    } else {
        b""
    }
}

// Appends what is said of a file that can't be read.
fn put_fault(text: &mut Vec<u8>, name: &str) -> Result<(), AllocError>
    ensures { OnOk result (text.new.items ≡ text.old.items ++ fault_text name.now) }
{
    put_unread(text, name)?;
    text.extend_from_slice(written_text(name.as_bytes()))
}

// Appends what is said of the file, where it can't be read now.
fn put_if_unread<F: Outlook>(
    alloc: Global,
    text: &mut Vec<u8>,
    name: &str,
    outlook: &F,
) -> Result<(), AllocError>
    ensures { OnOk result (TellsFiles (F.files outlook.now) (name.now ∷ []) text.old.items text.new.items) }
{
    if is_unread(alloc, name, outlook)? {
        put_fault(text, name)
    } else {
        Ok(())
    }
}

// Appends what is said of the file of the source, where that can't be read now.
fn put_source<F: Outlook>(
    alloc: Global,
    text: &mut Vec<u8>,
    source: &Source,
    outlook: &F,
) -> Result<(), AllocError>
    ensures { OnOk result (TellsFiles (F.files outlook.now) (source_files (plain_source source.now)) text.old.items text.new.items) }
{
    match source {
        Source::File(name) => put_if_unread(alloc, text, name, outlook),
        Source::Made(_) => Ok(()),
    }
}

// Appends what is said of the file of a certificate, where one is asked for that can't be read now.
fn put_certificate<F: Outlook>(
    alloc: Global,
    text: &mut Vec<u8>,
    name: &str,
    outlook: &F,
) -> Result<(), AllocError>
    ensures { OnOk result (TellsFiles (F.files outlook.now) (certificate_files name.now) text.old.items text.new.items) }
{
    if name.is_empty() {
        Ok(())
    } else {
        put_if_unread(alloc, text, name, outlook)
    }
}

// Appends what is said of the files of inputs that can't be read now.
fn put_given<F: Outlook>(
    alloc: Global,
    text: &mut Vec<u8>,
    given: &[Given],
    outlook: &F,
) -> Result<(), AllocError>
    ensures { OnOk result (TellsFiles (F.files outlook.now) (map given_file (map plain_given given.now)) text.old.items text.new.items) }
{
    for word in given {
        put_if_unread(alloc, text, &word.file, outlook)?;
    }
    Ok(())
}

// What is said of those files that the words name which can't be read now.
fn text_of_files<F: Outlook>(
    alloc: Global,
    asked: &Words,
    outlook: &F,
) -> Result<Vec<u8>, AllocError>
    ensures { IfOk result (λ text. TellsFiles (F.files outlook.now) (files_asked (plain_words asked.now)) [] text.items) }
{
    let mut text = Vec::new(alloc);
    put_source(alloc, &mut text, &asked.source, outlook)?;
    put_certificate(alloc, &mut text, &asked.check, outlook)?;
    put_given(alloc, &mut text, &asked.given, outlook)?;
    Ok(text)
}

// What is said of a read fault, where all files can be read now.
#[tactic(auto, unfolding(crate::specs::Said::unknown_text))]
fn unknown_text() -> &'static [u8]
    ensures { result.now ≡ unknown_text }
{
    b"A file of these words, or the standard input, couldn't be read to the end. A folder can't be read: name a file in it.\n"
}

// What is said of a read fault, where these files are told.
fn or_unknown(alloc: Global, told: Vec<u8>) -> Result<Vec<u8>, AllocError>
    ensures { IfOk result (λ text. text.items ≡ or_unknown told.items) }
{
    if told.is_empty() {
        return Vec::from_slice(alloc, unknown_text());
    }
    Ok(told)
}

/// What is said of a read fault: the files of the words that can't be read now.
pub(crate) fn text_of_faults<F: Outlook>(
    alloc: Global,
    asked: &Words,
    outlook: &F,
) -> Result<Vec<u8>, AllocError>
    ensures { IfOk result (λ text. SaysFiles (F.files outlook.now) (plain_words asked.now) text.items) }
{
    let told = text_of_files(alloc, asked, outlook)?;
    or_unknown(alloc, told)
}
