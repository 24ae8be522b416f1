//! Files of a call's words, as they are read again.
ghost use Rattle.std.specs.Prelude.{◌≡◌, ◌++◌, ◌∷◌, [], map, Some, None, if◌then◌else◌, IfOk, OnOk, option_map};
ghost use Rattle.lucid_words.specs.Plain.{plain_given};
ghost use Rattle.lucid_explain_report.specs.Files.{plain_again};
ghost use Rattle.lucid_explain_report.specs.Said.{given_file};
ghost use Rattle.lucid_explain_command.specs.Errors.{plain_file, plain_input, is_standard, bytes_seen, IsFound, labelled, as_named, file_read, Adds, AreReadAgain};

use lucid_explain_errors::Input;
use lucid_explain_report::{Again, Outlook, PAST_CERTIFICATE};
use lucid_ports::MemoryFile;
use lucid_value::Name;
use lucid_words::Given;
use std::alloc::{AllocError, Global};

// Whether the name is that of the standard input.
fn is_standard(name: &str) -> bool
    ensures { result ≡ is_standard name.now }
{
    name.as_bytes() == b"-".as_slice()
}

// The bytes of a file that is read again.
fn bytes_of(again: Again) -> Option<Vec<u8>>
    ensures { option_map (λ bytes. bytes.items) result ≡ bytes_seen (plain_again again) }
{
    match again {
        Again::Bytes(bytes) => Some(bytes),
        Again::Unread => None,
        Again::Gone => None,
    }
}

// The bytes of the file of a name, where it can be read again.
fn read_again<F: Outlook>(
    alloc: Global,
    name: &str,
    outlook: &F,
) -> Result<Option<Vec<u8>>, AllocError>
    ensures { IfOk result (λ found. IsFound (F.files outlook.now) name.now (option_map (λ bytes. bytes.items) found)) }
{
    if is_standard(name) {
        return Ok(None);
    }
    let again = outlook.reread(alloc, name, PAST_CERTIFICATE)?;
    Ok(bytes_of(again))
}

// Adds a file, where its bytes are there.
fn add_file(
    alloc: Global,
    files: &mut Vec<MemoryFile>,
    name: &str,
    found: Option<Vec<u8>>,
) -> Result<(), AllocError>
    ensures { OnOk result (map plain_file files.new.items ≡ map plain_file files.old.items ++ labelled name.now (option_map (λ bytes. bytes.items) found)) }
{
    match found {
        Some(bytes) => {
            let name = String::from_str(alloc, name)?;
            files.push(MemoryFile { name, bytes })?;
            Ok(())
        }
        None => Ok(()),
    }
}

// Adds the file of a name, where it can be read again.
fn add_again<F: Outlook>(
    alloc: Global,
    files: &mut Vec<MemoryFile>,
    name: &str,
    outlook: &F,
) -> Result<(), AllocError>
    ensures { OnOk result (Adds (F.files outlook.now) (as_named name.now ∷ []) (map plain_file files.old.items) (map plain_file files.new.items)) }
{
    let found = read_again(alloc, name, outlook)?;
    add_file(alloc, files, name, found)
}

// Adds those of the files that are given which can be read again.
fn add_given<F: Outlook>(
    alloc: Global,
    files: &mut Vec<MemoryFile>,
    given: &[Given],
    outlook: &F,
) -> Result<(), AllocError>
    ensures { OnOk result (Adds (F.files outlook.now) (map as_named (map given_file (map plain_given given.now))) (map plain_file files.old.items) (map plain_file files.new.items)) }
{
    for word in given {
        add_again(alloc, files, &word.file, outlook)?;
    }
    Ok(())
}

// The source, where it wasn't read from the standard input.
fn read_before(alloc: Global, name: &str, source: &[u8]) -> Result<Option<Vec<u8>>, AllocError>
    ensures { IfOk result (λ found. option_map (λ bytes. bytes.items) found ≡ (if is_standard name.now then None else Some source.now)) }
{
    if is_standard(name) {
        Ok(None)
    } else {
        Ok(Some(Vec::from_slice(alloc, source)?))
    }
}

// The file of the source alone.
fn file_read(alloc: Global, name: &str, source: &[u8]) -> Result<Vec<MemoryFile>, AllocError>
    ensures { IfOk result (λ files. map plain_file files.items ≡ file_read name.now source.now) }
{
    let mut files = Vec::new(alloc);
    let found = read_before(alloc, name, source)?;
    add_file(alloc, &mut files, name, found)?;
    Ok(files)
}

/// The file of the source as it was read, and those of inputs that can be read again.
pub(crate) fn files_again<F: Outlook>(
    alloc: Global,
    name: &str,
    source: &[u8],
    given: &[Given],
    outlook: &F,
) -> Result<Vec<MemoryFile>, AllocError>
    ensures { IfOk result (λ those. Adds (F.files outlook.now) (map as_named (map given_file (map plain_given given.now))) (file_read name.now source.now) (map plain_file those.items)) }
{
    let mut files = file_read(alloc, name, source)?;
    add_given(alloc, &mut files, given, outlook)?;
    Ok(files)
}

// Adds an input, where its bytes are there.
fn add_input(inputs: &mut Vec<Input>, name: &Name, found: Option<Vec<u8>>) -> Result<(), AllocError>
    ensures { OnOk result (map plain_input inputs.new.items ≡ map plain_input inputs.old.items ++ labelled name.now (option_map (λ bytes. bytes.items) found)) }
{
    match found {
        Some(bytes) => {
            let name = name.copy()?;
            inputs.push(Input { name, bytes })?;
            Ok(())
        }
        None => Ok(()),
    }
}

// Adds the input of a word, where its file can be read again.
fn add_word<F: Outlook>(
    alloc: Global,
    inputs: &mut Vec<Input>,
    word: &Given,
    outlook: &F,
) -> Result<(), AllocError>
    ensures { OnOk result (Adds (F.files outlook.now) (plain_given word.now ∷ []) (map plain_input inputs.old.items) (map plain_input inputs.new.items)) }
{
    let found = read_again(alloc, &word.file, outlook)?;
    add_input(inputs, &word.name, found)
}

/// The inputs whose files are given and can be read again.
pub(crate) fn inputs_again<F: Outlook>(
    alloc: Global,
    given: &[Given],
    outlook: &F,
) -> Result<Vec<Input>, AllocError>
    ensures { IfOk result (λ those. AreReadAgain (F.files outlook.now) (map plain_given given.now) (map plain_input those.items)) }
{
    let mut inputs = Vec::new(alloc);
    for word in given {
        add_word(alloc, &mut inputs, word, outlook)?;
    }
    Ok(inputs)
}
