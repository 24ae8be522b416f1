//! The files of a program's inputs.
ghost use Rattle.std.specs.Prelude.{◌≡◌, length, map, option_map, IfOk, IfErr, OnOk, ◌<◌};
ghost use Rattle.std.specs.List.{list_any};
ghost use Rattle.lucid_tree.specs.Env.{same_name};
ghost use Rattle.lucid_words.specs.Plain.{plain_given};
ghost use Rattle.lucid_top.specs.Files.{file_given, word_refusal, AreRightBelow, names_left, files_for, FitsGiven, RefusesGiven, RefusedFirst, IsWordStop};
ghost use Rattle.lucid_report.specs.Refusals.{IsRefusalOf};

use lucid_report::{Refusal, Stop};
use lucid_value::Name;
use lucid_words::Given;
use std::alloc::{AllocError, Global};

// The name of standard input.
const STANDARD_INPUT: &str = "-";

// The file that the words give for the name.
fn file_given<'a>(given: &'a [Given], name: &Name) -> Option<&'a str>
    ensures { option_map (λ file. file.now) result ≡ file_given (map plain_given given.entry.now) name.now }
{
    for word in given {
        if name.same(&word.name) {
            return Some(word.file.as_str());
        }
    }
    None
}

// Whether the name is one of the free names.
fn is_free(free: &[Name], name: &Name) -> bool
    ensures { result ≡ list_any (same_name name.now) free.now }
{
    free.iter().any(|other| name.same(other))
}

// Whether a word with the name may stand behind the earlier ones.
fn check_word(free: &[Name], earlier: &[Given], name: &Name) -> Result<(), Stop>
    ensures { IsWordStop (word_refusal free.now (map plain_given earlier.now) name.now) result }
{
    if !is_free(free, name) {
        return Err(Stop::Refused(Refusal::NotFree { name: name.copy()? }));
    }
    match file_given(earlier, name) {
        Some(_) => Err(Stop::Refused(Refusal::GivenTwice { name: name.copy()? })),
        None => Ok(()),
    }
}

// Whether each word gives a file for a free name that has none.
fn check_words(free: &[Name], given: &[Given]) -> Result<(), Stop>
    ensures right { OnOk result (AreRightBelow free.now (map plain_given given.now) (length given.now)) }
    ensures refused { IfErr result (IsRefusalOf (RefusedFirst free.now (map plain_given given.now))) }
{
    for (k, word) in given.iter().enumerate() {
        check_word(free, &given[..k], &word.name)?;
    }
    Ok(())
}

/// Copies of the names.
pub fn copied_names(alloc: Global, names: &[Name]) -> Result<Vec<Name>, AllocError>
    ensures { IfOk result (λ copies. copies.items ≡ names.now) }
{
    let mut copies = Vec::new(alloc);
    for name in names {
        copies.push(name.copy()?)?;
    }
    Ok(copies)
}

// How many free names are without a file.
fn count_left(free: &[Name], given: &[Given]) -> usize
    ensures { result ≡ length (names_left free.now (map plain_given given.now)) }
{
    free.iter()
        .filter(|name| file_given(given, name).is_none())
        .count()
}

// The file of each free name.
fn files_for<'a>(alloc: Global, free: &[Name], given: &'a [Given]) -> Result<Vec<&'a str>, Stop>
    ensures files { IfOk result (λ files. map (λ file. file.now) files.items ≡ files_for free.now (map plain_given given.entry.now)) }
    ensures memory { IfErr result (λ stop. stop ≡ Stop.NoMemory) }
{
    let mut files = Vec::new(alloc);
    for name in free {
        files.push(file_given(given, name).unwrap_or(STANDARD_INPUT))?;
    }
    Ok(files)
}

/// The file of each free name, in the order of the names. A single one without a file is read from standard input.
pub fn input_files<'a>(
    alloc: Global,
    free: &[Name],
    given: &'a [Given],
) -> Result<Vec<&'a str>, Stop>
    ensures fits { OnOk result (FitsGiven free.now (map plain_given given.entry.now)) }
    ensures files { IfOk result (λ files. map (λ file. file.now) files.items ≡ files_for free.now (map plain_given given.entry.now)) }
    ensures refused { IfErr result (IsRefusalOf (RefusesGiven free.now (map plain_given given.entry.now))) }
{
    check_words(free, given)?;
    if count_left(free, given) > 1 {
        return Err(Stop::Refused(Refusal::NoInput));
    }
    files_for(alloc, free, given)
}
