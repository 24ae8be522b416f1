//! The forms of the texts that `clap` takes as they are.
ghost use Rattle.std.specs.Prelude.{◌≡◌, IfOk, List, ℕ, map, option_map};
ghost use Rattle.std.specs.List.{slice_split};
ghost use Rattle.std.specs.String.{string_bytes};
ghost use Rattle.lucid_words.specs.Plain.{Answers, plain_source, plain_given};
ghost use Rattle.lucid_words.specs.Forms.{is_file, is_comma, given_named, source_for, policy_for, given_for, names_for, columns_for, check_for};
ghost use Rattle.lucid_words.specs.Numbers.{IsFromToIfGiven, MadeIsFromTo};

use crate::{Given, PolicyWord, Source, WordsRefusal};
use lucid_value::Name;
use std::alloc::{AllocError, Global};

const MOST_COLUMNS: usize = 16;

// A file's name: it is not empty, and not `-`.
fn is_file(text: &str) -> bool
    ensures { result ≡ is_file text.now }
{
    !text.is_empty() && text != "-"
}

// Exactly one of a program's file and the number of a made program is wanted.
pub fn source_of(
    alloc: Global,
    program: Option<&str>,
    made: Option<u32>,
) -> Result<Source, WordsRefusal>
    requires { IsFromToIfGiven 1 10000 made }
    ensures asked { Answers plain_source (source_for (option_map (λ text. text.now) program.entry) made) result }
    ensures made { IfOk result (MadeIsFromTo 1 10000) }
{
    match (program, made) {
        (Some(file), None) => {
            if !is_file(file) {
                return Err(WordsRefusal::Usage);
            }
            Ok(Source::File(String::from_str(alloc, file)?))
        }
        (None, Some(number)) => Ok(Source::Made(number)),
        (None, None) => Err(WordsRefusal::Usage),
        (Some(_), Some(_)) => Err(WordsRefusal::Usage),
    }
}

// The word of a policy, or the default.
pub fn policy_of(word: Option<&str>) -> Result<PolicyWord, WordsRefusal>
    ensures { Answers (λ policy. policy) (policy_for (option_map (λ text. text.now) word.entry)) result }
{
    match word {
        None => Ok(PolicyWord::Keep),
        Some("keep") => Ok(PolicyWord::Keep),
        Some("none") => Ok(PolicyWord::Nothing),
        Some("age") => Ok(PolicyWord::Ages),
        Some("last") => Ok(PolicyWord::Last),
        Some(_) => Err(WordsRefusal::Usage),
    }
}

// NAME=FILE, cut at the first `=`.
fn given_of(alloc: Global, text: &str) -> Result<Given, WordsRefusal>
    ensures { Answers plain_given (given_named text.now) result }
{
    let Some((name, file)) = text.split_once('=') else {
        return Err(WordsRefusal::Usage);
    };
    if !is_file(file) {
        return Err(WordsRefusal::Usage);
    }
    Ok(Given {
        name: Name::make(alloc, name.as_bytes())?,
        file: String::from_str(alloc, file)?,
    })
}

// Each further word of the command.
pub fn all_given(alloc: Global, texts: &[&str]) -> Result<Vec<Given>, WordsRefusal>
    ensures { Answers (λ all. map plain_given all.items) (given_for (map (λ text. text.now) texts.now)) result }
{
    let mut all = Vec::new(alloc);
    for text in texts {
        let given = given_of(alloc, text)?;
        all.push(given).map_err(AllocError::from)?;
    }
    Ok(all)
}

// The names that the pieces of a list are.
fn names_of(alloc: Global, pieces: &[&str]) -> Result<Vec<Name>, WordsRefusal>
    ensures { Answers (λ names. names.items) (names_for (map (λ piece. piece.now) pieces.now)) result }
{
    let mut names = Vec::new(alloc);
    for piece in pieces {
        let name = Name::make(alloc, piece.as_bytes())?;
        names.push(name).map_err(AllocError::from)?;
    }
    Ok(names)
}

// The pieces of a list between single commas.
fn pieces_of<'a>(alloc: Global, list: &'a str) -> Result<Vec<&'a str>, AllocError>
    ensures { IfOk result (λ pieces. map (λ piece. piece.now) pieces.items ≡ slice_split is_comma list.entry.now) }
{
    list.split(',').collect(alloc)
}

// The names of a list, parted by single commas; none where there is no list.
pub fn columns_of(alloc: Global, list: Option<&str>) -> Result<Vec<Name>, WordsRefusal>
    ensures { Answers (λ columns. columns.items) (columns_for (option_map (λ text. text.now) list.entry)) result }
{
    let Some(list) = list else {
        return Ok(Vec::new(alloc));
    };
    let pieces = pieces_of(alloc, list)?;
    if pieces.len() > MOST_COLUMNS {
        return Err(WordsRefusal::Usage);
    }
    names_of(alloc, pieces.as_slice())
}

// The file of a certificate; empty where it is not given.
pub fn check_of(alloc: Global, file: Option<&str>) -> Result<String, WordsRefusal>
    ensures { Answers string_bytes (check_for (option_map (λ text. text.now) file.entry)) result }
{
    match file {
        None => Ok(String::new(alloc)),
        Some(file) => {
            if !is_file(file) {
                return Err(WordsRefusal::Usage);
            }
            Ok(String::from_str(alloc, file)?)
        }
    }
}
