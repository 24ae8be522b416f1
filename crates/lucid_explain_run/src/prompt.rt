//! What is said before a run reads an input from a terminal.
ghost use Rattle.std.specs.Prelude.{◌≡◌, ◌≤◌, ◌++◌, length, min, drop, IfOk, OnOk};
ghost use Rattle.lucid_scan.specs.Refusals.{most_source_bytes};
ghost use Rattle.lucid_scope.specs.Scoped.{scoped_tree, scoped_inputs};
ghost use Rattle.lucid_explain_source.specs.Accepted.{IsProgram};
ghost use Rattle.lucid_explain_run.specs.Prompts.{begins_comment, is_divided, looks_like_digit, other_text, prompt_text, asked_text, read_text, only_text, are_others, TellsPrompt};

use crate::inputs::{Lacking, Sought, all_lacking, put_meant};
use lucid_explain_source::{begins, name_front, put_name, scoped_of};
use lucid_scope::Scoped;
use lucid_value::Name;
use std::alloc::{AllocError, Global};

// Whether a comment begins there, behind a name.
fn begins_comment(behind: &[u8]) -> bool
    ensures { result ≡ begins_comment behind.now }
{
    begins(behind, b" //") || begins(behind, b"//")
}

// Whether a comment begins behind the name with which the rest of a source begins.
fn is_divided(rest: &[u8]) -> bool
    ensures { result ≡ is_divided rest.now }
{
    begins_comment(&rest[name_front(rest).len()..])
}

// Whether this is a letter that looks like a digit.
fn looks_like_digit(name: &[u8]) -> bool
    ensures { result ≡ looks_like_digit name.now }
{
    name == b"O".as_slice() || name == b"l".as_slice()
}

// What else may be meant by a name with which the rest of a source begins.
fn other_text(rest: &[u8]) -> &'static [u8]
    ensures { result.now ≡ other_text rest.now }
{
    if is_divided(rest) {
        b"Behind it begins a comment, with `//`: whole division is `div`.\n"
    } else if looks_like_digit(name_front(rest)) {
        b"If no input is meant: define the name. If 0 or 1 is meant: this is a letter.\n"
    } else if name_front(rest) == b"nil".as_slice() {
        b"The empty list is written `[]`.\n"
    } else {
        b"If no input is meant: define the name, or write a word between two \", as in \"red\".\n"
    }
}

// What else may be meant by a name that stands at a place.
fn other_at(source: &[u8], at: u32) -> &'static [u8]
    ensures { result.now ≡ other_text (drop (min (length source.now) at) source.now) }
{
    other_text(&source[source.len().min(at as usize)..])
}

// Appends that the input is read, and what may be meant by its name, or else the other text.
fn put_prompt(
    text: &mut Vec<u8>,
    source: &[u8],
    other: &[u8],
    lacking: &Lacking<'_>,
) -> Result<(), AllocError>
    requires { length source.now ≤ most_source_bytes }
    ensures { OnOk result (text.new.items ≡ text.old.items ++ prompt_text source.now other.now lacking.now) }
{
    text.extend_from_slice(b"The input ")?;
    put_name(text, lacking.name.bytes())?;
    text.extend_from_slice(b" is read from here, a value on each line.\n")?;
    put_meant(text, source, other, lacking)
}

// Appends what is said of an input that is read.
fn put_asked(text: &mut Vec<u8>, source: &[u8], lacking: &Lacking<'_>) -> Result<(), AllocError>
    requires { length source.now ≤ most_source_bytes }
    ensures { OnOk result (text.new.items ≡ text.old.items ++ asked_text source.now lacking.now) }
{
    let other = other_at(source, lacking.at);
    put_prompt(text, source, other, lacking)
}

// Appends what is said of an input, where it is read.
fn put_read(
    text: &mut Vec<u8>,
    source: &[u8],
    is_read: bool,
    lacking: &Lacking<'_>,
) -> Result<(), AllocError>
    requires { length source.now ≤ most_source_bytes }
    ensures { OnOk result (text.new.items ≡ text.old.items ++ read_text source.now is_read lacking.now) }
{
    if is_read {
        put_asked(text, source, lacking)
    } else {
        Ok(())
    }
}

// Appends what is said of the only input without a file, where it is read.
fn put_only(
    text: &mut Vec<u8>,
    source: &[u8],
    is_read: bool,
    those: &[Lacking<'_>],
) -> Result<(), AllocError>
    requires { length source.now ≤ most_source_bytes }
    ensures { OnOk result (text.new.items ≡ text.old.items ++ only_text source.now is_read those.now) }
{
    match those {
        [lacking] => put_read(text, source, is_read, lacking),
        _ => Ok(()),
    }
}

// Whether as many files are given as there are other inputs than one.
fn are_others(given: &[Name], inputs: &[Name]) -> bool
    ensures { result ≡ are_others given.now inputs.now }
{
    given.len() + 1 == inputs.len()
}

// What is said of a source by what its names belong to.
fn text_of_scoped(
    alloc: Global,
    source: &[u8],
    scoped: &Scoped,
    given: &[Name],
) -> Result<Vec<u8>, AllocError>
    requires short { length source.now ≤ most_source_bytes }
    requires program { IsProgram source.now (scoped_tree scoped.now) }
    requires few { length (scoped_inputs scoped.now) ≤ most_source_bytes }
    ensures { IfOk result (λ text. TellsPrompt source.now given.now text.items) }
{
    let sought = Sought {
        scoped,
        given,
        end: source.len() as u32,
    };
    let those = all_lacking(alloc, &sought)?;
    let mut text = Vec::new(alloc);
    let is_read = are_others(given, scoped.inputs());
    put_only(&mut text, source, is_read, &those)?;
    Ok(text)
}

/// What is said before the standard input is read, which is a terminal: the name of the only input of a source for which no file is given, and
/// what may be meant by it. Nothing where there is no such input or the files that are given don't fit, or of a source that is refused.
pub fn explain_prompt(alloc: Global, source: &[u8], given: &[Name]) -> Result<Vec<u8>, AllocError>
    ensures { IfOk result (λ text. TellsPrompt source.now given.now text.items) }
{
    match scoped_of(alloc, source)? {
        Some(scoped) => text_of_scoped(alloc, source, &scoped, given),
        None => Ok(Vec::new(alloc)),
    }
}
