//! What is said of tokens that spell no program.
ghost use Rattle.std.specs.Prelude.{◌≡◌, ◌≤◌, ◌++◌, List, length, codes, IfOk, OnOk};
ghost use Rattle.std.specs.List.{join_by};
ghost use Rattle.lucid_scan.specs.Refusals.{most_source_bytes};
ghost use Rattle.lucid_scan.specs.Tokens.{Tokens};
ghost use Rattle.lucid_explain_places.specs.declared.candidates.Candidate.{Candidate as Told};
ghost use Rattle.lucid_explain_places.specs.Standing.{AreStanding};
ghost use Rattle.lucid_explain_places.specs.Around.{plain_around, around_at};
ghost use Rattle.lucid_explain_places.specs.Hints.{bare_text, hint_text};
ghost use Rattle.lucid_explain_places.specs.Syntax.{read_line, told_of, standing_line, around_text, syntax_text};

use crate::around::{Around, around_at};
use crate::candidates::{Candidate, standing};
use crate::hints::{hint, stands_bare};
use crate::shown::{put_place, put_shown};
use lucid_scan::Token;
use std::alloc::{AllocError, Global};

const MOST_READ: usize = 40;

// Appends what stands at the place.
fn put_read(text: &mut Vec<u8>, read: &[u8]) -> Result<(), AllocError>
    ensures { OnOk result (text.new.items ≡ text.old.items ++ read_line read.now) }
{
    if read.is_empty() {
        return text.extend_from_slice(b"Here the source ends.\n");
    }
    text.extend_from_slice(b"Here stands `")?;
    put_shown(text, &read[..read.len().min(MOST_READ)])?;
    text.extend_from_slice(b"`.\n")
}

// Appends how the candidates are told, parted by a comma and a blank.
fn put_told(text: &mut Vec<u8>, those: &[Candidate]) -> Result<(), AllocError>
    ensures { OnOk result (text.new.items ≡ text.old.items ++ join_by told_of (codes ", ") those.now) }
{
    if let Some((first, others)) = those.split_first() {
        text.extend_from_slice(first.told)?;
        for other in others {
            text.extend_from_slice(b", ")?;
            text.extend_from_slice(other.told)?;
        }
    }
    Ok(())
}

// Appends which tokens may stand there.
fn put_standing(text: &mut Vec<u8>, those: &[Candidate]) -> Result<(), AllocError>
    ensures { OnOk result (text.new.items ≡ text.old.items ++ standing_line those.now) }
{
    if those.is_empty() {
        return Ok(());
    }
    text.extend_from_slice(b"What may stand here: ")?;
    put_told(text, those)?;
    text.extend_from_slice(b".\n")
}

// Appends that the word before the place is an operator, and what it takes lacks.
fn put_bare(text: &mut Vec<u8>, before: &[u8]) -> Result<(), AllocError>
    ensures { OnOk result (text.new.items ≡ text.old.items ++ bare_text before.now) }
{
    text.extend_from_slice(b"`")?;
    text.extend_from_slice(before)?;
    text.extend_from_slice(
        b"` before this is an operator, behind which an expression stands. It is reserved: no name is spelled so.\n",
    )
}

// Appends what was probably meant.
#[tactic(auto, unfolding(crate::specs::Hints::hint_text))]
fn put_hint(
    alloc: Global,
    text: &mut Vec<u8>,
    around: &Around<'_>,
    those: &[Candidate],
) -> Result<(), AllocError>
    ensures { OnOk result (text.new.items ≡ text.old.items ++ hint_text (plain_around around.now) those.now) }
{
    if stands_bare(around, those) {
        return put_bare(text, around.before);
    }
    text.extend_from_slice(hint(alloc, around, those)?)
}

// Appends what is said of a place about which this stands, and at which those may stand.
fn put_around(
    alloc: Global,
    text: &mut Vec<u8>,
    around: &Around<'_>,
    those: &[Candidate],
) -> Result<(), AllocError>
    ensures { OnOk result (text.new.items ≡ text.old.items ++ around_text (plain_around around.now) those.now) }
{
    put_read(text, around.read)?;
    put_standing(text, those)?;
    put_hint(alloc, text, around, those)
}

/// What is said of the tokens of a source that go wrong at the place: what stands there; some of the tokens that may stand there, at most six,
/// with each of which some program goes on; and what was probably meant.
pub fn explain_syntax(
    alloc: Global,
    file: &[u8],
    source: &[u8],
    tokens: &[Token],
    at: u32,
) -> Result<Vec<u8>, AllocError>
    requires within { at ≤ length source.now }
    requires short { length source.now ≤ most_source_bytes }
    requires scanned { Tokens source.now 0 tokens.now }
    ensures { IfOk result (λ text. (those : List Told) × AreStanding source.now at those
        × (text.items ≡ syntax_text file.now source.now at (around_at source.now tokens.now at) those)) }
{
    let around = around_at(source, tokens, at);
    let those = standing(alloc, source, at as usize)?;
    let mut text = Vec::new(alloc);
    put_place(&mut text, file, source, at as usize)?;
    put_around(alloc, &mut text, &around, &those)?;
    Ok(text)
}
