//! What is said of a source that is refused.
ghost use Rattle.std.specs.Prelude.{◌≡◌, ◌≢◌, ◌≤◌, ◌++◌, length, IfOk, IfSome, IfNone, OnOk};
ghost use Rattle.lucid_scan.specs.Refusals.{Refuses, most_source_bytes};
ghost use Rattle.lucid_scan.specs.Tokens.{Tokens};
ghost use Rattle.lucid_parse.specs.Spelled.{IsSourceRefused};
ghost use Rattle.lucid_scope.specs.Bindings.{IsLeastFault};
ghost use Rattle.lucid_tree.specs.WellMade.{IsWellMade};
ghost use Rattle.lucid_explain_source.specs.Accepted.{IsSpelt, IsAccepted};
ghost use Rattle.lucid_explain_source.specs.Sources.{nested_advice, depth_text, Explains};

use crate::advice::put_scan;
use crate::fault::Fault;
use crate::names::text_of_names;
use lucid_explain_places::{explain_syntax, put_place};
use lucid_parse::{ParseRefusal, parse};
use lucid_scan::laws::tokens_are_in_order;
use lucid_scan::{ScanRefusal, Token, scan};
use lucid_scope::{ScopeRefusal, resolve};
use lucid_tree::Tree;
use std::alloc::{AllocError, Global};

/// Why a source is refused, and what is said of that.
#[derive(Drop)]
pub struct Explanation {
    pub fault: Fault,
    pub text: Vec<u8>,
}

// What is said of a tree that is too deep.
fn nested_advice() -> &'static [u8]
    ensures { result.now ≡ nested_advice }
{
    b"This stands more than 400 levels deep: give an inner part a name of its own behind `where`.\n"
}

// What is said of a source that the scanner refuses.
fn said_of_scan(
    alloc: Global,
    file: &[u8],
    source: &[u8],
    refusal: ScanRefusal,
) -> Result<Explanation, AllocError>
    requires known { refusal ≢ ScanRefusal.NoMemory }
    requires refused { Refuses source.now refusal }
    ensures { IfOk result (λ said. Explains file.now source.now said.fault said.text.items) }
{
    let Some(fault) = Fault::of_scan(refusal) else {
        return Err(AllocError);
    };
    let mut text = Vec::new(alloc);
    put_scan(&mut text, file, source, refusal)?;
    Ok(Explanation { fault, text })
}

// What is said of a source whose tokens go wrong at the place.
fn said_of_syntax(
    alloc: Global,
    file: &[u8],
    source: &[u8],
    tokens: &[Token],
    at: u32,
) -> Result<Explanation, AllocError>
    requires short { length source.now ≤ most_source_bytes }
    requires scanned { Tokens source.now 0 tokens.now }
    requires refused { IsSourceRefused source.now tokens.now (ParseRefusal.Syntax at) }
    ensures { IfOk result (λ said. Explains file.now source.now said.fault said.text.items) }
{
    // For the proof: no token ends past the source, so the place is one of it.
    tokens_are_in_order();
    let text = explain_syntax(alloc, file, source, tokens, at)?;
    Ok(Explanation {
        fault: Fault::Syntax { at },
        text,
    })
}

// Appends what is said of a place at which a tree is too deep.
fn put_depth(text: &mut Vec<u8>, file: &[u8], source: &[u8], at: u32) -> Result<(), AllocError>
    requires { length source.now ≤ most_source_bytes }
    ensures { OnOk result (text.new.items ≡ text.old.items ++ depth_text file.now source.now at) }
{
    put_place(text, file, source, source.len().min(at as usize))?;
    text.extend_from_slice(nested_advice())
}

// What is said of a source whose tree is too deep at the place.
fn said_of_depth(
    alloc: Global,
    file: &[u8],
    source: &[u8],
    tokens: &[Token],
    at: u32,
) -> Result<Explanation, AllocError>
    requires short { length source.now ≤ most_source_bytes }
    requires scanned { Tokens source.now 0 tokens.now }
    requires refused { IsSourceRefused source.now tokens.now (ParseRefusal.TooNested at) }
    ensures { IfOk result (λ said. Explains file.now source.now said.fault said.text.items) }
{
    let mut text = Vec::new(alloc);
    put_depth(&mut text, file, source, at)?;
    Ok(Explanation {
        fault: Fault::TooNested { at },
        text,
    })
}

// What is said of a source whose tokens the parser refuses.
fn said_of_parse(
    alloc: Global,
    file: &[u8],
    source: &[u8],
    tokens: &[Token],
    refusal: &ParseRefusal,
) -> Result<Explanation, AllocError>
    requires short { length source.now ≤ most_source_bytes }
    requires scanned { Tokens source.now 0 tokens.now }
    requires refused { IsSourceRefused source.now tokens.now refusal.now }
    ensures { IfOk result (λ said. Explains file.now source.now said.fault said.text.items) }
{
    match refusal {
        ParseRefusal::Syntax { at } => said_of_syntax(alloc, file, source, tokens, *at),
        ParseRefusal::TooNested { at } => said_of_depth(alloc, file, source, tokens, *at),
        ParseRefusal::NoMemory => Err(AllocError),
    }
}

// What is said of a source whose names are refused.
fn said_of_names(
    alloc: Global,
    file: &[u8],
    source: &[u8],
    tree: &Tree,
    refusal: &ScopeRefusal,
) -> Result<Explanation, AllocError>
    requires short { length source.now ≤ most_source_bytes }
    requires spelt { IsSpelt source.now tree.now }
    requires refused { IsLeastFault tree.now refusal.now }
    ensures { IfOk result (λ said. Explains file.now source.now said.fault said.text.items) }
{
    let Some(fault) = Fault::of_names(refusal) else {
        return Err(AllocError);
    };
    let text = text_of_names(alloc, file, source, tree, refusal)?;
    Ok(Explanation { fault, text })
}

// What is said of a source by its tree, where the names of that are refused.
fn explain_tree(
    alloc: Global,
    file: &[u8],
    source: &[u8],
    tree: &Tree,
) -> Result<Option<Explanation>, AllocError>
    requires short { length source.now ≤ most_source_bytes }
    requires spelt { IsSpelt source.now tree.now }
    requires well_made { IsWellMade tree.now }
    ensures refused { IfOk result (λ found. IfSome found (λ said. Explains file.now source.now said.fault said.text.items)) }
    ensures accepted { IfOk result (λ found. IfNone found (IsAccepted source.now)) }
{
    match resolve(alloc, tree) {
        Ok(_) => Ok(None),
        Err(ScopeRefusal::NoMemory) => Err(AllocError),
        Err(refusal) => {
            let said = said_of_names(alloc, file, source, tree, &refusal)?;
            Ok(Some(said))
        }
    }
}

// What is said of a source by its tokens, where the parser refuses them or the names of their tree are refused.
fn explain_tokens(
    alloc: Global,
    file: &[u8],
    source: &[u8],
    tokens: &[Token],
) -> Result<Option<Explanation>, AllocError>
    requires short { length source.now ≤ most_source_bytes }
    requires scanned { Tokens source.now 0 tokens.now }
    ensures refused { IfOk result (λ found. IfSome found (λ said. Explains file.now source.now said.fault said.text.items)) }
    ensures accepted { IfOk result (λ found. IfNone found (IsAccepted source.now)) }
{
    match parse(alloc, source, tokens) {
        Ok(tree) => explain_tree(alloc, file, source, &tree),
        Err(refusal) => {
            let said = said_of_parse(alloc, file, source, tokens, &refusal)?;
            Ok(Some(said))
        }
    }
}

/// What is said of a source, where it is refused.
pub fn explain_source(
    alloc: Global,
    file: &[u8],
    source: &[u8],
) -> Result<Option<Explanation>, AllocError>
    ensures refused { IfOk result (λ found. IfSome found (λ said. Explains file.now source.now said.fault said.text.items)) }
    ensures accepted { IfOk result (λ found. IfNone found (IsAccepted source.now)) }
{
    match scan(alloc, source) {
        Ok(tokens) => explain_tokens(alloc, file, source, &tokens),
        Err(ScanRefusal::NoMemory) => Err(AllocError),
        Err(refusal) => {
            let said = said_of_scan(alloc, file, source, refusal)?;
            Ok(Some(said))
        }
    }
}
