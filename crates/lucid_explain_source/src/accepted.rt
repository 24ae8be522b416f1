//! Sources that are accepted.
ghost use Rattle.std.specs.Prelude.{◌≢◌, ◌≤◌, length, IfOk, IfSome, IfNone, OnSome};
ghost use Rattle.lucid_scan.specs.Refusals.{Refuses, most_source_bytes};
ghost use Rattle.lucid_scan.specs.Tokens.{Tokens};
ghost use Rattle.lucid_parse.specs.Spelled.{IsSourceRefused};
ghost use Rattle.lucid_scope.specs.Bindings.{IsLeastFault};
ghost use Rattle.lucid_scope.specs.Scoped.{scoped_tree, scoped_inputs};
ghost use Rattle.lucid_tree.specs.WellMade.{IsWellMade, places};
ghost use Rattle.lucid_explain_source.specs.Accepted.{IsSpelt, IsProgram, IsTurnedDown};

use lucid_parse::{ParseRefusal, parse};
use lucid_scan::{ScanRefusal, Token, scan};
use lucid_scope::{ScopeRefusal, Scoped, resolve};
use lucid_tree::Tree;
use std::alloc::{AllocError, Global};

// A source is turned down that the scanner refuses.
fn scanner_turns_down(source: &[u8], refusal: ScanRefusal)
    requires known { refusal ≢ ScanRefusal.NoMemory }
    requires refused { Refuses source.now refusal }
    ensures { IsTurnedDown source.now }
{}

// A source is turned down whose tokens the parser refuses.
fn parser_turns_down(source: &[u8], tokens: &[Token], refusal: &ParseRefusal)
    requires known { refusal.now ≢ ParseRefusal.NoMemory }
    requires short { length source.now ≤ most_source_bytes }
    requires scanned { Tokens source.now 0 tokens.now }
    requires refused { IsSourceRefused source.now tokens.now refusal.now }
    ensures { IsTurnedDown source.now }
{}

// A source is turned down whose names are refused.
fn names_turn_down(source: &[u8], tree: &Tree, refusal: &ScopeRefusal)
    requires spelt { IsSpelt source.now tree.now }
    requires refused { IsLeastFault tree.now refusal.now }
    ensures { IsTurnedDown source.now }
{}

// What the names of a tree belong to that the source spells; none where one is at fault.
fn scoped_of_tree(alloc: Global, source: &[u8], tree: &Tree) -> Result<Option<Scoped>, AllocError>
    requires spelt { IsSpelt source.now tree.now }
    requires well_made { IsWellMade tree.now }
    requires few { length (places tree.now) ≤ most_source_bytes }
    ensures program { IfOk result (λ found. IfSome found (λ scoped. IsProgram source.now (scoped_tree scoped))) }
    ensures few { IfOk result (λ found. IfSome found (λ scoped. length (scoped_inputs scoped) ≤ most_source_bytes)) }
    ensures refused { IfOk result (λ found. IfNone found (IsTurnedDown source.now)) }
{
    match resolve(alloc, tree) {
        Ok(scoped) => {
            let _few = scoped.inputs();
            Ok(Some(scoped))
        }
        Err(ScopeRefusal::NoMemory) => Err(AllocError),
        Err(refusal) => {
            // For the proof: a fault of names turns a source down.
            names_turn_down(source, tree, &refusal);
            Ok(None)
        }
    }
}

// The same by the source's tokens; none where the parser refuses them too.
fn scoped_of_tokens(
    alloc: Global,
    source: &[u8],
    tokens: &[Token],
) -> Result<Option<Scoped>, AllocError>
    requires short { length source.now ≤ most_source_bytes }
    requires scanned { Tokens source.now 0 tokens.now }
    ensures program { IfOk result (λ found. IfSome found (λ scoped. IsProgram source.now (scoped_tree scoped))) }
    ensures few { IfOk result (λ found. IfSome found (λ scoped. length (scoped_inputs scoped) ≤ most_source_bytes)) }
    ensures refused { IfOk result (λ found. IfNone found (IsTurnedDown source.now)) }
{
    match parse(alloc, source, tokens) {
        Ok(tree) => scoped_of_tree(alloc, source, &tree),
        Err(ParseRefusal::NoMemory) => Err(AllocError),
        Err(refusal) => {
            // For the proof: so does a refusal of its tokens.
            parser_turns_down(source, tokens, &refusal);
            Ok(None)
        }
    }
}

/// What the names of a source belong to; none where the source is refused.
pub fn scoped_of(alloc: Global, source: &[u8]) -> Result<Option<Scoped>, AllocError>
    ensures program { IfOk result (λ found. IfSome found (λ scoped. IsProgram source.now (scoped_tree scoped))) }
    ensures short { IfOk result (λ found. OnSome found (length source.now ≤ most_source_bytes)) }
    ensures few { IfOk result (λ found. IfSome found (λ scoped. length (scoped_inputs scoped) ≤ most_source_bytes)) }
    ensures refused { IfOk result (λ found. IfNone found (IsTurnedDown source.now)) }
{
    match scan(alloc, source) {
        Ok(tokens) => scoped_of_tokens(alloc, source, &tokens),
        Err(ScanRefusal::NoMemory) => Err(AllocError),
        Err(refusal) => {
            // For the proof: so does a refusal of its bytes.
            scanner_turns_down(source, refusal);
            Ok(None)
        }
    }
}
