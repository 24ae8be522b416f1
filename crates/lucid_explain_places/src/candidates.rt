//! Which tokens may stand at a place.
ghost use Rattle.std.specs.Prelude.{◌≡◌, ℕ, ◌-◌, ◌≤◌, List, ◌∷◌, ◌++◌, length, map, IfOk, OnOk, IsTrue, MatchOption};
ghost use Rattle.std.specs.Option.{option_to_list};
ghost use Rattle.lucid_scan.specs.Refusals.{most_source_bytes};
ghost use Rattle.lucid_scan.specs.Tokens.{Tokens};
ghost use Rattle.lucid_parse.specs.Spelled.{IsSourceRefused};
ghost use Rattle.lucid_explain_places.specs.declared.candidates.Candidate.{Candidate as Told};
ghost use Rattle.lucid_explain_places.specs.Standing.{GoesOn, IsBegun, tried, text_and_told, AreFirst, AreStanding};

use lucid_parse::laws::terminals_are_unique;
use lucid_parse::{ParseRefusal, parse};
use lucid_scan::laws::{tokens_are_in_order, tokens_are_not_refused, tokens_are_unique};
use lucid_scan::{ScanRefusal, Token, scan};
use std::alloc::{AllocError, Global};

/// A token that is tried at a place, and how it is told.
#[derive(Clone, Copy)]
pub struct Candidate {
    pub text: &'static [u8],
    pub told: &'static [u8],
}

const MOST_TOLD: usize = 6;

// The candidates, the commonest first. One name, one number and one operator stand for all.
const CANDIDATES: [Candidate; 16] = [
    Candidate {
        text: b";",
        told: b"`;`",
    },
    Candidate {
        text: b"then",
        told: b"`then`",
    },
    Candidate {
        text: b"else",
        told: b"`else`",
    },
    Candidate {
        text: b"fi",
        told: b"`fi`",
    },
    Candidate {
        text: b")",
        told: b"`)`",
    },
    Candidate {
        text: b",",
        told: b"`,`",
    },
    Candidate {
        text: b"=",
        told: b"`=`",
    },
    Candidate {
        text: b"end",
        told: b"`end`",
    },
    Candidate {
        text: b"where",
        told: b"`where`",
    },
    Candidate {
        text: b"+",
        told: b"an operator",
    },
    Candidate {
        text: b"x",
        told: b"a name",
    },
    Candidate {
        text: b"1",
        told: b"a number",
    },
    Candidate {
        text: b"(",
        told: b"`(`",
    },
    Candidate {
        text: b"if",
        told: b"`if`",
    },
    Candidate {
        text: b"is",
        told: b"`is`",
    },
    Candidate {
        text: b"current",
        told: b"`current`",
    },
];

// How the parser refuses the tokens of the bytes; none where it doesn't.
fn refusal_of(alloc: Global, bytes: &[u8], tokens: &[Token]) -> Option<ParseRefusal>
    requires short { length bytes.now ≤ most_source_bytes }
    requires scanned { Tokens bytes.now 0 tokens.now }
    ensures { MatchOption result (GoesOn bytes.now) (λ refusal. IsSourceRefused bytes.now tokens.now refusal) }
{
    parse(alloc, bytes, tokens).err()
}

// Whether some program goes on with the bytes, which have these tokens.
#[tactic(auto, using(crate::proofs::Begun::begun_at_end, crate::proofs::Begun::nested_goes_on, crate::proofs::Begun::begun_ends))]
fn tokens_go_on(alloc: Global, bytes: &[u8], tokens: &[Token]) -> Result<bool, AllocError>
    requires short { length bytes.now ≤ most_source_bytes }
    requires scanned { Tokens bytes.now 0 tokens.now }
    ensures yes { IfOk result (λ b. IsTrue b → GoesOn bytes.now) }
    ensures no { IfOk result (λ b. GoesOn bytes.now → IsTrue b) }
{
    // For the proof: tokens end in the source, and bytes have one list of them, which stand for one list of terminals.
    tokens_are_in_order();
    tokens_are_unique();
    terminals_are_unique();
    match refusal_of(alloc, bytes, tokens) {
        None => Ok(true),
        Some(ParseRefusal::TooNested { .. }) => Ok(true),
        Some(ParseRefusal::Syntax { at }) => Ok(at as usize == bytes.len()),
        Some(ParseRefusal::NoMemory) => Err(AllocError),
    }
}

// Whether some program goes on with the bytes.
#[tactic(auto, using(crate::proofs::Begun::not_begun))]
fn goes_on(alloc: Global, bytes: &[u8]) -> Result<bool, AllocError>
    ensures yes { IfOk result (λ b. IsTrue b → IsBegun bytes.now) }
    ensures no { IfOk result (λ b. IsBegun bytes.now → IsTrue b) }
{
    // For the proof: bytes that have tokens are not refused.
    tokens_are_not_refused();
    match scan(alloc, bytes) {
        Ok(tokens) => tokens_go_on(alloc, bytes, &tokens),
        Err(ScanRefusal::NoMemory) => Err(AllocError),
        Err(_) => Ok(false),
    }
}

// Whether the text may stand behind the bytes.
fn may_stand(alloc: Global, before: &[u8], text: &[u8]) -> Result<bool, AllocError>
    ensures yes { IfOk result (λ b. IsTrue b → IsBegun (before.now ++ (10 ∷ text.now))) }
    ensures no { IfOk result (λ b. IsBegun (before.now ++ (10 ∷ text.now)) → IsTrue b) }
{
    let mut bytes = Vec::from_slice(alloc, before)?;
    bytes.extend_from_slice(b"\n")?;
    bytes.extend_from_slice(text)?;
    goes_on(alloc, &bytes)
}

// The candidate, where there is room for it and it may stand at the place.
fn if_standing(
    alloc: Global,
    source: &[u8],
    at: usize,
    candidate: &Candidate,
    room: usize,
) -> Result<Option<Candidate>, AllocError>
    requires { at ≤ length source.now }
    ensures few { IfOk result (λ found. length (option_to_list found) ≤ room) }
    ensures first { IfOk result (λ found. (these : List (List ℕ × List ℕ)) (those : List Told) → AreFirst source.now at (room - length (option_to_list found)) these those
        → AreFirst source.now at room (text_and_told candidate.now ∷ these) (option_to_list found ++ those)) }
{
    if room == 0 {
        return Ok(None);
    }
    if may_stand(alloc, &source[..at], candidate.text)? {
        Ok(Some(*candidate))
    } else {
        Ok(None)
    }
}

// Adds a candidate, where there is one.
fn add_found(those: &mut Vec<Candidate>, found: Option<Candidate>) -> Result<(), AllocError>
    ensures { OnOk result (those.new.items ≡ those.old.items ++ option_to_list found) }
{
    match found {
        Some(candidate) => {
            those.push(candidate)?;
            Ok(())
        }
        None => Ok(()),
    }
}

// The candidates.
fn candidates() -> &'static [Candidate]
    ensures { map text_and_told result.now ≡ tried }
{
    &CANDIDATES
}

/// The first of the tokens that may stand at a place, the commonest first: at most six.
pub fn standing(alloc: Global, source: &[u8], at: usize) -> Result<Vec<Candidate>, AllocError>
    requires { at ≤ length source.now }
    ensures { IfOk result (λ those. AreStanding source.now at those.items) }
{
    let mut those = Vec::new(alloc);
    let candidates = candidates();
    for candidate in candidates {
        let room = MOST_TOLD - those.len();
        let found = if_standing(alloc, source, at, candidate, room)?;
        add_found(&mut those, found)?;
    }
    Ok(those)
}
