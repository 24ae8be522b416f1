//! Reads tokens as a tree.

ghost use Rattle.std.specs.Prelude.{◌≤◌, length, IfOk, IfErr};
ghost use Rattle.lucid_scan.specs.Tokens.{Tokens};
ghost use Rattle.lucid_scan.specs.Refusals.{most_source_bytes};
ghost use Rattle.lucid_tree.specs.WellMade.{depth, places, IsWellMade, most_tree_depth};
ghost use Rattle.lucid_parse.specs.Grammar.{Spells};
ghost use Rattle.lucid_parse.specs.Refused.{AreRefused};
ghost use Rattle.lucid_parse.specs.Views.{terminals_of};
ghost use Rattle.lucid_parse.specs.Spelled.{IsSourceRefused, SpellsTree};

use crate::build::build;
use crate::depth::least_at;
use crate::laws::spelled_trees_are_well_made;
use crate::nodes::read_nodes;
use crate::refusal::ParseRefusal;
use crate::terminal::TerminalAt;
use crate::terminals::read_terminals;
use lucid_scan::Token;
use lucid_tree::{MAX_TREE_DEPTH, Tree};
use std::alloc::Global;

/// The depth of the first nodes that are too deep.
const TOO_DEEP: u32 = MAX_TREE_DEPTH + 1;

/// The tree that the terminals spell, where it isn't too deep; `end` is the source's length.
fn parse_terminals(alloc: Global, terminals: &[TerminalAt], end: u32) -> Result<Tree, ParseRefusal>
    ensures spelled { IfOk result (λ tree. Spells 0 (terminals_of terminals.now) tree) }
    ensures shallow { IfOk result (λ tree. depth tree ≤ most_tree_depth) }
    ensures refused { IfErr result (λ refusal. AreRefused refusal (terminals_of terminals.now) end) }
{
    let items = read_nodes(alloc, terminals, end)?;
    if let Some(at) = least_at(alloc, &items, TOO_DEEP)? {
        return Err(ParseRefusal::TooNested { at });
    }
    let tree = build(alloc, &items)?;
    Ok(tree)
}

/// The tree that the source's tokens spell, where its depth is at most `MAX_TREE_DEPTH`.
///
/// Parentheses are no nodes and may be nested without bound: the parser has a stack of its own. The time is linear in the
/// source. By the laws `tokens_spell_one_tree` and `tokens_have_one_refusal` of this crate, each answer but want of memory comes
/// exactly where its clause holds.
#[tactic(auto, using(crate::proofs::Answered::refused_memory))]
pub fn parse(alloc: Global, source: &[u8], tokens: &[Token]) -> Result<Tree, ParseRefusal>
    requires short { length source.now ≤ most_source_bytes }
    requires tokens { Tokens source.now 0 tokens.now }
    ensures spelled { IfOk result (λ tree. SpellsTree source.now tokens.now tree) }
    ensures shallow { IfOk result (λ tree. depth tree ≤ most_tree_depth) }
    ensures well_made { IfOk result (λ tree. IsWellMade tree) }
    ensures few { IfOk result (λ tree. length (places tree) ≤ most_source_bytes) }
    ensures refused { IfErr result (λ refusal. IsSourceRefused source.now tokens.now refusal) }
{
    // For the proof: trees that are spelled are well made, and their places are few.
    spelled_trees_are_well_made();
    let terminals = read_terminals(alloc, source, tokens)?;
    parse_terminals(alloc, &terminals, source.len() as u32)
}
