//! What holds of all terminals and tokens.
ghost use Rattle.lucid_parse.specs.Laws.{TerminalsSpellOneTree, FaultIsUnique, TerminalsAreUnique, TokensSpellOneTree, SpelledTreesAreWellMade, SpelledPlacesAreFew, TokensHaveOneRefusal, SpelledTokensAreNotRefused, OperatorsAreTokens};

use lucid_scan::laws::{tokens_are_few, tokens_are_in_order};
use lucid_value::one_reading;

/// Terminals spell at most one tree.
#[tactic(auto, using(crate::proofs::Built::one_tree))]
pub fn terminals_spell_one_tree()
    ensures { TerminalsSpellOneTree }
{}

/// Terminals have at most one fault.
pub fn fault_is_unique()
    ensures { FaultIsUnique }
{}

/// Tokens have at most one list of terminals.
pub fn terminals_are_unique()
    ensures { TerminalsAreUnique }
{
    one_reading();
}

/// Tokens spell at most one tree.
pub fn tokens_spell_one_tree()
    ensures { TokensSpellOneTree }
{
    terminals_are_unique();
}

/// The tree that the tokens of a source spell is well made, and has at most as many places as the source has bytes.
pub fn spelled_trees_are_well_made()
    ensures well_made { SpelledTreesAreWellMade }
    ensures few { SpelledPlacesAreFew }
{
    tokens_are_in_order();
    tokens_are_few();
}

/// Want of memory apart, tokens have at most one refusal, and none where they spell a tree of depth 400 or less.
pub fn tokens_have_one_refusal()
    ensures one { TokensHaveOneRefusal }
    ensures excluded { SpelledTokensAreNotRefused }
{
    terminals_are_unique();
    terminals_spell_one_tree();
    fault_is_unique();
}

/// The spelling of each data operator is a mark or a reserved word.
#[tactic(auto, using(crate::proofs::Spellings::operators_are_tokens))]
pub fn operators_are_tokens()
    ensures { OperatorsAreTokens }
{}
