//! What holds of all sources. The functions do nothing: each one's contract is the law.
ghost use Rattle.lucid_explain_source.specs.Laws.{AcceptedAreNotRefused, ExplainedAreRefused, OneFaultIsExplained, TwiceIsTold};

use lucid_parse::laws::{
    spelled_trees_are_well_made, terminals_are_unique, tokens_have_one_refusal,
    tokens_spell_one_tree,
};
use lucid_scan::laws::{
    refusal_is_unique, tokens_are_in_order, tokens_are_not_refused, tokens_are_unique,
};
use lucid_scope::laws::least_fault_is_unique;

/// No source is both accepted and refused; what explains a source is said of one that is refused, and of one fault alone.
pub fn one_verdict()
    ensures accepted { AcceptedAreNotRefused }
    ensures refused { ExplainedAreRefused }
    ensures one_fault { OneFaultIsExplained }
{
    tokens_are_unique();
    tokens_are_not_refused();
    refusal_is_unique();
    tokens_spell_one_tree();
    tokens_have_one_refusal();
    spelled_trees_are_well_made();
    least_fault_is_unique();
}

/// Of a name that is defined twice an earlier definition of it is told, or the function in whose parameters it stands again.
pub fn twice_is_told()
    ensures { TwiceIsTold }
{
    tokens_are_in_order();
}
