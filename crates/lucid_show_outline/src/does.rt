//! What nodes do.
ghost use Rattle.std.specs.Prelude.{◌≡◌};

use lucid_equations::Node;
use lucid_ops::Op;
use lucid_tree::Decider;

/// What a node does with the judgments that it uses.
#[derive(Clone, Copy)]
pub(crate) enum Does {
    /// It asks for something.
    Asks,
    /// It is a constant.
    Constant,
    /// An operator is applied to them.
    Applies(Op),
    /// The one is passed on.
    Passes,
    /// The one is passed on, in the context that is entered.
    Freezes,
    /// The first decides.
    Chooses,
    /// All but the one that is found are tests of the part of this number.
    Searches(u32),
}

impl Does {
    ghost use Rattle.lucid_show_outline.specs.Equations.{does, does_by, told_uses};

    // What a form over streams does, by what decides.
    fn by(decider: Decider, parts: &[u32]) -> Does
        ensures { result ≡ does_by decider parts.now }
    {
        match decider {
            Decider::Point => Does::Passes,
            Decider::Test | Decider::Target => Does::Chooses,
            Decider::Search => match parts.get(1) {
                Some(part) => Does::Searches(*part),
                None => Does::Asks,
            },
        }
    }

    /// What a node does.
    #[tactic(auto, unfolding(crate::specs::Equations::does))]
    pub(crate) fn of(node: Node) -> Does
        ensures { result ≡ does node }
    {
        match node {
            Node::Const { .. } => Does::Constant,
            Node::Apply { op, .. } => Does::Applies(op),
            Node::Freeze { .. } => Does::Freezes,
            _ => match node.read() {
                Some((form, parts)) => Does::by(form.decider(), parts.as_slice()),
                None => Does::Asks,
            },
        }
    }

    /// The uses whose own texts are told: of a search the last alone, and none of what asks, which is told by its name.
    #[tactic(auto, unfolding(crate::specs::Equations::told_uses))]
    pub(crate) fn told_uses(self, uses: &[u64]) -> &[u64]
        ensures { result.now ≡ told_uses self uses.now }
    {
        match self {
            Does::Asks => &[],
            Does::Searches(_) => &uses[uses.len().saturating_sub(1)..],
            _ => uses,
        }
    }
}
