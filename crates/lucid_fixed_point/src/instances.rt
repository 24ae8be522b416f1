//! That what the laws are told of can be met: by names that mean nothing.
ghost use Rattle.std.specs.Prelude.{None, []};
ghost use Rattle.lucid_tree.specs.Tree.{no_defs, name};
ghost use Rattle.lucid_fixed_point.specs.Streams.{no_meanings};
ghost use Rattle.lucid_fixed_point.specs.Nothing.{nothing-grows, nothing-is-continuous};

use crate::laws::{
    Arguments, Chain, ChainOfMeanings, FamilyOfSolutions, Ordered, OrderedMeanings, Outside, Same,
    Single, Solution,
};

pub struct Nothing;

impl Outside for Nothing {
    ghost means = { no_meanings };

    ghost continuous = { nothing-is-continuous };
}

impl Arguments for Nothing {
    ghost streams = { λ i t s v. ⊥ };
}

impl Ordered for Nothing {
    ghost lower = { λ i t s v. ⊥ };

    ghost upper = { λ i t s v. ⊥ };

    ghost within = { λ i t s v d. d };
}

impl Chain for Nothing {
    ghost links = { λ k i t s v. ⊥ };

    ghost rising = { λ k i t s v d. d };
}

impl OrderedMeanings for Nothing {
    ghost lower = { no_meanings };

    ghost upper = { no_meanings };

    ghost within = { record { streams = λ n t s v d. d; maps = λ n a t s v d. d } };

    ghost monotone = { nothing-grows };
}

impl ChainOfMeanings for Nothing {
    ghost links = { λ k. no_meanings };

    ghost rising = { λ k. record { streams = λ n t s v d. d; maps = λ n a t s v d. d } };

    ghost continuous = { λ k. nothing-is-continuous };
}

impl Single for Nothing {
    ghost streams = { λ i t s v. ⊥ };

    ghost single = { λ i t s v w d e. absurd d };
}

impl Solution for Nothing {
    ghost definitions = { no_defs };

    ghost opened = { None };

    ghost outside = { no_meanings };

    ghost monotone = { nothing-grows };

    ghost means = { no_meanings };

    ghost solves = { record { streams = λ n t s v d. d; maps = λ n a t s v d. d } };
}

impl FamilyOfSolutions for Nothing {
    ghost program = { name 0 [] };

    ghost inputs = { λ n t. None };

    ghost family = { λ ds z r. no_meanings };

    ghost solves = { tt };
}

impl Same for Nothing {
    ghost left = { name 0 [] };

    ghost right = { name 0 [] };

    ghost same = { λ r h t s v. ((λ d. d), (λ d. d)) };
}
