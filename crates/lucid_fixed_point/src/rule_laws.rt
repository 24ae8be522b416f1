//! What trees mean is the least solution of their equations. Each law is the contract of a function that does nothing.
ghost use Rattle.lucid_fixed_point.specs.Equations.{Relation};
ghost use Rattle.lucid_fixed_point.specs.RuleLaws.{RulesDeriveMeaning, MeaningIsFixed, LiesIn, LoopsMeanNothing};

/// What is meant is exactly what the rules derive.
pub fn rules_derive_meaning()
    ensures { RulesDeriveMeaning }
{}

/// A tree means a value where and only where its equation gives it, of what the others mean.
pub fn meaning_is_fixed()
    ensures { MeaningIsFixed }
{}

/// A relation of trees, environments, points and values.
pub trait Relates {
    ghost has: { Relation };
}

/// What is meant stands in each relation that is closed under the equations.
pub fn lies_in_each_closed_relation<R: Relates>()
    ensures { LiesIn R.has }
{}

/// A name whose right side is that name means nothing.
pub fn loops_mean_nothing()
    ensures { LoopsMeanNothing }
{}
