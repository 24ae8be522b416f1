//! The law of equations, as the contract of a function that does nothing.
ghost use Rattle.lucid_show_outline.specs.Laws.{EquationsAreWhole};

/// Where judgments use earlier ones alone, the equation that is told of one is whole.
pub fn equations_are_whole()
    ensures { EquationsAreWhole }
{}
