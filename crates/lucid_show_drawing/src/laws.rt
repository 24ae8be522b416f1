//! The laws of grids, as the contracts of functions that do nothing.
ghost use Rattle.lucid_show_drawing.specs.Laws.{ArrowsAreLooks, LooksAreUses, WhatIsDemandedIsShown};

use lucid_cert_rules::need_laws::needs_are_reached;

/// A grid shows what is demanded and the tests of searches, and nothing else; where nothing is left out, all of it.
pub fn what_is_demanded_is_shown()
    ensures { WhatIsDemandedIsShown }
{
    needs_are_reached();
}

/// Arrows go exactly from a box to those at which it looked, as far as these are shown.
pub fn arrows_are_looks()
    ensures { ArrowsAreLooks }
{}

/// What is seen past tests is what a value was computed from.
pub fn looks_are_uses()
    ensures { LooksAreUses }
{}
