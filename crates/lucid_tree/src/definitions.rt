//! The definitions of a block, one after the other, and their right sides.
ghost use Rattle.std.specs.Prelude.{◌≡◌};
ghost use Rattle.std.specs.Iterator.{at_most};
ghost use Rattle.lucid_tree.specs.Left.{TakesDef};
ghost use Rattle.lucid_tree.specs.Rights.{count_defs, right_of};

use crate::tree::{Def, DefKind, Defs, Tree};
use std::marker::Model;

/// The definitions of a block that are still to come, in order. Clauses see them as that plain list.
#[derive(Drop)]
pub struct Definitions<'a> {
    items: &'a [Def],
}

impl<'a> Model for Definitions<'a> {
    ghost use Rattle.lucid_tree.specs.Tree.{PlainDefs};
    ghost use Rattle.lucid_tree.specs.Codes.{coded_defs};

    ghost Value = { PlainDefs };

    ghost coded = { coded_defs };

    ghost use Rattle.lucid_tree.specs.DefsView.{defs_of};

    ghost view = { λ p. defs_of p.items.now };
}

impl Defs {
    /// The definitions, one after the other.
    pub fn definitions(&self) -> Definitions<'_>
        ensures { result ≡ self.now }
    {
        Definitions {
            items: self.items(),
        }
    }
}

impl<'a> Iterator for Definitions<'a> {
    type Item = &'a Def;

    ghost next_gives = { TakesDef };

    ghost remaining = { λ ds. at_most (count_defs ds) };

    fn next(&mut self) -> Option<&'a Def> {
        let (first, others) = self.items.split_first()?;
        self.items = others;
        Some(first)
    }
}

impl Def {
    /// The right side of the definition.
    pub fn right(&self) -> &Tree
        ensures { result.now ≡ right_of self.now.kind }
    {
        match &self.kind {
            DefKind::Plain { right } => right,
            DefKind::Function { right, .. } => right,
            DefKind::Current { right } => right,
        }
    }
}
