//! The parts of a node, one after the other.
ghost use Rattle.std.specs.Prelude.{◌≡◌};
ghost use Rattle.std.specs.Iterator.{at_most};
ghost use Rattle.lucid_tree.specs.Tree.{no_trees, tree};
ghost use Rattle.lucid_tree.specs.Size.{count};
ghost use Rattle.lucid_tree.specs.Lists.{trees_of};
ghost use Rattle.lucid_tree.specs.Left.{TakesPart};

use crate::tree::{Tree, Trees};
use std::marker::Model;

// Up to three parts, or a slice of them: those that are still to come.
#[derive(Clone, Copy)]
pub(crate) enum Left<'a> {
    One(&'a Tree),
    Two(&'a Tree, &'a Tree),
    Three(&'a Tree, &'a Tree, &'a Tree),
    Slice(&'a [Tree]),
}

/// The parts of a node that are still to come, in order. Clauses see them as that list of plain trees, so a loop over them goes along the
/// cases of a definition.
#[derive(Drop)]
pub struct Parts<'a> {
    left: Left<'a>,
}

impl<'a> Model for Parts<'a> {
    ghost use Rattle.lucid_tree.specs.Tree.{PlainTrees};
    ghost use Rattle.lucid_tree.specs.Codes.{coded_trees};

    ghost Value = { PlainTrees };

    ghost coded = { coded_trees };

    ghost use Rattle.lucid_tree.specs.Left.{left_of};

    ghost view = { λ p. left_of p.left };
}

impl<'a> Parts<'a> {
    pub(crate) fn one(a: &'a Tree) -> Parts<'a>
        ensures { result ≡ tree a.now no_trees }
    {
        Parts { left: Left::One(a) }
    }

    pub(crate) fn two(a: &'a Tree, b: &'a Tree) -> Parts<'a>
        ensures { result ≡ tree a.now (tree b.now no_trees) }
    {
        Parts {
            left: Left::Two(a, b),
        }
    }

    pub(crate) fn three(a: &'a Tree, b: &'a Tree, c: &'a Tree) -> Parts<'a>
        ensures { result ≡ tree a.now (tree b.now (tree c.now no_trees)) }
    {
        Parts {
            left: Left::Three(a, b, c),
        }
    }

    pub(crate) fn slice(items: &'a [Tree]) -> Parts<'a>
        ensures { result ≡ trees_of items.now }
    {
        Parts {
            left: Left::Slice(items),
        }
    }
}

impl Trees {
    /// The trees of the list, one after the other.
    pub fn parts(&self) -> Parts<'_>
        ensures { result ≡ self.now }
    {
        Parts::slice(self.items())
    }
}

impl<'a> Iterator for Parts<'a> {
    type Item = &'a Tree;

    ghost next_gives = { TakesPart };

    ghost remaining = { λ es. at_most (count es) };

    fn next(&mut self) -> Option<&'a Tree> {
        match self.left {
            Left::One(a) => {
                self.left = Left::Slice(&[]);
                Some(a)
            }
            Left::Two(a, b) => {
                self.left = Left::One(b);
                Some(a)
            }
            Left::Three(a, b, c) => {
                self.left = Left::Two(b, c);
                Some(a)
            }
            Left::Slice(items) => {
                let (first, others) = items.split_first()?;
                self.left = Left::Slice(others);
                Some(first)
            }
        }
    }
}
