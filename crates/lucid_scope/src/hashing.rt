//! How names are hashed.
//!
//! Whoever writes a source picks its names, and could pick many with one hash if he knew how they are hashed: each look into a table of them
//! would go past all. So each tree has a hash of its own, which begins with all its names. That raises the price of such names and is no proof
//! against them: the start is no secret, and the hash can be run backwards. So a last name can be computed that undoes the start.

use lucid_lists::Stack;
use lucid_tree::{Def, DefKind, Parts, Shape, Tree};
use lucid_value::Name;
use std::alloc::{AllocError, Global};
use std::hash::{BuildHasher, FoldHasher, Hasher};

/// Makes hashers that begin with the names of one tree.
#[derive(Clone, Copy)]
pub(crate) struct NameHashing {
    initial: FoldHasher,
}

impl BuildHasher for NameHashing {
    type Hasher = FoldHasher;

    ghost build_hasher = { λ s. s.initial };

    fn build_hasher(&self) -> FoldHasher {
        self.initial
    }
}

// What is left of a tree, and the hash of the names before.
#[derive(Drop)]
struct Names<'a> {
    hasher: FoldHasher,
    ahead: Stack<&'a Tree>,
}

impl<'a> Names<'a> {
    fn add(&mut self, name: &Name) {
        self.hasher.write(name.bytes());
    }

    fn put_ahead(&mut self, parts: Parts<'a>) -> Result<(), AllocError> {
        for part in parts {
            self.ahead.push(part)?;
        }
        Ok(())
    }

    // The names of a definition itself. Its right side is put ahead.
    fn add_definition(&mut self, def: &'a Def) -> Result<(), AllocError> {
        self.add(&def.name);
        if let DefKind::Function { parameters, .. } = &def.kind {
            for name in parameters.items() {
                self.add(name);
            }
        }
        self.ahead.push(def.right())
    }

    // The names of a node itself. What stands below it is put ahead.
    fn add_node(&mut self, tree: &'a Tree) -> Result<(), AllocError> {
        match tree.shape() {
            Shape::Name { name, .. } => {
                self.add(name);
                Ok(())
            }
            Shape::Form { parts, .. } => self.put_ahead(parts),
            Shape::Call { name, args, .. } => {
                self.add(name);
                self.put_ahead(args.parts())
            }
            Shape::Scope { subject, defs, .. } => {
                for def in defs.definitions() {
                    self.add_definition(def)?;
                }
                self.ahead.push(subject)
            }
        }
    }
}

impl NameHashing {
    /// The hashing of a tree's names.
    pub(crate) fn of_tree(alloc: Global, tree: &Tree) -> Result<NameHashing, AllocError> {
        let mut names = Names {
            hasher: FoldHasher::default(),
            ahead: Stack::new(alloc),
        };
        names.ahead.push(tree)?;
        // A tree has fewer nodes.
        for _ in 0..u64::MAX {
            let Some(next) = names.ahead.pop() else {
                break;
            };
            names.add_node(next)?;
        }
        Ok(NameHashing {
            initial: names.hasher,
        })
    }
}
