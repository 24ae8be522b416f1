//! The depth of a tree.
ghost use Rattle.std.specs.Prelude.{◌≡◌, ◌^◌, ◌<◌};
ghost use Rattle.lucid_tree.specs.Size.{nodes, nodes_in, nodes_in_defs};
ghost use Rattle.lucid_tree.specs.WellMade.{IsWellMade, depth, depths, depths_in_defs};

use crate::definitions::Definitions;
use crate::parts::Parts;
use crate::shape::Shape;
use crate::tree::Tree;

/// No program's tree is deeper.
pub const MAX_TREE_DEPTH: u32 = 400;

impl Tree {
    /// The depth of the tree: its root has depth 1, and a part of a node has one more than the node. It takes no memory.
    pub fn depth(&self) -> u32
        requires { IsWellMade self.now }
        ensures { result ≡ depth self.now }
    {
        depth_of(self)
    }
}

#[cycle(depth)]
fn depth_of(tree: &Tree) -> u32
    requires { nodes tree.now < 2 ^ 31 }
    ensures { result ≡ depth tree.now }
{
    match tree.shape() {
        Shape::Name { .. } => 1,
        Shape::Form { parts, .. } => depth_of_parts(parts) + 1,
        Shape::Call { args, .. } => depth_of_parts(args.parts()) + 1,
        Shape::Scope { subject, defs, .. } => {
            depth_of(subject).max(depth_of_defs(defs.definitions())) + 1
        }
    }
}

#[cycle(depth)]
fn depth_of_parts(parts: Parts<'_>) -> u32
    requires { nodes_in parts < 2 ^ 31 }
    ensures { result ≡ depths parts.entry }
{
    let mut deepest = 0;
    for part in parts {
        deepest = depth_of(part).max(deepest);
    }
    deepest
}

#[cycle(depth)]
fn depth_of_defs(defs: Definitions<'_>) -> u32
    requires { nodes_in_defs defs < 2 ^ 31 }
    ensures { result ≡ depths_in_defs defs.entry }
{
    let mut deepest = 0;
    for def in defs {
        deepest = depth_of(def.right()).max(deepest);
    }
    deepest
}
