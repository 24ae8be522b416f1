//! Copies of trees. The copies of parts wait in one list, so that a level of the recursion holds none of them.
ghost use Rattle.std.specs.Prelude.{◌≡◌, ◌≤◌, IfOk, OnOk, [], ◌∷◌, ◌++◌, take, drop, length};
ghost use Rattle.lucid_tree.specs.Lists.{listed};
ghost use Rattle.lucid_tree.specs.Rights.{rights};
ghost use Rattle.lucid_tree.specs.Parts.{parts_of};

use crate::definitions::Definitions;
use crate::parts::Parts;
use crate::rebuild::copy_node;
use crate::shape::Shape;
use crate::tree::Tree;
use std::alloc::{AllocError, Global};

impl Tree {
    /// An equal tree, with the same places. It fails for want of memory alone.
    pub fn copy(&self, alloc: Global) -> Result<Tree, AllocError>
        ensures { IfOk result (λ tree. tree ≡ self.now) }
    {
        let mut copies = Vec::new(alloc);
        copy_onto(alloc, &mut copies, self)?;
        let Some(copy) = copies.pop() else {
            unreachable!()
        };
        Ok(copy)
    }
}

// The copy of a tree, behind others: its parts' copies stand there first, and the node takes their place.
#[cycle(copy)]
fn copy_onto(alloc: Global, copies: &mut Vec<Tree>, tree: &Tree) -> Result<(), AllocError>
    ensures { OnOk result (copies.new.items ≡ copies.old.items ++ tree.now ∷ []) }
{
    let before = copies.len();
    copy_parts(alloc, copies, tree)?;
    join(alloc, copies, before, tree)
}

// The copies of the parts of a node, behind others.
#[cycle(copy)]
fn copy_parts(alloc: Global, copies: &mut Vec<Tree>, tree: &Tree) -> Result<(), AllocError>
    ensures { OnOk result (copies.new.items ≡ copies.old.items ++ parts_of tree.now) }
{
    match tree.shape() {
        Shape::Name { .. } => Ok(()),
        Shape::Form { parts, .. } => copy_each(alloc, copies, parts),
        Shape::Call { args, .. } => copy_each(alloc, copies, args.parts()),
        Shape::Scope { subject, defs, .. } => {
            copy_onto(alloc, copies, subject)?;
            copy_rights(alloc, copies, defs.definitions())
        }
    }
}

#[cycle(copy)]
fn copy_each(alloc: Global, copies: &mut Vec<Tree>, parts: Parts<'_>) -> Result<(), AllocError>
    ensures { OnOk result (copies.new.items ≡ copies.old.items ++ listed parts.entry) }
{
    for part in parts {
        copy_onto(alloc, copies, part)?;
    }
    Ok(())
}

#[cycle(copy)]
fn copy_rights(
    alloc: Global,
    copies: &mut Vec<Tree>,
    defs: Definitions<'_>,
) -> Result<(), AllocError>
    ensures { OnOk result (copies.new.items ≡ copies.old.items ++ rights defs.entry) }
{
    for def in defs {
        copy_onto(alloc, copies, def.right())?;
    }
    Ok(())
}

// The copy of a node in place of its parts' copies, which are those from a place on. It is called once its parts are copied, so what it
// takes of the machine's stack isn't taken at each level.
#[inline(never)]
fn join(alloc: Global, copies: &mut Vec<Tree>, from: usize, tree: &Tree) -> Result<(), AllocError>
    requires within { from ≤ length copies.old.items }
    requires parts { drop from copies.old.items ≡ parts_of tree.now }
    ensures { OnOk result (copies.new.items ≡ take from copies.old.items ++ tree.now ∷ []) }
{
    let parts = copies.split_off(from)?;
    copies.push(copy_node(alloc, tree, parts)?)?;
    Ok(())
}
