//! The pieces of a tree that the nodes of its table come from.
ghost use Rattle.std.specs.Prelude.{◌≡◌, ◌∷◌, ◌++◌, [], OnOk};
ghost use Rattle.lucid_compile.specs.Static.{freezes};
ghost use Rattle.lucid_show_outline.specs.Pieces.{lent, found, found_in, found_in_defs, itself_if};

use lucid_tree::{DefKind, Defs, Parts, Shape, Tree};
use std::alloc::AllocError;

// Whether a block has a current definition, and so a node of its own.
fn has_current(defs: &Defs) -> bool
    ensures { result ≡ freezes defs.now }
{
    let items = defs.items();
    for def in items {
        if let DefKind::Current { .. } = &def.kind {
            return true;
        }
    }
    false
}

// Adds a piece.
fn add<'a>(to: &mut Vec<&'a Tree>, tree: &'a Tree) -> Result<(), AllocError>
    ensures { OnOk result (lent to.new.items ≡ lent to.old.items ++ tree.now ∷ []) }
{
    to.push(tree)?;
    Ok(())
}

// Adds a piece, where it has a node.
fn add_if<'a>(to: &mut Vec<&'a Tree>, there: bool, tree: &'a Tree) -> Result<(), AllocError>
    ensures { OnOk result (lent to.new.items ≡ lent to.old.items ++ itself_if there tree.now) }
{
    if there {
        return add(to, tree);
    }
    Ok(())
}

/// Finds the pieces of a tree that have nodes, in the order of these.
#[cycle(pieces)]
pub(crate) fn find_pieces<'a>(to: &mut Vec<&'a Tree>, tree: &'a Tree) -> Result<(), AllocError>
    ensures { OnOk result (lent to.new.items ≡ lent to.old.items ++ found tree.now) }
{
    match tree.shape() {
        Shape::Name { .. } => add(to, tree),
        Shape::Form { parts, .. } => {
            find_in_parts(to, parts)?;
            add(to, tree)
        }
        Shape::Call { args, .. } => {
            find_in_parts(to, args.parts())?;
            add(to, tree)
        }
        Shape::Scope { subject, defs, .. } => find_in_block(to, tree, subject, defs),
    }
}

#[cycle(pieces)]
fn find_in_block<'a>(
    to: &mut Vec<&'a Tree>,
    block: &'a Tree,
    subject: &'a Tree,
    defs: &'a Defs,
) -> Result<(), AllocError>
    ensures { OnOk result (lent to.new.items ≡ lent to.old.items ++ (found subject.now ++ (found_in_defs defs.now ++ itself_if (freezes defs.now) block.now))) }
{
    find_pieces(to, subject)?;
    find_in_defs(to, defs)?;
    add_if(to, has_current(defs), block)
}

#[cycle(pieces)]
fn find_in_parts<'a>(to: &mut Vec<&'a Tree>, parts: Parts<'a>) -> Result<(), AllocError>
    ensures { OnOk result (lent to.new.items ≡ lent to.old.items ++ found_in parts.entry) }
{
    for part in parts {
        find_pieces(to, part)?;
    }
    Ok(())
}

#[cycle(pieces)]
#[tactic(auto, using(crate::proofs::Loops::found_of_def))]
fn find_in_defs<'a>(to: &mut Vec<&'a Tree>, defs: &'a Defs) -> Result<(), AllocError>
    ensures { OnOk result (lent to.new.items ≡ lent to.old.items ++ found_in_defs defs.now) }
{
    for def in defs.definitions() {
        find_pieces(to, def.right())?;
    }
    Ok(())
}
