//! From a place to the part of a tree that has it.
ghost use Rattle.std.specs.Prelude.{◌≡◌, ◌++◌};
ghost use Rattle.std.specs.List.{find};
ghost use Rattle.std.specs.Option.{option_copied};
ghost use Rattle.lucid_explain_run.specs.Parts.{own_place, all_parts, parts_in, parts_in_defs, stands_at, part_at};

use lucid_tree::{Defs, Parts, Shape, Tree};

/// A tree's own place.
pub fn own_place(tree: &Tree) -> u32
    ensures { result ≡ own_place tree.now }
{
    tree.at
}

/// The part of a tree at a place: the tree itself, or what stands in it. None where nothing has its own place there.
#[cycle(parts)]
pub fn part_at(tree: &Tree, at: u32) -> Option<&Tree>
    ensures { option_copied result ≡ part_at tree.now at }
{
    if own_place(tree) == at {
        return Some(tree);
    }
    match tree.shape() {
        Shape::Name { .. } => None,
        Shape::Form { parts, .. } => part_in(parts, at),
        Shape::Call { args, .. } => part_in(args.parts(), at),
        Shape::Scope { subject, defs, .. } => part_in_block(subject, defs, at),
    }
}

#[cycle(parts)]
fn part_in_block<'a>(subject: &'a Tree, defs: &'a Defs, at: u32) -> Option<&'a Tree>
    ensures { option_copied result ≡ find (stands_at at) (all_parts subject.now ++ parts_in_defs defs.now) }
{
    match part_at(subject, at) {
        Some(found) => Some(found),
        None => part_in_defs(defs, at),
    }
}

#[cycle(parts)]
fn part_in(parts: Parts<'_>, at: u32) -> Option<&Tree>
    ensures { option_copied result ≡ find (stands_at at) (parts_in parts.entry) }
{
    for part in parts {
        let found = part_at(part, at);
        if found.is_some() {
            return found;
        }
    }
    None
}

#[cycle(parts)]
fn part_in_defs(defs: &Defs, at: u32) -> Option<&Tree>
    ensures { option_copied result ≡ find (stands_at at) (parts_in_defs defs.now) }
{
    for def in defs.definitions() {
        let found = part_at(def.right(), at);
        if found.is_some() {
            return found;
        }
    }
    None
}
