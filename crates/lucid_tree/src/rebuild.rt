//! The copy of a node over copies of its parts.
ghost use Rattle.std.specs.Prelude.{◌≡◌, ℕ, List, IfOk, OnOk, ◌∷◌, length};
ghost use Rattle.std.specs.Vec.Iter.{into_iter_items};
ghost use Rattle.lucid_tree.specs.Lists.{trees_of};
ghost use Rattle.lucid_tree.specs.Parts.{parts_of};
ghost use Rattle.lucid_tree.specs.Rights.{right_of, rights};
ghost use Rattle.lucid_tree.specs.Shape.{head_of, FitsHead};
ghost use Rattle.lucid_tree.specs.Tree.{PlainTree, form, block};
ghost use Rattle.lucid_tree.specs.View.{tree_of};

use crate::lists::{Names, Places32};
use crate::shape::{Head, Shape};
use crate::tree::{Block, Def, DefKind, Defs, Kind, Tree, Trees};
use std::alloc::{AllocError, Global};
use std::vec::IntoIter;

/// The copy of a node whose parts have these copies.
#[tactic(auto, using(crate::proofs::Rebuilt::trees_of_listed, crate::proofs::Rebuilt::copied_form, crate::proofs::Rebuilt::copies_fit))]
pub(crate) fn copy_node(alloc: Global, tree: &Tree, parts: Vec<Tree>) -> Result<Tree, AllocError>
    requires { parts.items ≡ parts_of tree.now }
    ensures { IfOk result (λ copy. copy ≡ tree.now) }
{
    match tree.shape() {
        Shape::Form { at, head, .. } => {
            let kind = copy_form(alloc, head, parts)?;
            Ok(Tree { at, kind })
        }
        Shape::Name { at, name } => {
            let kind = Kind::Name(name.copy()?);
            Ok(Tree { at, kind })
        }
        Shape::Call { at, name, .. } => {
            let name = name.copy()?;
            let args = Trees::from_vec(parts);
            let kind = Kind::Call { name, args };
            Ok(Tree { at, kind })
        }
        Shape::Scope { at, defs, .. } => {
            let kind = copy_block(alloc, defs, parts)?;
            Ok(Tree { at, kind })
        }
    }
}

// The node of a form over copies of its parts.
#[tactic(auto, using(crate::proofs::Counts::count_listed))]
fn copy_form(alloc: Global, head: Head<'_>, parts: Vec<Tree>) -> Result<Kind, AllocError>
    requires { FitsHead (head_of head) (length parts.items) }
    ensures { IfOk result (λ copy. (at : ℕ) → tree_of at copy ≡ form at (head_of head.entry) (trees_of parts.items)) }
{
    match head {
        Head::Const(value) => Ok(Kind::Const(value.copy(alloc)?)),
        Head::Apply { op, .. } => {
            let args = Trees::from_vec(parts);
            Ok(Kind::Apply { op, args })
        }
        Head::Stream(which) => Kind::of_form(alloc, which, parts),
    }
}

// The block whose subject and right sides have these copies.
fn copy_block(alloc: Global, defs: &Defs, parts: Vec<Tree>) -> Result<Kind, AllocError>
    requires { (subject : PlainTree) × (parts.items ≡ subject ∷ rights defs.now) }
    ensures { IfOk result (λ copy. (at : ℕ) (subject : PlainTree) → parts.items ≡ subject ∷ rights defs.now → tree_of at copy ≡ block at subject defs.now) }
{
    let mut parts = parts.into_iter();
    let Some(subject) = parts.next() else {
        unreachable!()
    };
    let defs = copy_defs(alloc, defs, parts)?;
    Ok(Kind::Scope(Box::new(alloc, Block { subject, defs })?))
}

// The copies of definitions whose right sides have these copies.
#[tactic(auto, using(crate::proofs::Rebuilt::before_more, crate::proofs::Rebuilt::before_none, crate::proofs::Rebuilt::rights_more))]
fn copy_defs(
    alloc: Global,
    defs: &Defs,
    mut right_sides: IntoIter<Tree>,
) -> Result<Defs, AllocError>
    requires { into_iter_items right_sides ≡ rights defs.now }
    ensures { IfOk result (λ copy. copy ≡ defs.now) }
{
    let mut copies = Vec::with_capacity(alloc, defs.items().len())?;
    for def in defs.definitions() {
        copies.push(copy_def(alloc, def, &mut right_sides)?)?;
    }
    Ok(Defs::from_vec(copies))
}

// The copy of a definition whose right side has the next of these copies.
fn copy_def(alloc: Global, def: &Def, right_sides: &mut IntoIter<Tree>) -> Result<Def, AllocError>
    requires { (rest : List PlainTree) × (into_iter_items right_sides.old ≡ right_of def.now.kind ∷ rest) }
    ensures copy { IfOk result (λ copy. copy ≡ def.now) }
    ensures rest { OnOk result (into_iter_items right_sides.old ≡ right_of def.now.kind ∷ into_iter_items right_sides.new) }
{
    let name = def.name.copy()?;
    let kind = copy_def_kind(alloc, &def.kind, right_sides)?;
    Ok(Def {
        at: def.at,
        name,
        kind,
    })
}

// The right side comes last, so that no tree waits while the rest is copied.
fn copy_def_kind(
    alloc: Global,
    kind: &DefKind,
    right_sides: &mut IntoIter<Tree>,
) -> Result<DefKind, AllocError>
    requires { (rest : List PlainTree) × (into_iter_items right_sides.old ≡ right_of kind.now ∷ rest) }
    ensures copy { IfOk result (λ copy. copy ≡ kind.now) }
    ensures rest { OnOk result (into_iter_items right_sides.old ≡ right_of kind.now ∷ into_iter_items right_sides.new) }
{
    match kind {
        DefKind::Plain { .. } => Ok(DefKind::Plain {
            right: next_right(right_sides),
        }),
        DefKind::Function {
            parameters,
            places,
            ..
        } => {
            let parameters = copy_names(alloc, parameters)?;
            let places = copy_places(alloc, places)?;
            Ok(DefKind::Function {
                parameters,
                places,
                right: next_right(right_sides),
            })
        }
        DefKind::Current { .. } => Ok(DefKind::Current {
            right: next_right(right_sides),
        }),
    }
}

// The next of these copies.
fn next_right(right_sides: &mut IntoIter<Tree>) -> Tree
    requires { (first : PlainTree) × (rest : List PlainTree) × (into_iter_items right_sides.old ≡ first ∷ rest) }
    ensures { into_iter_items right_sides.old ≡ result ∷ into_iter_items right_sides.new }
{
    match right_sides.next() {
        Some(right) => right,
        None => unreachable!(),
    }
}

fn copy_names(alloc: Global, names: &Names) -> Result<Names, AllocError>
    ensures { IfOk result (λ copy. copy ≡ names.now) }
{
    let items = names.items();
    let mut copies = Vec::with_capacity(alloc, items.len())?;
    for name in items {
        copies.push(name.copy()?)?;
    }
    Ok(Names::from_vec(copies))
}

fn copy_places(alloc: Global, places: &Places32) -> Result<Places32, AllocError>
    ensures { IfOk result (λ copy. copy ≡ places.now) }
{
    Ok(Places32::from_vec(Vec::from_slice(alloc, places.items())?))
}
