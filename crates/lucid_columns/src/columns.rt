//! The program with its columns as the subject, side by side over space.
ghost use Rattle.std.specs.Prelude.{◌≡◌, ◌≤◌, ◌<◌, ◌+◌, ◌∷◌, ℕ, List, IsTrue, IfOk, IfErr, OnOk, All, Some, slice_get, length, drop};
ghost use Rattle.lucid_tree.specs.Tree.{PlainTree, block, name as name_tree, sby_of};
ghost use Rattle.lucid_tree.specs.Env.{definition};
ghost use Rattle.lucid_tree.specs.WellMade.{IsWellMade, places};
ghost use Rattle.lucid_columns.specs.Columns.{is_plain, defines_plain, over_space, with_columns, most_columns, AreColumns, RefusesColumns};
ghost use Rattle.lucid_columns.specs.declared.refusal.ColumnRefusal.TheVariants.{NoMemory};

use crate::ColumnRefusal;
use lucid_tree::{Def, DefKind, Defs, Kind, Tree};
use lucid_value::Name;
use std::alloc::{AllocError, Global};

// The place of the first `sby`, behind those of the names.
const MOST_COLUMNS: u32 = 16;

/// The program with these names of its outermost block as the subject, side by side: column i is its value at space i. `base` is a number
/// that no place of the program reaches; from it on the new nodes have their places. With no name the program stays as it is.
///
/// # Errors
/// The first name of which the outermost block has no plain definition, or every name where the program is no block.
pub fn column_tree(
    alloc: Global,
    tree: Tree,
    base: u32,
    columns: &[Name],
) -> Result<Tree, ColumnRefusal>
    requires well_made { IsWellMade tree }
    requires few { length columns.now ≤ 16 }
    requires placed { All (λ at. at < base) (places tree) }
    requires short { base ≤ 1048576 }
    requires few_places { length (places tree) ≤ 1048576 }
    ensures made { IfOk result (λ new. new ≡ with_columns tree base columns.now) }
    ensures well_made { IfOk result (λ new. IsWellMade new) }
    ensures columns { OnOk result (AreColumns tree columns.now) }
    ensures refused { IfErr result (λ q. RefusesColumns tree columns.now q) }
{
    let Some((first, others)) = columns.split_first() else {
        return Ok(tree);
    };
    let Tree { at, kind } = tree;
    let Kind::Scope(mut block) = kind else {
        return Err(ColumnRefusal::NoColumn { index: 0 });
    };
    find_columns(&block.defs, columns)?;
    block.subject = beside(alloc, base, 0, first, others)?;
    Ok(Tree {
        at,
        kind: Kind::Scope(block),
    })
}

// Whether the first definition of the name is of a plain name.
fn has_plain(defs: &Defs, name: &Name) -> bool
    ensures { result ≡ is_plain (definition name.now defs.now) }
{
    for def in defs.items() {
        if name.same(&def.name) {
            return is_plain_def(def);
        }
    }
    false
}

fn is_plain_def(def: &Def) -> bool
    ensures { result ≡ defines_plain def.now.kind }
{
    matches!(&def.kind, DefKind::Plain { .. })
}

// Refuses the first name that has no plain definition.
fn find_columns(defs: &Defs, columns: &[Name]) -> Result<(), ColumnRefusal>
    requires few { length columns.now ≤ 16 }
    ensures found { (at : ℕ) (e : PlainTree) → OnOk result (AreColumns (block at e defs.now) columns.now) }
    ensures refused { (at : ℕ) (e : PlainTree) → IfErr result (λ q. RefusesColumns (block at e defs.now) columns.now q) }
{
    for (index, name) in columns.iter().enumerate() {
        if !has_plain(defs, name) {
            return Err(ColumnRefusal::NoColumn {
                index: index as u32,
            });
        }
    }
    Ok(())
}

// A name and others over space. `index` is the number of the first.
fn beside(
    alloc: Global,
    base: u32,
    index: u32,
    first: &Name,
    others: &[Name],
) -> Result<Tree, AllocError>
    requires few { index + length others.now < 16 }
    requires short { base ≤ 1048576 }
    ensures { IfOk result (λ e. e ≡ over_space base index first.now others.now) }
{
    let Some((next, rest)) = others.split_first() else {
        return column_at(base + index, first);
    };
    let right = beside(alloc, base, index + 1, next, rest)?;
    beside_one(alloc, base, index, first, right)
}

// A column, at this place.
fn column_at(at: u32, name: &Name) -> Result<Tree, AllocError>
    ensures { IfOk result (λ e. e ≡ name_tree at name.now) }
{
    let kind = Kind::Name(name.copy()?);
    Ok(Tree { at, kind })
}

// A column and what stands beside it.
fn beside_one(
    alloc: Global,
    base: u32,
    index: u32,
    first: &Name,
    right: Tree,
) -> Result<Tree, AllocError>
    requires few { index < 16 }
    requires short { base ≤ 1048576 }
    ensures { IfOk result (λ e. e ≡ sby_of (base + most_columns + index) (name_tree (base + index) first.now) right) }
{
    let right = Box::new(alloc, right)?;
    let left = Box::new(alloc, column_at(base + index, first)?)?;
    Ok(Tree {
        at: base + MOST_COLUMNS + index,
        kind: Kind::Sby(left, right),
    })
}
