//! What is said of a column that a program hasn't.
ghost use Rattle.std.specs.Prelude.{◌≡◌, ◌≤◌, ◌++◌, length, IfOk, OnOk};
ghost use Rattle.lucid_scan.specs.Refusals.{most_source_bytes};
ghost use Rattle.lucid_explain_source.specs.Accepted.{IsProgram};
ghost use Rattle.lucid_explain_source.specs.Scopes.{lent};
ghost use Rattle.lucid_explain_source.specs.Columns.{outer_defs, outer_text, columns_text, TellsColumns};

use crate::accepted::scoped_of;
use crate::names::{Advice, MOST_TOLD, Wanted, put_advised};
use crate::scopes::find_all;
use lucid_tree::{Def, Shape, Tree};
use std::alloc::{AllocError, Global};

const COLUMNS: Advice = Advice {
    says: b"A column is a name that the program's outermost block defines without parameters.\n",
    wanted: Wanted::Columns,
    most: MOST_TOLD,
};

// Finds the definitions of the outermost block.
fn find_outer<'a>(found: &mut Vec<&'a Def>, tree: &'a Tree) -> Result<(), AllocError>
    ensures { OnOk result (lent found.new.items ≡ lent found.old.items ++ outer_defs tree.now) }
{
    match tree.shape() {
        Shape::Scope { defs, .. } => find_all(found, defs.definitions()),
        Shape::Form { .. } | Shape::Name { .. } | Shape::Call { .. } => Ok(()),
    }
}

// Appends what is said of columns by the definitions of the outermost block.
fn put_outer(text: &mut Vec<u8>, source: &[u8], defs: &[&Def]) -> Result<(), AllocError>
    requires { length source.now ≤ most_source_bytes }
    ensures { OnOk result (text.new.items ≡ text.old.items ++ outer_text source.now (lent defs.now)) }
{
    put_advised(text, source, defs, 0, &COLUMNS)
}

// Appends what is said of the columns of a tree.
fn put_columns(
    alloc: Global,
    text: &mut Vec<u8>,
    source: &[u8],
    tree: &Tree,
) -> Result<(), AllocError>
    requires { length source.now ≤ most_source_bytes }
    ensures { OnOk result (text.new.items ≡ text.old.items ++ columns_text source.now tree.now) }
{
    let mut defs = Vec::new(alloc);
    find_outer(&mut defs, tree)?;
    put_outer(text, source, &defs)
}

// What is said of the columns of a source that spells the tree.
fn text_of_columns(alloc: Global, source: &[u8], tree: &Tree) -> Result<Vec<u8>, AllocError>
    requires short { length source.now ≤ most_source_bytes }
    requires program { IsProgram source.now tree.now }
    ensures { IfOk result (λ text. TellsColumns source.now text.items) }
{
    let mut text = Vec::new(alloc);
    put_columns(alloc, &mut text, source, tree)?;
    Ok(text)
}

/// What is said of a source that hasn't a column that is asked for: the names of its outermost block that may be columns, at most six. Nothing
/// of a source that is refused.
pub fn explain_columns(alloc: Global, source: &[u8]) -> Result<Vec<u8>, AllocError>
    ensures { IfOk result (λ text. TellsColumns source.now text.items) }
{
    match scoped_of(alloc, source)? {
        Some(scoped) => text_of_columns(alloc, source, scoped.tree()),
        None => Ok(Vec::new(alloc)),
    }
}
