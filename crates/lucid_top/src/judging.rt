//! Judging a source: scanning, parsing and the names, in this order.
ghost use Rattle.std.specs.Prelude.{◌≡◌, ◌<◌, ◌≤◌, length, All, IfOk, IfErr, OnOk};
ghost use Rattle.lucid_tree.specs.WellMade.{places, IsWellMade};
ghost use Rattle.lucid_scan.specs.Refusals.{most_source_bytes};
ghost use Rattle.lucid_scope.specs.Bindings.{HasNoFault};
ghost use Rattle.lucid_scope.specs.Scoped.{scoped_tree, scoped_inputs};
ghost use Rattle.lucid_top.specs.Judged.{Spelt, RefusesText, RefusesNames, RefusesBeside, StandsBeside, AreResolved};
ghost use Rattle.lucid_report.specs.Refusals.{IsRefusalOf};

use crate::columns::columns_beside;
use lucid_columns::laws::columns_have_no_fault;
use lucid_parse::parse;
use lucid_report::Stop;
use lucid_scan::scan;
use lucid_scope::{Scoped, resolve, resolve_owned};
use lucid_tree::Tree;
use lucid_value::Name;
use std::alloc::Global;

/// The tree that the source spells.
pub fn read_tree(alloc: Global, source: &[u8]) -> Result<Tree, Stop>
    ensures spelt { IfOk result (Spelt source.now) }
    ensures well_made { IfOk result IsWellMade }
    ensures few { IfOk result (λ tree. length (places tree) ≤ most_source_bytes) }
    ensures placed { IfOk result (λ tree. All (λ at. at < most_source_bytes) (places tree)) }
    ensures refused { IfErr result (IsRefusalOf (RefusesText source.now)) }
{
    let tokens = scan(alloc, source)?;
    let tree = parse(alloc, source, &tokens)?;
    Ok(tree)
}

// What every tree tells that was resolved.
fn are_resolved(scoped: &Scoped)
    ensures { AreResolved scoped.now }
{
    scoped.inputs();
}

/// The tree with what its names belong to.
pub fn resolve_names(alloc: Global, tree: Tree) -> Result<Scoped, Stop>
    requires { IsWellMade tree }
    ensures tree { IfOk result (λ scoped. scoped_tree scoped ≡ tree) }
    ensures no_fault { OnOk result (HasNoFault tree) }
    ensures resolved { IfOk result AreResolved }
    ensures refused { IfErr result (IsRefusalOf (RefusesNames tree)) }
{
    let scoped = resolve_owned(alloc, tree)?;
    are_resolved(&scoped);
    Ok(scoped)
}

// The same of a copy.
fn resolve_copy(alloc: Global, tree: &Tree) -> Result<Scoped, Stop>
    requires { IsWellMade tree.now }
    ensures tree { IfOk result (λ scoped. scoped_tree scoped ≡ tree.now) }
    ensures no_fault { OnOk result (HasNoFault tree.now) }
    ensures resolved { IfOk result AreResolved }
    ensures refused { IfErr result (IsRefusalOf (RefusesNames tree.now)) }
{
    let scoped = resolve(alloc, tree)?;
    are_resolved(&scoped);
    Ok(scoped)
}

/// The tree with these columns of it as its subject, side by side, and what its names belong to. The names of the tree as it is are looked at
/// first.
pub fn resolve_beside(alloc: Global, tree: Tree, columns: &[Name]) -> Result<Scoped, Stop>
    requires well_made { IsWellMade tree }
    requires few { length columns.now ≤ 16 }
    requires placed { All (λ at. at < most_source_bytes) (places tree) }
    requires few_places { length (places tree) ≤ most_source_bytes }
    ensures beside { IfOk result (λ scoped. StandsBeside tree columns.now (scoped_tree scoped) (scoped_inputs scoped)) }
    ensures resolved { IfOk result AreResolved }
    ensures refused { IfErr result (IsRefusalOf (RefusesBeside tree columns.now)) }
{
    // For the proof: the names were looked at, so with the columns beside them there is no fault of names.
    columns_have_no_fault();
    let scoped = resolve_copy(alloc, &tree)?;
    let new = columns_beside(alloc, tree, columns)?;
    resolve_names(alloc, new)
}
