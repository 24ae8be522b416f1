//! The columns of a program.
ghost use Rattle.std.specs.Prelude.{◌≡◌, ◌<◌, ◌≤◌, length, All, IfOk, IfErr, OnOk};
ghost use Rattle.lucid_tree.specs.WellMade.{places, IsWellMade};
ghost use Rattle.lucid_scan.specs.Refusals.{most_source_bytes};
ghost use Rattle.lucid_columns.specs.Columns.{AreColumns};
ghost use Rattle.lucid_top.specs.Programs.{beside};
ghost use Rattle.lucid_top.specs.Judged.{IsMissing, RefusesColumns};
ghost use Rattle.lucid_report.specs.Refusals.{IsRefusalOf};

use lucid_columns::{ColumnRefusal, column_tree};
use lucid_report::{Refusal, Stop};
use lucid_tree::Tree;
use lucid_value::Name;
use std::alloc::Global;

// The first place that no source has.
const PAST_PLACES: u32 = 1_048_576;

/// The tree with these columns of it as its subject, side by side.
pub fn columns_beside(alloc: Global, tree: Tree, columns: &[Name]) -> Result<Tree, Stop>
    requires well_made { IsWellMade tree }
    requires few { length columns.now ≤ 16 }
    requires placed { All (λ at. at < most_source_bytes) (places tree) }
    requires few_places { length (places tree) ≤ most_source_bytes }
    ensures beside { IfOk result (λ new. new ≡ beside tree columns.now) }
    ensures well_made { IfOk result IsWellMade }
    ensures columns { OnOk result (AreColumns tree columns.now) }
    ensures refused { IfErr result (IsRefusalOf (RefusesColumns tree columns.now)) }
{
    match column_tree(alloc, tree, PAST_PLACES, columns) {
        Ok(new) => Ok(new),
        Err(ColumnRefusal::NoColumn { index }) => Err(no_column(columns, index)),
        Err(ColumnRefusal::NoMemory) => Err(Stop::NoMemory),
    }
}

// The name of this number is no column.
fn no_column(columns: &[Name], index: u32) -> Stop
    requires { index < length columns.now }
    ensures { IsRefusalOf (IsMissing columns.now index) result }
{
    match columns[index as usize].copy() {
        Ok(name) => Stop::Refused(Refusal::NoColumn { name }),
        Err(_) => Stop::NoMemory,
    }
}
