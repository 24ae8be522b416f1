//! Whether the rows of call places are right.
ghost use Rattle.std.specs.Prelude.{◌≡◌, ℕ, ◌<◌, ◌↔◌, length, slice_index, max, true, IfOk, MatchOption};
ghost use Rattle.lucid_equations.specs.Sound.{EachStandsIn};
ghost use Rattle.lucid_flat.specs.Wants.{asked, wanted, AreWants};
ghost use Rattle.lucid_flat.specs.WrongRows.{NamesAreRight, PlaceIsRight, PlacesAreRight, IsFirstWrong};

use crate::names::stands_in;
use lucid_equations::{Entry, NameRow, NodeRow, PlaceRow, Table};
use std::alloc::{AllocError, Global};

// Notes that a call into the scope of a parameter wants more actuals than the parameter's index.
fn note_want(wants: &mut [u64], row: &NameRow)
    ensures { (s : ℕ) → s < length wants.old → slice_index wants.new s ≡ max (slice_index wants.old s) (asked s row.now) }
{
    if let Entry::Parameter { index } = row.kind {
        let scope = row.scope as usize;
        if scope < wants.len() {
            wants[scope] = wants[scope].max(u64::from(index) + 1);
        }
    }
}

// For each scope how many actuals a call into it wants at the least.
fn wants_of(alloc: Global, scopes: usize, names: &[NameRow]) -> Result<Vec<u64>, AllocError>
    ensures { IfOk result (λ wants. AreWants names.now scopes wants.items) }
{
    let mut wants = vec![in alloc; 0u64; scopes]?;
    for row in names {
        note_want(&mut wants, row);
    }
    Ok(wants)
}

// Whether each actual stands in the scope.
fn are_actuals_right(rows: &[NodeRow], scope: u32, actuals: &[u32]) -> bool
    ensures { (result ≡ true) ↔ EachStandsIn rows.now scope actuals.now }
{
    for actual in actuals {
        if !stands_in(rows, scope, *actual) {
            return false;
        }
    }
    true
}

// Whether a place's scope is there, its name is a called one, and its actuals stand in its scope and are as many as the name wants.
fn is_place_right(table: &Table, wants: &[u64], row: &PlaceRow) -> bool
    requires names { NamesAreRight table.now }
    requires wants { AreWants table.now.names (length table.now.scopes) wants.now }
    ensures { (result ≡ true) ↔ PlaceIsRight table.now row.now }
{
    if row.scope as usize >= table.scopes.items().len() {
        return false;
    }
    let Some(name) = table.names.items().get(row.name as usize) else {
        return false;
    };
    match name.kind {
        Entry::Called { body: _ } => {
            let actuals = row.actuals.items();
            wants[name.scope as usize] <= actuals.len() as u64
                && are_actuals_right(table.nodes.items(), row.scope, actuals)
        }
        _ => false,
    }
}

/// The first call place whose row is wrong, where the names' rows are right.
pub(crate) fn first_wrong_place(alloc: Global, table: &Table) -> Result<Option<u32>, AllocError>
    requires { NamesAreRight table.now }
    ensures { IfOk result (λ found. MatchOption found (PlacesAreRight table.now) (λ at. IsFirstWrong (λ id. PlaceIsRight table.now) table.now.places at)) }
{
    let wants = wants_of(alloc, table.scopes.items().len(), table.names.items())?;
    let rows = table.places.items();
    for (id, row) in rows.iter().enumerate() {
        if !is_place_right(table, &wants, row) {
            return Ok(Some(id as u32));
        }
    }
    Ok(None)
}
