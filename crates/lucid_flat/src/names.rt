//! Whether the rows of names are right, and whether a node stands in a scope.
ghost use Rattle.std.specs.Prelude.{◌≡◌, ◌↔◌, true, MatchOption};
ghost use Rattle.lucid_equations.specs.Sound.{StandsIn};
ghost use Rattle.lucid_flat.specs.SoundForms.{EntryFits};
ghost use Rattle.lucid_flat.specs.WrongRows.{NameIsRight, IsFirstWrong, NamesAreRight};

use lucid_equations::{Entry, NameRow, NodeRow, ScopeKind, ScopeRow, Table};

/// Whether a node is there and stands in the scope.
pub(crate) fn stands_in(rows: &[NodeRow], scope: u32, node: u32) -> bool
    ensures { (result ≡ true) ↔ StandsIn rows.now scope node }
{
    match rows.get(node as usize) {
        Some(row) => row.scope == scope,
        None => false,
    }
}

// Whether a name's scope, which has this row, is of the kind that the name wants, and its body stands where it has to.
fn is_entry_right(nodes: &[NodeRow], id: u32, scope: &ScopeRow, entry: Entry) -> bool
    ensures { (result ≡ true) ↔ EntryFits nodes.now id scope.now entry }
{
    match entry {
        Entry::Plain { body } => stands_in(nodes, id, body),
        Entry::Parameter { index: _ } => matches!(scope.kind, ScopeKind::Called),
        Entry::Current { body } => {
            matches!(scope.kind, ScopeKind::Frozen) && stands_in(nodes, scope.parent, body)
        }
        Entry::Called { body } => {
            matches!(scope.kind, ScopeKind::Called) && stands_in(nodes, id, body)
        }
    }
}

// Whether a name's scope is there, and the name fits it.
fn is_name_right(table: &Table, row: &NameRow) -> bool
    ensures { (result ≡ true) ↔ NameIsRight table.now row.now }
{
    match table.scopes.items().get(row.scope as usize) {
        Some(scope) => is_entry_right(table.nodes.items(), row.scope, scope, row.kind),
        None => false,
    }
}

/// The first name whose row is wrong.
pub(crate) fn first_wrong_name(table: &Table) -> Option<u32>
    ensures { MatchOption result (NamesAreRight table.now) (λ at. IsFirstWrong (λ id. NameIsRight table.now) table.now.names at) }
{
    let rows = table.names.items();
    for (id, row) in rows.iter().enumerate() {
        if !is_name_right(table, row) {
            return Some(id as u32);
        }
    }
    None
}
