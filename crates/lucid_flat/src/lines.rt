//! The lines of rows.
ghost use Rattle.std.specs.Prelude.{◌≡◌, ◌++◌, map, OnOk};
ghost use Rattle.std.specs.List.{AllByRecursion, flat_map};
ghost use Rattle.lucid_value.specs.View.{plain};
ghost use Rattle.lucid_flat.specs.FlatText.{FlatRow, scope_row, input_row, constant_row, node_row, name_row, place_row, entry_word, entry_number};
ghost use Rattle.lucid_flat.specs.FlatTables.{RowFits};
ghost use Rattle.lucid_flat.specs.Shown.{IsNoRoot, line_of};

use crate::forms::put_node;
use crate::put::{put_number, put_numbers};
use lucid_equations::{Entry, NameRow, NodeRow, PlaceRow, ScopeKind, ScopeRow};
use lucid_texts::put_word;
use lucid_value::{Name, Value};
use std::alloc::{AllocError, Global};

/// What has a line of its own.
pub(crate) trait Line {
    ghost flat_row: { Self → FlatRow };

    /// Appends the line.
    fn put(&self, alloc: Global, to: &mut Vec<u8>) -> Result<(), AllocError>
        ensures line { OnOk result (to.new.items ≡ to.old.items ++ line_of (flat_row self.now)) }
        ensures fits { OnOk result (IsNoRoot (flat_row self.now) → RowFits (flat_row self.now)) };
}

impl Line for ScopeRow {
    ghost flat_row = { scope_row };

    fn put(&self, _alloc: Global, to: &mut Vec<u8>) -> Result<(), AllocError> {
        to.extend_from_slice(b"scope")?;
        put_number(to, self.parent)?;
        match self.kind {
            ScopeKind::Root => to.extend_from_slice(b" root\n"),
            ScopeKind::Called => to.extend_from_slice(b" called\n"),
            ScopeKind::Frozen => to.extend_from_slice(b" frozen\n"),
        }
    }
}

impl Line for Name {
    ghost flat_row = { input_row };

    fn put(&self, _alloc: Global, to: &mut Vec<u8>) -> Result<(), AllocError> {
        to.extend_from_slice(b"input")?;
        put_word(to, self.bytes())?;
        to.extend_from_slice(b"\n")
    }
}

impl Line for Value {
    ghost flat_row = { λ v. constant_row (plain v) };

    fn put(&self, alloc: Global, to: &mut Vec<u8>) -> Result<(), AllocError> {
        self.keeps_rules();
        to.extend_from_slice(b"const ")?;
        self.show(alloc, to)?;
        to.extend_from_slice(b"\n")
    }
}

impl Line for NodeRow {
    ghost flat_row = { node_row };

    fn put(&self, _alloc: Global, to: &mut Vec<u8>) -> Result<(), AllocError> {
        to.extend_from_slice(b"node")?;
        put_number(to, self.scope)?;
        put_node(to, self.node)?;
        to.extend_from_slice(b"\n")
    }
}

// The word of a name's kind, and its number.
fn entry_parts(entry: Entry) -> (&'static [u8], u32)
    ensures word { result.0.now ≡ entry_word entry }
    ensures number { result.1 ≡ entry_number entry }
{
    match entry {
        Entry::Plain { body } => (b"plain", body),
        Entry::Parameter { index } => (b"parameter", index),
        Entry::Current { body } => (b"current", body),
        Entry::Called { body } => (b"called", body),
    }
}

impl Line for NameRow {
    ghost flat_row = { name_row };

    fn put(&self, _alloc: Global, to: &mut Vec<u8>) -> Result<(), AllocError> {
        let (word, number) = entry_parts(self.kind);
        to.extend_from_slice(word)?;
        put_number(to, self.scope)?;
        put_number(to, number)?;
        to.extend_from_slice(b"\n")
    }
}

impl Line for PlaceRow {
    ghost flat_row = { place_row };

    fn put(&self, _alloc: Global, to: &mut Vec<u8>) -> Result<(), AllocError> {
        to.extend_from_slice(b"place")?;
        put_number(to, self.scope)?;
        put_number(to, self.name)?;
        put_numbers(to, self.actuals.items())?;
        to.extend_from_slice(b"\n")
    }
}

/// Appends the lines of rows.
pub(crate) fn put_lines<T: Line>(
    alloc: Global,
    to: &mut Vec<u8>,
    rows: &[T],
) -> Result<(), AllocError>
    ensures lines { OnOk result (to.new.items ≡ to.old.items ++ flat_map line_of (map T.flat_row rows.now)) }
    ensures fits { OnOk result (AllByRecursion (λ r. IsNoRoot r → RowFits r) (map T.flat_row rows.now)) }
{
    for row in rows {
        row.put(alloc, to)?;
    }
    Ok(())
}
