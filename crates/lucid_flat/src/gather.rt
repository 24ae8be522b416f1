//! The rows of a text, gathered in their order.
ghost use Rattle.std.specs.Prelude.{◌≡◌, ◌+◌, ◌<◌, ◌≤◌, ◌^◌, ◌↔◌, ◌∷◌, ◌++◌, [], length, IfOk, true};
ghost use Rattle.std.specs.Bool.{MatchBool};
ghost use Rattle.lucid_flat.specs.FlatTables.{RowFits};
ghost use Rattle.lucid_flat.specs.RowLines.{plain_row};
ghost use Rattle.lucid_flat.specs.Gathered.{part_number, row_part, table_of, part_in, rows_in, AreBegun, CannotCome};

use crate::rows::Row;
use lucid_equations::{
    NameRow, NameRows, NodeRow, NodeRows, PlaceRow, PlaceRows, ScopeKind, ScopeRow, ScopeRows,
    Table, Values,
};
use lucid_tree::Names;
use lucid_value::{Name, Value};
use std::alloc::{AllocError, Global};

/// The kinds of rows, in their order, and what stands behind the root.
#[derive(Clone, Copy)]
pub(crate) enum Part {
    Scopes,
    Inputs,
    Constants,
    Nodes,
    Names,
    Places,
    Root,
    End,
}

// The number of a part, in the order of the text.
fn part_number(part: Part) -> u8
    ensures { result ≡ part_number part }
{
    part as u8
}

fn part_of(row: &Row) -> Part
    ensures { part_number result ≡ row_part (plain_row row.now) }
{
    match row {
        Row::Scope(_) => Part::Scopes,
        Row::Input(_) => Part::Inputs,
        Row::Constant(_) => Part::Constants,
        Row::Node(_) => Part::Nodes,
        Row::Name(_) => Part::Names,
        Row::Place(_) => Part::Places,
        Row::Root(_) => Part::Root,
    }
}

/// The rows so far, and from which part the next one may come.
#[derive(Drop)]
pub(crate) struct Rows {
    part: Part,
    scopes: Vec<ScopeRow>,
    inputs: Vec<Name>,
    constants: Vec<Value>,
    nodes: Vec<NodeRow>,
    names: Vec<NameRow>,
    places: Vec<PlaceRow>,
    root: u32,
}

// Adds an item to a list of fewer than 2^32, where it has room.
fn push_few<T: Drop>(items: &mut Vec<T>, item: T) -> Result<bool, AllocError>
    ensures { IfOk result (λ added. MatchBool added ((items.new.items ≡ items.old.items ++ item ∷ []) × (length items.old.items + 1 < 2 ^ 32)) (2 ^ 32 ≤ length items.old.items + 1)) }
{
    if items.len() >= u32::MAX as usize {
        return Ok(false);
    }
    items.push(item).map_err(AllocError::from)?;
    Ok(true)
}

impl Rows {
    /// Scope 0 alone, which no line has.
    pub(crate) fn make(alloc: Global) -> Result<Rows, AllocError>
        ensures begun { IfOk result (λ rows. AreBegun rows) }
        ensures none { IfOk result (λ rows. rows_in rows ≡ []) }
    {
        let mut scopes = Vec::new(alloc);
        scopes.push(ScopeRow {
            parent: 0,
            kind: ScopeKind::Root,
        })?;
        Ok(Rows {
            part: Part::Scopes,
            scopes,
            inputs: Vec::new(alloc),
            constants: Vec::new(alloc),
            nodes: Vec::new(alloc),
            names: Vec::new(alloc),
            places: Vec::new(alloc),
            root: 0,
        })
    }

    // Adds a row to the list of its part.
    fn push(&mut self, row: Row) -> Result<bool, AllocError>
        requires begun { AreBegun self.old }
        requires order { part_in self.old ≤ row_part (plain_row row) }
        requires fits { RowFits (plain_row row) }
        ensures { IfOk result (λ added. MatchBool added (AreBegun self.new × (rows_in self.new ≡ rows_in self.old ++ plain_row row ∷ [])) (CannotCome (rows_in self.old) (plain_row row))) }
    {
        self.part = part_of(&row);
        match row {
            Row::Scope(row) => push_few(&mut self.scopes, row),
            Row::Input(name) => {
                self.inputs.push(name)?;
                Ok(true)
            }
            Row::Constant(value) => push_few(&mut self.constants, value),
            Row::Node(row) => push_few(&mut self.nodes, row),
            Row::Name(row) => push_few(&mut self.names, row),
            Row::Place(row) => push_few(&mut self.places, row),
            Row::Root(root) => {
                self.root = root;
                self.part = Part::End;
                Ok(true)
            }
        }
    }

    /// Adds a row, where it may come next.
    pub(crate) fn add(&mut self, row: Row) -> Result<bool, AllocError>
        requires begun { AreBegun self.old }
        requires fits { RowFits (plain_row row) }
        ensures { IfOk result (λ added. MatchBool added (AreBegun self.new × (rows_in self.new ≡ rows_in self.old ++ plain_row row ∷ [])) (CannotCome (rows_in self.old) (plain_row row))) }
    {
        if part_number(part_of(&row)) < part_number(self.part) {
            return Ok(false);
        }
        self.push(row)
    }

    /// Whether the root is read.
    pub(crate) fn is_whole(&self) -> bool
        ensures { (result ≡ true) ↔ (part_in self.now ≡ 7) }
    {
        matches!(self.part, Part::End)
    }

    /// The table of the rows.
    pub(crate) fn into_table(self) -> Table
        requires { AreBegun self }
        ensures { result ≡ table_of self }
    {
        Table {
            scopes: ScopeRows::from_vec(self.scopes),
            inputs: Names::from_vec(self.inputs),
            constants: Values::from_vec(self.constants),
            nodes: NodeRows::from_vec(self.nodes),
            names: NameRows::from_vec(self.names),
            places: PlaceRows::from_vec(self.places),
            root: self.root,
        }
    }
}
