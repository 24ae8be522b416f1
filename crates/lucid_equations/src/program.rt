//! Programs: tables whose numbers lead somewhere, and their readers.
ghost use Rattle.std.specs.Prelude.{◌≡◌, ◌<◌, ◌↔◌, true, length, Some, is_some, IfOk, IfSome};
ghost use Rattle.lucid_value.specs.View.{plain};
ghost use Rattle.lucid_tree.specs.Members.{AllDiffer, AllDiffer-prop};
ghost use Rattle.lucid_equations.specs.Rows.{node_at, node_by, entry_by, row_at, name_at, actual_at, constant_at};
ghost use Rattle.lucid_equations.specs.Ranges.{sizes, NodeIsInRange, EntryIsInRange, IsInRange, IsInRange-prop};

use crate::differ::do_differ;
use crate::range::is_in_range;
use crate::rows::{Entry, Node};
use crate::table::Table;
use lucid_value::Value;
use std::alloc::{AllocError, Global};

/// A program: a table in which each number of a root, a node, an entry or an actual is in range, and the parts of a node have
/// lower numbers than the node, and the names of its inputs differ. Its readers take no memory.
#[derive(Drop)]
pub struct Program {
    table: Table,
    ghost in_range: { IsInRange table } by { IsInRange-prop table },
    ghost inputs_differ: { AllDiffer table.inputs } by { AllDiffer-prop table.inputs },
}

impl Program {
    ghost use Rattle.lucid_equations.specs.Programs.{table_of, program_equations, count_of_actuals};

    /// The program of a table whose numbers are in range and whose inputs' names differ. Another table has none.
    pub fn make(alloc: Global, table: Table) -> Result<Option<Program>, AllocError>
        ensures table { IfOk result (λ made. IfSome made (λ program. table_of program ≡ table)) }
        ensures exactly { IfOk result (λ made. (is_some made ≡ true) ↔ (IsInRange table × AllDiffer table.inputs)) }
    {
        if is_in_range(&table) && do_differ(alloc, table.inputs.items())? {
            Ok(Some(Program { table }))
        } else {
            Ok(None)
        }
    }

    /// The table.
    pub fn table(&self) -> &Table
        ensures value { result.now ≡ table_of self.now }
        ensures in_range { IsInRange (table_of self.now) }
        ensures inputs_differ { AllDiffer (table_of self.now).inputs }
    {
        &self.table
    }

    /// The number of the root.
    pub fn root(&self) -> u32
        ensures value { result ≡ (table_of self.now).root }
        ensures below { result < length (table_of self.now).nodes }
        ensures meaning { (program_equations self.now).root ≡ node_at (table_of self.now) result }
    {
        self.table.root
    }

    /// The number of nodes.
    pub fn nodes(&self) -> u32
        ensures { result ≡ length (table_of self.now).nodes }
    {
        self.table.nodes.items().len() as u32
    }

    /// The number of names.
    pub fn names(&self) -> u32
        ensures { result ≡ length (table_of self.now).names }
    {
        self.table.names.items().len() as u32
    }

    /// The number of inputs.
    pub fn streams(&self) -> u32
        ensures value { result ≡ length (table_of self.now).inputs }
        ensures differ { AllDiffer (table_of self.now).inputs }
    {
        self.table.inputs.items().len() as u32
    }

    /// The number of call places.
    pub fn places(&self) -> u32
        ensures { result ≡ length (table_of self.now).places }
    {
        self.table.places.items().len() as u32
    }

    /// The number of actuals of a call place.
    pub fn actuals(&self, place: u32) -> u32
        requires { place < length (table_of self.now).places }
        ensures { result ≡ count_of_actuals self.now place }
    {
        let row = &self.table.places.items()[place as usize];
        row.actuals.items().len() as u32
    }

    /// The node of a number: what its row says, by the nodes of the lower numbers of its parts.
    pub fn node(&self, id: u32) -> Node
        requires { id < length (table_of self.now).nodes }
        ensures row { row_at (table_of self.now) id ≡ Some result }
        ensures meaning { node_at (table_of self.now) id ≡ node_by (table_of self.now) result }
        ensures in_range { NodeIsInRange (sizes (table_of self.now)) id result }
    {
        self.table.nodes.items()[id as usize].node
    }

    /// What the name of a number is.
    pub fn entry(&self, name: u32) -> Entry
        requires { name < length (table_of self.now).names }
        ensures row { name_at (table_of self.now) name ≡ Some result }
        ensures meaning { (program_equations self.now).entry name ≡ Some (entry_by (table_of self.now) result) }
        ensures in_range { EntryIsInRange (sizes (table_of self.now)) result }
    {
        self.table.names.items()[name as usize].kind
    }

    /// The constant of a number.
    pub fn constant(&self, id: u32) -> &Value
        requires { id < length (table_of self.now).constants }
        ensures { constant_at (table_of self.now) id ≡ plain result.now }
    {
        &self.table.constants.items()[id as usize]
    }

    /// The node of an actual of a call place.
    pub fn actual(&self, place: u32, index: u32) -> u32
        requires known { place < length (table_of self.now).places }
        requires few { index < count_of_actuals self.now place }
        ensures row { actual_at (table_of self.now) place index ≡ Some result }
        ensures meaning { (program_equations self.now).actual place index ≡ Some (node_at (table_of self.now) result) }
        ensures below { result < length (table_of self.now).nodes }
    {
        let row = &self.table.places.items()[place as usize];
        row.actuals.items()[index as usize]
    }
}
