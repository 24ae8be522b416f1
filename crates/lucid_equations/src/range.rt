//! Whether a table's numbers are in range.
ghost use Rattle.std.specs.Prelude.{◌≡◌, ◌↔◌, true};
ghost use Rattle.lucid_equations.specs.Ranges.{sizes, EachBelow, NodeNames, NodeIsInRange, NodesAreInRange, EntryIsInRange, NamesAreInRange, PlacesAreInRange, IsInRange};

use crate::rows::{Entry, Node};
use crate::table::Table;

/// Whether the root, the parts of nodes and what else they name, the bodies of names, and the actuals of call places are there.
pub(crate) fn is_in_range(table: &Table) -> bool
    ensures { (result ≡ true) ↔ IsInRange table.now }
{
    (table.root as usize) < table.nodes.items().len()
        && table.inputs.items().len() <= 0xffff_ffff
        && are_nodes_in_range(table)
        && are_names_in_range(table)
        && are_places_in_range(table)
}

// Whether each number is below a bound.
fn are_below(bound: usize, ids: &[u32]) -> bool
    ensures { (result ≡ true) ↔ EachBelow bound ids.now }
{
    for id in ids {
        if *id as usize >= bound {
            return false;
        }
    }
    true
}

// Whether what a node names besides its parts is there.
fn are_names_there(table: &Table, node: &Node) -> bool
    ensures { (result ≡ true) ↔ NodeNames (sizes table.now) node.now }
{
    match node {
        Node::Const { constant } => (*constant as usize) < table.constants.items().len(),
        Node::Input { stream } => (*stream as usize) < table.inputs.items().len(),
        Node::Refer { name, level: _ } => (*name as usize) < table.names.items().len(),
        Node::Call {
            name,
            place,
            level: _,
        } => {
            (*name as usize) < table.names.items().len()
                && (*place as usize) < table.places.items().len()
        }
        _ => true,
    }
}

fn is_node_in_range(table: &Table, id: usize, node: &Node) -> bool
    ensures { (result ≡ true) ↔ NodeIsInRange (sizes table.now) id node.now }
{
    are_below(id, node.parts().as_slice()) && are_names_there(table, node)
}

fn are_nodes_in_range(table: &Table) -> bool
    ensures { (result ≡ true) ↔ NodesAreInRange (sizes table.now) 0 table.now.nodes }
{
    let rows = table.nodes.items();
    for (id, row) in rows.iter().enumerate() {
        if !is_node_in_range(table, id, &row.node) {
            return false;
        }
    }
    true
}

fn is_entry_in_range(table: &Table, entry: &Entry) -> bool
    ensures { (result ≡ true) ↔ EntryIsInRange (sizes table.now) entry.now }
{
    match entry {
        Entry::Plain { body } | Entry::Current { body } | Entry::Called { body } => {
            (*body as usize) < table.nodes.items().len()
        }
        Entry::Parameter { index: _ } => true,
    }
}

fn are_names_in_range(table: &Table) -> bool
    ensures { (result ≡ true) ↔ NamesAreInRange (sizes table.now) table.now.names }
{
    let rows = table.names.items();
    for row in rows {
        if !is_entry_in_range(table, &row.kind) {
            return false;
        }
    }
    true
}

fn are_places_in_range(table: &Table) -> bool
    ensures { (result ≡ true) ↔ PlacesAreInRange (sizes table.now) table.now.places }
{
    let nodes = table.nodes.items().len();
    let rows = table.places.items();
    for row in rows {
        if !are_below(nodes, row.actuals.items()) {
            return false;
        }
    }
    true
}
