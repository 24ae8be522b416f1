//! From places to numbers: after the walk over a tree, when all rows have numbers, its nodes and call places get those of what they name.
//! The rows of calls come after those of all other names, when the bodies of the functions are made.
ghost use Rattle.std.specs.Prelude.{◌≡◌, ◌+◌, map, slice_get, IfOk, OnOk};
ghost use Rattle.lucid_scope.specs.Scoped.{scoped_binding};
ghost use Rattle.lucid_compile.specs.Numbered.{name_mark, function_mark};
ghost use Rattle.lucid_compile.specs.Bound.{name_node, callee_place};
ghost use Rattle.lucid_compile.specs.Building.{lists};
ghost use Rattle.lucid_compile.specs.Linked.{linked_node, linked_row, linked_place, link};
ghost use Rattle.lucid_compile.specs.Steps.{numbered, with_calls, callee_number, row_by};

use crate::building::{Body, Rows};
use crate::numbering::{Mark, Numbering, number};
use lucid_equations::{Entry, NameRow, Node, NodeRow, PlaceRow};
use lucid_scope::{Binding, Scoped};
use std::alloc::AllocError;

/// What names belong to, and their numbers.
#[derive(Drop)]
pub(crate) struct Source<'a> {
    pub(crate) scoped: &'a Scoped,
    pub(crate) numbering: &'a Numbering,
}

/// The rows with numbers for places, and after the names' rows those of the calls.
pub(crate) fn link_rows(source: &Source, rows: &mut Rows) -> Result<(), AllocError>
    ensures { OnOk result (lists rows.new ≡ with_calls (numbered source.now) (link (numbered source.now) (lists rows.old))) }
{
    link_nodes(source, rows.nodes.as_mut_slice())?;
    link_places(source, rows.places.as_mut_slice());
    add_calls(source, rows)
}

// The nodes with numbers for places.
fn link_nodes(source: &Source, nodes: &mut [NodeRow]) -> Result<(), AllocError>
    ensures { OnOk result (nodes.new ≡ map (linked_row (numbered source.now)) nodes.old) }
{
    for row in nodes.iter_mut() {
        row.node = linked(source, row.node)?;
    }
    Ok(())
}

// The call places with the numbers of their calls' names.
fn link_places(source: &Source, places: &mut [PlaceRow])
    ensures { places.new ≡ map (linked_place (numbered source.now)) places.old }
{
    for row in places.iter_mut() {
        row.name = source.numbering.name(row.name).number;
    }
}

// A node with numbers for places.
fn linked(source: &Source, node: Node) -> Result<Node, AllocError>
    ensures { IfOk result (λ made. made ≡ linked_node (numbered source.now) node) }
{
    match node {
        Node::Refer { name, .. } => named(source, name),
        Node::Call { name, place, .. } => Ok(Node::Call {
            name: source.numbering.name(name).number,
            place: source.numbering.place(place),
            level: called(source, name).level,
        }),
        _ => Ok(node),
    }
}

// A name without arguments, by its binding. In a tree that was resolved it has one, and it is no function's.
fn named(source: &Source, at: u32) -> Result<Node, AllocError>
    ensures { IfOk result (λ node. node ≡ name_node (numbered source.now) at) }
{
    match source.scoped.binding(at) {
        Some(Binding::Plain { def }) => Ok(named_at(source.numbering, def)),
        Some(Binding::Current { def }) => Ok(named_at(source.numbering, def)),
        Some(Binding::Parameter { def, index }) => parameter(source.numbering, def, index),
        Some(Binding::Input { stream }) => Ok(Node::Input { stream }),
        Some(Binding::Function { .. }) | None => Ok(Node::Refer { name: 0, level: 0 }),
    }
}

// The reference of the name that is defined at a place.
fn named_at(numbering: &Numbering, def: u32) -> Node
    ensures { result ≡ Node.Refer (name_mark numbering.now def).number (name_mark numbering.now def).level }
{
    let mark = numbering.name(def);
    Node::Refer {
        name: mark.number,
        level: mark.level,
    }
}

// The reference of a parameter.
fn parameter(numbering: &Numbering, def: u32, index: u32) -> Result<Node, AllocError>
    ensures { IfOk result (λ node. node ≡ Node.Refer ((function_mark numbering.now def).first + index) ((function_mark numbering.now def).level + 1)) }
{
    let mark = numbering.function(def);
    let name = number(mark.first as usize + index as usize)?;
    let level = number(mark.level as usize + 1)?;
    Ok(Node::Refer { name, level })
}

// The place of the function that a call with a binding calls.
fn callee(binding: Option<Binding>) -> u32
    ensures { result ≡ callee_place binding }
{
    match binding {
        Some(Binding::Function { def }) => def,
        _ => 0,
    }
}

// The function that is called at a place, by its binding.
fn called(source: &Source, at: u32) -> Mark
    ensures { result ≡ function_mark source.now.numbering.now (callee_place (scoped_binding source.now.scoped.now at)) }
{
    source.numbering.function(callee(source.scoped.binding(at)))
}

// The rows of the calls, in order.
fn add_calls(source: &Source, rows: &mut Rows) -> Result<(), AllocError>
    ensures { OnOk result (lists rows.new ≡ with_calls (numbered source.now) (lists rows.old)) }
{
    let mut i = 0;
    while i < rows.keys.calls.len() {
        let at = rows.keys.calls[i].at;
        let row = call_row(source, &rows.bodies, at);
        rows.names.push(row)?;
        i += 1;
    }
    Ok(())
}

// The row of the call at a place. Of a tree that was resolved it has a body.
fn call_row(source: &Source, bodies: &[Body], at: u32) -> NameRow
    ensures { result ≡ row_by (slice_get bodies.now (callee_number (numbered source.now) at)) }
{
    let (scope, kind) = match bodies.get(called(source, at).number as usize) {
        Some(found) => (found.scope, Entry::Called { body: found.body }),
        None => (0, Entry::Parameter { index: 0 }),
    };
    NameRow { scope, kind }
}
