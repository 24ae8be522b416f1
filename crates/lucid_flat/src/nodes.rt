//! Whether the rows of nodes are right.
ghost use Rattle.std.specs.Prelude.{◌≡◌, ◌<◌, ◌↔◌, length, true, MatchOption};
ghost use Rattle.lucid_equations.specs.Sound.{AreZero, IsFilled, ReferenceLeads};
ghost use Rattle.lucid_flat.specs.SoundForms.{ArePartsRight, SubjectStands, CalleeLeads, PlaceLeads, FormIsRight};
ghost use Rattle.lucid_flat.specs.Nests.{IsNest};
ghost use Rattle.lucid_flat.specs.WrongRows.{ScopeIsRight, AllRight, NodeIsRight, IsFirstWrong, NodesAreRight};

use crate::names::stands_in;
use crate::nest::Nest;
use lucid_equations::{Entry, Node, NodeRow, ScopeKind, Table};

// Whether each part has a lower number and stands in the scope.
fn are_parts_right(rows: &[NodeRow], scope: u32, id: usize, parts: &[u32]) -> bool
    ensures { (result ≡ true) ↔ ArePartsRight rows.now scope id parts.now }
{
    for part in parts {
        if *part as usize >= id || !stands_in(rows, scope, *part) {
            return false;
        }
    }
    true
}

fn are_zero(numbers: &[u32]) -> bool
    ensures { (result ≡ true) ↔ AreZero numbers.now }
{
    for number in numbers {
        if *number != 0 {
            return false;
        }
    }
    true
}

// Whether the numbers past an operator's arity are 0.
fn is_filled(node: Node) -> bool
    ensures { (result ≡ true) ↔ IsFilled node }
{
    match node {
        Node::Apply { op, args } => are_zero(&args[op.arity()..]),
        _ => true,
    }
}

// Whether a frozen subject has a lower number and stands in a frozen scope right inside the scope.
fn is_subject_right(table: &Table, scope: u32, id: usize, subject: u32) -> bool
    ensures { (result ≡ true) ↔ SubjectStands table.now scope id subject }
{
    if subject as usize >= id {
        return false;
    }
    let Some(row) = table.nodes.items().get(subject as usize) else {
        return false;
    };
    match table.scopes.items().get(row.scope as usize) {
        Some(inner) => inner.parent == scope && matches!(inner.kind, ScopeKind::Frozen),
        None => false,
    }
}

// Whether a reference leads to a name of the scope or of one round it, at the depth of its level, that is no call's.
fn is_reference_right(table: &Table, nest: &Nest, scope: u32, name: u32, level: u32) -> bool
    requires right { AllRight ScopeIsRight table.now.scopes }
    requires nest { IsNest table.now.scopes nest.now }
    requires known { scope < length table.now.scopes }
    ensures { (result ≡ true) ↔ ReferenceLeads table.now scope name level }
{
    let Some(row) = table.names.items().get(name as usize) else {
        return false;
    };
    match row.kind {
        Entry::Called { body: _ } => false,
        _ => nest.is_round_at(table.scopes.items(), row.scope, scope, level),
    }
}

// Whether a call leads to a called name whose scope stands right inside the scope or one round it, at the depth of its level.
fn is_callee_right(table: &Table, nest: &Nest, scope: u32, name: u32, level: u32) -> bool
    requires right { AllRight ScopeIsRight table.now.scopes }
    requires nest { IsNest table.now.scopes nest.now }
    requires known { scope < length table.now.scopes }
    ensures { (result ≡ true) ↔ CalleeLeads table.now scope name level }
{
    let Some(row) = table.names.items().get(name as usize) else {
        return false;
    };
    let Some(inside) = table.scopes.items().get(row.scope as usize) else {
        return false;
    };
    match row.kind {
        Entry::Called { body: _ } => {
            nest.is_round_at(table.scopes.items(), inside.parent, scope, level)
        }
        _ => false,
    }
}

// Whether the place's row has the scope and the name.
fn is_place_of(table: &Table, scope: u32, name: u32, place: u32) -> bool
    ensures { (result ≡ true) ↔ PlaceLeads table.now scope name place }
{
    match table.places.items().get(place as usize) {
        Some(row) => row.scope == scope && row.name == name,
        None => false,
    }
}

// Whether a node of the scope is right.
fn is_form_right(table: &Table, nest: &Nest, scope: u32, id: usize, node: Node) -> bool
    requires right { AllRight ScopeIsRight table.now.scopes }
    requires nest { IsNest table.now.scopes nest.now }
    requires known { scope < length table.now.scopes }
    ensures { (result ≡ true) ↔ FormIsRight table.now scope id node }
{
    let rows = table.nodes.items();
    let parts = node.parts();
    match node {
        Node::Const { constant } => (constant as usize) < table.constants.items().len(),
        Node::Input { stream } => (stream as usize) < table.inputs.items().len(),
        Node::Freeze { subject } => is_subject_right(table, scope, id, subject),
        Node::Refer { name, level } => is_reference_right(table, nest, scope, name, level),
        Node::Call { name, place, level } => {
            is_callee_right(table, nest, scope, name, level)
                && is_place_of(table, scope, name, place)
        }
        _ => are_parts_right(rows, scope, id, parts.as_slice()) && is_filled(node),
    }
}

// Whether the node's scope is there and the node is right.
fn is_node_right(table: &Table, nest: &Nest, id: usize, row: &NodeRow) -> bool
    requires right { AllRight ScopeIsRight table.now.scopes }
    requires nest { IsNest table.now.scopes nest.now }
    ensures { (result ≡ true) ↔ NodeIsRight table.now id row.now }
{
    (row.scope as usize) < table.scopes.items().len()
        && is_form_right(table, nest, row.scope, id, row.node)
}

/// The first node whose row is wrong, where the scopes' rows are right.
pub(crate) fn first_wrong_node(table: &Table, nest: &Nest) -> Option<u32>
    requires right { AllRight ScopeIsRight table.now.scopes }
    requires nest { IsNest table.now.scopes nest.now }
    ensures { MatchOption result (NodesAreRight table.now) (λ at. IsFirstWrong (NodeIsRight table.now) table.now.nodes at) }
{
    let rows = table.nodes.items();
    for (id, row) in rows.iter().enumerate() {
        if !is_node_right(table, nest, id, row) {
            return Some(id as u32);
        }
    }
    None
}
