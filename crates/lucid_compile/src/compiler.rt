//! From a tree to its table: a walk over the tree makes the rows, and then they are linked. Each part is made before the node that has it,
//! so a part's number is lower.
ghost use Rattle.std.specs.Prelude.{◌≡◌, ◌+◌, ◌≤◌, length, take, drop, get_or, IfOk, OnOk};
ghost use Rattle.lucid_tree.specs.Shape.{head_of};
ghost use Rattle.lucid_scope.specs.Scoped.{scoped_tree, scoped_inputs};
ghost use Rattle.lucid_compile.specs.Promise.{KeepsTree};
ghost use Rattle.lucid_equations.specs.Sound.{IsSound, most_inputs};
ghost use Rattle.lucid_equations.specs.Programs.{table_of as table_in, program_equations};
ghost use Rattle.lucid_compile.specs.Settled.{table_of as settled};
ghost use Rattle.lucid_compile.specs.Meant.{NodesMeanTheirPieces};
ghost use Rattle.lucid_equations.specs.Rows.{node_at};
ghost use Rattle.lucid_compile.specs.Static.{freezes};
ghost use Rattle.lucid_compile.specs.Places.{first_place as place_of_first};
ghost use Rattle.lucid_compile.specs.Bound.{Numbered};
ghost use Rattle.lucid_compile.specs.Building.{lists, no_lists, OneScope};
ghost use Rattle.lucid_compile.specs.Linked.{linked};
ghost use Rattle.lucid_compile.specs.Forms.{HasFirst};
ghost use Rattle.lucid_compile.specs.Holds.{AddsTree};
ghost use Rattle.lucid_compile.specs.Steps.{IsNode, AreRowsOf, AreFew, AddsForm, AddsCall, AddsNode, AddsBlock, AddsParameters, OpensRight, ClosesRight, IsTableOf};

use crate::building::{Body, Here, Rows};
use crate::forms::form_node;
use crate::linking::{Source, link_rows};
use crate::numbering::{Key, Numbering, number};
use lucid_equations::{
    Entry, NameRows, Node, NodeRows, Numbers32, PlaceRows, Program, ScopeKind, ScopeRows, Table,
    Values,
};
use lucid_scope::Scoped;
use lucid_scope::laws::free_names_are_inputs;
use lucid_tree::{Block, Def, DefKind, Defs, Head, Kind, Names, Places32, Shape, Tree, Trees};
use lucid_value::Name;
use std::alloc::{AllocError, Global};

// The number of the tree's node, which the table then has. It only hands on, so that a level takes little of the machine's stack.
#[cycle(compile)]
fn add_tree(
    alloc: Global,
    rows: &mut Rows,
    ids: &mut Vec<u32>,
    tree: &Tree,
    here: Here,
) -> Result<u32, AllocError>
    ensures waiting { OnOk result (ids.new.items ≡ ids.old.items) }
    ensures adds { IfOk result (λ id. (w : Numbered) → AddsTree w (linked w rows.old) (linked w rows.new) here tree.now id) }
{
    match &tree.kind {
        Kind::Scope(block) => add_block(alloc, rows, ids, block, here),
        _ => add_operands(alloc, rows, ids, tree, here),
    }
}

// The number of the node of a tree that is no block. The numbers of its operands wait behind others until it is made: no level holds a list.
#[cycle(compile)]
#[inline(never)]
fn add_operands(
    alloc: Global,
    rows: &mut Rows,
    ids: &mut Vec<u32>,
    tree: &Tree,
    here: Here,
) -> Result<u32, AllocError>
    requires node { IsNode tree.now }
    ensures waiting { OnOk result (ids.new.items ≡ ids.old.items) }
    ensures adds { IfOk result (λ id. (w : Numbered) → AddsTree w (linked w rows.old) (linked w rows.new) here tree.now id) }
{
    let before = ids.len();
    for part in tree.operands() {
        let id = add_tree(alloc, rows, ids, part, here)?;
        ids.push(id)?;
    }
    add_node(alloc, rows, ids, before, tree, here)
}

// The number of the node of a tree that is no block, whose operands have the numbers from a place on, which are taken off.
#[inline(never)]
fn add_node(
    alloc: Global,
    rows: &mut Rows,
    ids: &mut Vec<u32>,
    before: usize,
    tree: &Tree,
    here: Here,
) -> Result<u32, AllocError>
    requires within { before ≤ length ids.old.items }
    requires node { IsNode tree.now }
    ensures waiting { OnOk result (ids.new.items ≡ take before ids.old.items) }
    ensures adds { IfOk result (λ id. (w : Numbered) → AddsNode w (linked w rows.old) (linked w rows.new) here tree.now (drop before ids.old.items) id) }
{
    let ids = ids.split_off(before)?;
    match tree.shape() {
        Shape::Form { head, .. } => add_form(alloc, rows, head, &ids, here),
        Shape::Name { at, .. } => rows.push(here, Node::Refer { name: at, level: 0 }),
        Shape::Call { at, args, .. } => add_call(rows, at, first_place(args), ids, here),
        Shape::Scope { .. } => unreachable!(),
    }
}

// The place of the first actual.
fn first_place(args: &Trees) -> u32
    ensures { result ≡ place_of_first args.now }
{
    args.items().first().map_or(0, |tree| tree.at)
}

// The number at an index, and 0 past the last.
fn number_at(ids: &[u32], index: usize) -> u32
    ensures { result ≡ get_or ids.now index 0 }
{
    ids.get(index).copied().unwrap_or(0)
}

// The first number in the node of a form: of a constant its own, which is kept; else that of the first part.
fn first_number(
    alloc: Global,
    rows: &mut Rows,
    head: Head<'_>,
    ids: &[u32],
) -> Result<u32, AllocError>
    ensures { IfOk result (λ first. HasFirst (lists rows.old) (lists rows.new) (head_of head.entry) ids.now first) }
{
    match head {
        Head::Const(value) => rows.keep(alloc, value),
        _ => Ok(number_at(ids, 0)),
    }
}

// The number of the node of a form, whose parts have these numbers.
#[inline(never)]
fn add_form(
    alloc: Global,
    rows: &mut Rows,
    head: Head<'_>,
    ids: &[u32],
    here: Here,
) -> Result<u32, AllocError>
    ensures { IfOk result (λ id. (w : Numbered) → AddsForm w (linked w rows.old) (linked w rows.new) here (head_of head.entry) ids.now id) }
{
    let first = first_number(alloc, rows, head, ids)?;
    let second = number_at(ids, 1);
    let third = number_at(ids, 2);
    rows.push(here, form_node(head, first, second, third))
}

// The number of a call's node, whose actuals have these numbers, the first of them at a place.
#[inline(never)]
fn add_call(
    rows: &mut Rows,
    name: u32,
    place: u32,
    ids: Vec<u32>,
    here: Here,
) -> Result<u32, AllocError>
    ensures { IfOk result (λ id. (w : Numbered) → AddsCall w (linked w rows.old) (linked w rows.new) here name place ids.items id) }
{
    number(ids.len())?;
    rows.add_place(here, name, place, Numbers32::from_vec(ids))?;
    let level = 0;
    rows.push(here, Node::Call { name, place, level })
}

// Whether a block has a current definition, and so a frame.
pub(crate) fn has_frame(defs: &Defs) -> bool
    ensures { result ≡ freezes defs.now }
{
    let items = defs.items();
    for def in items {
        if let DefKind::Current { .. } = &def.kind {
            return true;
        }
    }
    false
}

// The number of a block's node: that of its subject, or that of a node that freezes the time for it.
#[cycle(compile)]
#[inline(never)]
fn add_block(
    alloc: Global,
    rows: &mut Rows,
    ids: &mut Vec<u32>,
    block: &Block,
    here: Here,
) -> Result<u32, AllocError>
    ensures waiting { OnOk result (ids.new.items ≡ ids.old.items) }
    ensures adds { IfOk result (λ id. (w : Numbered) → AddsBlock w (linked w rows.old) (linked w rows.new) here block.now.subject block.now.defs id) }
{
    let frozen = has_frame(&block.defs);
    let inside = if frozen {
        opened(rows, here, ScopeKind::Frozen)?
    } else {
        here
    };
    let subject = add_tree(alloc, rows, ids, &block.subject, inside)?;
    for def in block.defs.definitions() {
        let first = number(rows.names.len())?;
        let right = open_right(rows, def, inside, here)?;
        let body = add_tree(alloc, rows, ids, def.right(), right)?;
        let scope = right.scope;
        close_right(rows, def, inside, first, Body { scope, body })?;
    }
    if frozen {
        rows.push(here, Node::Freeze { subject })
    } else {
        Ok(subject)
    }
}

// A scope with one frame more.
fn opened(rows: &mut Rows, here: Here, kind: ScopeKind) -> Result<Here, AllocError>
    ensures scope { IfOk result (λ inside. OneScope (lists rows.old) (lists rows.new) (record { parent = here.scope; kind = kind }) inside.scope) }
    ensures level { IfOk result (λ inside. inside.level ≡ here.level + 1) }
{
    let scope = rows.open(here.scope, kind)?;
    let level = number(here.level as usize + 1)?;
    Ok(Here { scope, level })
}

// What is in scope at the right side of a definition. A current name's stands outside the block.
#[inline(never)]
fn open_right(rows: &mut Rows, def: &Def, inside: Here, outside: Here) -> Result<Here, AllocError>
    ensures { IfOk result (λ here. (w : Numbered) → OpensRight w (linked w rows.old) (linked w rows.new) inside outside def.now.kind here) }
{
    match &def.kind {
        DefKind::Plain { .. } => Ok(inside),
        DefKind::Function { places, .. } => {
            let called = opened(rows, inside, ScopeKind::Called)?;
            add_parameters(rows, places, called)?;
            Ok(called)
        }
        DefKind::Current { .. } => Ok(outside),
    }
}

// The row of a definition with this right side. The first parameter's row has a number.
#[inline(never)]
fn close_right(
    rows: &mut Rows,
    def: &Def,
    inside: Here,
    first: u32,
    right: Body,
) -> Result<(), AllocError>
    ensures { OnOk result (ClosesRight (lists rows.old) (lists rows.new) inside def.now.at def.now.kind first right) }
{
    let at = def.at;
    let level = inside.level;
    let body = right.body;
    match &def.kind {
        DefKind::Plain { .. } => rows.define(inside, at, Entry::Plain { body }),
        DefKind::Function { .. } => rows.close(Key { at, first, level }, right),
        DefKind::Current { .. } => rows.define(inside, at, Entry::Current { body }),
    }
}

// The rows of a function's parameters.
fn add_parameters(rows: &mut Rows, places: &Places32, here: Here) -> Result<(), AllocError>
    ensures { OnOk result ((w : Numbered) → AddsParameters w (linked w rows.old) (linked w rows.new) here places.now) }
{
    let places = places.items();
    let mut i = 0;
    while i < places.len() {
        let index = number(i)?;
        rows.define(here, places[i], Entry::Parameter { index })?;
        i += 1;
    }
    Ok(())
}

// Counts the rows and the inputs: numbers of 32 bits have to do.
fn count_rows(rows: &Rows, inputs: &[Name]) -> Result<(), AllocError>
    ensures { OnOk result (AreFew rows.now inputs.now) }
{
    number(inputs.len())?;
    number(rows.scopes.len())?;
    number(rows.constants.len())?;
    number(rows.nodes.len())?;
    number(rows.names.len())?;
    number(rows.places.len())?;
    Ok(())
}

// The table of the lists, whose root is a node.
fn table_of(rows: Rows, inputs: Vec<Name>, root: u32) -> Result<Table, AllocError>
    ensures { IfOk result (λ table. IsTableOf (lists rows) inputs.items root table) }
{
    count_rows(&rows, &inputs)?;
    Ok(Table {
        scopes: ScopeRows::from_vec(rows.scopes),
        inputs: Names::from_vec(inputs),
        constants: Values::from_vec(rows.constants),
        nodes: NodeRows::from_vec(rows.nodes),
        names: NameRows::from_vec(rows.names),
        places: PlaceRows::from_vec(rows.places),
        root,
    })
}

// The same names.
fn copied(alloc: Global, names: &[Name]) -> Result<Vec<Name>, AllocError>
    ensures { IfOk result (λ made. made.items ≡ names.now) }
{
    let mut made = Vec::new(alloc);
    for name in names {
        made.push(name.copy()?)?;
    }
    Ok(made)
}

// Fills the rows with those of a tree that was resolved, and links them. The number of its root's node. It owns neither list.
fn fill_by(
    alloc: Global,
    rows: &mut Rows,
    ids: &mut Vec<u32>,
    numbering: &mut Numbering,
    scoped: &Scoped,
) -> Result<u32, AllocError>
    requires { lists rows.old ≡ no_lists }
    ensures { IfOk result (λ root. AreRowsOf scoped.now (lists rows.new) root) }
{
    let tree = scoped.tree();
    let scope = rows.open(0, ScopeKind::Root)?;
    let root = add_tree(alloc, rows, ids, tree, Here { scope, level: 0 })?;
    numbering.number_all(&rows.keys)?;
    let source = Source { scoped, numbering };
    link_rows(&source, rows)?;
    Ok(root)
}

// The same, with the lists that this takes.
fn fill(alloc: Global, rows: &mut Rows, scoped: &Scoped) -> Result<u32, AllocError>
    requires { lists rows.old ≡ no_lists }
    ensures { IfOk result (λ root. AreRowsOf scoped.now (lists rows.new) root) }
{
    let mut ids = Vec::new(alloc);
    let mut numbering = Numbering::make(alloc);
    fill_by(alloc, rows, &mut ids, &mut numbering, scoped)
}

/// The program of a tree that was resolved. Its table keeps the tree: the same approximations at every limit and point, also with
/// held values, the same elements consulted, as many different datons. With at most 1,048,576 inputs the table is sound. Its inputs are
/// the tree's, in their order. The walk is linear in the tree. The one refusal is want of memory, also where a list of rows would pass
/// 2^32 - 2 rows.
pub fn compile(alloc: Global, scoped: &Scoped) -> Result<Program, AllocError>
    ensures exact { IfOk result (λ program. table_in program ≡ settled (scoped_tree scoped.now) (scoped_inputs scoped.now)) }
    ensures means { IfOk result (λ program. NodesMeanTheirPieces (scoped_tree scoped.now) (program_equations program) (node_at (table_in program))) }
    ensures keeps { IfOk result (λ program. KeepsTree (program_equations program) (scoped_tree scoped.now)) }
    ensures sound { IfOk result (λ program. length (scoped_inputs scoped.now) ≤ most_inputs → IsSound (table_in program)) }
    ensures inputs { IfOk result (λ program. (table_in program).inputs ≡ scoped_inputs scoped.now) }
{
    // For the proof: the free names are the inputs.
    free_names_are_inputs();
    let inputs = copied(alloc, scoped.inputs())?;
    let mut rows = Rows::make(alloc);
    let root = fill(alloc, &mut rows, scoped)?;
    let table = table_of(rows, inputs, root)?;
    match Program::make(alloc, table)? {
        Some(program) => Ok(program),
        None => unreachable!(),
    }
}
