//! The descent through a tree, which notes what each name belongs to. What it has still to do lies on a stack of its own, so that the
//! depth of a tree takes none of the machine's.
ghost use Rattle.std.specs.Prelude.{◌≡◌, ◌<◌, ◌≤◌, ◌+◌, ◌∷◌, ◌++◌, OnOk};
ghost use Rattle.lucid_scope.specs.Owners.{look};
ghost use Rattle.lucid_scope.specs.Sites.{no_names};
ghost use Rattle.lucid_scope.specs.Walks.{marks, outer_marks, inner_marks, inside_marks, in_block_owned};
ghost use Rattle.lucid_scope.specs.Steps.{pending, told, work, work_inside, outer_work, inner_work, work_left};

use crate::table::{self, Saved, Table};
use crate::walk::{Walk, note_call, note_name, note_repeat, note_repeats};
use lucid_lists::Stack;
use lucid_tree::{Def, DefKind, Definitions, Defs, Parts, Shape, Tree};
use std::alloc::{AllocError, Global};

/// What a descent has still to do.
#[derive(Drop)]
pub(crate) enum Step<'a> {
    /// The parts of a node that are left.
    Parts(Parts<'a>),
    /// The right sides of current definitions: they stand outside the block's scope.
    Outside(Definitions<'a>),
    /// The scope of a block is opened.
    Open { subject: &'a Tree, defs: &'a Defs },
    /// The other right sides, with the names that are defined so far.
    Inside { defs: Definitions<'a>, seen: Table },
    /// A scope is left.
    Close(Vec<Saved>),
}

// Notes a name, or puts on the stack what a node has inside.
fn begin<'a>(walk: &mut Walk, steps: &mut Stack<Step<'a>>, tree: &'a Tree) -> Result<(), AllocError>
    ensures told { OnOk result (told walk.new steps.new ≡ walk.old.marks.items ++ (marks (look walk.old.table) tree.now ++ pending (look walk.old.table) steps.old)) }
    ensures work { OnOk result (work_left steps.new ≤ work tree.now + work_left steps.old) }
{
    match tree.shape() {
        Shape::Name { at, name } => note_name(walk, at, name),
        Shape::Form { parts, .. } => steps.push(Step::Parts(parts)),
        Shape::Call { at, name, args } => {
            note_call(walk, at, name, args.items().len())?;
            steps.push(Step::Parts(args.parts()))
        }
        Shape::Scope { subject, defs, .. } => {
            steps.push(Step::Open { subject, defs })?;
            steps.push(Step::Outside(defs.definitions()))
        }
    }
}

fn take_part<'a>(
    walk: &mut Walk,
    steps: &mut Stack<Step<'a>>,
    mut parts: Parts<'a>,
) -> Result<(), AllocError>
    ensures told { OnOk result (told walk.new steps.new ≡ told walk.old (Step.Parts parts.entry ∷ steps.old)) }
    ensures work { OnOk result (work_left steps.new < work_left (Step.Parts parts.entry ∷ steps.old)) }
{
    match parts.next() {
        Some(part) => {
            steps.push(Step::Parts(parts))?;
            begin(walk, steps, part)
        }
        None => Ok(()),
    }
}

// The right side of a definition, where it stands outside the block.
fn begin_outside<'a>(
    walk: &mut Walk,
    steps: &mut Stack<Step<'a>>,
    def: &'a Def,
) -> Result<(), AllocError>
    ensures told { OnOk result (told walk.new steps.new ≡ walk.old.marks.items ++ (outer_marks (look walk.old.table) def.now.kind ++ pending (look walk.old.table) steps.old)) }
    ensures work { OnOk result (work_left steps.new ≤ outer_work def.now.kind + work_left steps.old) }
{
    match &def.kind {
        DefKind::Current { right } => begin(walk, steps, right),
        DefKind::Plain { .. } | DefKind::Function { .. } => Ok(()),
    }
}

fn take_outside<'a>(
    walk: &mut Walk,
    steps: &mut Stack<Step<'a>>,
    mut defs: Definitions<'a>,
) -> Result<(), AllocError>
    ensures told { OnOk result (told walk.new steps.new ≡ told walk.old (Step.Outside defs.entry ∷ steps.old)) }
    ensures work { OnOk result (work_left steps.new < work_left (Step.Outside defs.entry ∷ steps.old)) }
{
    match defs.next() {
        Some(def) => {
            steps.push(Step::Outside(defs))?;
            begin_outside(walk, steps, def)
        }
        None => Ok(()),
    }
}

fn open<'a>(
    alloc: Global,
    walk: &mut Walk,
    steps: &mut Stack<Step<'a>>,
    subject: &'a Tree,
    defs: &'a Defs,
) -> Result<(), AllocError>
    ensures told { OnOk result (told walk.new steps.new ≡ walk.old.marks.items ++ (marks (in_block_owned defs.now (look walk.old.table)) subject.now ++ (inside_marks (in_block_owned defs.now (look walk.old.table)) no_names defs.now ++ pending (look walk.old.table) steps.old))) }
    ensures work { OnOk result (work_left steps.new < work subject.now + work_inside defs.now + 2 + work_left steps.old) }
{
    let saved = table::enter_block(alloc, &mut walk.table, defs)?;
    steps.push(Step::Close(saved))?;
    let seen = Table::make(alloc, walk.table.hashing());
    let defs = defs.definitions();
    steps.push(Step::Inside { defs, seen })?;
    begin(walk, steps, subject)
}

// The right side of a definition, where it stands inside the block. A function's parameters are in scope there.
fn begin_inside<'a>(
    alloc: Global,
    walk: &mut Walk,
    steps: &mut Stack<Step<'a>>,
    def: &'a Def,
) -> Result<(), AllocError>
    ensures told { OnOk result (told walk.new steps.new ≡ walk.old.marks.items ++ (inner_marks (look walk.old.table) def.now.at def.now.kind ++ pending (look walk.old.table) steps.old)) }
    ensures work { OnOk result (work_left steps.new ≤ inner_work def.now.kind + work_left steps.old) }
{
    match &def.kind {
        DefKind::Plain { right } => begin(walk, steps, right),
        DefKind::Function {
            parameters,
            places,
            right,
        } => {
            note_repeats(alloc, walk, parameters, places)?;
            let saved = table::enter_function(alloc, &mut walk.table, def.at, parameters)?;
            steps.push(Step::Close(saved))?;
            begin(walk, steps, right)
        }
        DefKind::Current { .. } => Ok(()),
    }
}

fn take_inside<'a>(
    alloc: Global,
    walk: &mut Walk,
    steps: &mut Stack<Step<'a>>,
    mut defs: Definitions<'a>,
    mut seen: Table,
) -> Result<(), AllocError>
    ensures told { OnOk result (told walk.new steps.new ≡ told walk.old (Step.Inside defs.entry seen ∷ steps.old)) }
    ensures work { OnOk result (work_left steps.new < work_left (Step.Inside defs.entry seen ∷ steps.old)) }
{
    match defs.next() {
        Some(def) => {
            note_repeat(alloc, walk, &mut seen, def.at, &def.name)?;
            steps.push(Step::Inside { defs, seen })?;
            begin_inside(alloc, walk, steps, def)
        }
        None => Ok(()),
    }
}

fn take<'a>(
    alloc: Global,
    walk: &mut Walk,
    steps: &mut Stack<Step<'a>>,
    step: Step<'a>,
) -> Result<(), AllocError>
    ensures told { OnOk result (told walk.new steps.new ≡ told walk.old (step.entry ∷ steps.old)) }
    ensures work { OnOk result (work_left steps.new < work_left (step.entry ∷ steps.old)) }
{
    match step {
        Step::Parts(parts) => take_part(walk, steps, parts),
        Step::Outside(defs) => take_outside(walk, steps, defs),
        Step::Open { subject, defs } => open(alloc, walk, steps, subject, defs),
        Step::Inside { defs, seen } => take_inside(alloc, walk, steps, defs, seen),
        Step::Close(saved) => table::leave(alloc, &mut walk.table, saved),
    }
}

/// Notes the sites of a tree.
pub(crate) fn walk_tree(alloc: Global, walk: &mut Walk, tree: &Tree) -> Result<(), AllocError>
    ensures { OnOk result (walk.new.marks.items ≡ walk.old.marks.items ++ marks (look walk.old.table) tree.now) }
{
    let mut steps = Stack::new(alloc);
    begin(walk, &mut steps, tree)?;
    while let Some(step) = steps.pop() {
        take(alloc, walk, &mut steps, step)?;
    }
    Ok(())
}
