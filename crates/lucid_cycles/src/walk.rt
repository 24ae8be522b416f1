//! The walk through a program: what isn't judged, the plain names and their references are met, and a reader says what is made of them.
ghost use Rattle.std.specs.Prelude.{◌≡◌, ◌≤◌, ◌^◌, None, Result, OnOk, length, pos};
ghost use Rattle.lucid_tree.specs.WellMade.{IsWellMade, places, places_in, places_in_defs};
ghost use Rattle.lucid_tree.specs.Shape.{head_of};
ghost use Rattle.lucid_scope.specs.Scoped.{scoped_tree, scoped_inputs, scoped_binding};
ghost use Rattle.lucid_scope.specs.Bindings.{IsResolved};
ghost use Rattle.lucid_cycles.specs.Judged.{is_judged};
ghost use Rattle.lucid_cycles.specs.Graph.{first_delay, later_delay};
ghost use Rattle.lucid_cycles.specs.Laws.{HasParts, HaveParts, DefsHaveParts};
ghost use Rattle.lucid_cycles.specs.Rounds.{Fits};
ghost use Rattle.lucid_cycles.specs.Walks.{Marks, Goes, marked, own_marks, marks, marks_in, marks_in_defs};

use crate::edge::Edge;
use lucid_scope::{Binding, Scoped};
use lucid_tree::{Def, DefKind, Definitions, Delay, Head, Parts, Shape, Tree};
use lucid_value::Name;

/// What is met. Names are told by the places of their definitions.
#[derive(Clone, Copy)]
pub(crate) enum Mark<'a> {
    /// A form, a call or a definition at the place, and whether it is judged.
    Part { at: u32, judged: bool },
    /// The definition of a plain name.
    Name { at: u32, name: &'a Name },
    /// A reference of a plain name.
    Edge(Edge),
}

/// What takes the marks, one after another, until it stops the walk.
pub(crate) trait Reader {
    type Stop;

    ghost reads: { Self → Marks → Result (Unit {0}) Self.Stop → Self → Type 0 };

    /// Takes a mark.
    fn read(&mut self, mark: Mark<'_>) -> Result<(), Self::Stop>
        ensures { reads self.old (marked mark.entry) result self.new };

    // What it takes of some marks and then of others is what it takes of both.
    ghost goes: { Goes reads };
}

fn is_judged(head: Head<'_>) -> bool
    ensures { result ≡ is_judged (head_of head.entry) }
{
    match head {
        Head::Const(_) | Head::Apply { .. } => true,
        Head::Stream(form) => match form.delay() {
            Delay::Unjudged => false,
            _ => true,
        },
    }
}

// The delays at which the first part of a form is met, and its later parts.
fn delays(head: Head<'_>, delay: i64) -> (i64, i64)
    requires { Fits delay 1 }
    ensures first { result.0 ≡ first_delay (head_of head.entry) delay }
    ensures later { result.1 ≡ later_delay (head_of head.entry) delay }
{
    match head {
        Head::Const(_) | Head::Apply { .. } => (delay, delay),
        Head::Stream(form) => match form.delay() {
            Delay::Zero => (0, 0),
            Delay::Less => (delay - 1, delay - 1),
            Delay::More => (delay, delay + 1),
            Delay::Same | Delay::Unjudged => (delay, delay),
        },
    }
}

fn own_mark(def: &Def) -> Mark<'_>
    ensures { marked result ≡ own_marks def.now.at def.now.name def.now.kind }
{
    let at = def.at;
    let name = &def.name;
    match &def.kind {
        DefKind::Plain { .. } => Mark::Name { at, name },
        DefKind::Function { .. } | DefKind::Current { .. } => Mark::Part { at, judged: false },
    }
}

#[cycle(walk)]
fn walk_tree<R: Reader>(
    reader: &mut R,
    scoped: &Scoped,
    from: Option<u32>,
    delay: i64,
    tree: &Tree,
) -> Result<(), R::Stop>
    requires { Fits delay (length (places tree.now)) }
    ensures marks { R.reads reader.old (marks (scoped_binding scoped.now) from delay tree.now) result reader.new }
    ensures parts { OnOk result (HasParts tree.now) }
{
    match tree.shape() {
        Shape::Name { at, .. } => match scoped.binding(at) {
            Some(Binding::Plain { def: to }) => reader.read(Mark::Edge(Edge { from, to, delay })),
            _ => Ok(()),
        },
        Shape::Form { at, head, parts } => {
            let judged = is_judged(head);
            reader.read(Mark::Part { at, judged })?;
            let (first, later) = delays(head, delay);
            walk_parts(reader, scoped, from, first, later, parts)
        }
        Shape::Call { at, args, .. } => {
            reader.read(Mark::Part { at, judged: false })?;
            walk_parts(reader, scoped, from, delay, delay, args.parts())
        }
        Shape::Scope { subject, defs, .. } => {
            walk_tree(reader, scoped, from, delay, subject)?;
            walk_defs(reader, scoped, defs.definitions())
        }
    }
}

#[cycle(walk)]
fn walk_parts<R: Reader>(
    reader: &mut R,
    scoped: &Scoped,
    from: Option<u32>,
    first: i64,
    later: i64,
    parts: Parts<'_>,
) -> Result<(), R::Stop>
    requires first { Fits first (length (places_in parts)) }
    requires later { Fits later (length (places_in parts)) }
    ensures marks { R.reads reader.old (marks_in (scoped_binding scoped.now) from first later parts.entry) result reader.new }
    ensures parts { OnOk result (HaveParts parts.entry) }
{
    let mut delay = first;
    for part in parts {
        walk_tree(reader, scoped, from, delay, part)?;
        delay = later;
    }
    Ok(())
}

#[cycle(walk)]
fn walk_defs<R: Reader>(
    reader: &mut R,
    scoped: &Scoped,
    defs: Definitions<'_>,
) -> Result<(), R::Stop>
    requires { length (places_in_defs defs) ≤ 2 ^ 32 }
    ensures marks { R.reads reader.old (marks_in_defs (scoped_binding scoped.now) defs.entry) result reader.new }
    ensures parts { OnOk result (DefsHaveParts defs.entry) }
{
    for def in defs {
        reader.read(own_mark(def))?;
        walk_tree(reader, scoped, Some(def.at), 0, def.right())?;
    }
    Ok(())
}

/// Walks through a program.
pub(crate) fn walk<R: Reader>(reader: &mut R, scoped: &Scoped) -> Result<(), R::Stop>
    ensures marks { R.reads reader.old (marks (scoped_binding scoped.now) None (pos 0) (scoped_tree scoped.now)) result reader.new }
    ensures parts { OnOk result (HasParts (scoped_tree scoped.now)) }
    ensures resolved { ∥ IsResolved (scoped_tree scoped.now) (scoped_inputs scoped.now) (scoped_binding scoped.now) ∥₁ }
    ensures well_made { IsWellMade (scoped_tree scoped.now) }
{
    walk_tree(reader, scoped, None, 0, scoped.tree())
}
