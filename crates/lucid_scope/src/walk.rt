//! The names in scope where a descent is, and the marks that it notes.
ghost use Rattle.std.specs.Prelude.{◌≡◌, ℕ, List, [], ◌∷◌, map, OnOk, None};
ghost use Rattle.lucid_scope.specs.Sites.{repeats, again_if, no_names, also};
ghost use Rattle.lucid_scope.specs.Owners.{look};
ghost use Rattle.lucid_scope.specs.Walks.{mark, Notes, is_seen};

use crate::hashing::NameHashing;
use crate::marks::{Mark, What};
use crate::table::{Owner, Table};
use lucid_tree::{Names, Places32};
use lucid_value::Name;
use std::alloc::{AllocError, Global};

/// The names in scope where the descent is, and the marks of what it has been through.
#[derive(Drop)]
pub(crate) struct Walk {
    pub(crate) table: Table,
    pub(crate) marks: Vec<Mark>,
}

impl Walk {
    /// No name is in scope, and nothing is noted.
    pub(crate) fn make(alloc: Global, hashing: NameHashing) -> Walk
        ensures table { (n : List ℕ) → look result.table n ≡ None }
        ensures marks { result.marks.items ≡ [] }
    {
        Walk {
            table: Table::make(alloc, hashing),
            marks: Vec::new(alloc),
        }
    }

    /// The marks.
    pub(crate) fn into_marks(self) -> Vec<Mark>
        ensures { result ≡ self.marks }
    {
        let Walk { table: _, marks } = self;
        marks
    }
}

/// Notes a name.
pub(crate) fn note_name(walk: &mut Walk, at: u32, name: &Name) -> Result<(), AllocError>
    ensures { OnOk result (Notes walk.old walk.new (record { at = at; what = What.Named name.now (look walk.old.table name.now) } ∷ [])) }
{
    let owner = walk.table.owner(name);
    let name = name.copy()?;
    let what = What::Named { name, owner };
    walk.marks.push(Mark { at, what })?;
    Ok(())
}

/// Notes a call with its number of arguments.
pub(crate) fn note_call(
    walk: &mut Walk,
    at: u32,
    name: &Name,
    given: usize,
) -> Result<(), AllocError>
    ensures { OnOk result (Notes walk.old walk.new (record { at = at; what = What.Called name.now (look walk.old.table name.now) given } ∷ [])) }
{
    let owner = walk.table.owner(name);
    let name = name.copy()?;
    let what = What::Called { name, owner, given };
    walk.marks.push(Mark { at, what })?;
    Ok(())
}

/// Notes the name where it was seen before, and it is seen from now on.
pub(crate) fn note_repeat(
    alloc: Global,
    walk: &mut Walk,
    seen: &mut Table,
    at: u32,
    name: &Name,
) -> Result<(), AllocError>
    ensures noted { OnOk result (Notes walk.old walk.new (map mark (again_if (is_seen seen.old name.now) at))) }
    ensures seen { OnOk result ((n : List ℕ) → is_seen seen.new n ≡ also name.now (is_seen seen.old) n) }
{
    let before = seen.set(alloc, name, Some(Owner::Plain { def: at }))?;
    if before.is_some() {
        let what = What::Again;
        walk.marks.push(Mark { at, what })?;
    }
    Ok(())
}

/// Notes the parameters whose names earlier ones have.
pub(crate) fn note_repeats(
    alloc: Global,
    walk: &mut Walk,
    names: &Names,
    places: &Places32,
) -> Result<(), AllocError>
    ensures { OnOk result (Notes walk.old walk.new (map mark (repeats no_names names.now places.now))) }
{
    let mut seen = Table::make(alloc, walk.table.hashing());
    let names = names.items();
    let places = places.items();
    let mut i = 0;
    while i < names.len() && i < places.len() {
        note_repeat(alloc, walk, &mut seen, places[i], &names[i])?;
        i += 1;
    }
    Ok(())
}
