//! Where the rows of a program's table come from: places of its source.
ghost use Rattle.std.specs.Prelude.{◌≡◌, ◌++◌, [], ◌∷◌, map, fold, IfOk, OnOk};
ghost use Rattle.lucid_tree.specs.Tree.{block};
ghost use Rattle.lucid_scope.specs.Scoped.{scoped_tree};
ghost use Rattle.lucid_compile.specs.Origins.{spot, spot_if, parameter_spots, spots, spots_in, spots_in_defs, spots_of_def, with_spot, places_of, origins_of};

use crate::compiler::has_frame;
use lucid_scope::Scoped;
use lucid_tree::{Def, DefKind, Defs, Parts, Shape, Tree};
use std::alloc::{AllocError, Global};

/// The places of the rows, by their numbers: of a node its piece's own, of a name's row its definition's, parameter's or call's, of a
/// call place its call's, of a scope its block's or its function's definition's. Scope 0 has place 0.
#[derive(Drop)]
pub struct Origins {
    pub nodes: Vec<u32>,
    pub names: Vec<u32>,
    pub places: Vec<u32>,
    pub scopes: Vec<u32>,
}

/// What has a row: a scope; a piece that is no call; a call; a name that is defined, or a parameter.
#[derive(Clone, Copy)]
pub(crate) enum What {
    Scope,
    Piece,
    Call,
    Name,
}

/// It, at its place.
#[derive(Clone, Copy)]
pub(crate) struct Spot {
    pub(crate) at: u32,
    pub(crate) what: What,
}

// Notes one thing.
fn note(found: &mut Vec<Spot>, at: u32, what: What) -> Result<(), AllocError>
    ensures { OnOk result (found.new.items ≡ found.old.items ++ spot at what ∷ []) }
{
    found.push(Spot { at, what })?;
    Ok(())
}

// Notes one thing, where it is there.
fn note_if(found: &mut Vec<Spot>, there: bool, at: u32, what: What) -> Result<(), AllocError>
    ensures { OnOk result (found.new.items ≡ found.old.items ++ spot_if there at what) }
{
    if there {
        return note(found, at, what);
    }
    Ok(())
}

// Notes a function's parameters.
fn note_parameters(found: &mut Vec<Spot>, places: &[u32]) -> Result<(), AllocError>
    ensures { OnOk result (found.new.items ≡ found.old.items ++ parameter_spots places.now) }
{
    for at in places {
        note(found, *at, What::Name)?;
    }
    Ok(())
}

// Notes what has rows in a tree, in the order of these.
#[cycle(spots)]
fn find_spots(found: &mut Vec<Spot>, tree: &Tree) -> Result<(), AllocError>
    ensures { OnOk result (found.new.items ≡ found.old.items ++ spots tree.now) }
{
    match tree.shape() {
        Shape::Name { at, .. } => note(found, at, What::Piece),
        Shape::Form { at, parts, .. } => {
            find_in_parts(found, parts)?;
            note(found, at, What::Piece)
        }
        Shape::Call { at, args, .. } => {
            find_in_parts(found, args.parts())?;
            note(found, at, What::Call)
        }
        Shape::Scope { at, subject, defs } => find_in_block(found, at, subject, defs),
    }
}

#[cycle(spots)]
fn find_in_parts(found: &mut Vec<Spot>, parts: Parts<'_>) -> Result<(), AllocError>
    ensures { OnOk result (found.new.items ≡ found.old.items ++ spots_in parts.entry) }
{
    for part in parts {
        find_spots(found, part)?;
    }
    Ok(())
}

#[cycle(spots)]
fn find_in_block(
    found: &mut Vec<Spot>,
    at: u32,
    subject: &Tree,
    defs: &Defs,
) -> Result<(), AllocError>
    ensures { OnOk result (found.new.items ≡ found.old.items ++ spots (block at subject.now defs.now)) }
{
    let frozen = has_frame(defs);
    note_if(found, frozen, at, What::Scope)?;
    find_spots(found, subject)?;
    find_in_defs(found, defs)?;
    note_if(found, frozen, at, What::Piece)
}

#[cycle(spots)]
#[tactic(auto, using(crate::proofs::Traced::def_then))]
fn find_in_defs(found: &mut Vec<Spot>, defs: &Defs) -> Result<(), AllocError>
    ensures { OnOk result (found.new.items ≡ found.old.items ++ spots_in_defs defs.now) }
{
    for def in defs.definitions() {
        find_in_def(found, def)?;
    }
    Ok(())
}

#[cycle(spots)]
fn find_in_def(found: &mut Vec<Spot>, def: &Def) -> Result<(), AllocError>
    ensures { OnOk result (found.new.items ≡ found.old.items ++ spots_of_def def.now.at def.now.kind) }
{
    match &def.kind {
        DefKind::Function { places, .. } => {
            note(found, def.at, What::Scope)?;
            note_parameters(found, places.items())?;
            find_spots(found, def.right())
        }
        DefKind::Plain { .. } | DefKind::Current { .. } => {
            find_spots(found, def.right())?;
            note(found, def.at, What::Name)
        }
    }
}

impl Origins {
    // One row more, or of a call two. The rows of calls' names are not made yet.
    fn add(&mut self, spot: Spot) -> Result<(), AllocError>
        ensures { OnOk result (places_of self.new ≡ with_spot (places_of self.old) spot) }
    {
        let at = spot.at;
        match spot.what {
            What::Scope => self.scopes.push(at)?,
            What::Piece => self.nodes.push(at)?,
            What::Call => {
                self.nodes.push(at)?;
                self.places.push(at)?;
            }
            What::Name => self.names.push(at)?,
        }
        Ok(())
    }

    fn add_all(&mut self, spots: &[Spot]) -> Result<(), AllocError>
        ensures { OnOk result (places_of self.new ≡ fold with_spot (places_of self.old) spots.now) }
    {
        for spot in spots {
            self.add(*spot)?;
        }
        Ok(())
    }
}

/// Where the rows of a program's table come from. The walk is linear in the tree. The one refusal is want of memory.
pub fn find_origins(alloc: Global, scoped: &Scoped) -> Result<Origins, AllocError>
    ensures { IfOk result (λ found. places_of found ≡ origins_of (scoped_tree scoped.now)) }
{
    let mut spots = Vec::new(alloc);
    find_spots(&mut spots, scoped.tree())?;
    let mut found = Origins {
        nodes: Vec::new(alloc),
        names: Vec::new(alloc),
        places: Vec::new(alloc),
        scopes: Vec::new(alloc),
    };
    found.scopes.push(0)?;
    found.add_all(&spots)?;
    found.names.extend_from_slice(&found.places)?;
    Ok(found)
}
