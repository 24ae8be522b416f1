//! The definitions in scope at a place of a tree, and all of them.
ghost use Rattle.std.specs.Prelude.{◌≡◌, ◌++◌, ◌||◌, nat_eq, IfOk, OnOk};
ghost use Rattle.std.specs.List.{list_any};
ghost use Rattle.lucid_explain_source.specs.Scopes.{lent, listed, listed_if, is_headed, sees_block, has_place, has_place_in, has_place_in_defs, in_scope, in_scope_in, in_scope_defs, all_defs, all_defs_in, all_defs_under};

use lucid_tree::{Def, DefKind, Definitions, Defs, Parts, Shape, Tree};
use std::alloc::AllocError;

/// Finds the definitions of a block.
pub(crate) fn find_all<'a>(
    found: &mut Vec<&'a Def>,
    defs: Definitions<'a>,
) -> Result<(), AllocError>
    ensures { OnOk result (lent found.new.items ≡ lent found.old.items ++ listed defs.entry) }
{
    for def in defs {
        found.push(def)?;
    }
    Ok(())
}

// Finds the definitions of a block where they are in scope.
fn find_if<'a>(
    found: &mut Vec<&'a Def>,
    defs: Definitions<'a>,
    sees: bool,
) -> Result<(), AllocError>
    ensures { OnOk result (lent found.new.items ≡ lent found.old.items ++ listed_if sees defs.entry) }
{
    if sees {
        find_all(found, defs)?;
    }
    Ok(())
}

// Whether the place is one of these.
fn is_among(places: &[u32], at: u32) -> bool
    ensures { result ≡ list_any (λ place. nat_eq place at) places.now }
{
    for place in places {
        if *place == at {
            return true;
        }
    }
    false
}

// Whether the definition's own name stands at the place, or a parameter of it.
pub(crate) fn is_headed(def: &Def, at: u32) -> bool
    ensures { result ≡ is_headed at def.now.at def.now.kind }
{
    match &def.kind {
        DefKind::Function { places, .. } => def.at == at || is_among(places.items(), at),
        DefKind::Plain { .. } | DefKind::Current { .. } => def.at == at,
    }
}

// Whether the definition's block is in scope at the place, which may stand inside its right side.
fn sees_block(def: &Def, at: u32, inside: bool) -> bool
    ensures { result ≡ sees_block at def.now.at def.now.kind inside }
{
    match &def.kind {
        DefKind::Current { .. } => def.at == at,
        DefKind::Plain { .. } | DefKind::Function { .. } => is_headed(def, at) || inside,
    }
}

/// Finds the definitions in scope at the place, and whether something of the tree stands there.
#[cycle(scopes)]
pub fn find_in_scope<'a>(
    found: &mut Vec<&'a Def>,
    tree: &'a Tree,
    at: u32,
) -> Result<bool, AllocError>
    ensures place { IfOk result (λ inside. inside ≡ has_place at tree.now) }
    ensures found { OnOk result (lent found.new.items ≡ lent found.old.items ++ in_scope at tree.now) }
{
    match tree.shape() {
        Shape::Name { at: here, .. } => Ok(here == at),
        Shape::Form {
            at: here,
            parts,
            ..
        } => {
            let inside = find_in_parts(found, parts, at)?;
            Ok(here == at || inside)
        }
        Shape::Call { at: here, args, .. } => {
            let inside = find_in_parts(found, args.parts(), at)?;
            Ok(here == at || inside)
        }
        Shape::Scope {
            at: here,
            subject,
            defs,
        } => {
            let inside = find_in_block(found, subject, defs, at)?;
            Ok(here == at || inside)
        }
    }
}

#[cycle(scopes)]
fn find_in_block<'a>(
    found: &mut Vec<&'a Def>,
    subject: &'a Tree,
    defs: &'a Defs,
    at: u32,
) -> Result<bool, AllocError>
    ensures place { IfOk result (λ inside. inside ≡ (has_place at subject.now || has_place_in_defs at defs.now)) }
    ensures found { OnOk result (lent found.new.items ≡ lent found.old.items
        ++ (in_scope at subject.now ++ (listed_if (has_place at subject.now) defs.now ++ in_scope_defs at defs.now defs.now))) }
{
    let in_subject = find_in_scope(found, subject, at)?;
    find_if(found, defs.definitions(), in_subject)?;
    let in_defs = find_in_defs(found, defs, at)?;
    Ok(in_subject || in_defs)
}

#[cycle(scopes)]
fn find_in_parts<'a>(
    found: &mut Vec<&'a Def>,
    parts: Parts<'a>,
    at: u32,
) -> Result<bool, AllocError>
    ensures place { IfOk result (λ inside. inside ≡ has_place_in at parts.entry) }
    ensures found { OnOk result (lent found.new.items ≡ lent found.old.items ++ in_scope_in at parts.entry) }
{
    let mut inside = false;
    for part in parts {
        let here = find_in_scope(found, part, at)?;
        inside = inside || here;
    }
    Ok(inside)
}

#[cycle(scopes)]
fn find_in_defs<'a>(found: &mut Vec<&'a Def>, defs: &'a Defs, at: u32) -> Result<bool, AllocError>
    ensures place { IfOk result (λ inside. inside ≡ has_place_in_defs at defs.now) }
    ensures found { OnOk result (lent found.new.items ≡ lent found.old.items ++ in_scope_defs at defs.now defs.now) }
{
    let mut inside = false;
    for def in defs.definitions() {
        let here = find_in_scope(found, def.right(), at)?;
        find_if(found, defs.definitions(), sees_block(def, at, here))?;
        inside = inside || (is_headed(def, at) || here);
    }
    Ok(inside)
}

/// Finds all definitions of the tree.
#[cycle(everywhere)]
pub fn find_everywhere<'a>(found: &mut Vec<&'a Def>, tree: &'a Tree) -> Result<(), AllocError>
    ensures { OnOk result (lent found.new.items ≡ lent found.old.items ++ all_defs tree.now) }
{
    match tree.shape() {
        Shape::Name { .. } => Ok(()),
        Shape::Form { parts, .. } => find_under_parts(found, parts),
        Shape::Call { args, .. } => find_under_parts(found, args.parts()),
        Shape::Scope { subject, defs, .. } => find_under_block(found, subject, defs),
    }
}

#[cycle(everywhere)]
fn find_under_block<'a>(
    found: &mut Vec<&'a Def>,
    subject: &'a Tree,
    defs: &'a Defs,
) -> Result<(), AllocError>
    ensures { OnOk result (lent found.new.items ≡ lent found.old.items ++ (all_defs subject.now ++ (listed defs.now ++ all_defs_under defs.now))) }
{
    find_everywhere(found, subject)?;
    find_all(found, defs.definitions())?;
    find_under_defs(found, defs.definitions())
}

#[cycle(everywhere)]
fn find_under_parts<'a>(found: &mut Vec<&'a Def>, parts: Parts<'a>) -> Result<(), AllocError>
    ensures { OnOk result (lent found.new.items ≡ lent found.old.items ++ all_defs_in parts.entry) }
{
    for part in parts {
        find_everywhere(found, part)?;
    }
    Ok(())
}

#[cycle(everywhere)]
fn find_under_defs<'a>(found: &mut Vec<&'a Def>, defs: Definitions<'a>) -> Result<(), AllocError>
    ensures { OnOk result (lent found.new.items ≡ lent found.old.items ++ all_defs_under defs.entry) }
{
    for def in defs {
        find_everywhere(found, def.right())?;
    }
    Ok(())
}
