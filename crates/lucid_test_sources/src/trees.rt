//! Trees are copied and measured, and lists give back their items.
ghost use Rattle.lucid_tree.specs.WellMade.{IsWellMade};

use crate::told::{first_false, must, none_wrong};
use crate::tree::tree_of;
use lucid_tree::{Names, Places32, Shape, Tree, Trees};
use lucid_value::Name;
use std::alloc::{AllocError, Global};
use std::test::Fail;

/// A source, the place of its tree's root, and the tree's depth.
type Row = (&'static str, u32, u32);

// A constant, and each form: its word begins at its place.
static COPIED: [Row; 22] = [
    ("1", 0, 1),
    ("x", 0, 1),
    ("first 1", 0, 2),
    ("next 1", 0, 2),
    ("initial 1", 0, 2),
    ("succ 1", 0, 2),
    ("1 and 2", 2, 2),
    ("1 or 2", 2, 2),
    ("1 fby 2", 2, 2),
    ("1 whenever 2", 2, 2),
    ("1 asa 2", 2, 2),
    ("1 upon 2", 2, 2),
    ("1 attime 2", 2, 2),
    ("1 sby 2", 2, 2),
    ("1 atspace 2", 2, 2),
    ("1 + 2", 2, 2),
    (" if 1 then 2 else 3 fi", 1, 2),
    ("f(1, 2)", 0, 2),
    ("1 where f = 2; end", 2, 2),
    ("1 where f is current 2; end", 2, 2),
    ("1 where f(x) = first 2; end", 2, 3),
    ("x where x = 0 fby x + 1; end", 2, 4),
];

// The place and the depth of a copy of the tree.
fn copied(alloc: Global, tree: &Tree) -> Result<(u32, u32), AllocError>
    requires { IsWellMade tree.now }
{
    let copy = tree.copy(alloc)?;
    Ok((copy.at, copy.depth()))
}

fn copied_source(alloc: Global, source: &[u8]) -> Result<(u32, u32), Fail> {
    let tree = tree_of(alloc, source)?;
    Ok(copied(alloc, &tree)?)
}

// The place of a block's subject, and the number of its definitions.
fn of_block(tree: &Tree) -> Option<(u32, usize)> {
    let Shape::Scope { subject, defs, .. } = tree.shape() else {
        return None;
    };
    Some((subject.at, defs.items().len()))
}

// The number of arguments of a call.
fn arguments(tree: &Tree) -> Option<usize> {
    let Shape::Call { args, .. } = tree.shape() else {
        return None;
    };
    Some(args.items().len())
}

fn block_of_copy(alloc: Global, tree: &Tree) -> Result<Option<(u32, usize)>, AllocError> {
    Ok(of_block(&tree.copy(alloc)?))
}

fn arguments_of_copy(alloc: Global, tree: &Tree) -> Result<Option<usize>, AllocError> {
    Ok(arguments(&tree.copy(alloc)?))
}

fn copied_block(alloc: Global) -> Result<Option<(u32, usize)>, Fail> {
    let tree = tree_of(alloc, b"x where x = 0 fby x + 1; end")?;
    Ok(block_of_copy(alloc, &tree)?)
}

fn copied_arguments(alloc: Global) -> Result<Option<usize>, Fail> {
    let tree = tree_of(alloc, b"f(1, 2)")?;
    Ok(arguments_of_copy(alloc, &tree)?)
}

#[test]
fn trees_are_copied(rt: HostRuntime) -> Result<(), Fail> {
    let alloc = rt.alloc();
    for (source, at, depth) in &COPIED {
        must(
            copied_source(alloc, source.as_bytes())? == (*at, *depth),
            source,
        )?;
    }
    let facts = [
        copied_block(alloc)? == Some((0, 1)),
        copied_arguments(alloc)? == Some(2),
    ];
    none_wrong(first_false(&facts), "copies")
}

// The number of names in a list, and the first byte of the last.
fn of_names(names: Names) -> Option<(usize, u8)> {
    let last = names.items().last()?;
    Some((names.items().len(), *last.bytes().first()?))
}

fn two_names(alloc: Global) -> Result<Names, Fail> {
    let mut names = Vec::new(alloc);
    names.push(Name::make(alloc, b"f")?)?;
    names.push(Name::make(alloc, b"g")?)?;
    Ok(Names::from_vec(names))
}

fn gives_places(alloc: Global) -> Result<bool, AllocError> {
    let places = Places32::from_vec(Vec::from_array(alloc, [3, 5])?);
    Ok(places.items() == [3, 5].as_slice())
}

// The places of the parts of a form.
fn places_of(tree: &Tree) -> Option<(u32, u32)> {
    let Shape::Form { mut parts, .. } = tree.shape() else {
        return None;
    };
    Some((parts.next()?.at, parts.next()?.at))
}

// The places of the parts of the first definition's right side.
fn places_in_block(tree: &Tree) -> Option<(u32, u32)> {
    let Shape::Scope { defs, .. } = tree.shape() else {
        return None;
    };
    places_of(defs.definitions().next()?.right())
}

// The places of two trees in a list.
fn places_in(trees: &Trees) -> Option<(u32, u32)> {
    let mut parts = trees.parts();
    Some((parts.next()?.at, parts.next()?.at))
}

// The same of the arguments of a call.
fn places_in_call(tree: &Tree) -> Option<(u32, u32)> {
    let Shape::Call { args, .. } = tree.shape() else {
        return None;
    };
    places_in(args)
}

fn call_has_places(alloc: Global) -> Result<bool, Fail> {
    let tree = tree_of(alloc, b"f( 1,2)")?;
    Ok(places_in_call(&tree) == Some((3, 5)))
}

// The parts of the definition's right side, `fby`.
fn block_has_places(alloc: Global) -> Result<bool, Fail> {
    let tree = tree_of(alloc, b"x where x = 0 fby x + 1; end")?;
    Ok(places_in_block(&tree) == Some((12, 20)))
}

#[test]
fn trees_and_lists_give_their_parts(rt: HostRuntime) -> Result<(), Fail> {
    let alloc = rt.alloc();
    let facts = [
        of_names(two_names(alloc)?) == Some((2, b'g')),
        gives_places(alloc)?,
        block_has_places(alloc)?,
        call_has_places(alloc)?,
    ];
    none_wrong(first_false(&facts), "parts")
}
