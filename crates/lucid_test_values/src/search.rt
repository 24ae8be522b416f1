use crate::told::{first_false, none_wrong};
use lucid_search::*;
use lucid_tags::{Tag, Tags};
use std::alloc::Global;
use std::test::Fail;

const MANY: u64 = 100_000;

// What is wrong of positions in which one is noted.
fn wrong_of_one(positions: &mut Positions, root: Tag) -> Option<usize> {
    positions.note(1, root, 3, 7);
    first_false(&[
        positions.best(1, root, 5) == Some((3, 7)),
        positions.best(1, root, 2).is_none(),
    ])
}

// The same where several are, of two sites and at two spaces.
fn wrong_of_several(positions: &mut Positions, root: Tag) -> Option<usize> {
    positions.note(1, root, 3, 7);
    positions.note(1, root, 8, 9);
    positions.note(1, root, 5, 1);
    positions.note(1, root, 5, 8);
    positions.note(2, root, 6, 10);
    positions.note(1, root.at_space(1), 6, 11);
    let facts = [
        positions.best(1, root, 7) == Some((5, 8)),
        positions.best(1, root, 8) == Some((8, 9)),
        positions.best(1, root.at_space(1), 9) == Some((6, 11)),
        positions.best(2, root, 9) == Some((6, 10)),
        positions.missed() == 0,
    ];
    positions.clear();
    first_false(&[
        first_false(&facts).is_none(),
        positions.best(1, root, 9).is_none(),
    ])
}

// What is asked for, and what is the best, of notes of a site out of order.
static BEST: [(u64, Option<(u64, u64)>); 6] = [
    (0, Some((0, 1))),
    (1, Some((0, 1))),
    (2, Some((2, 21))),
    (5, Some((4, 40))),
    (8, Some((6, 60))),
    (99, Some((9, 90))),
];

fn wrong_out_of_order(positions: &mut Positions, root: Tag) -> Option<u64> {
    for (key, number) in [(6, 60), (2, 20), (9, 90), (4, 40), (2, 21), (0, 1)] {
        positions.note(3, root, key, number);
    }
    for (key, best) in &BEST {
        if positions.best(3, root, *key) != *best {
            return Some(*key);
        }
    }
    None
}

fn wrong_in_rising_order(positions: &mut Positions, root: Tag) -> Option<u64> {
    for key in 0..MANY {
        positions.note(1, root, key, key);
        if positions.best(1, root, MANY) != Some((key, key)) {
            return Some(key);
        }
    }
    None
}

// Each is of positions of its own, owned by a function of its own: all that are owned at once are dropped together, at a high price.
fn notes_one(alloc: Global, root: Tag) -> bool {
    wrong_of_one(&mut Positions::make(alloc), root).is_none()
}

fn notes_several(alloc: Global, root: Tag) -> bool {
    wrong_of_several(&mut Positions::make(alloc), root).is_none()
}

fn notes_out_of_order(alloc: Global, root: Tag) -> bool {
    wrong_out_of_order(&mut Positions::make(alloc), root).is_none()
}

fn notes_in_rising_order(alloc: Global, root: Tag) -> bool {
    wrong_in_rising_order(&mut Positions::make(alloc), root).is_none()
}

#[test]
fn noted_positions(rt: HostRuntime) -> Result<(), Fail> {
    let alloc = rt.alloc();
    let root = Tags::make(alloc).root();
    let facts = [
        notes_one(alloc, root),
        notes_several(alloc, root),
        notes_out_of_order(alloc, root),
        notes_in_rising_order(alloc, root),
    ];
    none_wrong(first_false(&facts), "positions")
}
