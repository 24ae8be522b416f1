//! Calls of a warehouse, one after another, with what each answers; and a million keys.
use crate::told::{first_false, none_wrong};
use lucid_store::*;
use lucid_tags::{KeyHasher, Tag, Tags};
use lucid_value::Value;
use std::alloc::Global;
use std::hash::{BuildHasher, BuildHasherDefault};
use std::test::Fail;

const MANY: u64 = 1_000_000;

// A call, and what it answers. A key is told by its space.
enum Step {
    Put(u8, i128),
    Gets(u8, Option<i128>),
    Touched(Option<u8>),
    Removes(u8, bool),
    Holds(u64),
    Lost(u64),
    Sweep(u32),
    Clear,
}

use Step::{Clear, Gets, Holds, Lost, Put, Removes, Sweep, Touched};

fn key_at(tag: Tag, time: u64) -> Key {
    Key { name: 1, tag, time }
}

fn key_in(root: Tag, space: u8) -> Key {
    key_at(root.at_space(u64::from(space)), 0)
}

// The number that a key holds.
fn number(warehouse: &mut Warehouse, key: Key) -> Option<i128> {
    match warehouse.get(key) {
        Some(Value::Int(n)) => Some(*n),
        _ => None,
    }
}

fn is_touched(warehouse: &mut Warehouse, root: Tag, space: Option<u8>) -> bool {
    match (warehouse.take_touched(), space) {
        (Some(key), Some(space)) => key == key_in(root, space),
        (None, None) => true,
        _ => false,
    }
}

// Whether the call answers so.
fn answers(warehouse: &mut Warehouse, root: Tag, step: &Step) -> bool {
    match step {
        Put(space, n) => warehouse.put(key_in(root, *space), Value::Int(*n)).is_ok(),
        Gets(space, n) => number(warehouse, key_in(root, *space)) == *n,
        Touched(space) => is_touched(warehouse, root, *space),
        Removes(space, was) => warehouse.remove(key_in(root, *space)) == *was,
        Holds(count) => warehouse.len() == *count,
        Lost(count) => warehouse.lost() == *count,
        Sweep(limit) => {
            warehouse.sweep(*limit);
            true
        }
        Clear => {
            warehouse.clear();
            true
        }
    }
}

fn first_otherwise(warehouse: &mut Warehouse, root: Tag, steps: &[Step]) -> Option<usize> {
    for (number, step) in steps.iter().enumerate() {
        if !answers(warehouse, root, step) {
            return Some(number);
        }
    }
    None
}

// The number of the first step that a new warehouse answers otherwise.
fn first_wrong(alloc: Global, root: Tag, steps: &[Step]) -> Option<usize> {
    first_otherwise(&mut Warehouse::make(alloc), root, steps)
}

// A value that was touched outlives a sweep.
static UNTOUCHED: [Step; 5] = [Put(0, 7), Sweep(1), Holds(1), Sweep(1), Removes(0, false)];

static AGAIN: [Step; 6] = [
    Put(0, 7),
    Sweep(1),
    Holds(1),
    Gets(0, Some(7)),
    Sweep(1),
    Removes(0, true),
];

static EACH_CALL: [Step; 14] = [
    Touched(None),
    Put(0, 7),
    Put(1, 8),
    Gets(0, Some(7)),
    Touched(Some(0)),
    Touched(None),
    Removes(0, true),
    Gets(0, None),
    Gets(1, Some(8)),
    Holds(1),
    Clear,
    Holds(0),
    Touched(None),
    Lost(0),
];

// What is wrong of the steps: of a value that isn't touched, of one that is touched between sweeps, of each call.
fn wrong_steps(alloc: Global, root: Tag) -> [Option<usize>; 3] {
    [
        first_wrong(alloc, root, &UNTOUCHED),
        first_wrong(alloc, root, &AGAIN),
        first_wrong(alloc, root, &EACH_CALL),
    ]
}

// Puts a value at each of the first times. Once one came back, each further one does, though there is memory again: the time of the first that
// does not.
fn put_each(warehouse: &mut Warehouse, tag: Tag, times: u64) -> Option<u64> {
    let mut refused = false;
    for time in 0..times {
        let held = warehouse.put(key_at(tag, time), Value::Int(7)).is_ok();
        if held && refused {
            return Some(time);
        }
        refused = !held;
    }
    None
}

// Whether a warehouse that was cleared takes a hundred keys again, and what was lost before is told with what is held.
fn fills_again(warehouse: &mut Warehouse, tag: Tag) -> Option<usize> {
    let first = put_each(warehouse, tag, 100);
    let lost = warehouse.lost();
    let all = warehouse.len().saturating_add(lost);
    warehouse.clear();
    let second = put_each(warehouse, tag, 100);
    let facts = [
        first.is_none(),
        all == 100,
        second.is_none(),
        warehouse.len() == 100,
        warehouse.lost() == lost,
    ];
    first_false(&facts)
}

// To be tried with each allocation failing in turn: after the first that is refused none is asked for, until a key is removed.
#[test]
fn no_memory_is_asked_for_after_a_refusal(rt: HostRuntime) -> Result<(), Fail> {
    let root = Tags::make(rt.alloc()).root();
    let wrong = fills_again(&mut Warehouse::make(rt.alloc()), root);
    none_wrong(wrong, "filled again")
}

// The first of the times below a count whose value isn't held.
fn first_missing(warehouse: &mut Warehouse, tag: Tag, times: u64) -> Option<u64> {
    for time in 0..times {
        if number(warehouse, key_at(tag, time)) != Some(i128::from(time)) {
            return Some(time);
        }
    }
    None
}

// The first of the times below a count whose value came back.
fn first_refused(warehouse: &mut Warehouse, tag: Tag, times: u64) -> Option<u64> {
    for time in 0..times {
        let value = Value::Int(i128::from(time));
        if warehouse.put(key_at(tag, time), value).is_err() {
            return Some(time);
        }
    }
    None
}

// The first of a million keys that isn't taken, the first that isn't held, and how many are held.
fn of_a_million(warehouse: &mut Warehouse, root: Tag) -> (Option<u64>, Option<u64>, u64) {
    let refused = first_refused(warehouse, root, MANY);
    let missing = first_missing(warehouse, root, MANY);
    (refused, missing, warehouse.len())
}

fn of_a_new_million(alloc: Global, root: Tag) -> (Option<u64>, Option<u64>, u64) {
    of_a_million(&mut Warehouse::make(alloc), root)
}

// How many groups a hash can name.
const GROUPS: u64 = 1 << 24;

fn hash_at(tag: Tag, time: u64) -> u64 {
    let key = Key { name: 0, tag, time };
    BuildHasherDefault::<KeyHasher>::new().hash_one(key)
}

// Whether two times are in one group, each with a tag of its own.
fn are_beside(root: Tag, one: u64, other: u64) -> bool {
    let (one, other) = (hash_at(root, one), hash_at(root, other));
    one % GROUPS == other % GROUPS && one / GROUPS != other / GROUPS
}

// Of the name 0 in the empty context the times from a multiple of four on are in one group: the first that isn't, or that is in the one before.
fn first_apart(root: Tag) -> Option<u64> {
    for first in [0, 4, 1_000_000] {
        for time in first + 1..first + 4 {
            if !are_beside(root, first, time) {
                return Some(time);
            }
        }
        if hash_at(root, first + 4) % GROUPS == hash_at(root, first) % GROUPS {
            return Some(first);
        }
    }
    None
}

#[test]
fn steps_groups_and_a_million_keys(rt: HostRuntime) {
    let alloc = rt.alloc();
    let root = Tags::make(alloc).root();
    let million = of_a_new_million(alloc, root);
    let wrong = (first_apart(root), million, wrong_steps(alloc, root));
    assert_eq!(rt; wrong, (None, (None, None, MANY), [None, None, None]));
}
