use crate::told::{first_false, none_wrong};
use lucid_retire::*;
use lucid_store::{Key, Warehouse};
use lucid_tags::Tags;
use lucid_value::Value;
use std::alloc::Global;
use std::test::Fail;

// A key of its own for each time.
fn key_at(alloc: Global, time: u64) -> Key {
    let tag = Tags::make(alloc).root();
    Key { name: 1, tag, time }
}

// Puts a value under a key, and has one turn: how many are held then. A value that came back is counted.
fn put_and_turn<R: Retire>(policy: &mut R, warehouse: &mut Warehouse, key: Key) -> u64 {
    let lost = u64::from(warehouse.put(key, Value::Int(7)).is_err());
    policy.turn(warehouse);
    warehouse.len().saturating_add(lost)
}

// How many of the first keys are held. It owns the policy and lets it go.
fn count_after<R: Retire>(alloc: Global, mut policy: R, keys: u64) -> u64 {
    let mut warehouse = Warehouse::make(alloc);
    let mut held = 0;
    for time in 0..keys {
        held = put_and_turn(&mut policy, &mut warehouse, key_at(alloc, time));
    }
    held
}

// What is wrong of a policy that holds the last two.
fn wrong_of_two(last: &mut Last, warehouse: &mut Warehouse, keys: [Key; 3]) -> Option<usize> {
    let [a, b, c] = keys;
    first_false(&[
        put_and_turn(last, warehouse, a) == 1,
        put_and_turn(last, warehouse, b) == 2,
        put_and_turn(last, warehouse, c) == 2,
        !warehouse.remove(a),
        warehouse.remove(b),
        warehouse.remove(c),
        warehouse.lost() == 0,
    ])
}

fn wrong_of_last(alloc: Global) -> Result<Option<usize>, Fail> {
    let keys = [key_at(alloc, 0), key_at(alloc, 1), key_at(alloc, 2)];
    let mut last = Last::make(alloc, 2)?;
    Ok(wrong_of_two(&mut last, &mut Warehouse::make(alloc), keys))
}

// How many of five keys are held by a policy that drops one of them at the turn after the third.
fn scripted(alloc: Global) -> Result<u64, Fail> {
    let scrap = Scrap {
        turn: 3,
        key: key_at(alloc, 1),
    };
    let policy = Scripted::make(alloc, vec![in alloc; scrap]?);
    Ok(count_after(alloc, policy, 5))
}

// Whether so many of five keys are held by a policy, and whether it is one that empties the store.
fn holds(alloc: Global, policy: Policy, want: u64) -> bool {
    let emptying = policy.is_emptying() == (want == 0);
    count_after(alloc, policy, 5) == want && emptying
}

#[test]
fn each_policy_has_its_turns(rt: HostRuntime) -> Result<(), Fail> {
    let alloc = rt.alloc();
    let facts = [
        wrong_of_last(alloc)?.is_none(),
        scripted(alloc)? == 4,
        holds(alloc, Policy::Keep(Keep), 5),
        holds(alloc, Policy::Nothing(Nothing), 0),
        holds(alloc, Policy::Ages(Ages::make(2, 1)), 3),
        holds(alloc, Policy::Last(Last::make(alloc, 3)?), 3),
    ];
    none_wrong(first_false(&facts), "policies")
}
