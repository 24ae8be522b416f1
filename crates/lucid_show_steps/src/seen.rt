//! What a turn sees of a warehouse.
ghost use Rattle.std.specs.Prelude.{◌≡◌, ◌+◌, ◌-◌, ◌<◌, ◌≤◌, ◌++◌, ◌∷◌, [], None, Some, OnOk, IfOk, take, option_map, length, slice_get, not, is_some};
ghost use Rattle.std.specs.List.{filter};
ghost use Rattle.lucid_tags.specs.declared.Key.{Key};
ghost use Rattle.lucid_tags.specs.Keys.{same_key};
ghost use Rattle.lucid_store.specs.Entries.{count_of, held, value_at, IsTouched};
ghost use Rattle.lucid_store.specs.Touches.{to_end};
ghost use Rattle.lucid_retire.specs.Policies.{IsPolicyTurn, keeps_all, empties_all, most_held};
ghost use Rattle.lucid_retire.specs.Turns.{IsTurn};
ghost use Rattle.lucid_show_steps.specs.Events.{plain_touched};
ghost use Rattle.lucid_show_steps.specs.Turns.{HoldsSame, AreGone, TellsDropped, touched_in};

use crate::event::Touched;
use lucid_retire::{Policy, Retire};
use lucid_store::{Key, Warehouse};
use lucid_value::Value;
use std::alloc::{AllocError, Global};

// Whether a key is held. Where it is, it is touched by that.
fn is_held(warehouse: &mut Warehouse, key: Key) -> bool
    ensures held { result ≡ is_some (value_at warehouse.old key) }
    ensures touched { IsTouched warehouse.old warehouse.new key }
{
    match warehouse.get(key) {
        Some(_) => true,
        None => false,
    }
}

// A copy of the value under a key.
fn value_of(alloc: Global, warehouse: &mut Warehouse, key: Key) -> Result<Option<Value>, AllocError>
    ensures value { IfOk result (λ found. found ≡ value_at warehouse.old key) }
    ensures touched { IsTouched warehouse.old warehouse.new key }
{
    let Some(value) = warehouse.get(key) else {
        return Ok(None);
    };
    Ok(Some(value.copy(alloc)?))
}

/// The key last touched, with its value, where so many keys were held after the last turn. It is then forgotten.
pub(crate) fn touched_in(
    alloc: Global,
    warehouse: &mut Warehouse,
    count: u64,
) -> Result<Option<Touched>, AllocError>
    ensures touched { IfOk result (λ touched. option_map plain_touched touched ≡ touched_in count warehouse.old) }
    ensures same { HoldsSame warehouse.old warehouse.new }
{
    let added = count < warehouse.len();
    let Some(key) = warehouse.take_touched() else {
        return Ok(None);
    };
    let value = value_of(alloc, warehouse, key)?;
    let _ = warehouse.take_touched();
    match value {
        Some(value) => Ok(Some(Touched { key, value, added })),
        None => Ok(None),
    }
}

/// The policy has its turn. How many keys it drops.
pub(crate) fn drop_values(policy: &mut Policy, warehouse: &mut Warehouse) -> u64
    ensures turn { IsTurn (keeps_all policy.old) (empties_all policy.old) (most_held policy.old) warehouse.old warehouse.new }
    ensures turned { IsPolicyTurn policy.old policy.new warehouse.old warehouse.new }
    ensures count { result ≡ count_of warehouse.old - count_of warehouse.new }
{
    let before = warehouse.len();
    policy.turn(warehouse);
    before.saturating_sub(warehouse.len())
}

// How many of the first keys are held no longer, at most so many.
fn gone_front(keys: &[Key], warehouse: &mut Warehouse, count: u64) -> usize
    ensures within { result ≤ length keys.now }
    ensures few { result ≤ count }
    ensures gone { AreGone warehouse.new (take result keys.now) }
    ensures rest { result < count → (key : Key) → slice_get keys.now result ≡ Some key → held warehouse.new key ≡ None → ⊥ }
    ensures same { HoldsSame warehouse.old warehouse.new }
{
    for gone in 0..keys.len() {
        if gone as u64 == count {
            return gone;
        }
        if is_held(warehouse, keys[gone]) {
            return gone;
        }
    }
    keys.len()
}

/// Takes the first keys that are held no longer, at most so many.
pub(crate) fn take_gone(
    alloc: Global,
    keys: &mut Vec<Key>,
    warehouse: &mut Warehouse,
    count: u64,
) -> Result<Vec<Key>, AllocError>
    ensures told { IfOk result (λ dropped. TellsDropped count keys.old.items keys.new.items warehouse.new dropped.items (count - length dropped.items)) }
    ensures same { HoldsSame warehouse.old warehouse.new }
{
    if count == 0 {
        return Ok(Vec::new(alloc));
    }
    let gone = gone_front(keys, warehouse, count);
    let dropped = Vec::from_slice(alloc, &keys[..gone])?;
    *keys = Vec::from_slice(alloc, &keys[gone..])?;
    Ok(dropped)
}

// The keys but one.
fn others(alloc: Global, keys: &[Key], key: Key) -> Result<Vec<Key>, AllocError>
    ensures { IfOk result (λ others. others.items ≡ filter (λ q. not (same_key key q)) keys.now) }
{
    let mut others = Vec::new(alloc);
    for other in keys {
        if key != *other {
            others.push(*other)?;
        }
    }
    Ok(others)
}

/// Brings a key to the end.
pub(crate) fn bring(alloc: Global, keys: &mut Vec<Key>, key: Key) -> Result<(), AllocError>
    ensures { OnOk result (keys.new.items ≡ to_end key keys.old.items) }
{
    let mut others = others(alloc, keys, key)?;
    others.push(key)?;
    *keys = others;
    Ok(())
}
