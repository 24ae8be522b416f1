//! The warehouse, a map in which a look-up counts as a touch.

ghost use Rattle.std.specs.Prelude.{◌≡◌, ◌≢◌, ℕ, ◌+◌, ◌-◌, ◌^◌, ◌<◌, ◌≤◌, ◌⊎◌, ◌∷◌, [], Some, None, true, false, IsTrue, OnOk, OnErr, IfErr, IfSome, IfNone, option_map, if◌then◌else◌, is_some, not, length, option_copied, option_and_then};
ghost use Rattle.std.specs.Borrow.{sem};
ghost use Rattle.std.specs.Map.{lookup, keys_of};
ghost use Rattle.lucid_tags.specs.declared.Key.{Key};
ghost use Rattle.lucid_tags.specs.Keys.{same_key};
ghost use Rattle.lucid_store.specs.Entries.{entry_at, value_at, count_of, fresh, touched_if, one_more_lost, cleared, empty_warehouse, order_touched, IsHeld, IsOneForEach, TouchedIsHeld, IsOrderOfHeld, SetsOnly, IsTouched, IsSwept, DropsOldest, swept};
ghost use Rattle.lucid_store.specs.Touches.{IsOrderOf, keys_at, last_item, touched_at, up_to};
ghost use Rattle.lucid_store.specs.Ordered.{placed, HasRoom, MayTouch, IsFirstPlace, IsOrderOfEntries};
ghost use Rattle.lucid_store.specs.Beside.{value_in, Sets};
ghost use Rattle.lucid_store.specs.Lending.{EndsTouched};

use crate::Key;
use crate::datons::Datons;
use crate::order::Order;
use lucid_value::Value;
use std::alloc::Global;
use std::marker::Model;

/// Values by their keys, each with its age: the number of sweeps since it was last touched, up to the greatest u32. It is
/// seen as a finite map from keys to a value and an age, with the number of values that were lost and the key last touched.
/// That key, where there is one, is held. On demand it keeps the held keys in the order of their last touches too.
///
/// Once memory was refused, it asks for none until a key was removed: each asking for more of a large store costs much.
pub struct Warehouse {
    datons: Datons,
    lost: u64,
    touched: Option<Key>,
    // Whether memory was refused since a key was last removed.
    full: bool,
    // The places of the entries in the order of their last touches, where that is known.
    order: Option<Order>,
}

// Not derived: a derived one is proved again wherever one is dropped.
impl Drop for Warehouse {
    fn drop(self) {
        let Warehouse {
            datons,
            lost,
            touched,
            full,
            order,
        } = self;
    }
}

impl Model for Warehouse {
    ghost use Rattle.lucid_store.specs.Stored.{Stored};
    ghost use Rattle.lucid_store.specs.StoredCode.{stored_code};

    ghost Value = { Stored };

    ghost coded = { stored_code };

    ghost use Rattle.std.specs.Prelude.{IfSome};
    ghost use Rattle.lucid_store.specs.Ordered.{seen, IsEntryHeld, IsOrderOfEntries};

    ghost view = { λ w. seen w.datons w.lost w.touched w.order };

    ghost invariant = { λ w. IfSome w.touched (IsEntryHeld w.datons) × IfSome w.order (IsOrderOfEntries w.datons) };
}

// A place is touched: one of those that are there, or the next one, where there is room for it.
#[inline(always)]
fn touch_in(order: &mut Option<Order>, place: usize)
    requires { IfSome order.old (MayTouch place) }
    ensures touched { order.new ≡ option_map (touched_at place) order.old }
    ensures order { IfSome order.new (λ o. IsOrderOf o.count o.places) }
{
    if let Some(order) = order {
        order.touch(place);
    }
}

// Makes room for one place more, and says whether there is some.
#[inline(always)]
fn has_room(order: &mut Option<Order>) -> bool
    ensures same { option_map placed order.new ≡ option_map placed order.old }
    ensures room { IsTrue result → IfSome order.new HasRoom }
{
    match order {
        Some(order) => order.reserve().is_ok(),
        None => true,
    }
}

// Whether a value may be held under a key: the key has one, or no memory was refused and there is room for its place in the order.
#[inline(always)]
fn may_hold(order: &mut Option<Order>, full: bool, datons: &Datons, key: Key) -> bool
    ensures same { option_map placed order.new ≡ option_map placed order.old }
    ensures may { IsTrue result → (is_some (lookup (same_key key) datons.now) ≡ true) ⊎ IfSome order.new HasRoom }
    ensures absent { result ≡ false → lookup (same_key key) datons.now ≡ None }
{
    if !full && has_room(order) {
        return true;
    }
    datons.has(key)
}

// The key, unless it is the other one.
fn without(touched: Option<Key>, other: Key) -> Option<Key>
    ensures { result ≡ touched_if (λ q. not (same_key other q)) touched }
{
    let key = touched?;
    if other == key { None } else { Some(key) }
}

// The key, if it is held.
fn held_only(touched: Option<Key>, datons: &Datons) -> Option<Key>
    ensures { result ≡ touched_if (λ q. is_some (lookup (same_key q) datons.now)) touched }
{
    let key = touched?;
    if datons.has(key) { Some(key) } else { None }
}

// The order of so many places, if there is memory for it.
fn order_over(alloc: Global, count: usize) -> Option<Order>
    ensures { IfSome result (λ order. (order.places ≡ up_to count) × (order.count ≡ count) × IsOrderOf order.count order.places) }
{
    match Order::over(alloc, count) {
        Ok(order) => Some(order),
        Err(_) => None,
    }
}

// The place that was touched first, if the order is known and the last place is the latest.
fn first_of(order: &Option<Order>) -> Option<usize>
    ensures first { IfSome result (λ place. IfSome order.now (IsFirstPlace place)) }
    ensures none { IfNone result (IfSome order.now (λ o. 0 < o.count → last_item o.places ≢ Some (o.count - 1))) }
{
    match order {
        Some(order) => order.first(),
        None => None,
    }
}

// Removes the entry at the place that was touched first, where the last place is the latest, and gives its key.
fn remove_first(datons: &mut Datons, order: &mut Order, place: usize) -> Key
    requires order { IsOrderOfEntries datons.old order.old }
    requires first { IsFirstPlace place order.old }
    ensures entries { Sets datons.old datons.new result None }
    ensures count { length datons.new + 1 ≡ length datons.old }
    ensures order { IsOrderOfEntries datons.new order.new }
    ensures keys { keys_at (keys_of datons.old) order.old.places ≡ result ∷ keys_at (keys_of datons.new) order.new.places }
{
    let key = datons.remove(place);
    order.remove_first(place);
    key
}

impl Warehouse {
    /// An empty warehouse. It takes no memory.
    pub fn make(alloc: Global) -> Warehouse
        ensures { result ≡ empty_warehouse }
    {
        Warehouse {
            datons: Datons::make(alloc),
            lost: 0,
            touched: None,
            full: false,
            order: None,
        }
    }

    // The value at a place.
    fn value(&self, index: usize) -> Option<&Value>
        ensures { option_copied result ≡ value_in self.now.entries index }
    {
        self.datons.value(index)
    }

    // Touches a key, if it is held, and gives its place.
    #[inline(always)]
    fn touch(&mut self, key: Key) -> Option<usize>
        ensures after { IsTouched self.old self.new key }
        ensures value { option_and_then (value_in self.new.entries) result ≡ value_at self.old key }
    {
        let index = self.datons.renew(key)?;
        self.touched = Some(key);
        touch_in(&mut self.order, index);
        Some(index)
    }

    /// The value of a key, which is then the key last touched, with age 0. It takes no memory.
    // Inlined with all that it calls, as a demand looks here at each reference: one of them alone would only make the next one a function of its own.
    #[inline(always)]
    pub fn get(&mut self, key: Key) -> Option<&Value>
        ensures* after { sem 𝓛 (EndsTouched self.entry key) }
        ensures value { option_copied result ≡ value_at self.old key }
    {
        let index = self.touch(key)?;
        self.value(index)
    }

    // Holds a value under a key, with age 0. It comes back for want of memory, and where memory was refused before and the key
    // isn't held.
    fn hold(&mut self, key: Key, value: Value) -> Result<(), Value>
        ensures entries { OnOk result (SetsOnly self.old self.new key (Some (fresh value))) }
        ensures count { OnOk result (count_of self.new ≡ count_of self.old + (if is_some (entry_at self.old key) then 0 else 1)) }
        ensures touched { OnOk result (self.new.touched ≡ Some key) }
        ensures order { OnOk result (self.new.order ≡ order_touched key self.old.order) }
        ensures lost { self.new.lost ≡ self.old.lost }
        ensures value_returned { IfErr result (λ v. v ≡ value) }
        ensures err { OnErr result (self.new ≡ self.old) }
        ensures absent { OnErr result (entry_at self.old key ≡ None) }
    {
        if !may_hold(&mut self.order, self.full, &self.datons, key) {
            return Err(value);
        }
        let index = self.datons.put(key, value)?;
        self.touched = Some(key);
        touch_in(&mut self.order, index);
        Ok(())
    }

    /// Holds a value under a key, with age 0, in place of the value that the key had. It is then the key last touched. For
    /// want of memory the value comes back and is counted as lost; a key that is held takes no memory.
    pub fn put(&mut self, key: Key, value: Value) -> Result<(), Value>
        ensures entries { OnOk result (SetsOnly self.old self.new key (Some (fresh value))) }
        ensures touched { OnOk result (self.new.touched ≡ Some key) }
        ensures kept_lost { OnOk result (self.new.lost ≡ self.old.lost) }
        ensures count { OnOk result (count_of self.new ≡ count_of self.old + (if is_some (entry_at self.old key) then 0 else 1)) }
        ensures order { OnOk result (self.new.order ≡ order_touched key self.old.order) }
        ensures value_returned { IfErr result (λ v. v ≡ value) }
        ensures lost { OnErr result (self.new ≡ one_more_lost self.old) }
        ensures no_less_lost { self.old.lost ≤ self.new.lost }
        ensures absent { OnErr result (entry_at self.old key ≡ None) }
    {
        let held = self.hold(key, value);
        if held.is_err() {
            self.full = true;
            self.lost = self.lost.saturating_add(1);
        }
        held
    }

    /// The key last touched, which is then forgotten.
    pub fn take_touched(&mut self) -> Option<Key>
        ensures key { result ≡ self.old.touched }
        ensures held { IfSome result (IsHeld self.old) }
        ensures forgotten { self.new ≡ record self.old { touched = None } }
    {
        self.touched.take()
    }

    /// Every age rises by one, up to the greatest u32; then exactly the keys with an age over the limit are removed. The order isn't
    /// kept any longer.
    // It comes seldom, and would make each turn of a policy longer.
    #[inline(never)]
    pub fn sweep(&mut self, limit: u32)
        ensures { IsSwept limit self.old self.new }
    {
        let held = self.datons.len();
        self.order = None;
        self.datons.sweep(limit);
        self.full &= self.datons.len() == held;
        self.touched = held_only(self.touched, &self.datons);
    }

    /// Whether the order is kept.
    #[inline(always)]
    pub fn has_order(&self) -> bool
        ensures { result ≡ is_some self.now.order }
    {
        self.order.is_some()
    }

    /// Keeps the order from now on, as the keys stand, unless there is no memory for that.
    #[inline(never)]
    pub fn keep_order(&mut self, alloc: Global)
        ensures { (self.new ≡ record self.old { order = Some (keys_of self.old.entries) }) ⊎ (self.new ≡ record self.old { order = None }) }
    {
        self.order = order_over(alloc, self.datons.len());
    }

    /// Where the order is kept, and the key put last is the one touched last, removes the key that was touched first. Else removes all,
    /// and keeps the order no longer.
    #[inline(never)]
    pub fn drop_oldest(&mut self)
        ensures { DropsOldest self.old self.new }
    {
        // (The keys differ, so no two places have the same.)
        let _held = self.datons.len();
        let Some(place) = first_of(&self.order) else {
            self.clear();
            return;
        };
        let Some(order) = &mut self.order else {
            self.clear();
            return;
        };
        let key = remove_first(&mut self.datons, order, place);
        self.touched = without(self.touched, key);
        self.full = false;
    }

    /// Removes a key and its value, and says whether it was held. The order isn't kept any longer.
    pub fn remove(&mut self, key: Key) -> bool
        ensures was { result ≡ is_some (entry_at self.old key) }
        ensures entries { SetsOnly self.old self.new key None }
        ensures touched { self.new.touched ≡ touched_if (λ q. not (same_key key q)) self.old.touched }
        ensures lost { self.new.lost ≡ self.old.lost }
        ensures count { count_of self.new + (if result then 1 else 0) ≡ count_of self.old }
        ensures order { self.new.order ≡ None }
    {
        self.order = None;
        self.touched = without(self.touched, key);
        let was = self.datons.forget(key);
        self.full &= !was;
        was
    }

    /// Removes all, and keeps the order no longer. How many values were lost stays.
    #[inline(never)]
    pub fn clear(&mut self)
        ensures { self.new ≡ cleared self.old }
    {
        self.touched = None;
        self.full = false;
        self.order = None;
        self.datons.clear();
    }

    /// How many keys are held.
    #[inline(always)]
    pub fn len(&self) -> u64
        ensures count { result ≡ count_of self.now }
        ensures one_for_each { IsOneForEach self.now }
        ensures touched { TouchedIsHeld self.now }
        ensures order { IfSome self.now.order (IsOrderOfHeld self.now) }
    {
        let _touched = &self.touched;
        self.datons.len() as u64
    }

    /// How many values were lost for want of memory, up to the greatest u64.
    pub fn lost(&self) -> u64
        ensures { result ≡ self.now.lost }
    {
        self.lost
    }
}
