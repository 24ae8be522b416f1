//! Slots in rising order.

ghost use Rattle.std.specs.Prelude.{◌≡◌, ℕ, ◌<◌, ◌≤◌, ◌+◌, ◌==◌, true, false, length, slice_index, if◌then◌else◌, vec_len, vec_capacity};
ghost use Rattle.lucid_tasks.specs.Slots.{is_listed, RiseFrom};

// How many of the slots are below one. Few are searched, so it stands apart.
#[inline(never)]
fn search_slot(slots: &[usize], slot: usize) -> usize
    requires { RiseFrom 0 slots.now }
    ensures bound { result ≤ length slots.now }
    ensures below { (k : ℕ) → k < result → slice_index slots.now k < slot }
    ensures from { (k : ℕ) → result ≤ k → k < length slots.now → slot ≤ slice_index slots.now k }
{
    match slots.binary_search(&slot) {
        Ok(place) => place,
        Err(place) => place,
    }
}

// The same. The end is tried first: nearly always the newest task is worked on.
#[inline(always)]
fn place_of(slots: &[usize], slot: usize) -> usize
    requires { RiseFrom 0 slots.now }
    ensures bound { result ≤ length slots.now }
    ensures below { (k : ℕ) → k < result → slice_index slots.now k < slot }
    ensures from { (k : ℕ) → result ≤ k → k < length slots.now → slot ≤ slice_index slots.now k }
{
    match slots.last() {
        None => 0,
        Some(last) if *last < slot => slots.len(),
        Some(last) if *last == slot => slots.len() - 1,
        Some(_) => search_slot(slots, slot),
    }
}

// Takes a slot out, wherever it stands. Few stand before others, so it stands apart.
#[inline(never)]
fn remove_inside(slots: &mut Vec<usize>, slot: usize)
    requires rising { RiseFrom 0 slots.old.items }
    requires listed { is_listed slots.old.items slot ≡ true }
    requires room { vec_len slots.old ≤ vec_capacity slots.old }
    ensures rising { RiseFrom 0 slots.new.items }
    ensures listed { (q : ℕ) → is_listed slots.new.items q ≡ (if q == slot then false else is_listed slots.old.items q) }
    ensures room { vec_len slots.new + 1 ≤ vec_capacity slots.new }
    ensures capacity { vec_capacity slots.new ≡ vec_capacity slots.old }
    ensures len { vec_len slots.new + 1 ≡ vec_len slots.old }
{
    let place = place_of(slots, slot);
    slots.remove(place);
}

// Takes a slot out.
#[inline(always)]
pub(crate) fn remove_slot(slots: &mut Vec<usize>, slot: usize)
    requires rising { RiseFrom 0 slots.old.items }
    requires listed { is_listed slots.old.items slot ≡ true }
    requires room { vec_len slots.old ≤ vec_capacity slots.old }
    ensures rising { RiseFrom 0 slots.new.items }
    ensures listed { (q : ℕ) → is_listed slots.new.items q ≡ (if q == slot then false else is_listed slots.old.items q) }
    ensures room { vec_len slots.new + 1 ≤ vec_capacity slots.new }
    ensures capacity { vec_capacity slots.new ≡ vec_capacity slots.old }
    ensures len { vec_len slots.new + 1 ≡ vec_len slots.old }
{
    match slots.last() {
        Some(last) if *last == slot => {
            slots.take_last();
        }
        _ => remove_inside(slots, slot),
    }
}

// Puts a slot at its place, wherever that is. Few are before others, so it stands apart.
#[inline(never)]
fn insert_inside(slots: &mut Vec<usize>, slot: usize)
    requires rising { RiseFrom 0 slots.old.items }
    requires absent { is_listed slots.old.items slot ≡ false }
    requires room { vec_len slots.old + 1 ≤ vec_capacity slots.old }
    ensures rising { RiseFrom 0 slots.new.items }
    ensures listed { (q : ℕ) → is_listed slots.new.items q ≡ (if q == slot then true else is_listed slots.old.items q) }
    ensures room { vec_len slots.new ≤ vec_capacity slots.new }
{
    let place = place_of(slots, slot);
    if slots.insert(place, slot).is_err() {
        unreachable!();
    }
}

// Puts a slot at its place.
#[inline(always)]
pub(crate) fn insert_slot(slots: &mut Vec<usize>, slot: usize)
    requires rising { RiseFrom 0 slots.old.items }
    requires absent { is_listed slots.old.items slot ≡ false }
    requires room { vec_len slots.old + 1 ≤ vec_capacity slots.old }
    ensures rising { RiseFrom 0 slots.new.items }
    ensures listed { (q : ℕ) → is_listed slots.new.items q ≡ (if q == slot then true else is_listed slots.old.items q) }
    ensures room { vec_len slots.new ≤ vec_capacity slots.new }
{
    match slots.last() {
        None => slots.push_reserved(slot),
        Some(last) if *last < slot => slots.push_reserved(slot),
        Some(_) => insert_inside(slots, slot),
    }
}
