//! Values by their keys, with their ages beside them.

ghost use Rattle.std.specs.Prelude.{◌≡◌, ℕ, ◌+◌, ◌++◌, ◌∷◌, ◌≤◌, ◌<◌, [], Some, None, OnOk, OnErr, IfOk, IfErr, IfNone, if◌then◌else◌, is_some, length, option_map, option_and_then, option_copied};
ghost use Rattle.std.specs.List.{AllWithin, position_or_len, swap_remove};
ghost use Rattle.std.specs.Map.{lookup, keys_of};
ghost use Rattle.std.specs.List.{IsDistinct};
ghost use Rattle.lucid_tags.specs.declared.Key.{Key};
ghost use Rattle.lucid_tags.specs.Keys.{same_key};
ghost use Rattle.lucid_store.specs.Beside.{ages_of, value_in, place_of, Sets};
ghost use Rattle.lucid_store.specs.Entries.{fresh, renewed, older, swept, within};

use crate::Key;
use crate::ages::Ages;
use indexmap::IndexMap;
use lucid_tags::KeyHasher;
use lucid_value::Value;
use std::alloc::Global;
use std::hash::BuildHasherDefault;
use std::marker::Model;

/// Values by their keys, and their ages. It is seen as the list of the entries, each a key with its value and its age.
///
/// The ages stand in a list of their own, so that a look-up writes none where it is 0 already.
#[derive(Drop)]
pub(crate) struct Datons {
    values: IndexMap<Key, Value, BuildHasherDefault<KeyHasher>>,
    // The age of each value, at its place.
    ages: Ages,
}

impl Model for Datons {
    ghost use Rattle.std.specs.Prelude.{◌≡◌, List, length};
    ghost use Rattle.std.specs.List.{IsDistinct};
    ghost use Rattle.std.specs.Map.{keys_of};
    ghost use Rattle.lucid_tags.specs.Keys.{same_key};
    ghost use Rattle.lucid_tags.specs.declared.Key.{Key};
    ghost use Rattle.lucid_store.specs.Stored.{Entry};
    ghost use Rattle.lucid_store.specs.StoredCode.{entries_code};
    ghost use Rattle.lucid_store.specs.Beside.{beside};

    ghost Value = { List (Key × Entry) };

    ghost coded = { entries_code };

    ghost view = { λ d. beside d.values.entries d.ages };

    ghost invariant = { λ d. (length d.ages ≡ length d.values.entries) × IsDistinct same_key (keys_of d.values.entries) };
}

impl Datons {
    /// No entries. It takes no memory.
    pub(crate) fn make(alloc: Global) -> Datons
        ensures { result ≡ [] }
    {
        Datons {
            values: IndexMap::with_hasher(alloc, BuildHasherDefault::new()),
            ages: Ages::make(alloc),
        }
    }

    /// How many entries there are. Their keys differ.
    pub(crate) fn len(&self) -> usize
        ensures count { result ≡ length self.now }
        ensures one_for_each { IsDistinct same_key (keys_of self.now) }
    {
        self.values.len()
    }

    /// Whether a key has an entry.
    pub(crate) fn has(&self, key: Key) -> bool
        ensures { result ≡ is_some (lookup (same_key key) self.now) }
    {
        self.values.contains_key(&key)
    }

    // The place of a key.
    fn place(&self, key: Key) -> Option<usize>
        ensures place { result ≡ place_of self.now key }
    {
        self.values.get_index_of(&key)
    }

    /// The value at a place.
    pub(crate) fn value(&self, index: usize) -> Option<&Value>
        ensures { option_copied result ≡ value_in self.now index }
    {
        let (_, value) = self.values.get_index(index)?;
        Some(value)
    }

    /// The place of a key, whose age becomes 0.
    #[inline(always)]
    pub(crate) fn renew(&mut self, key: Key) -> Option<usize>
        ensures entries { Sets self.old self.new key (option_map renewed (lookup (same_key key) self.old)) }
        ensures count { length self.new ≡ length self.old }
        ensures found { is_some result ≡ is_some (lookup (same_key key) self.old) }
        ensures kept { IfNone result (self.new ≡ self.old) }
        ensures value { option_and_then (value_in self.new) result ≡ option_map (λ e. e.value) (lookup (same_key key) self.old) }
        ensures place { result ≡ place_of self.old key }
        ensures keys { keys_of self.new ≡ keys_of self.old }
        ensures one_for_each { IsDistinct same_key (keys_of self.old) }
    {
        let index = self.values.get_index_of(&key)?;
        self.ages.reset(index);
        Some(index)
    }

    /// Holds a value under a key, with age 0, and gives the key's place: its own, or the one behind the others. For want of memory
    /// the value comes back and the entries stay; a key that has an entry takes no memory.
    pub(crate) fn put(&mut self, key: Key, value: Value) -> Result<usize, Value>
        ensures entries { OnOk result (Sets self.old self.new key (Some (fresh value))) }
        ensures count { OnOk result (length self.new ≡ length self.old + (if is_some (lookup (same_key key) self.old) then 0 else 1)) }
        ensures value_returned { IfErr result (λ v. v ≡ value) }
        ensures err { OnErr result (self.new ≡ self.old) }
        ensures absent { OnErr result (lookup (same_key key) self.old ≡ None) }
        ensures place { IfOk result (λ index. index ≡ position_or_len (same_key key) (keys_of self.old)) }
        ensures keys { OnOk result (keys_of self.new ≡ (if is_some (lookup (same_key key) self.old) then keys_of self.old else keys_of self.old ++ key ∷ [])) }
        ensures one_for_each { IsDistinct same_key (keys_of self.old) }
    {
        match self.values.insert_full(key, value) {
            Ok((index, Some(_))) => {
                self.ages.reset(index);
                Ok(index)
            }
            Ok((index, None)) => match self.ages.add() {
                Ok(()) => Ok(index),
                // A value without room for its age goes again.
                Err(_) => {
                    let (_, value) = self.values.pop().unwrap();
                    Err(value)
                }
            },
            Err(refused) => Err(refused.value.1),
        }
    }

    /// Removes the entry at a place, and gives its key. The last entry takes its place.
    pub(crate) fn remove(&mut self, index: usize) -> Key
        requires { index < length self.old }
        ensures place { place_of self.old result ≡ Some index }
        ensures entries { Sets self.old self.new result None }
        ensures count { length self.new + 1 ≡ length self.old }
        ensures keys { keys_of self.new ≡ swap_remove (keys_of self.old) index result }
        ensures one_for_each { IsDistinct same_key (keys_of self.old) }
        ensures later { (most : ℕ) → AllWithin (λ age. age ≤ most) (ages_of self.old) (index + 1) (length self.old) → AllWithin (λ age. age ≤ most) (ages_of self.new) index (length self.new) }
    {
        let (key, _) = self.values.swap_remove_index(index).unwrap();
        self.ages.swap_remove(index);
        key
    }

    /// Removes a key and its entry, and says whether it had one.
    pub(crate) fn forget(&mut self, key: Key) -> bool
        ensures was { result ≡ is_some (lookup (same_key key) self.old) }
        ensures entries { Sets self.old self.new key None }
        ensures count { length self.new + (if result then 1 else 0) ≡ length self.old }
    {
        let Some(index) = self.place(key) else {
            return false;
        };
        self.remove(index);
        true
    }

    // Removes the entries with an age over the limit.
    fn remove_over(&mut self, limit: u32)
        ensures each { (q : Key) → lookup (same_key q) self.new ≡ option_and_then (within limit) (lookup (same_key q) self.old) }
        ensures count { length self.new ≤ length self.old }
    {
        // From the end, so that the entry that takes a removed one's place was looked at before.
        let mut end = self.len();
        while let Some(index) = self.ages.last_over(end, limit) {
            self.remove(index);
            end = index;
        }
    }

    /// Every age rises by one, up to the greatest u32; then exactly the entries with an age over the limit are removed.
    pub(crate) fn sweep(&mut self, limit: u32)
        ensures each { (q : Key) → lookup (same_key q) self.new ≡ option_and_then (swept limit) (lookup (same_key q) self.old) }
        ensures count { length self.new ≤ length self.old }
    {
        self.ages.raise();
        self.remove_over(limit);
    }

    /// Removes all.
    pub(crate) fn clear(&mut self)
        ensures { self.new ≡ [] }
    {
        // A map clears all its memory, however few its entries.
        if !self.values.is_empty() {
            self.values.clear();
            self.ages.clear();
        }
    }
}
