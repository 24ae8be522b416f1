//! The numbers of names, functions and call places. The walk over a tree notes the keys of all rows in the order in which it makes the
//! rows, and a row's number is its key's index.
ghost use Rattle.std.specs.Prelude.{◌≡◌, ◌<◌, ◌^◌, ℕ, ◌++◌, map, nat_eq, IfOk, OnOk};
ghost use Rattle.std.specs.Map.{lookup};
ghost use Rattle.lucid_tree.specs.Members.{In, AllDiffer};
ghost use Rattle.lucid_compile.specs.Numbered.{name_mark, function_mark, call_number, key_at, AreMarked};
ghost use Rattle.lucid_compile.specs.Keys.{plain_key, no_keys, key_lists, IsNumberingOf};

use indexmap::IndexMap;
use std::alloc::{AllocError, Global};

/// By what a row is found: a place, the number of a function's first parameter, and the level of the scope from its entry on.
#[derive(Clone, Copy)]
pub(crate) struct Key {
    pub(crate) at: u32,
    pub(crate) first: u32,
    pub(crate) level: u32,
}

/// A row's number, with what its key says.
#[derive(Clone, Copy)]
pub(crate) struct Mark {
    pub(crate) number: u32,
    pub(crate) first: u32,
    pub(crate) level: u32,
}

/// The keys of all rows: of names but for calls, of calls, of call places by their first actuals, and of functions.
#[derive(Drop)]
pub(crate) struct Keys {
    pub(crate) names: Vec<Key>,
    pub(crate) calls: Vec<Key>,
    pub(crate) places: Vec<Key>,
    pub(crate) functions: Vec<Key>,
}

/// The numbers of names by the places of their definitions, parameters and calls; of functions by the places of their definitions;
/// and of call places by those of their first actuals.
#[derive(Drop)]
pub(crate) struct Numbering {
    names: IndexMap<u32, Mark>,
    functions: IndexMap<u32, Mark>,
    places: IndexMap<u32, Mark>,
}

const NONE: Mark = Mark {
    number: 0,
    first: 0,
    level: 0,
};

/// A count as a number of a row. There is no room for more rows.
pub(crate) fn number(count: usize) -> Result<u32, AllocError>
    ensures { IfOk result (λ n. n ≡ count) }
{
    if count < 0xffff_ffff {
        Ok(count as u32)
    } else {
        Err(AllocError)
    }
}

/// The key of what stands at a place and is no function.
pub(crate) fn plain_key(at: u32, level: u32) -> Key
    ensures { result ≡ plain_key at level }
{
    let first = 0;
    Key { at, first, level }
}

// The keys' numbers, counted from a start.
fn mark_all(marks: &mut IndexMap<u32, Mark>, start: usize, keys: &[Key]) -> Result<(), AllocError>
    requires few { start < 2 ^ 62 }
    requires differ { AllDiffer (map key_at keys.now) }
    ensures marked { OnOk result (AreMarked (λ at. lookup (nat_eq at) marks.new.entries) start keys.now) }
    ensures others { OnOk result ((at : ℕ) → (In at (map key_at keys.now) → ⊥) → lookup (nat_eq at) marks.new.entries ≡ lookup (nat_eq at) marks.old.entries) }
{
    let mut next = start;
    for key in keys {
        let Key { at, first, level } = *key;
        let number = number(next)?;
        let mark = Mark {
            number,
            first,
            level,
        };
        marks.insert(at, mark)?;
        next += 1;
    }
    Ok(())
}

impl Numbering {
    /// No numbers.
    pub(crate) fn make(alloc: Global) -> Numbering {
        Numbering {
            names: IndexMap::new(alloc),
            functions: IndexMap::new(alloc),
            places: IndexMap::new(alloc),
        }
    }

    /// The numbers of all rows. The rows of calls come after those of all other names.
    pub(crate) fn number_all(&mut self, keys: &Keys) -> Result<(), AllocError>
        requires names { AllDiffer (map key_at ((key_lists keys.now).names ++ (key_lists keys.now).calls)) }
        requires places { AllDiffer (map key_at (key_lists keys.now).places) }
        requires functions { AllDiffer (map key_at (key_lists keys.now).functions) }
        ensures { OnOk result (IsNumberingOf (key_lists keys.now) self.new) }
    {
        mark_all(&mut self.names, 0, &keys.names)?;
        mark_all(&mut self.names, keys.names.len(), &keys.calls)?;
        mark_all(&mut self.functions, 0, &keys.functions)?;
        mark_all(&mut self.places, 0, &keys.places)?;
        Ok(())
    }

    /// The name at a place, and no number where none is.
    pub(crate) fn name(&self, at: u32) -> Mark
        ensures { result ≡ name_mark self.now at }
    {
        self.names.get(&at).copied().unwrap_or(NONE)
    }

    /// The function at a place.
    pub(crate) fn function(&self, at: u32) -> Mark
        ensures { result ≡ function_mark self.now at }
    {
        self.functions.get(&at).copied().unwrap_or(NONE)
    }

    /// The number of the call place whose first actual is at a place.
    pub(crate) fn place(&self, first: u32) -> u32
        ensures { result ≡ call_number self.now first }
    {
        self.places.get(&first).copied().unwrap_or(NONE).number
    }
}

impl Keys {
    /// No keys.
    pub(crate) fn make(alloc: Global) -> Keys
        ensures { key_lists result ≡ no_keys }
    {
        Keys {
            names: Vec::new(alloc),
            calls: Vec::new(alloc),
            places: Vec::new(alloc),
            functions: Vec::new(alloc),
        }
    }
}
