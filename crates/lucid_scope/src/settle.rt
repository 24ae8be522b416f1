//! From the marks of a descent to the faults, the inputs and the bindings.
ghost use Rattle.std.specs.Prelude.{◌≡◌, ◌≢◌, ◌<◌, ◌^◌, ℕ, List, [], None, Some, IfOk, OnOk, All, MatchOption, map, fold, length, nat_eq};
ghost use Rattle.std.specs.Map.{lookup};
ghost use Rattle.lucid_scope.specs.Settled.{OwnerFits, Fits, mark_fault, owner_fault, owner_call_fault, IsFirstFault, with_mark, with_owner_input, owner_binding, mark_binding, ArePlacesDifferent};
ghost use Rattle.lucid_scope.specs.Keys.{key_bytes};

use crate::hashing::NameHashing;
use crate::marks::{Mark, What};
use crate::refusal::ScopeRefusal;
use crate::scoped::Binding;
use crate::table::Owner;
use indexmap::{IndexMap, IndexSet};
use lucid_value::Name;
use std::alloc::{AllocError, Global};

fn name_fault(at: u32, owner: Option<Owner>) -> Option<ScopeRefusal>
    ensures { result ≡ owner_fault at owner }
{
    match owner {
        Some(Owner::Function { .. }) => Some(ScopeRefusal::IsFunction { at }),
        _ => None,
    }
}

fn call_fault(at: u32, given: usize, owner: Option<Owner>) -> Option<ScopeRefusal>
    requires owner { OwnerFits owner }
    requires given { given < 2 ^ 32 }
    ensures { result ≡ owner_call_fault at given owner }
{
    match owner {
        None => Some(ScopeRefusal::NoFunction { at }),
        Some(Owner::Function { parameters, .. }) => {
            if parameters == given {
                return None;
            }
            let wanted = parameters as u32;
            let given = given as u32;
            Some(ScopeRefusal::Arity { at, wanted, given })
        }
        Some(_) => Some(ScopeRefusal::NotFunction { at }),
    }
}

fn fault_of(mark: &Mark) -> Option<ScopeRefusal>
    requires { Fits mark.now }
    ensures { result ≡ mark_fault mark.now }
{
    match &mark.what {
        What::Named { owner, .. } => name_fault(mark.at, *owner),
        What::Called { owner, given, .. } => call_fault(mark.at, *given, *owner),
        What::Again => Some(ScopeRefusal::Twice { at: mark.at }),
    }
}

/// The first fault of the marks.
pub(crate) fn first_fault(marks: &[Mark]) -> Option<ScopeRefusal>
    requires { All Fits marks.now }
    ensures { MatchOption result (All (λ m. mark_fault m ≡ None) marks.now) (λ fault. IsFirstFault marks.now fault) }
{
    for mark in marks {
        if let Some(fault) = fault_of(mark) {
            return Some(fault);
        }
    }
    None
}

// One name more among the inputs, unless it is there.
fn add_input(
    alloc: Global,
    names: &mut Vec<Name>,
    set: &mut IndexSet<Vec<u8>, NameHashing>,
    name: &Name,
) -> Result<(), AllocError>
    requires { map key_bytes set.old.keys ≡ names.old.items }
    ensures set { OnOk result (map key_bytes set.new.keys ≡ names.new.items) }
    ensures names { OnOk result (names.new.items ≡ with_owner_input names.old.items name.now None) }
{
    let key = Vec::from_slice(alloc, name.bytes())?;
    if set.insert(key)? {
        names.push(name.copy()?)?;
    }
    Ok(())
}

/// The names of the inputs, in order, and the number of each.
#[derive(Drop)]
pub(crate) struct Inputs {
    pub(crate) names: Vec<Name>,
    set: IndexSet<Vec<u8>, NameHashing>,
    ghost same: { map key_bytes set.keys ≡ names.items },
}

impl Inputs {
    /// The names.
    pub(crate) fn into_names(self) -> Vec<Name>
        ensures { result ≡ self.names }
    {
        let Inputs { names, set: _ } = self;
        names
    }
}

// The free names of the marks, in order, behind the names that are there, without repeats. It owns neither list.
fn add_inputs(
    alloc: Global,
    names: &mut Vec<Name>,
    set: &mut IndexSet<Vec<u8>, NameHashing>,
    marks: &[Mark],
) -> Result<(), AllocError>
    requires { map key_bytes set.old.keys ≡ names.old.items }
    ensures set { OnOk result (map key_bytes set.new.keys ≡ names.new.items) }
    ensures names { OnOk result (names.new.items ≡ fold with_mark names.old.items marks.now) }
{
    for mark in marks {
        match &mark.what {
            What::Named { name, owner: None } => add_input(alloc, names, set, name)?,
            What::Called {
                name,
                owner: None,
                ..
            } => add_input(alloc, names, set, name)?,
            _ => {}
        }
    }
    Ok(())
}

/// The free names of the marks, in order, without repeats.
pub(crate) fn inputs_of(
    alloc: Global,
    hashing: NameHashing,
    marks: &[Mark],
) -> Result<Inputs, AllocError>
    ensures { IfOk result (λ inputs. inputs.names.items ≡ fold with_mark [] marks.now) }
{
    let mut names = Vec::new(alloc);
    let mut set = IndexSet::with_hasher(alloc, hashing);
    add_inputs(alloc, &mut names, &mut set, marks)?;
    Ok(Inputs { names, set })
}

// The binding of a name with this owner. A free name is among the inputs.
fn owned(inputs: &Inputs, name: &Name, owner: Option<Owner>) -> Binding
    requires owner { OwnerFits owner }
    requires few { length inputs.now.names.items < 2 ^ 32 }
    ensures { result ≡ owner_binding inputs.now.names.items name.now owner }
{
    match owner {
        None => {
            let number = inputs
                .set
                .get_index_of(name.bytes())
                .unwrap_or(inputs.set.len());
            let stream = number as u32;
            Binding::Input { stream }
        }
        Some(Owner::Plain { def }) => Binding::Plain { def },
        Some(Owner::Parameter { def, index }) => {
            let index = index as u32;
            Binding::Parameter { def, index }
        }
        Some(Owner::Current { def }) => Binding::Current { def },
        Some(Owner::Function { def, .. }) => Binding::Function { def },
    }
}

fn binding_of(inputs: &Inputs, mark: &Mark) -> Option<Binding>
    requires fits { Fits mark.now }
    requires few { length inputs.now.names.items < 2 ^ 32 }
    ensures { result ≡ mark_binding inputs.now.names.items mark.now }
{
    match &mark.what {
        What::Named { name, owner } => Some(owned(inputs, name, *owner)),
        What::Called { name, owner, .. } => Some(owned(inputs, name, *owner)),
        What::Again => None,
    }
}

/// The binding of each mark, by its place.
pub(crate) fn bindings_of(
    alloc: Global,
    inputs: &Inputs,
    marks: &[Mark],
) -> Result<IndexMap<u32, Binding>, AllocError>
    requires fits { All Fits marks.now }
    requires few { length inputs.now.names.items < 2 ^ 32 }
    requires differ { ArePlacesDifferent marks.now }
    ensures bound { IfOk result (λ bindings. All (λ m. lookup (nat_eq m.at) bindings.entries ≡ mark_binding inputs.now.names.items m) marks.now) }
    ensures others { IfOk result (λ bindings. (at : ℕ) → All (λ m. m.at ≢ at) marks.now → lookup (nat_eq at) bindings.entries ≡ None) }
{
    let mut bindings = IndexMap::new(alloc);
    for mark in marks {
        match binding_of(inputs, mark) {
            Some(binding) => {
                bindings.insert(mark.at, binding)?;
            }
            None => {}
        }
    }
    Ok(bindings)
}
