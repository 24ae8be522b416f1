//! The names of a tree are resolved.
ghost use Rattle.std.specs.Prelude.{◌≡◌, ◌⊎◌, IfOk, IfErr, OnOk, nat_eq};
ghost use Rattle.std.specs.Map.{lookup};
ghost use Rattle.lucid_tree.specs.WellMade.{IsWellMade};
ghost use Rattle.lucid_scope.specs.Bindings.{HasNoFault, IsLeastFault, IsResolved};
ghost use Rattle.lucid_scope.specs.Scoped.{scoped_tree};

use crate::hashing::NameHashing;
use crate::refusal::ScopeRefusal;
use crate::scoped::{Binding, Scoped};
use crate::settle::{bindings_of, first_fault, inputs_of};
use crate::steps::walk_tree;
use crate::walk::Walk;
use indexmap::IndexMap;
use lucid_tree::Tree;
use lucid_value::Name;
use std::alloc::Global;

// What the names of a tree belong to: its inputs, and the binding of each place.
struct Found {
    inputs: Vec<Name>,
    bindings: IndexMap<u32, Binding>,
}

fn find(alloc: Global, tree: &Tree) -> Result<Found, ScopeRefusal>
    requires { IsWellMade tree.now }
    ensures resolved { IfOk result (λ found. ∥ IsResolved tree.now found.inputs.items (λ at. lookup (nat_eq at) found.bindings.entries) ∥₁) }
    ensures no_fault { OnOk result (HasNoFault tree.now) }
    ensures fault { IfErr result (λ refusal. (refusal ≡ ScopeRefusal.NoMemory) ⊎ IsLeastFault tree.now refusal) }
{
    let hashing = NameHashing::of_tree(alloc, tree)?;
    let mut walk = Walk::make(alloc, hashing);
    walk_tree(alloc, &mut walk, tree)?;
    let mut marks = walk.into_marks();
    marks.sort_by_key(|mark| mark.at)?;
    match first_fault(&marks) {
        Some(fault) => return Err(fault),
        None => {}
    }
    let inputs = inputs_of(alloc, hashing, &marks)?;
    let bindings = bindings_of(alloc, &inputs, &marks)?;
    Ok(Found {
        inputs: inputs.into_names(),
        bindings,
    })
}

/// Finds what each name of the tree belongs to, or the fault at the least place. What it gives has a copy of the tree.
pub fn resolve(alloc: Global, tree: &Tree) -> Result<Scoped, ScopeRefusal>
    requires { IsWellMade tree.now }
    ensures tree { IfOk result (λ scoped. scoped_tree scoped ≡ tree.now) }
    ensures no_fault { OnOk result (HasNoFault tree.now) }
    ensures fault { IfErr result (λ refusal. (refusal ≡ ScopeRefusal.NoMemory) ⊎ IsLeastFault tree.now refusal) }
{
    let Found { inputs, bindings } = find(alloc, tree)?;
    let tree = tree.copy(alloc)?;
    Ok(Scoped {
        tree,
        inputs,
        bindings,
    })
}

/// The same of a tree that is given up: what it gives has that tree, and no copy is made.
pub fn resolve_owned(alloc: Global, tree: Tree) -> Result<Scoped, ScopeRefusal>
    requires { IsWellMade tree }
    ensures tree { IfOk result (λ scoped. scoped_tree scoped ≡ tree) }
    ensures no_fault { OnOk result (HasNoFault tree) }
    ensures fault { IfErr result (λ refusal. (refusal ≡ ScopeRefusal.NoMemory) ⊎ IsLeastFault tree refusal) }
{
    let Found { inputs, bindings } = find(alloc, &tree)?;
    Ok(Scoped {
        tree,
        inputs,
        bindings,
    })
}
