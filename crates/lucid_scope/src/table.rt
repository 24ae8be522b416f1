//! The table of names in scope: what each name belongs to, whatever the number and the nesting of the scopes.
ghost use Rattle.std.specs.Prelude.{◌≡◌, ℕ, List, None, Some, IfOk, OnOk};
ghost use Rattle.lucid_tree.specs.Env.{definition, param};
ghost use Rattle.lucid_tree.specs.DefsView.{one_def};
ghost use Rattle.lucid_tree.specs.Tree.{no_defs};
ghost use Rattle.lucid_scope.specs.Owners.{look, with_owner, put_back, or_outer, definition_owner, parameter_owner};

use crate::hashing::NameHashing;
use indexmap::IndexMap;
use lucid_tree::{Def, DefKind, Defs, Names};
use lucid_value::Name;
use std::alloc::{AllocError, Global};

/// What a name belongs to, by the place of the definition. A function has its number of parameters.
#[derive(Clone, Copy)]
pub(crate) enum Owner {
    Plain { def: u32 },
    Parameter { def: u32, index: usize },
    Current { def: u32 },
    Function { def: u32, parameters: usize },
}

/// The owner of each name in scope. A name has `None` where it had an owner in a scope that is left.
#[derive(Drop)]
pub(crate) struct Table {
    hashing: NameHashing,
    rows: IndexMap<Vec<u8>, Option<Owner>, NameHashing>,
}

/// What a name belonged to outside a scope that hides it.
#[derive(Drop)]
pub(crate) struct Saved {
    name: Name,
    owner: Option<Owner>,
}

impl Table {
    /// No name is in scope.
    pub(crate) fn make(alloc: Global, hashing: NameHashing) -> Table
        ensures { (n : List ℕ) → look result n ≡ None }
    {
        Table {
            hashing,
            rows: IndexMap::with_hasher(alloc, hashing),
        }
    }

    /// How its names are hashed.
    pub(crate) fn hashing(&self) -> NameHashing {
        self.hashing
    }

    /// What the name belongs to.
    pub(crate) fn owner(&self, name: &Name) -> Option<Owner>
        ensures { result ≡ look self.now name.now }
    {
        match self.rows.get(name.bytes()) {
            Some(owner) => *owner,
            None => None,
        }
    }

    /// The name belongs to this owner from now on; it gives the owner before.
    pub(crate) fn set(
        &mut self,
        alloc: Global,
        name: &Name,
        owner: Option<Owner>,
    ) -> Result<Option<Owner>, AllocError>
        ensures before { IfOk result (λ before. before ≡ look self.old name.now) }
        ensures sets { OnOk result ((n : List ℕ) → look self.new n ≡ with_owner name.now owner (look self.old) n) }
    {
        let before = self.owner(name);
        let key = Vec::from_slice(alloc, name.bytes())?;
        self.rows.insert(key, owner)?;
        Ok(before)
    }
}

// The name gets this owner, and the owner before is saved.
fn hide(
    alloc: Global,
    table: &mut Table,
    saved: &mut Vec<Saved>,
    name: &Name,
    owner: Owner,
) -> Result<(), AllocError>
    ensures sets { OnOk result ((n : List ℕ) → look table.new n ≡ with_owner name.now (Some owner) (look table.old) n) }
    ensures saves { OnOk result ((n : List ℕ) → put_back saved.new.items (look table.new) n ≡ put_back saved.old.items (look table.old) n) }
{
    let before = table.set(alloc, name, Some(owner))?;
    let name = name.copy()?;
    saved.push(Saved {
        name,
        owner: before,
    })?;
    Ok(())
}

fn owner_of(def: &Def) -> Owner
    ensures { Some result ≡ definition_owner (definition def.now.name (one_def def.now no_defs)) }
{
    match &def.kind {
        DefKind::Plain { .. } => Owner::Plain { def: def.at },
        DefKind::Function { parameters, .. } => Owner::Function {
            def: def.at,
            parameters: parameters.items().len(),
        },
        DefKind::Current { .. } => Owner::Current { def: def.at },
    }
}

/// Opens the scope of a block: each name that it defines belongs to the first definition of it. The last comes first, so that
/// the first stays.
pub(crate) fn enter_block(
    alloc: Global,
    table: &mut Table,
    defs: &Defs,
) -> Result<Vec<Saved>, AllocError>
    ensures enters { OnOk result ((n : List ℕ) → look table.new n ≡ or_outer (definition_owner (definition n defs.now)) (look table.old n)) }
    ensures saves { IfOk result (λ saved. (n : List ℕ) → put_back saved.items (look table.new) n ≡ look table.old n) }
{
    let items = defs.items();
    let mut saved = Vec::new(alloc);
    let mut left = items.len();
    while left > 0 {
        left -= 1;
        let def = &items[left];
        let owner = owner_of(def);
        hide(alloc, table, &mut saved, &def.name, owner)?;
    }
    Ok(saved)
}

/// Opens the scope of a function's right side: each parameter's name belongs to the first parameter of it.
pub(crate) fn enter_function(
    alloc: Global,
    table: &mut Table,
    def: u32,
    parameters: &Names,
) -> Result<Vec<Saved>, AllocError>
    ensures enters { OnOk result ((n : List ℕ) → look table.new n ≡ or_outer (parameter_owner def (param n parameters.now)) (look table.old n)) }
    ensures saves { IfOk result (λ saved. (n : List ℕ) → put_back saved.items (look table.new) n ≡ look table.old n) }
{
    let items = parameters.items();
    let mut saved = Vec::new(alloc);
    let mut left = items.len();
    while left > 0 {
        left -= 1;
        let owner = Owner::Parameter { def, index: left };
        hide(alloc, table, &mut saved, &items[left], owner)?;
    }
    Ok(saved)
}

/// Leaves a scope: each name that it hid belongs to what it belonged to before.
pub(crate) fn leave(
    alloc: Global,
    table: &mut Table,
    mut saved: Vec<Saved>,
) -> Result<(), AllocError>
    ensures { OnOk result ((n : List ℕ) → look table.new n ≡ put_back saved.items (look table.old) n) }
{
    while let Some(last) = saved.pop() {
        table.set(alloc, &last.name, last.owner)?;
    }
    Ok(())
}
