//! Trees that are resolved.
ghost use Rattle.std.specs.Prelude.{◌≡◌, ◌≤◌, length, nat_eq};
ghost use Rattle.std.specs.Map.{lookup};
ghost use Rattle.lucid_tree.specs.Members.{AllDiffer};
ghost use Rattle.lucid_tree.specs.WellMade.{places, IsWellMade, IsWellMade-prop};
ghost use Rattle.lucid_scope.specs.Bindings.{IsResolved};

use indexmap::IndexMap;
use lucid_tree::Tree;
use lucid_value::Name;

/// What a name belongs to.
#[derive(Clone, Copy, PartialEq, Eq, Debug)]
pub enum Binding {
    /// A plain name, by the place of its definition.
    Plain { def: u32 },
    /// A parameter, by its number from 0, of the function whose definition is at the place.
    Parameter { def: u32, index: u32 },
    /// A current name, by the place of its definition.
    Current { def: u32 },
    /// A function, by the place of its definition.
    Function { def: u32 },
    /// An input, by its number among the inputs.
    Input { stream: u32 },
}

/// A tree that is well made and whose names have no fault, with what each name belongs to.
pub struct Scoped {
    pub(crate) tree: Tree,
    pub(crate) inputs: Vec<Name>,
    pub(crate) bindings: IndexMap<u32, Binding>,
    ghost resolved: { ∥ IsResolved tree inputs.items (λ at. lookup (nat_eq at) bindings.entries) ∥₁ },
    ghost well_made: { IsWellMade tree } by { IsWellMade-prop tree },
}

// Not derived: a derived one is proved again wherever one is dropped.
impl Drop for Scoped {
    fn drop(self) {
        let Scoped {
            tree,
            inputs,
            bindings,
        } = self;
    }
}

impl Scoped {
    ghost use Rattle.lucid_scope.specs.Scoped.{scoped_tree, scoped_inputs, scoped_binding};

    /// The tree that was resolved.
    pub fn tree(&self) -> &Tree
        ensures value { result.now ≡ scoped_tree self.now }
        ensures resolved { ∥ IsResolved (scoped_tree self.now) (scoped_inputs self.now) (scoped_binding self.now) ∥₁ }
        ensures well_made { IsWellMade (scoped_tree self.now) }
    {
        &self.tree
    }

    /// The inputs: the free names, in the order of their first places, without repeats.
    pub fn inputs(&self) -> &[Name]
        ensures value { result.now ≡ scoped_inputs self.now }
        ensures differ { AllDiffer (scoped_inputs self.now) }
        ensures few { length (scoped_inputs self.now) ≤ length (places (scoped_tree self.now)) }
        ensures resolved { ∥ IsResolved (scoped_tree self.now) (scoped_inputs self.now) (scoped_binding self.now) ∥₁ }
    {
        &self.inputs
    }

    /// What the name or the call at the place belongs to.
    pub fn binding(&self, at: u32) -> Option<Binding>
        ensures value { result ≡ scoped_binding self.now at }
        ensures resolved { ∥ IsResolved (scoped_tree self.now) (scoped_inputs self.now) (scoped_binding self.now) ∥₁ }
    {
        self.bindings.get(&at).copied()
    }
}
