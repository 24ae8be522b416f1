//! The lists of a table while it is built: each only grows.
ghost use Rattle.std.specs.Prelude.{◌≡◌, IfOk, OnOk};
ghost use Rattle.lucid_value.specs.View.{plain};
ghost use Rattle.lucid_compile.specs.Keys.{plain_key};
ghost use Rattle.lucid_compile.specs.Building.{lists, no_lists, with_name, with_body, with_place, OneScope, OneConstant, OneNode};

use crate::numbering::{Key, Keys, number, plain_key};
use lucid_equations::{Entry, NameRow, Node, NodeRow, Numbers32, PlaceRow, ScopeKind, ScopeRow};
use lucid_value::Value;
use std::alloc::{AllocError, Global};

/// What is in scope at a tree: the number of its scope, and the number of frames there.
#[derive(Clone, Copy)]
pub(crate) struct Here {
    pub(crate) scope: u32,
    pub(crate) level: u32,
}

/// A function's right side: its scope, and its node.
#[derive(Clone, Copy)]
pub(crate) struct Body {
    pub(crate) scope: u32,
    pub(crate) body: u32,
}

/// The lists, and the keys of names, calls, call places and functions. Until they are linked, nodes and call places have for the number
/// of a name the place of the name or of its call, for that of a call place the place of its first actual, and no levels. The rows of
/// calls are made then.
#[derive(Drop)]
pub(crate) struct Rows {
    pub(crate) scopes: Vec<ScopeRow>,
    pub(crate) constants: Vec<Value>,
    pub(crate) nodes: Vec<NodeRow>,
    pub(crate) names: Vec<NameRow>,
    pub(crate) places: Vec<PlaceRow>,
    pub(crate) bodies: Vec<Body>,
    pub(crate) keys: Keys,
}

impl Rows {
    /// No rows.
    pub(crate) fn make(alloc: Global) -> Rows
        ensures { lists result ≡ no_lists }
    {
        Rows {
            scopes: Vec::new(alloc),
            constants: Vec::new(alloc),
            nodes: Vec::new(alloc),
            names: Vec::new(alloc),
            places: Vec::new(alloc),
            bodies: Vec::new(alloc),
            keys: Keys::make(alloc),
        }
    }

    /// One scope more.
    pub(crate) fn open(&mut self, parent: u32, kind: ScopeKind) -> Result<u32, AllocError>
        ensures { IfOk result (λ id. OneScope (lists self.old) (lists self.new) (record { parent = parent; kind = kind }) id) }
    {
        let id = number(self.scopes.len())?;
        self.scopes.push(ScopeRow { parent, kind })?;
        Ok(id)
    }

    /// One constant more.
    pub(crate) fn keep(&mut self, alloc: Global, value: &Value) -> Result<u32, AllocError>
        ensures { IfOk result (λ id. OneConstant (lists self.old) (lists self.new) (plain value.now) id) }
    {
        let id = number(self.constants.len())?;
        self.constants.push(value.copy(alloc)?)?;
        Ok(id)
    }

    /// One node more.
    pub(crate) fn push(&mut self, here: Here, node: Node) -> Result<u32, AllocError>
        ensures { IfOk result (λ id. OneNode (lists self.old) (lists self.new) (record { scope = here.scope; node = node }) id) }
    {
        let id = number(self.nodes.len())?;
        let scope = here.scope;
        self.nodes.push(NodeRow { scope, node })?;
        Ok(id)
    }

    /// The row of a name that is defined here, at a place.
    pub(crate) fn define(&mut self, here: Here, at: u32, kind: Entry) -> Result<(), AllocError>
        ensures { OnOk result (lists self.new ≡ with_name (plain_key at here.level) (record { scope = here.scope; kind = kind }) (lists self.old)) }
    {
        let scope = here.scope;
        self.names.push(NameRow { scope, kind })?;
        self.keys.names.push(plain_key(at, here.level))?;
        Ok(())
    }

    /// The right side of a function.
    pub(crate) fn close(&mut self, key: Key, body: Body) -> Result<(), AllocError>
        ensures { OnOk result (lists self.new ≡ with_body key body (lists self.old)) }
    {
        self.bodies.push(body)?;
        self.keys.functions.push(key)?;
        Ok(())
    }

    /// One call place more, of a call at the place `name`, whose first actual is at a place.
    pub(crate) fn add_place(
        &mut self,
        here: Here,
        name: u32,
        first: u32,
        actuals: Numbers32,
    ) -> Result<(), AllocError>
        ensures { OnOk result (lists self.new ≡ with_place (plain_key name here.level) (plain_key first here.level) (record { scope = here.scope; name = name; actuals = actuals }) (lists self.old)) }
    {
        let scope = here.scope;
        let row = PlaceRow {
            scope,
            name,
            actuals,
        };
        self.places.push(row)?;
        self.keys.calls.push(plain_key(name, here.level))?;
        self.keys.places.push(plain_key(first, here.level))?;
        Ok(())
    }
}
