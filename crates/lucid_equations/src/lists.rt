//! The lists of an equation table. Each has fewer than 2^32 items.
ghost use Rattle.std.specs.Prelude.{◌≡◌, ◌<◌, ◌^◌, length, map};
ghost use Rattle.lucid_value.specs.View.{plain};

use crate::rows::{NameRow, NodeRow, PlaceRow, ScopeRow};
use lucid_lists::Few;
use lucid_value::Value;
use std::marker::Model;

/// A list of numbers.
pub type Numbers32 = Few<u32>;

/// The scopes of a table.
pub type ScopeRows = Few<ScopeRow>;

/// The nodes of a table.
pub type NodeRows = Few<NodeRow>;

/// The names of a table.
pub type NameRows = Few<NameRow>;

/// The call places of a table.
pub type PlaceRows = Few<PlaceRow>;

/// The constants of a table. They are seen as their plain forms.
#[derive(Drop)]
pub struct Values {
    items: Vec<Value>,
}

impl Model for Values {
    ghost use Rattle.std.specs.Prelude.{List, ◌<◌, ◌^◌, length, map};
    ghost use Rattle.std.specs.Coded.{coded_list};
    ghost use Rattle.lucid_value.specs.Plain.{PlainValue};
    ghost use Rattle.lucid_value.specs.Codes.{coded_value};

    ghost Value = { List PlainValue };

    ghost coded = { coded_list coded_value };

    ghost use Rattle.lucid_value.specs.View.{plain};

    ghost view = { λ l. map plain l.items.items };

    ghost invariant = { λ l. length l.items.items < 2 ^ 32 };
}

impl Values {
    /// The list of these items. It takes no memory.
    pub fn from_vec(items: Vec<Value>) -> Values
        requires { length items.items < 2 ^ 32 }
        ensures { result ≡ map plain items.items }
    {
        Values { items }
    }

    /// The items, in order.
    pub fn items(&self) -> &[Value]
        ensures value { map plain result.now ≡ self.now }
        ensures few { length result.now < 2 ^ 32 }
    {
        self.items.as_slice()
    }
}
