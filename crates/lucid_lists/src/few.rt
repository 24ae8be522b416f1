//! A list of fewer than 2^32 items.
ghost use Rattle.std.specs.Prelude.{◌≡◌, ◌<◌, ◌^◌, length};

use std::marker::Model;

/// A list of fewer than 2^32 items, seen as the list of them: each has a number of 32 bits.
#[derive(Drop)]
pub struct Few<T> {
    items: Vec<T>,
}

impl<T> Model for Few<T> {
    ghost use Rattle.std.specs.Prelude.{List, ◌<◌, ◌^◌, length};

    ghost Value = { List T };

    ghost view = { λ l. l.items.items };

    ghost invariant = { λ l. length l.items.items < 2 ^ 32 };
}

impl<T> Few<T> {
    /// The list of these items. It takes no memory.
    pub fn from_vec(items: Vec<T>) -> Self
        requires { length items.items < 2 ^ 32 }
        ensures { result ≡ items.items }
    {
        Few { items }
    }

    /// The items, in order.
    pub fn items(&self) -> &[T]
        ensures value { result.now ≡ self.now }
        ensures few { length self.now < 2 ^ 32 }
    {
        self.items.as_slice()
    }
}
