//! The test whether two values are one.
ghost use Rattle.std.specs.Prelude.{◌≡◌, IsTrue, ◌↔◌};
ghost use Rattle.lucid_value.specs.View.{plain};
ghost use Rattle.lucid_value.specs.Equality.{same_value, same_items};

use crate::{Link, List, Value};

impl Value {
    /// Whether the two values are one.
    #[tactic(auto, using(crate::specs::EqualityDecides::same_decides))]
    pub fn same(&self, other: &Value) -> bool
        ensures { IsTrue result ↔ (plain self.now ≡ plain other.now) }
    {
        alike(self, other)
    }
}

#[cycle(alike)]
fn alike(left: &Value, right: &Value) -> bool
    ensures { result ≡ same_value (plain left.now) (plain right.now) }
{
    match (left, right) {
        (Value::Int(m), Value::Int(n)) => *m == *n,
        (Value::Truth(a), Value::Truth(b)) => *a == *b,
        (Value::Word(v), Value::Word(w)) => v.bytes() == w.bytes(),
        (Value::Text(v), Value::Text(w)) => v.bytes() == w.bytes(),
        (Value::List(l), Value::List(m)) => all_alike(l, m),
        (Value::Eod, Value::Eod) => true,
        (Value::Fault, Value::Fault) => true,
        _ => false,
    }
}

#[cycle(alike)]
fn all_alike(left: &List, right: &List) -> bool
    ensures { result ≡ same_items left.now right.now }
{
    let mut rest = left;
    let mut other = right;
    loop {
        match (&rest.top, &other.top) {
            (Link::End, Link::End) => return true,
            (Link::More(a), Link::More(b)) => {
                if !alike(&a.item, &b.item) {
                    return false;
                }
                rest = &a.rest;
                other = &b.rest;
            }
            _ => return false,
        }
    }
}

impl PartialEq for Value {
    ghost eq = { λ v w. same_value (plain v) (plain w) };

    ghost use Rattle.lucid_value.specs.EqualityDecides.{values_per};

    ghost laws = { values_per };

    fn eq(&self, other: &Value) -> bool {
        alike(self, other)
    }
}
