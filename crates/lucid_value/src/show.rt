//! The text of a value.
ghost use Rattle.std.specs.Prelude.{◌≡◌, ◌++◌, IfOk, IfErr, OnErr, MatchResult, length, take};
ghost use Rattle.lucid_value.specs.View.{plain};
ghost use Rattle.lucid_value.specs.ValueText.{value_text, list_text};

use crate::{Link, List, Value};
use itoa::Buffer;
use std::alloc::{AllocError, Global};

// Appends the bytes, or changes nothing.
fn add(to: &mut Vec<u8>, bytes: &[u8]) -> Result<(), AllocError>
    ensures { MatchResult result (λ _. to.new.items ≡ to.old.items ++ bytes.now) (λ _. to.new.items ≡ to.old.items) }
{
    to.extend_from_slice(bytes)
}

// At a refusal more may stand behind what stood there.
#[cycle(show)]
fn put(value: &Value, to: &mut Vec<u8>) -> Result<(), AllocError>
    ensures { MatchResult result (λ _. to.new.items ≡ to.old.items ++ value_text (plain value.now))
        (λ _. take (length to.old.items) to.new.items ≡ to.old.items) }
{
    match value {
        Value::Int(n) => {
            let mut digits = Buffer::new();
            add(to, digits.format(*n).as_bytes())
        }
        Value::Truth(true) => add(to, b"true"),
        Value::Truth(false) => add(to, b"false"),
        Value::Word(w) => add(to, w.bytes()),
        Value::Text(t) => {
            add(to, b"`")?;
            add(to, t.bytes())?;
            add(to, b"'")
        }
        Value::List(l) => put_list(l, to),
        Value::Eod => add(to, b"eod"),
        Value::Fault => add(to, b"error"),
    }
}

#[cycle(show)]
#[tactic(auto, using(crate::proofs::Kept::kept_more, crate::proofs::Kept::kept_through))]
fn put_list(list: &List, to: &mut Vec<u8>) -> Result<(), AllocError>
    ensures { MatchResult result (λ _. to.new.items ≡ to.old.items ++ list_text list.now)
        (λ _. take (length to.old.items) to.new.items ≡ to.old.items) }
{
    add(to, b"[%")?;
    let mut rest = list;
    while let Link::More(cell) = &rest.top {
        add(to, b" ")?;
        put(&cell.item, to)?;
        rest = &cell.rest;
    }
    add(to, b" %]")
}

impl Value {
    /// Appends the text of the value.
    pub fn show(&self, _alloc: Global, to: &mut Vec<u8>) -> Result<(), AllocError>
        ensures { MatchResult result (λ _. to.new.items ≡ to.old.items ++ value_text (plain self.now))
            (λ _. to.new.items ≡ to.old.items) }
    {
        let before = to.len();
        let done = put(self, to);
        if done.is_err() {
            to.truncate(before);
        }
        done
    }
}
