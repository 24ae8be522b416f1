//! What boxes are in a demand.
ghost use Rattle.std.specs.Prelude.{◌≡◌, slice_get};
ghost use Rattle.std.specs.Option.{option_map};
ghost use Rattle.std.specs.Borrow.{Bor};
ghost use Rattle.lucid_value.specs.View.{plain};
ghost use Rattle.lucid_cert_rules.specs.Certificates.{plain_judgment};
ghost use Rattle.lucid_cert_rules.specs.declared.rows.JudgmentRow.{JudgmentRow as Judgment};
ghost use Rattle.lucid_show_outline.specs.Views.{view_of};
ghost use Rattle.lucid_show_drawing.specs.Panels.{holds_for, is_true, kind_by};

use indexmap::IndexSet;
use lucid_cert_rules::{Cell, JudgmentRow};
use lucid_show_grid::Kind;
use lucid_show_outline::Source;
use lucid_value::Value;

/// The boxes that the output looked at itself, and those of the tests of searches.
#[derive(Drop)]
pub(crate) struct Roles {
    pub(crate) outputs: IndexSet<Cell>,
    pub(crate) tests: IndexSet<Cell>,
}

// Whether a value is `true`.
#[tactic(auto, unfolding(crate::specs::Panels::is_true))]
fn is_true(value: &Value) -> bool
    ensures { result ≡ is_true (plain value.now) }
{
    match value {
        Value::Truth(holds) => *holds,
        _ => false,
    }
}

// Whether the value of a judgment is.
#[tactic(auto, unfolding(crate::specs::Panels::holds_for))]
fn holds_for(judgment: Option<&JudgmentRow>) -> bool
    ensures { result ≡ holds_for (option_map (λ (j : Bor Judgment). plain_judgment j.now) judgment.entry) }
{
    match judgment {
        Some(judgment) => is_true(&judgment.value),
        None => false,
    }
}

/// Whether the judgment of a number is true.
pub(crate) fn holds(source: &Source<'_>, number: u64) -> bool
    ensures { result ≡ holds_for (slice_get (view_of source.now).judgments number) }
{
    holds_for(source.judgment(number))
}

/// What a box is: a test, which holds or doesn't; one that needed no other; or any other.
#[tactic(auto, unfolding(crate::specs::Panels::kind_by))]
pub(crate) fn kind_by(is_test: bool, holds: bool, looked: &[Cell]) -> Kind
    ensures { result ≡ kind_by is_test holds looked.now }
{
    if is_test {
        Kind::Test { holds }
    } else if looked.is_empty() {
        Kind::Leaf
    } else {
        Kind::Inner
    }
}
