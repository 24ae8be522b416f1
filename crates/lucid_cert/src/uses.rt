//! What uses tell: the values of judgments by their numbers, and an operator applied to them.
ghost use Rattle.std.specs.Prelude.{◌≡◌, ◌<◌, map, length, IfOk};
ghost use Rattle.std.specs.List.{AllByRecursion};
ghost use Rattle.lucid_value.specs.View.{plain};
ghost use Rattle.lucid_ops.specs.Algebra.{algebra};
ghost use Rattle.lucid_ops.specs.Arity.{arity};
ghost use Rattle.lucid_cert_rules.specs.Certificates.{plain_judgment};
ghost use Rattle.lucid_cert.specs.Uses.{told};

use lucid_cert_rules::JudgmentRow;
use lucid_ops::{Op, apply_to_one, apply_to_three, apply_to_two};
use lucid_value::Value;
use std::alloc::{AllocError, Global};

/// The value of the judgment of a number.
pub fn told(judgments: &[JudgmentRow], number: u64) -> &Value
    requires { number < length (map plain_judgment judgments.now) }
    ensures { plain result.now ≡ told (map plain_judgment judgments.now) number }
{
    &judgments[number as usize].value
}

/// An operator applied to the values of uses.
pub fn applied(
    alloc: Global,
    op: Op,
    judgments: &[JudgmentRow],
    uses: &[u64],
) -> Result<Value, AllocError>
    requires there { AllByRecursion (λ u. u < length (map plain_judgment judgments.now)) uses.now }
    requires count { length uses.now ≡ arity op }
    ensures { IfOk result (λ v. plain v ≡ algebra op (map (told (map plain_judgment judgments.now)) uses.now)) }
{
    match uses {
        [first] => apply_to_one(alloc, op, told(judgments, *first)),
        [first, second] => apply_to_two(
            alloc,
            op,
            told(judgments, *first),
            told(judgments, *second),
        ),
        [first, second, third] => apply_to_three(
            alloc,
            op,
            told(judgments, *first),
            told(judgments, *second),
            told(judgments, *third),
        ),
        _ => unreachable!(),
    }
}
