//! Integers whose unbounded result may have no place among those of 128 bits.
ghost use Rattle.std.specs.Prelude.{◌≡◌};
ghost use Rattle.std.specs.Option.{option_map_or};
ghost use Rattle.lucid_value.specs.Plain.{int, fault};
ghost use Rattle.lucid_value.specs.View.{plain};
ghost use Rattle.lucid_ops.specs.Algebra.{integer, row_of_two};

use crate::op::Op;
use lucid_value::Value;

/// The integer as a value, or `error` where there is none.
pub(crate) fn placed(number: Option<i128>) -> Value
    ensures { plain result ≡ option_map_or int number fault }
{
    number.map_or(Value::Fault, Value::Int)
}

/// The quotient rounded toward zero, where the divisor is not 0 and the quotient has 128 bits.
#[tactic(auto, using(crate::proofs::Places::quotient_checked))]
pub(crate) fn quotient(dividend: i128, divisor: i128) -> Option<i128>
    ensures { option_map_or int result fault ≡ row_of_two integer Op.Div (int dividend) (int divisor) }
{
    dividend.checked_div(divisor)
}

/// The remainder of that division, with the sign of the dividend, where the divisor is not 0. It always has 128 bits.
#[tactic(auto, using(crate::proofs::Places::remainder_fits))]
pub(crate) fn remainder(dividend: i128, divisor: i128) -> Option<i128>
    ensures { option_map_or int result fault ≡ row_of_two integer Op.Mod (int dividend) (int divisor) }
{
    if divisor == 0 {
        return None;
    }
    Some(dividend.wrapping_rem(divisor))
}
