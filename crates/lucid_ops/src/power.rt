//! Powers, without a loop over the exponent.
ghost use Rattle.std.specs.Prelude.{◌≡◌, FitsSigned};
ghost use Rattle.std.specs.Int.{w128, int_pow};
ghost use Rattle.std.specs.Option.{SomeIff, option_map_or};
ghost use Rattle.lucid_value.specs.Plain.{int, fault};
ghost use Rattle.lucid_ops.specs.Algebra.{integer, row_of_two};

use crate::op::Op;

// From this exponent on, only the bases 0, 1 and -1 have a power of 128 bits.
const HUGE_EXPONENT: u128 = 128;

// The power, where it has 128 bits. Fewer than 128 factors are multiplied.
#[tactic(auto, using(crate::proofs::Powers::power_past))]
fn natural_power(base: i128, exponent: u128) -> Option<i128>
    ensures { SomeIff result (FitsSigned w128 (int_pow base exponent)) (int_pow base exponent) }
{
    if exponent < HUGE_EXPONENT {
        return base.checked_pow(exponent as u32);
    }
    if base == 0 {
        return Some(0);
    }
    if base == 1 {
        return Some(1);
    }
    if base != -1 {
        return None;
    }
    Some(if exponent % 2 == 0 { 1 } else { -1 })
}

/// The power, where the exponent is not negative and the power has 128 bits.
#[tactic(auto, using(crate::proofs::Places::power_checked))]
pub(crate) fn power(base: i128, exponent: i128) -> Option<i128>
    ensures { option_map_or int result fault ≡ row_of_two integer Op.Pow (int base) (int exponent) }
{
    if exponent < 0 {
        return None;
    }
    natural_power(base, exponent.unsigned_abs())
}
