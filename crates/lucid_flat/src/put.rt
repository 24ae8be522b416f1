//! Numbers appended to a text, each behind a blank.
ghost use Rattle.std.specs.Prelude.{◌≡◌, ◌∷◌, ◌++◌, [], OnOk, map, decimal};
ghost use Rattle.lucid_texts.specs.Words.{spaced};
ghost use Rattle.lucid_flat.specs.FlatTables.{Are32};

use std::alloc::AllocError;

/// Appends a blank and a number.
pub(crate) fn put_number(to: &mut Vec<u8>, n: u32) -> Result<(), AllocError>
    ensures { OnOk result (to.new.items ≡ to.old.items ++ spaced (decimal n ∷ [])) }
{
    lucid_texts::put_number(to, u64::from(n))
}

/// Appends a blank and a number, for each.
pub(crate) fn put_numbers(to: &mut Vec<u8>, numbers: &[u32]) -> Result<(), AllocError>
    ensures words { OnOk result (to.new.items ≡ to.old.items ++ spaced (map decimal numbers.now)) }
    ensures fit { OnOk result (Are32 numbers.now) }
{
    for n in numbers {
        put_number(to, *n)?;
    }
    Ok(())
}
