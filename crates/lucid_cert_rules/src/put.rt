//! The lines of rows.
ghost use Rattle.std.specs.Prelude.{◌≡◌, ◌++◌, OnOk, map, decimal};
ghost use Rattle.std.specs.List.{AllByRecursion, flat_map};
ghost use Rattle.lucid_texts.specs.Words.{spaced};
ghost use Rattle.lucid_cert_rules.specs.Certificates.{plain_judgment};
ghost use Rattle.lucid_cert_rules.specs.WhyText.{WhyRow, context_row, judgment_row};
ghost use Rattle.lucid_cert_rules.specs.WhyTexts.{MayShow, RowFits};
ghost use Rattle.lucid_cert_rules.specs.LinesRead.{line_of};

use crate::rows::{ContextRow, JudgmentRow};
use lucid_texts::put_number;
use std::alloc::{AllocError, Global};

/// What has a line of its own.
pub(crate) trait Line {
    ghost why_row: { Self → WhyRow };

    /// Appends the line.
    fn put(&self, alloc: Global, to: &mut Vec<u8>) -> Result<(), AllocError>
        ensures line { OnOk result (to.new.items ≡ to.old.items ++ line_of (why_row self.now)) }
        ensures fits { OnOk result (MayShow (why_row self.now) → RowFits (why_row self.now)) };
}

// Appends a blank and a number, for each.
fn put_numbers(to: &mut Vec<u8>, numbers: &[u64]) -> Result<(), AllocError>
    ensures { OnOk result (to.new.items ≡ to.old.items ++ spaced (map decimal numbers.now)) }
{
    for n in numbers {
        put_number(to, *n)?;
    }
    Ok(())
}

impl Line for ContextRow {
    ghost why_row = { context_row };

    fn put(&self, _alloc: Global, to: &mut Vec<u8>) -> Result<(), AllocError> {
        match *self {
            ContextRow::Call {
                base,
                place,
                caller,
            } => {
                to.extend_from_slice(b"c")?;
                put_numbers(to, &[u64::from(base), u64::from(place), u64::from(caller)])?;
            }
            ContextRow::Frozen { base, time } => {
                to.extend_from_slice(b"z")?;
                put_numbers(to, &[u64::from(base), time])?;
            }
        }
        to.extend_from_slice(b"\n")
    }
}

impl Line for JudgmentRow {
    ghost why_row = { λ r. judgment_row (plain_judgment r) };

    fn put(&self, alloc: Global, to: &mut Vec<u8>) -> Result<(), AllocError> {
        self.value.keeps_rules();
        let uses = self.uses.items();
        to.extend_from_slice(b"j")?;
        put_numbers(to, &[u64::from(self.node), u64::from(self.context)])?;
        put_numbers(to, &[self.time, self.space, uses.len() as u64])?;
        put_numbers(to, uses)?;
        to.extend_from_slice(b" ")?;
        self.value.show(alloc, to)?;
        to.extend_from_slice(b"\n")
    }
}

/// Appends the lines of rows.
pub(crate) fn put_lines<T: Line>(
    alloc: Global,
    to: &mut Vec<u8>,
    rows: &[T],
) -> Result<(), AllocError>
    ensures lines { OnOk result (to.new.items ≡ to.old.items ++ flat_map line_of (map T.why_row rows.now)) }
    ensures fits { OnOk result (AllByRecursion (λ r. MayShow r → RowFits r) (map T.why_row rows.now)) }
{
    for row in rows {
        row.put(alloc, to)?;
    }
    Ok(())
}
