//! The text of a certificate.
ghost use Rattle.std.specs.Prelude.{◌≡◌, ◌++◌, IfOk, OnOk, OnErr};
ghost use Rattle.std.specs.List.{AllByRecursion};
ghost use Rattle.lucid_cert_rules.specs.WhyText.{why_rows, why_text};
ghost use Rattle.lucid_cert_rules.specs.WhyTexts.{MayBeShown, RowFits};

use crate::put::put_lines;
use crate::rows::Why;
use std::alloc::{AllocError, Global};

// The text of a certificate.
fn text_of(alloc: Global, why: &Why) -> Result<Vec<u8>, AllocError>
    requires { MayBeShown why.now }
    ensures text { IfOk result (λ text. text.items ≡ why_text why.now) }
    ensures fits { OnOk result (AllByRecursion RowFits (why_rows why.now)) }
{
    let mut text = Vec::new(alloc);
    put_lines(alloc, &mut text, why.contexts.items())?;
    put_lines(alloc, &mut text, why.judgments.items())?;
    Ok(text)
}

/// Appends the text of a certificate whose times, spaces and uses are in range. It is made whole first, so that a refusal leaves `to`
/// as it was.
pub fn show_why(alloc: Global, why: &Why, to: &mut Vec<u8>) -> Result<(), AllocError>
    requires { MayBeShown why.now }
    ensures text { OnOk result (to.new.items ≡ to.old.items ++ why_text why.now) }
    // So a certificate with a judgment is read again from what was appended.
    ensures fits { OnOk result (AllByRecursion RowFits (why_rows why.now)) }
    ensures unchanged { OnErr result (to.new.items ≡ to.old.items) }
{
    let text = text_of(alloc, why)?;
    to.extend_from_slice(text.as_slice())
}
