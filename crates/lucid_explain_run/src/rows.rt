//! The judgments of a certificate, by their numbers.
ghost use Rattle.std.specs.Prelude.{◌≡◌, ◌<◌, slice_get, IfOk, IfSome, IfNone};
ghost use Rattle.std.specs.Borrow.{Bor};
ghost use Rattle.std.specs.Option.{option_map};
ghost use Rattle.lucid_cert_rules.specs.Certificates.{plain_judgment};
ghost use Rattle.lucid_cert_rules.specs.declared.rows.JudgmentRow.{JudgmentRow as Judgment};
ghost use Rattle.lucid_cert_rules.specs.WhyTexts.{IsTextOf, IsFirstWrongLine};
ghost use Rattle.lucid_explain_run.specs.Judgments.{IsRow, HasNoRow};

use lucid_cert_rules::{JudgmentRow, Why, WhyRefusal, read_why};
use std::alloc::{AllocError, Global};

/// A judgment's node, and the line of the certificate in which the judgment stands, from 1.
#[derive(Clone, Copy)]
pub(crate) struct Row {
    pub(crate) node: u32,
    pub(crate) line: u64,
}

// Bytes that are no certificate's text have no judgment.
fn no_text(certificate: &[u8], line: u64, number: u64)
    requires { IsFirstWrongLine certificate.now line }
    ensures { HasNoRow certificate.now number }
{}

// The judgment of this number.
fn judgment_at(why: &Why, number: u64) -> Option<&JudgmentRow>
    ensures row { option_map (λ (row : Bor Judgment). plain_judgment row.now) result ≡ slice_get why.entry.now.judgments number }
    ensures few { IfSome result (λ _. number < 9223372036854775808) }
{
    why.judgments.items().get(number as usize)
}

// The judgment of this number of a certificate that the bytes are the text of.
fn row_in(certificate: &[u8], why: &Why, number: u64) -> Option<Row>
    requires { IsTextOf certificate.now why.now }
    ensures row { IfSome result (λ row. IsRow certificate.now number row.node row.line) }
    ensures none { IfNone result (HasNoRow certificate.now number) }
{
    match judgment_at(why, number) {
        Some(judgment) => Some(Row {
            node: judgment.node,
            line: why.contexts.items().len() as u64 + number + 1,
        }),
        None => None,
    }
}

/// The judgment of this number of a certificate, from 0; none where the bytes are no certificate's text, or have fewer judgments.
pub(crate) fn row_of(
    alloc: Global,
    certificate: &[u8],
    number: u64,
) -> Result<Option<Row>, AllocError>
    ensures row { IfOk result (λ found. IfSome found (λ row. IsRow certificate.now number row.node row.line)) }
    ensures none { IfOk result (λ found. IfNone found (HasNoRow certificate.now number)) }
{
    match read_why(alloc, certificate) {
        Ok(why) => Ok(row_in(certificate, &why, number)),
        Err(WhyRefusal::Form { line }) => {
            // For the proof: bytes with a wrong line are no certificate's text.
            no_text(certificate, line, number);
            Ok(None)
        }
        Err(WhyRefusal::NoMemory) => Err(AllocError),
    }
}
