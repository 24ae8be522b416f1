//! What the source and a certificate say of a judgment that doesn't follow.
ghost use Rattle.std.specs.Prelude.{◌≡◌, ◌++◌, List, ℕ, IfOk};
ghost use Rattle.lucid_words.specs.Asked.{plain_words};
ghost use Rattle.lucid_explain_run.specs.Judgments.{TellsJudgment};
ghost use Rattle.lucid_explain_report.specs.Files.{Held, IsSeen, plain_again};
ghost use Rattle.lucid_explain_report.specs.Stops.{stop_text};
ghost use Rattle.lucid_explain_report.specs.Said.{past_certificate, TellsPiece};

use crate::outlook::{Again, Outlook};
use crate::sources::Stopped;
use crate::stops::stop_text;
use lucid_explain_run::explain_judgment;
use std::alloc::{AllocError, Global};

/// One byte more than a certificate or an input may have: so much of it is read again.
pub const PAST_CERTIFICATE: usize = 268_435_457;

// What is said of the judgment by the source and the certificate.
fn text_of_piece(
    alloc: Global,
    stopped: &Stopped<'_>,
    number: u64,
    certificate: &[u8],
) -> Result<Vec<u8>, AllocError>
    ensures { IfOk result (λ text. (said : List ℕ) × TellsJudgment stopped.now.name.now stopped.now.source.now certificate.now number said
        × (text.items ≡ said ++ stop_text stopped.now.stop.now)) }
{
    let mut text = explain_judgment(alloc, stopped.name, stopped.source, certificate, number)?;
    text.extend_from_slice(stop_text(stopped.stop))?;
    Ok(text)
}

// What is said of it by what is seen of a certificate.
fn text_by_certificate(
    alloc: Global,
    stopped: &Stopped<'_>,
    number: u64,
    certificate: &Again,
) -> Result<Vec<u8>, AllocError>
    ensures { IfOk result (λ text. TellsPiece stopped.now.name.now stopped.now.source.now (plain_again certificate.now) number (stop_text stopped.now.stop.now) text.items) }
{
    match certificate {
        Again::Bytes(bytes) => text_of_piece(alloc, stopped, number, bytes),
        Again::Unread => Vec::from_slice(alloc, stop_text(stopped.stop)),
        Again::Gone => Vec::from_slice(alloc, stop_text(stopped.stop)),
    }
}

/// What is said of the judgment of this number, for which the certificate is read again.
pub(crate) fn text_of_judgment<F: Outlook>(
    alloc: Global,
    stopped: &Stopped<'_>,
    number: u64,
    outlook: &F,
) -> Result<Vec<u8>, AllocError>
    ensures { IfOk result (λ text. (seen : Held) × IsSeen (F.files outlook.now) (plain_words stopped.now.asked.now).check past_certificate seen
        × TellsPiece stopped.now.name.now stopped.now.source.now seen number (stop_text stopped.now.stop.now) text.items) }
{
    let certificate = outlook.reread(alloc, &stopped.asked.check, PAST_CERTIFICATE)?;
    text_by_certificate(alloc, stopped, number, &certificate)
}
