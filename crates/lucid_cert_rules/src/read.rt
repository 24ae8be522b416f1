//! The certificate that a text is.
ghost use Rattle.std.specs.Prelude.{◌≡◌, ◌∷◌, ◌++◌, [], IfOk, IfErr, OnOk};
ghost use Rattle.lucid_cert_rules.specs.WhyTexts.{AreWhyLines, IsTextOf};
ghost use Rattle.lucid_cert_rules.specs.LinesRead.{lines_in, AllFit, IsCertificateRefused, Gives};
ghost use Rattle.lucid_cert_rules.specs.declared.read.WhyRefusal.TheVariants.{NoMemory};
ghost use Rattle.lucid_cert_rules.specs.declared.rows.Why.{Why as PlainWhy};

use crate::laws::one_why;
use crate::lists::{ContextRows, JudgmentRows};
use crate::read_rows::{Row, read_row};
use crate::rows::{ContextRow, JudgmentRow, Why};
use lucid_texts::{Lines, add_lines, one_value};
use std::alloc::{AllocError, Global};
use thiserror::Error;

/// Why bytes are refused.
#[derive(Debug, Drop, Error)]
pub enum WhyRefusal {
    /// The first line, counted from 1, with which no certificate's text goes on. Where the bytes end too early, it is the line after their
    /// last whole one.
    #[error("line {line} is no judgment")]
    Form { line: u64 },
    /// Want of memory.
    #[error("no memory")]
    NoMemory,
}

impl From<AllocError> for WhyRefusal {
    ghost from_gives = { λ _ made. made ≡ NoMemory };

    fn from(_error: AllocError) -> WhyRefusal {
        WhyRefusal::NoMemory
    }
}

// The rows so far, those of contexts first.
#[derive(Drop)]
struct WhyLines {
    contexts: Vec<ContextRow>,
    judgments: Vec<JudgmentRow>,
}

fn push_row<T: Drop>(rows: &mut Vec<T>, row: T) -> Result<(), AllocError>
    ensures { OnOk result (rows.new.items ≡ rows.old.items ++ row ∷ []) }
{
    rows.push(row).map_err(AllocError::from)
}

impl Lines for WhyLines {
    ghost is_text = { AreWhyLines };

    ghost lines = { lines_in };

    ghost keeps = { AllFit };

    fn lines_of_texts() {}

    fn add(&mut self, alloc: Global, line: &[u8]) -> Result<bool, AllocError> {
        // For the proof: no text is that of two values.
        one_value();
        match read_row(alloc, line)? {
            Some(Row::Judgment(row)) => {
                push_row(&mut self.judgments, row)?;
                Ok(true)
            }
            Some(Row::Context(row)) => {
                if !self.judgments.is_empty() {
                    return Ok(false);
                }
                push_row(&mut self.contexts, row)?;
                Ok(true)
            }
            None => Ok(false),
        }
    }

    fn is_whole(&self) -> bool {
        // For the proof: no text is that of two values.
        one_value();
        !self.judgments.is_empty()
    }
}

/// The certificate that the bytes are the text of, with one judgment at least. It asks for the form of the text alone.
pub fn read_why(alloc: Global, bytes: &[u8]) -> Result<Why, WhyRefusal>
    ensures text { IfOk result (λ why. IsTextOf bytes.now why) }
    ensures refused { IfErr result (λ why. IsCertificateRefused bytes.now why) }
    ensures again { (w : PlainWhy) → IsTextOf bytes.now w → Gives result w }
{
    // For the proof: no text is that of two values, and none that of two certificates.
    one_value();
    one_why();
    let mut lines = WhyLines {
        contexts: Vec::new(alloc),
        judgments: Vec::new(alloc),
    };
    match add_lines(alloc, &mut lines, bytes)? {
        Some(line) => Err(WhyRefusal::Form { line }),
        None => Ok(Why {
            contexts: ContextRows::from_vec(lines.contexts),
            judgments: JudgmentRows::from_vec(lines.judgments),
        }),
    }
}
