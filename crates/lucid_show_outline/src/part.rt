//! Parts of an equation's text.
ghost use Rattle.std.specs.Prelude.{◌≡◌, ◌++◌, codes, IfOk, OnOk};
ghost use Rattle.lucid_print.specs.Canonical.{part, placed};

use std::alloc::{AllocError, Global};

// The level of what binds tightest.
const TIGHTEST: u8 = 12;

/// The text of a part, and its level: in a place that wants a higher one it stands in parentheses.
#[derive(Drop)]
pub(crate) struct Part {
    pub(crate) text: Vec<u8>,
    pub(crate) level: u8,
}

impl Part {
    ghost use Rattle.lucid_show_outline.specs.Equations.{plain_part, tight, sentence};

    /// A text that needs no parentheses.
    pub(crate) fn tight(text: Vec<u8>) -> Part
        ensures { plain_part result ≡ tight text.items }
    {
        Part {
            text,
            level: TIGHTEST,
        }
    }

    /// A sentence: where it is an operand it stands in parentheses.
    pub(crate) fn sentence(text: Vec<u8>) -> Part
        ensures { plain_part result ≡ sentence text.items }
    {
        Part { text, level: 0 }
    }

    /// A part with the same text.
    pub(crate) fn copy(&self, alloc: Global) -> Result<Part, AllocError>
        ensures { IfOk result (λ copy. plain_part copy ≡ plain_part self.now) }
    {
        Ok(Part {
            text: Vec::from_slice(alloc, &self.text)?,
            level: self.level,
        })
    }

    // Appends the part in parentheses.
    fn put_enclosed(&self, to: &mut Vec<u8>) -> Result<(), AllocError>
        ensures { OnOk result (to.new.items ≡ to.old.items ++ (codes "(" ++ ((plain_part self.now).text ++ codes ")"))) }
    {
        to.extend_from_slice(b"(")?;
        to.extend_from_slice(&self.text)?;
        to.extend_from_slice(b")")
    }

    /// Appends the part in a place that wants this level.
    pub(crate) fn put_at(&self, wanted: u8, to: &mut Vec<u8>) -> Result<(), AllocError>
        ensures { OnOk result (to.new.items ≡ to.old.items ++ placed wanted (plain_part self.now)) }
    {
        if self.level < wanted {
            self.put_enclosed(to)
        } else {
            to.extend_from_slice(&self.text)
        }
    }
}
