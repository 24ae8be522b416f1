//! The table that a text is.
ghost use Rattle.std.specs.Prelude.{◌≡◌, ◌∷◌, ◌++◌, [], IfOk, IfErr};
ghost use Rattle.std.specs.Bool.{MatchBool};
ghost use Rattle.lucid_texts.specs.TextLines.{CannotGoOn};
ghost use Rattle.lucid_flat.specs.FlatTables.{AreTableLines, HasOneRoot, IsTextOf};
ghost use Rattle.lucid_flat.specs.Gathered.{rows_in, AreBegun};
ghost use Rattle.lucid_flat.specs.LinesRead.{lines_of_rows, lines_in, AreKept, IsTextRefused, Gives};
ghost use Rattle.lucid_flat.specs.declared.read.FlatRefusal.TheVariants.{NoMemory};

use crate::gather::Rows;
use crate::laws::one_table;
use crate::rows::read_row;
use lucid_equations::Table;
use lucid_texts::{Lines, add_lines, one_value};
use std::alloc::{AllocError, Global};
use thiserror::Error;

/// Why bytes are no table's text.
#[derive(Debug, Drop, Error)]
pub enum FlatRefusal {
    /// The first line, counted from 1, with which no table's text goes on. Where the bytes end too early, it is the line after their last
    /// whole one.
    #[error("line {line} is no flat line")]
    Form { line: u64 },
    /// Want of memory.
    #[error("no memory")]
    NoMemory,
}

impl From<AllocError> for FlatRefusal {
    ghost from_gives = { λ _ made. made ≡ NoMemory };

    fn from(_error: AllocError) -> FlatRefusal {
        FlatRefusal::NoMemory
    }
}

// The lines so far: the first one, and then those of rows.
#[derive(Drop)]
struct FlatLines {
    has_first: bool,
    rows: Rows,
}

// Adds the row of a line, if it is one's that may come next.
fn add_row(alloc: Global, rows: &mut Rows, line: &[u8]) -> Result<bool, AllocError>
    requires { AreBegun rows.old }
    ensures { IfOk result (λ added. MatchBool added (AreBegun rows.new × (lines_of_rows (rows_in rows.new) ≡ lines_of_rows (rows_in rows.old) ++ line.now ∷ [])) (CannotGoOn AreTableLines (lines_of_rows (rows_in rows.old) ++ line.now ∷ []))) }
{
    // For the proof: no bytes are the texts of two values.
    one_value();
    match read_row(alloc, line)? {
        Some(row) => rows.add(row),
        None => Ok(false),
    }
}

impl Lines for FlatLines {
    ghost is_text = { AreTableLines };

    ghost lines = { lines_in };

    ghost keeps = { AreKept };

    fn lines_of_texts() {}

    fn add(&mut self, alloc: Global, line: &[u8]) -> Result<bool, AllocError> {
        if self.has_first {
            return add_row(alloc, &mut self.rows, line);
        }
        self.has_first = line == b"lucid flat 1".as_slice();
        Ok(self.has_first)
    }

    fn is_whole(&self) -> bool {
        // For the proof: no bytes are the texts of two values.
        one_value();
        self.has_first && self.rows.is_whole()
    }
}

/// The table that the bytes are the text of.
pub fn read_flat(alloc: Global, bytes: &[u8]) -> Result<Table, FlatRefusal>
    ensures text { IfOk result (λ table. IsTextOf bytes.now table) }
    ensures root { IfOk result (λ table. HasOneRoot table) }
    ensures refused { IfErr result (λ why. IsTextRefused bytes.now why) }
    ensures again { (t : Table) → IsTextOf bytes.now t → Gives result t }
{
    // For the proof: no bytes are the texts of two values, and no bytes are the text of two tables.
    one_value();
    one_table();
    let rows = Rows::make(alloc)?;
    let mut lines = FlatLines {
        has_first: false,
        rows,
    };
    match add_lines(alloc, &mut lines, bytes)? {
        Some(line) => Err(FlatRefusal::Form { line }),
        None => Ok(lines.rows.into_table()),
    }
}
