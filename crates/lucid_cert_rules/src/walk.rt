//! What a judgment was computed from, up to the next references.
ghost use Rattle.std.specs.Prelude.{◌≡◌, Some, ◌++◌, map, IfOk, OnOk};
ghost use Rattle.lucid_cert_rules.specs.Certificates.{plain_judgment};
ghost use Rattle.lucid_cert_rules.specs.Cells.{asked_at};
ghost use Rattle.lucid_cert_rules.specs.Needs.{uses_at, Needs};

use crate::JudgmentRow;
use crate::cell::{Cell, asked_at};
use indexmap::IndexSet;
use lucid_equations::Table;
use lucid_lists::Stack;
use std::alloc::{AllocError, Global};
use std::mem;

// A walk: the judgments that wait, those that were visited, what was asked for so far, and the judgments that ask for it.
struct Walk {
    waiting: Stack<u64>,
    seen: IndexSet<u64>,
    cells: IndexSet<Cell>,
    found: Vec<u64>,
}

// Not derived: a derived one is proved again wherever one is dropped.
impl Drop for Walk {
    fn drop(self) {
        let Walk {
            waiting,
            seen,
            cells,
            found,
        } = self;
    }
}

// The uses of the judgment of a number.
fn uses_at(judgments: &[JudgmentRow], number: u64) -> &[u64]
    ensures { result.now ≡ uses_at (map plain_judgment judgments.now) number }
{
    match judgments.get(number as usize) {
        Some(row) => row.uses.items(),
        None => &[],
    }
}

// Puts numbers on top of those that wait, in order.
fn wait_for(waiting: &mut Stack<u64>, numbers: &[u64]) -> Result<(), AllocError>
    ensures { OnOk result (waiting.new ≡ numbers.now ++ waiting.old) }
{
    for i in (0..numbers.len()).rev() {
        waiting.push(numbers[i])?;
    }
    Ok(())
}

impl Walk {
    ghost use Rattle.lucid_cert_rules.specs.Walks.{FindsCell, Visits, Steps};

    // A judgment that asks for a cell is found, unless one was that asks for the same.
    fn find(&mut self, cell: Cell, number: u64) -> Result<(), AllocError>
        ensures { OnOk result (FindsCell self.old self.new cell number) }
    {
        let added = self.cells.insert(cell)?;
        if !added {
            return Ok(());
        }
        self.found.push(number)?;
        Ok(())
    }

    // The judgment is visited.
    fn visit(
        &mut self,
        table: &Table,
        judgments: &[JudgmentRow],
        number: u64,
    ) -> Result<(), AllocError>
        ensures { OnOk result (Visits table.now (map plain_judgment judgments.now) self.old self.new number) }
    {
        match asked_at(table, judgments, number) {
            Some(cell) => self.find(cell, number),
            None => wait_for(&mut self.waiting, uses_at(judgments, number)),
        }
    }

    // The judgment is visited, unless it was.
    fn step(
        &mut self,
        table: &Table,
        judgments: &[JudgmentRow],
        number: u64,
    ) -> Result<(), AllocError>
        ensures { OnOk result (Steps table.now (map plain_judgment judgments.now) self.old self.new number) }
    {
        let added = self.seen.insert(number)?;
        if !added {
            return Ok(());
        }
        self.visit(table, judgments, number)
    }
}

/// The judgments of names and calls from which the value of a judgment was computed, in the order of its equation, each up to what it asks for:
/// where two ask for the same, the first. A judgment of a name or a call itself was computed from itself alone.
pub fn needs(
    alloc: Global,
    table: &Table,
    judgments: &[JudgmentRow],
    number: u64,
) -> Result<Vec<u64>, AllocError>
    ensures { IfOk result (λ found. Needs table.now (map plain_judgment judgments.now) number found.items) }
{
    let mut waiting = Stack::new(alloc);
    waiting.push(number)?;
    let mut walk = Walk {
        waiting,
        seen: IndexSet::new(alloc),
        cells: IndexSet::new(alloc),
        found: Vec::new(alloc),
    };
    'steps: for _ in 0..u64::MAX {
        let Some(number) = walk.waiting.pop() else {
            return Ok(mem::replace(&mut walk.found, Vec::new(alloc)));
        };
        walk.step(table, judgments, number)?;
    }
    Err(AllocError)
}
