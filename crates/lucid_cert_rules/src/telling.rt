//! The outline of a demand.
ghost use Rattle.std.specs.Prelude.{◌≡◌, ◌+◌, List, map, IfOk, OnOk};
ghost use Rattle.lucid_cert_rules.specs.Certificates.{plain_judgment};
ghost use Rattle.lucid_cert_rules.specs.Outlines.{Outlines};

use crate::JudgmentRow;
use crate::cell::{Cell, asked_at};
use crate::walk::needs;
use indexmap::IndexSet;
use lucid_equations::Table;
use lucid_lists::Stack;
use std::alloc::{AllocError, Global};
use std::mem;

/// A line of an outline: the judgment that asks, how deep the line stands, and whether what is asked for was told above.
#[derive(Clone, Copy)]
pub struct Entry {
    pub asked: u64,
    pub depth: u64,
    pub above: bool,
}

// A judgment that is still to be told, and how deep.
#[derive(Clone, Copy)]
struct Waiting {
    asked: u64,
    depth: u64,
}

// An outline in the making: the lines that wait, what was told, and the lines so far.
struct Telling {
    alloc: Global,
    waiting: Stack<Waiting>,
    told: IndexSet<Cell>,
    entries: Vec<Entry>,
}

// Not derived: a derived one is proved again wherever one is dropped.
impl Drop for Telling {
    fn drop(self) {
        let Telling {
            alloc,
            waiting,
            told,
            entries,
        } = self;
    }
}

impl Telling {
    ghost use Rattle.lucid_cert_rules.specs.declared.telling.Entry.{Entry as Told};
    ghost use Rattle.lucid_cert_rules.specs.Walks.{WaitsFor, WaitsForNeeds, AddsLine, TellsOn, TellsNext};

    // The judgments wait, so deep.
    fn wait_for(&mut self, found: &[u64], depth: u64) -> Result<(), AllocError>
        ensures { OnOk result (WaitsFor self.old self.new found.now depth) }
    {
        for i in (0..found.len()).rev() {
            let asked = found[i];
            self.waiting.push(Waiting { asked, depth })?;
        }
        Ok(())
    }

    // What a cell was computed from waits, so deep.
    fn wait_for_needs(
        &mut self,
        table: &Table,
        judgments: &[JudgmentRow],
        cell: Cell,
        depth: u64,
    ) -> Result<(), AllocError>
        ensures { OnOk result (WaitsForNeeds table.now (map plain_judgment judgments.now) self.old self.new cell depth) }
    {
        match cell {
            Cell::Element { .. } => Ok(()),
            Cell::Named { judgment } => {
                let found = needs(self.alloc, table, judgments, judgment)?;
                self.wait_for(&found, depth)
            }
        }
    }

    // The line is told.
    fn add(&mut self, line: Waiting, above: bool) -> Result<(), AllocError>
        ensures { OnOk result (AddsLine self.old self.new line above) }
    {
        let Waiting { asked, depth } = line;
        self.entries.push(Entry {
            asked,
            depth,
            above,
        })?;
        Ok(())
    }

    // The line that waited next is told, and what its cell was computed from waits, one deeper, unless that was told.
    fn tell(
        &mut self,
        table: &Table,
        judgments: &[JudgmentRow],
        next: Waiting,
    ) -> Result<(), AllocError>
        ensures { OnOk result ((all : List Told) → TellsOn table.now (map plain_judgment judgments.now) self.new all
            → TellsNext table.now (map plain_judgment judgments.now) self.old next all) }
    {
        let Some(cell) = asked_at(table, judgments, next.asked) else {
            return Ok(());
        };
        let Some(deeper) = next.depth.checked_add(1) else {
            return Err(AllocError);
        };
        let added = self.told.insert(cell)?;
        if !added {
            return self.add(next, true);
        }
        self.add(next, false)?;
        self.wait_for_needs(table, judgments, cell, deeper)
    }
}

/// The outline of what the judgment of a number was computed from: each line under the one that needed it, and each cell once whole.
pub fn outline(
    alloc: Global,
    table: &Table,
    judgments: &[JudgmentRow],
    number: u64,
) -> Result<Vec<Entry>, AllocError>
    ensures { IfOk result (λ entries. Outlines table.now (map plain_judgment judgments.now) number entries.items) }
{
    let mut telling = Telling {
        alloc,
        waiting: Stack::new(alloc),
        told: IndexSet::new(alloc),
        entries: Vec::new(alloc),
    };
    let found = needs(alloc, table, judgments, number)?;
    telling.wait_for(&found, 1)?;
    'steps: for _ in 0..u64::MAX {
        let Some(next) = telling.waiting.pop() else {
            return Ok(mem::replace(&mut telling.entries, Vec::new(alloc)));
        };
        telling.tell(table, judgments, next)?;
    }
    Err(AllocError)
}
