//! The notes of a run.
ghost use Rattle.std.specs.Prelude.{◌≡◌, ◌-◌, ◌++◌, ◌∷◌, [], true, false, OnOk, MatchResult, option_map};
ghost use Rattle.lucid_store.specs.Entries.{count_of};
ghost use Rattle.lucid_retire.specs.Policies.{keeps_all, empties_all, most_held};
ghost use Rattle.lucid_retire.specs.Turns.{IsTurn};
ghost use Rattle.lucid_show_steps.specs.Events.{line, plain_events, plain_touched};
ghost use Rattle.lucid_show_steps.specs.Turns.{noted, touched_in, values_seen, HasTurned, HoldsSame, LeavesOut, NotesTurn, NotesOrCounts, NotesPick, UnlessLacking};

use crate::event::{Event, Touched};
use crate::seen::{bring, drop_values, take_gone, touched_in};
use lucid_retire::Policy;
use lucid_store::{Key, Warehouse};
use std::alloc::{AllocError, Global};

/// The notes of a run, in order.
#[derive(Drop)]
pub struct Log {
    alloc: Global,
    // While there are fewer notes than that, more are made. Lines are noted all.
    most: usize,
    events: Vec<Event>,
    // How many keys were held after the last turn.
    count: u64,
    // The keys that were touched, but for those that are known to be dropped, the latest last.
    keys: Vec<Key>,
    // Whether there was no memory for a note.
    lacks: bool,
}

// How many values a turn tells of.
fn values_seen(touched: &Option<Touched>, count: u64) -> u64
    ensures { result ≡ values_seen (option_map plain_touched touched.now) count }
{
    match touched {
        Some(_) => count.saturating_add(1),
        None => count,
    }
}

impl Log {
    /// Nothing is noted.
    pub fn make(alloc: Global, most: usize) -> Log
        ensures noted { noted result ≡ [] }
        ensures most { result.most ≡ most }
        ensures count { result.count ≡ 0 }
        ensures keys { result.keys.items ≡ [] }
        ensures lacks { result.lacks ≡ false }
    {
        Log {
            alloc,
            most,
            events: Vec::new(alloc),
            count: 0,
            keys: Vec::new(alloc),
            lacks: false,
        }
    }

    /// What is noted.
    pub fn events(&self) -> &[Event]
        ensures { plain_events result.now ≡ noted self.now }
    {
        &self.events
    }

    /// Whether there was no memory for a note.
    pub fn lacks(&self) -> bool
        ensures { result ≡ self.now.lacks }
    {
        self.lacks
    }

    // Counts what is left out.
    fn leave_out(&mut self, count: u64) -> Result<(), AllocError>
        ensures counted { OnOk result (LeavesOut count (noted self.old) (noted self.new)) }
        ensures lacks { self.new.lacks ≡ self.old.lacks }
    {
        if count == 0 {
            return Ok(());
        }
        match self.events.pop() {
            Some(Event::LeftOut { count: before }) => {
                let count = before.saturating_add(count);
                self.events.push(Event::LeftOut { count })?;
            }
            Some(event) => {
                self.events.push(event)?;
                self.events.push(Event::LeftOut { count })?;
            }
            None => self.events.push(Event::LeftOut { count })?,
        }
        Ok(())
    }

    // Notes a turn.
    fn note_turn(
        &mut self,
        touched: Option<Touched>,
        count: u64,
        warehouse: &mut Warehouse,
    ) -> Result<(), AllocError>
        ensures noted { OnOk result (NotesTurn (option_map plain_touched touched) count warehouse.new self.old.keys.items self.new.keys.items (noted self.old) (noted self.new)) }
        ensures same { HoldsSame warehouse.old warehouse.new }
        ensures lacks { self.new.lacks ≡ self.old.lacks }
    {
        if let Some(touched) = &touched {
            bring(self.alloc, &mut self.keys, touched.key)?;
        }
        let dropped = take_gone(self.alloc, &mut self.keys, warehouse, count)?;
        let more = count.saturating_sub(dropped.len() as u64);
        self.events.push(Event::Turn {
            touched,
            dropped,
            more,
        })?;
        Ok(())
    }

    // Notes a turn, or counts what it tells of.
    fn note(
        &mut self,
        touched: Option<Touched>,
        count: u64,
        warehouse: &mut Warehouse,
    ) -> Result<(), AllocError>
        ensures noted { OnOk result (NotesOrCounts (option_map plain_touched touched) count warehouse.new self.old self.new) }
        ensures same { HoldsSame warehouse.old warehouse.new }
        ensures lacks { self.new.lacks ≡ self.old.lacks }
    {
        if self.events.len() < self.most {
            return self.note_turn(touched, count, warehouse);
        }
        self.leave_out(values_seen(&touched, count))
    }

    // The same, unless there is no memory for it.
    fn note_or_lack(&mut self, touched: Option<Touched>, count: u64, warehouse: &mut Warehouse)
        ensures noted { UnlessLacking self.new (NotesOrCounts (option_map plain_touched touched) count warehouse.new self.old self.new) }
        ensures same { HoldsSame warehouse.old warehouse.new }
    {
        if self.note(touched, count, warehouse).is_err() {
            self.lacks = true;
        }
    }

    // The same, unless there was no memory to look.
    fn note_seen(
        &mut self,
        touched: Result<Option<Touched>, AllocError>,
        count: u64,
        warehouse: &mut Warehouse,
    )
        ensures noted { MatchResult touched (λ touched. UnlessLacking self.new (NotesOrCounts (option_map plain_touched touched) count warehouse.new self.old self.new)) (λ _. self.new.lacks ≡ true) }
        ensures same { HoldsSame warehouse.old warehouse.new }
    {
        match touched {
            Ok(touched) => self.note_or_lack(touched, count, warehouse),
            Err(_) => self.lacks = true,
        }
    }

    /// The policy has its turn, which is noted.
    pub fn turn(&mut self, policy: &mut Policy, warehouse: &mut Warehouse)
        ensures turned { HasTurned policy.old policy.new warehouse.old warehouse.new }
        ensures turn { IsTurn (keeps_all policy.old) (empties_all policy.old) (most_held policy.old) warehouse.old warehouse.new }
        ensures noted { UnlessLacking self.new (NotesOrCounts (touched_in self.old.count warehouse.old) (count_of warehouse.old - count_of warehouse.new) warehouse.new self.old self.new) }
        ensures count { self.new.count ≡ count_of warehouse.new }
    {
        let touched = touched_in(self.alloc, warehouse, self.count);
        let count = drop_values(policy, warehouse);
        self.note_seen(touched, count, warehouse);
        self.count = warehouse.len();
    }

    // Notes a pick, while there are fewer notes than there may be.
    fn note_pick(&mut self) -> Result<(), AllocError>
        ensures { OnOk result (NotesPick self.old self.new) }
    {
        if self.events.len() < self.most {
            self.events.push(Event::Pick)?;
        }
        Ok(())
    }

    /// A row is picked, which is noted while there are fewer notes than there may be.
    pub fn pick(&mut self)
        ensures { UnlessLacking self.new (NotesPick self.old self.new) }
    {
        if self.note_pick().is_err() {
            self.lacks = true;
        }
    }

    /// A line is written, which is noted.
    pub fn line(&mut self)
        ensures { UnlessLacking self.new (noted self.new ≡ noted self.old ++ line ∷ []) }
    {
        if self.events.push(Event::Line).is_err() {
            self.lacks = true;
        }
    }
}
