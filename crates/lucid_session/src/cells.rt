//! The cells of a line: the values of all columns at one time.
ghost use Rattle.std.specs.Prelude.{◌≡◌, ◌+◌, ◌-◌, ◌<◌, ◌≤◌, ◌^◌, ◌*◌, ◌∷◌, ◌++◌, [], length, if◌then◌else◌, nat_lt, MatchResult};
ghost use Rattle.lucid_tree.specs.Levels.{Elements};
ghost use Rattle.lucid_demand_steps.specs.Engine.{AreAskable};
ghost use Rattle.lucid_session.specs.Figures.{Demands};
ghost use Rattle.lucid_session.specs.Moments.{Start, Has, Standing, before, layout};
ghost use Rattle.lucid_session.specs.Cells.{StopsAt, GivesCell, AreMarked, HasCells, ClearsMany};

use crate::lines::{is_end, run_fault};
use lucid_demand::Engine;
use lucid_ports::{Places, RunFault};
use lucid_retire::Retire;
use lucid_schedule::Pick;
use std::alloc::Global;

// The most contexts that may be known when a value is demanded, the empty one included.
const MOST_KNOWN: u64 = 1_000_000;

/// Clears the engine where it knows too many contexts for a further demand, and counts that.
pub(crate) fn clear_many<R: Retire, S: Pick>(engine: &mut Engine<R, S>, cleared: &mut u64)
    requires { cleared.old < 2 ^ 64 - 1 }
    ensures { ClearsMany engine.old engine.new cleared.old cleared.new }
{
    if engine.tags() > MOST_KNOWN {
        engine.clear();
        *cleared += 1;
    }
}

/// A run that is under way: its engine, the line that is made, how often the engine was cleared, and whether that is done once more where all
/// columns have ended.
#[derive(Drop)]
pub(crate) struct Running<R: Retire, S: Pick> {
    pub(crate) alloc: Global,
    pub(crate) engine: Engine<R, S>,
    pub(crate) line: Vec<u8>,
    pub(crate) cleared: u64,
    pub(crate) clears_last: bool,
}

// Parts a cell from the one before.
fn part(line: &mut Vec<u8>, space: usize) -> Result<(), RunFault>
    ensures { MatchResult result (λ _. line.new.items ≡ (if nat_lt 0 space then line.old.items ++ 9 ∷ [] else line.old.items)) (λ q. q ≡ RunFault.NoMemory) }
{
    if space > 0 && line.push(b'\t').is_err() {
        return Err(RunFault::NoMemory);
    }
    Ok(())
}

impl<R: Retire, S: Pick> Running<R, S> {
    // Demands the value of an open column, and adds its text to the line. Whether the column stays open.
    fn add_cell<P: Places>(
        &mut self,
        places: &mut P,
        time: u32,
        space: u64,
        depth: u32,
    ) -> Result<bool, RunFault>
        requires askable { AreAskable self.old.engine.streams (P.world places.old) }
        requires space { space < 16 }
        requires depth { 0 < depth }
        requires cleared { self.old.cleared < 2 ^ 64 - 1 }
        ensures cell { (z : Start) → z.depth ≡ depth → Standing z (before z time space) self.old.engine (P.world places.old) self.old.cleared
            → ((b : Elements) → Has z b → Demands (layout z) b time space)
            → MatchResult result
            (λ stays. Standing z (before z time (space + 1)) self.new.engine (P.world places.new) self.new.cleared
            × GivesCell z time space stays self.old.line.items self.new.line.items)
            (λ q. StopsAt z self.new.engine (P.world places.new) time self.new.cleared q) }
        ensures counts { self.new.cleared ≤ self.old.cleared + 1 }
        ensures askable { AreAskable self.new.engine.streams (P.world places.new) }
    {
        clear_many(&mut self.engine, &mut self.cleared);
        let value = match self.engine.demand_at(places, u64::from(time), space, depth) {
            Ok(value) => value,
            Err(fault) => return Err(run_fault(fault, time, self.engine.lost(), self.cleared)),
        };
        if is_end(&value) {
            return Ok(false);
        }
        match value.show(self.alloc, &mut self.line) {
            Ok(()) => Ok(true),
            Err(_) => Err(RunFault::NoMemory),
        }
    }

    /// Makes the cells of a time, in the order of the columns, parted by tabs. `is_open` says of each column whether it is open. Whether one of
    /// them goes on.
    pub(crate) fn add_cells<P: Places>(
        &mut self,
        is_open: &mut [bool],
        places: &mut P,
        time: u32,
        depth: u32,
    ) -> Result<bool, RunFault>
        requires askable { AreAskable self.old.engine.streams (P.world places.old) }
        requires columns { length is_open.old ≤ 16 }
        requires depth { 0 < depth }
        requires cleared { self.old.cleared ≤ 17 * time }
        ensures cells { (z : Start) → z.depth ≡ depth → z.columns ≡ length is_open.old
            → Standing z (before z time 0) self.old.engine (P.world places.old) self.old.cleared
            → ((b : Elements) → Has z b → AreMarked z b time 0 is_open.old)
            → MatchResult result
            (λ goes_on. Standing z (before z (time + 1) 0) self.new.engine (P.world places.new) self.new.cleared
            × ((b : Elements) → Has z b → AreMarked z b (time + 1) 0 is_open.new × HasCells z b time z.columns self.new.line.items goes_on))
            (λ q. StopsAt z self.new.engine (P.world places.new) time self.new.cleared q) }
        ensures counts { self.new.cleared ≤ self.old.cleared + 16 }
        ensures askable { AreAskable self.new.engine.streams (P.world places.new) }
    {
        self.line.clear();
        let mut goes_on = false;
        for space in 0..is_open.len() {
            part(&mut self.line, space)?;
            if is_open[space] {
                let stays = self.add_cell(places, time, space as u64, depth)?;
                is_open[space] = stays;
                goes_on |= stays;
            }
        }
        Ok(goes_on)
    }
}
