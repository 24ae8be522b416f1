//! Searches begin at the best noted position, and note where they end.
ghost use Rattle.std.specs.Prelude.{◌≡◌, ◌<◌, ◌≤◌, None, Some};
ghost use Rattle.lucid_demand_steps.specs.Going.{Owns};
ghost use Rattle.lucid_demand_steps.specs.declared.decision.Decision.TheVariants as decision;
ghost use Rattle.lucid_demand.specs.Evaluating.{MayStep, gave, Stepped, cost};
ghost use Rattle.lucid_demand.specs.Acting.{DemandIn, MayAct, IsReadyTask};
ghost use Rattle.lucid_demand.specs.Searching.{StandsAt, StandsFirst, CanLookOn};
ghost use Rattle.lucid_demand.specs.Asking.{MayAskNow};

use crate::DemandFault;
use crate::turn::Evaluation;
use lucid_demand_steps::{is_search, search_of};
use lucid_equations::Node;
use lucid_retire::Retire;
use lucid_schedule::Pick;
use lucid_tasks::{Cursor, Part, Task};

impl<R: Retire, S: Pick> Evaluation<R, S> {
    // A search that looked at nothing so far begins at the best noted position. Most tasks are no search, so that is asked first. Whether
    // its cursor stands at the beginning is asked here too, since the rest isn't inlined.
    #[inline(always)]
    pub(crate) fn begin_search(&mut self, slot: usize)
        requires { IsReadyTask self.old slot }
        ensures step { (i : DemandIn) → MayStep i.demand self.old i.world slot → MayStep i.demand self.new i.world slot }
        ensures cost { (i : DemandIn) → MayStep i.demand self.old i.world slot → cost i.demand self.new ≤ cost i.demand self.old }
        ensures rows { StandsAt self.old.rows self.new.rows slot }
        ensures engine { self.new.engine ≡ self.old.engine }
    {
        let task = self.tasks.task(slot);
        if is_search(self.program.node(task.node)) && self.tasks.cursor(slot).time == 0 {
            self.begin_at_best(slot);
        }
    }

    // The same of a search whose cursor stands at the beginning.
    #[inline(never)]
    fn begin_at_best(&mut self, slot: usize)
        requires ready { IsReadyTask self.old slot }
        requires first { StandsFirst self.old.rows slot }
        ensures step { (i : DemandIn) → MayStep i.demand self.old i.world slot → MayStep i.demand self.new i.world slot }
        ensures cost { (i : DemandIn) → MayStep i.demand self.old i.world slot → cost i.demand self.new ≤ cost i.demand self.old }
        ensures rows { StandsAt self.old.rows self.new.rows slot }
        ensures engine { self.new.engine ≡ self.old.engine }
    {
        if self.tasks.got(slot, 1).is_some() || self.tasks.got(slot, 0).is_some() {
            return;
        }
        let task = self.tasks.task(slot);
        let Some(search) = search_of(self.program.node(task.node), task.time) else {
            return;
        };
        if let Some(cursor) = search.best(&self.positions, task) {
            self.tasks.set_cursor(slot, cursor);
        }
    }

    // Notes where a search stands that looks no further.
    #[inline(never)]
    pub(crate) fn note_here(&mut self, slot: usize)
        requires { IsReadyTask self.old slot }
        ensures owns { (i : DemandIn) → MayStep i.demand self.old i.world slot → Owns i.demand self.new.engine i.world }
        ensures only { self.new.engine ≡ record self.old.engine { noted = self.new.engine.noted } }
        ensures rows { self.new.rows ≡ self.old.rows }
    {
        let task = self.tasks.task(slot);
        if let Some(search) = search_of(self.program.node(task.node), task.time) {
            search.note(&mut self.positions, task, self.tasks.cursor(slot));
        }
    }

    // A search that asks for what it found looks no further.
    #[inline(always)]
    pub(crate) fn note_end(&mut self, slot: usize, index: u32)
        requires { IsReadyTask self.old slot }
        ensures asks { (i : DemandIn) (task : Task) → MayAct i.demand self.old i.world slot (decision.Ask index task) → MayAskNow i.demand self.new i.world (Some (record { slot = slot; index = index })) task }
        ensures only { self.new.engine ≡ record self.old.engine { noted = self.new.engine.noted } }
        ensures rows { self.new.rows ≡ self.old.rows }
    {
        if index == 0 {
            self.note_here(slot);
        }
    }

    // The next time of a search, after a truth at this one.
    #[inline(never)]
    pub(crate) fn look_on(&mut self, slot: usize, seen: bool) -> Result<(), DemandFault>
        requires ready { IsReadyTask self.old slot }
        requires on { CanLookOn self.old.rows slot }
        ensures { (i : DemandIn) → MayAct i.demand self.old i.world slot (decision.LookOn seen) → Stepped i.demand self.old self.new i.world i.world (gave result None) }
    {
        self.move_cursor(slot, seen);
        self.note_on_the_way(slot, seen);
        Ok(())
    }

    // Notes where a search stands that has a power of two left to pass. So of searches that are asked for at falling times each begins near
    // its end, and few positions are noted.
    #[inline(always)]
    fn note_on_the_way(&mut self, slot: usize, seen: bool)
        requires { IsReadyTask self.old slot }
        ensures owns { (i : DemandIn) → MayStep i.demand self.old i.world slot → Owns i.demand self.new.engine i.world }
        ensures only { self.new.engine ≡ record self.old.engine { noted = self.new.engine.noted } }
        ensures rows { self.new.rows ≡ self.old.rows }
    {
        let task = self.tasks.task(slot);
        let cursor = self.tasks.cursor(slot);
        let left = match self.program.node(task.node) {
            Node::Whenever { .. } if seen => task.time.saturating_sub(cursor.count),
            Node::Upon { .. } => task.time.saturating_sub(cursor.time),
            _ => 0,
        };
        if left.is_power_of_two() {
            self.note_here(slot);
        }
    }

    // The cursor goes on by one time, and the parts that were looked at are emptied.
    #[inline(always)]
    fn move_cursor(&mut self, slot: usize, seen: bool)
        requires ready { IsReadyTask self.old slot }
        requires on { CanLookOn self.old.rows slot }
        ensures task { IsReadyTask self.new slot }
        ensures steps { (i : DemandIn) → MayAct i.demand self.old i.world slot (decision.LookOn seen) → MayStep i.demand self.new i.world slot × (cost i.demand self.new < cost i.demand self.old) }
    {
        // The cursor's time is below the task's limit, and so below 2^32.
        let _ = self.tasks.task(slot);
        let cursor = self.tasks.cursor(slot);
        self.tasks.discard(Part { slot, index: 1 });
        self.tasks.discard(Part { slot, index: 0 });
        let count = cursor.count + u64::from(seen);
        self.tasks.set_cursor(
            slot,
            Cursor {
                time: cursor.time + 1,
                count,
            },
        );
    }
}
