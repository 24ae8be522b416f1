//! A run over the engine.
ghost use Rattle.std.specs.Prelude.{◌≡◌, ◌≤◌, ◌<◌, ◌^◌, ◌-◌, ◌⊎◌, ℕ, length, Bool, true, slice_get, Some};
ghost use Rattle.lucid_inputs.specs.Inputs.{streams};
ghost use Rattle.lucid_equations.specs.Programs.{table_of};
ghost use Rattle.lucid_demand_steps.specs.Engine.{AreAskable};
ghost use Rattle.lucid_store.specs.Entries.{count_of, IsOneForEach};
ghost use Rattle.lucid_session.specs.Subject.{stream_subject, table_stream, columns_subject, table_columns};
ghost use Rattle.lucid_session.specs.Runs.{policy_view, run_view};
ghost use Rattle.lucid_ports.specs.Told.{told};
ghost use Rattle.lucid_session.specs.Figures.{table_counted, columns_counted};
ghost use Rattle.lucid_session.specs.Cells.{ClearsMany};
ghost use Rattle.lucid_session.specs.Sessions.{IsFresh, engine_run, Promises, PromisesColumns};

use crate::cells::{Running, clear_many};
use crate::lines::write_line;
use lucid_demand::Engine;
use lucid_equations::Program;
use lucid_inputs::Inputs;
use lucid_ports::{Options, Places, RunFault, Sink, Summary};
use lucid_retire::Retire;
use lucid_schedule::Pick;
use std::alloc::Global;

/// How many columns may stand side by side.
pub const MOST_COLUMNS: usize = 16;

/// Writes the lines of a program, from time 0 on, to the first end of data or to the count of the options.
///
/// Whatever the policy drops at each turn, and whatever is picked, the lines are those of the values that the program means. Each value is
/// demanded when its time comes, and its line written then; of that the clauses see only what is consumed where a write fails.
pub fn run<P: Places, K: Sink, R: Retire, S: Pick>(
    alloc: Global,
    program: Program,
    places: &mut P,
    inputs: Inputs,
    out: &mut K,
    policy: R,
    pick: S,
    options: &Options,
) -> Result<Summary, RunFault>
    requires streams { length (streams inputs) ≡ length (table_of program).inputs }
    requires askable { AreAskable (streams inputs) (P.world places.old) }
    ensures { Promises (stream_subject (table_stream (table_of program))) (table_counted (table_of program))
        (run_view options.now (policy_view R.keeps R.empties R.most policy) (table_of program) inputs (P.world places.old) (P.world places.new) (told K.written K.faults K.late out.old) (told K.written K.faults K.late out.new)) result }
{
    let Ok(engine) = Engine::make(alloc, program, inputs, policy, pick) else {
        return Err(RunFault::NoMemory);
    };
    let mut running = Running {
        alloc,
        engine,
        line: Vec::new(alloc),
        cleared: 0,
        clears_last: false,
    };
    let mut is_open = [true];
    running.write_lines(&mut is_open, places, out, options)
}

/// Writes the lines of several columns of a program side by side: of its values at the spaces from 0 on. A line is the texts of the values of a
/// time, parted by tabs; a column that has ended has no byte there. The run ends where all columns have, or at the count of the options.
///
/// All that is said of `run` is said of it, over these columns.
pub fn run_columns<P: Places, K: Sink, R: Retire, S: Pick>(
    alloc: Global,
    program: Program,
    columns: u32,
    places: &mut P,
    inputs: Inputs,
    out: &mut K,
    policy: R,
    pick: S,
    options: &Options,
) -> Result<Summary, RunFault>
    requires streams { length (streams inputs) ≡ length (table_of program).inputs }
    requires askable { AreAskable (streams inputs) (P.world places.old) }
    requires columns { columns ≤ MOST_COLUMNS }
    ensures { Promises (columns_subject (table_columns (table_of program) columns)) (columns_counted (table_of program) columns)
        (run_view options.now (policy_view R.keeps R.empties R.most policy) (table_of program) inputs (P.world places.old) (P.world places.new) (told K.written K.faults K.late out.old) (told K.written K.faults K.late out.new)) result }
{
    let Ok(engine) = Engine::make(alloc, program, inputs, policy, pick) else {
        return Err(RunFault::NoMemory);
    };
    let mut running = Running {
        alloc,
        engine,
        line: Vec::new(alloc),
        cleared: 0,
        clears_last: true,
    };
    let mut is_open = [true; MOST_COLUMNS];
    running.write_lines(&mut is_open[..columns as usize], places, out, options)
}

impl<R: Retire, S: Pick> Running<R, S> {
    // Writes the lines of as many columns as there are marks, all of which are open.
    fn write_lines<P: Places, K: Sink>(
        &mut self,
        is_open: &mut [bool],
        places: &mut P,
        out: &mut K,
        options: &Options,
    ) -> Result<Summary, RunFault>
        requires fresh { IsFresh self.old.engine (P.world places.old) }
        requires none { self.old.cleared ≡ 0 }
        requires columns { length is_open.old ≤ 16 }
        requires opened { (j : ℕ) (mark : Bool) → slice_get is_open.old j ≡ Some mark → mark ≡ true }
        ensures { PromisesColumns self.old.engine.table (length is_open.old)
            (engine_run options.now self.old.engine (P.world places.old) (P.world places.new) (told K.written K.faults K.late out.old) (told K.written K.faults K.late out.new)) result }
    {
        for time in 0..options.count {
            let goes_on = self.add_cells(is_open, places, time, options.depth)?;
            if !goes_on {
                return Ok(self.ended(time));
            }
            write_line(&mut self.line, out)?;
            clear_many(&mut self.engine, &mut self.cleared);
        }
        Ok(self.summary(options.count, false))
    }

    // What a run has done all of whose columns have ended.
    fn ended(&mut self, lines: u32) -> Summary
        requires { self.old.cleared < 2 ^ 64 - 1 }
        ensures many { ((self.new.engine ≡ self.old.engine) × (result.cleared ≡ self.old.cleared))
            ⊎ ClearsMany self.old.engine self.new.engine self.old.cleared result.cleared }
        ensures summary { result ≡ record { lines = lines; ended = true; held = count_of self.new.engine.stored; lost = self.new.engine.stored.lost; cleared = result.cleared } }
        ensures one_for_each { IsOneForEach self.new.engine.stored }
    {
        if self.clears_last {
            clear_many(&mut self.engine, &mut self.cleared);
        }
        self.summary(lines, true)
    }

    // What a run has done that wrote these lines.
    fn summary(&self, lines: u32, ended: bool) -> Summary
        ensures summary { result ≡ record { lines = lines; ended = ended; held = count_of self.now.engine.stored; lost = self.now.engine.stored.lost; cleared = self.now.cleared } }
        ensures one_for_each { IsOneForEach self.now.engine.stored }
    {
        Summary {
            lines,
            ended,
            held: self.engine.held(),
            lost: self.engine.lost(),
            cleared: self.cleared,
        }
    }
}
