//! All that an engine owns, and the turns of a demand.
ghost use Rattle.std.specs.Prelude.{◌≡◌, ◌∷◌, [], ℕ, ◌<◌, ◌≤◌, ◌^◌, List, IsTrue, Some, None};
ghost use Rattle.lucid_tags.specs.Contexts.{Context, root as empty_context};
ghost use Rattle.lucid_tags.specs.Known.{IsOneForOne};
ghost use Rattle.lucid_tasks.specs.Rows.{TaskRow, row_at, is_ready, IsRow};
ghost use Rattle.lucid_store.specs.Entries.{cleared};
ghost use Rattle.lucid_ports.specs.Faults.{AsksNoneLate};
ghost use Rattle.lucid_ports.specs.World.{World};
ghost use Rattle.lucid_demand_steps.specs.Tasks.{plain_row};
ghost use Rattle.lucid_demand_steps.specs.Engine.{IsSoundEngine, AreAskable};
ghost use Rattle.lucid_demand_steps.specs.Demands.{Demand, demand_of};
ghost use Rattle.lucid_demand_steps.specs.Ready.{MayDecide};
ghost use Rattle.lucid_demand_steps.specs.Justified.{Justified};
ghost use Rattle.lucid_demand_steps.specs.Faults.{CountsReadFaults};
ghost use Rattle.lucid_demand.specs.Demanded.{MayDemand};
ghost use Rattle.lucid_demand.specs.Evaluating.{MayStep, gave, Stepped};
ghost use Rattle.lucid_demand.specs.Acting.{MayAct};
ghost use Rattle.lucid_demand.specs.LoopEnds.{LoopEnds};
ghost use Rattle.lucid_demand.specs.Turning.{MayTurn, IsTurned, Begins};

use crate::DemandFault;
use lucid_demand_steps::{Decision, decide};
use lucid_equations::Program;
use lucid_inputs::Inputs;
use lucid_ports::Places;
use lucid_retire::Retire;
use lucid_schedule::Pick;
use lucid_search::Positions;
use lucid_store::Warehouse;
use lucid_tags::Tags;
use lucid_tasks::{Part, Task, Tasks};
use lucid_value::Value;
use std::alloc::Global;
use std::marker::Model;

/// A program with what is known of it: contexts, waiting tasks, held values, noted positions, the elements read; and who drops and who
/// picks.
#[derive(Drop)]
pub(crate) struct Evaluation<R: Retire, S: Pick> {
    pub(crate) alloc: Global,
    pub(crate) program: Program,
    pub(crate) tags: Tags,
    pub(crate) tasks: Tasks,
    pub(crate) warehouse: Warehouse,
    pub(crate) positions: Positions,
    pub(crate) inputs: Inputs,
    pub(crate) policy: R,
    pub(crate) pick: S,
}

impl<R: Retire, S: Pick> Model for Evaluation<R, S> {
    ghost use Rattle.lucid_inputs.specs.Inputs.{streams, most_bytes};
    ghost use Rattle.lucid_equations.specs.Programs.{table_of};
    ghost use Rattle.lucid_demand.specs.Evaluating.{Evaluating};
    ghost use Rattle.lucid_demand.specs.EvaluatingCode.{evaluating_code};

    ghost Value = { Evaluating };

    ghost coded = { evaluating_code };

    ghost view = { λ e. record {
      engine = record {
        table = table_of e.program;
        known = e.tags;
        stored = e.warehouse;
        noted = e.positions;
        streams = streams e.inputs;
        most = most_bytes e.inputs;
        keeps = R.keeps e.policy;
        empties = R.empties e.policy;
        room = R.most e.policy;
      };
      rows = e.tasks;
    } };
}

impl<R: Retire, S: Pick> Evaluation<R, S> {
    /// The value of the root at a point, by the approximation of a limit.
    pub(crate) fn demand<P: Places>(
        &mut self,
        places: &mut P,
        time: u64,
        space: u64,
        limit: u32,
    ) -> Result<Value, DemandFault>
        requires may { MayDemand self.old.engine (P.world places.old) time space limit }
        requires sound { IsSoundEngine self.old.engine }
        requires idle { self.old.rows ≡ [] }
        ensures { LoopEnds self.old.engine self.new.engine (P.world places.old) (P.world places.new) time space limit result }
    {
        let mut answer = None;
        self.begin(time, space, limit, &mut answer)?;
        loop {
            if let Some(value) = answer {
                return Ok(value);
            }
            self.turn(places, &mut answer)?;
        }
    }

    // The policy drops values, then the root is asked for at a point.
    fn begin(
        &mut self,
        time: u64,
        space: u64,
        limit: u32,
        answer: &mut Option<Value>,
    ) -> Result<(), DemandFault>
        requires space { space < 2 ^ 63 }
        requires idle { self.old.rows ≡ [] }
        requires open { answer.old ≡ None }
        ensures { (w : World) → IsSoundEngine self.old.engine → AreAskable self.old.engine.streams w
            → Begins (demand_of self.old.engine w time space limit) self.new w (gave result answer.new) }
    {
        self.drop_values();
        let root = Task {
            node: self.program.root(),
            tag: self.tags.root().at_space(space),
            time,
            depth: limit,
        };
        self.ask(None, root, answer)
    }

    // The policy drops values, then a row that waits for nothing takes one step. The answer is the root's value, where that was it.
    #[inline(always)]
    fn turn<P: Places>(
        &mut self,
        places: &mut P,
        answer: &mut Option<Value>,
    ) -> Result<(), DemandFault>
        requires may { (d : Demand) × MayTurn d self.old (P.world places.old) }
        requires open { answer.old ≡ None }
        ensures steps { (d : Demand) → MayTurn d self.old (P.world places.old) → Stepped d self.old self.new (P.world places.old) (P.world places.new) (gave result answer.new) }
        ensures faults { (P.world places.old).faults ≤ (P.world places.new).faults }
        ensures counts { CountsReadFaults result (P.world places.old) (P.world places.new) }
        ensures late { AsksNoneLate (P.world places.old) (P.world places.new) }
    {
        self.drop_values();
        let slot = self.pick_ready();
        self.step(places, slot, answer)
    }

    // One step of the ready row in a slot: it does what it decides.
    #[inline(always)]
    fn step<P: Places>(
        &mut self,
        places: &mut P,
        slot: usize,
        answer: &mut Option<Value>,
    ) -> Result<(), DemandFault>
        requires may { (d : Demand) × MayStep d self.old (P.world places.old) slot }
        requires open { answer.old ≡ None }
        ensures steps { (d : Demand) → MayStep d self.old (P.world places.old) slot → Stepped d self.old self.new (P.world places.old) (P.world places.new) (gave result answer.new) }
        ensures faults { (P.world places.old).faults ≤ (P.world places.new).faults }
        ensures counts { CountsReadFaults result (P.world places.old) (P.world places.new) }
        ensures late { AsksNoneLate (P.world places.old) (P.world places.new) }
    {
        self.begin_search(slot);
        let decision = self.decided(slot);
        self.act(places, slot, decision, answer)
    }

    // What the ready row in a slot does next, where these contexts are known.
    #[inline(always)]
    fn decided(&self, slot: usize) -> Decision
        ghost known: { List Context }
        requires { MayDecide self.now.engine.table known self.now.rows slot }
        ensures { (its : TaskRow) → row_at self.now.rows slot ≡ Some its → Justified self.now.engine.table known (plain_row known its) result }
    {
        decide(&self.program, &self.tasks, slot)
    }

    // The ready row in a slot does what was decided.
    #[inline(always)]
    fn act<P: Places>(
        &mut self,
        places: &mut P,
        slot: usize,
        decision: Decision,
        answer: &mut Option<Value>,
    ) -> Result<(), DemandFault>
        requires may { (d : Demand) × MayAct d self.old (P.world places.old) slot decision }
        requires open { answer.old ≡ None }
        ensures steps { (d : Demand) → MayAct d self.old (P.world places.old) slot decision → Stepped d self.old self.new (P.world places.old) (P.world places.new) (gave result answer.new) }
        ensures faults { (P.world places.old).faults ≤ (P.world places.new).faults }
        ensures counts { CountsReadFaults result (P.world places.old) (P.world places.new) }
        ensures late { AsksNoneLate (P.world places.old) (P.world places.new) }
    {
        match decision {
            Decision::Constant { constant } => self.settle_constant(slot, constant, answer),
            Decision::Truth(holds) => self.settle_truth(slot, holds, answer),
            Decision::End => self.end_of_data(slot, answer),
            Decision::Fault => self.end_in_error(slot, answer),
            Decision::Part { index } => self.settle_part(slot, index, answer),
            Decision::Apply { op, args } => self.settle_applied(slot, op, args, answer),
            Decision::Read { stream } => self.read(places, slot, stream, answer),
            Decision::Ask { index, task } => self.ask_one(slot, index, task, answer),
            Decision::AskAll { op, args } => self.ask_arguments(slot, op, args, answer),
            Decision::Refer { task } => self.ask_reference(
                Some(Part { slot, index: 0 }),
                task,
                answer,
            ),
            Decision::LookOn { seen } => self.look_on(slot, seen),
            Decision::Refuse => Err(DemandFault::TooDeep),
        }
    }

    // The policy drops values. Under one that leaves nothing, noted positions go too.
    #[inline(always)]
    pub(crate) fn drop_values(&mut self)
        ensures turned { IsTurned self.old.engine self.new.engine }
        ensures rows { self.new.rows ≡ self.old.rows }
    {
        self.policy.turn(&mut self.warehouse);
        if self.policy.is_emptying() {
            self.positions.clear();
        }
    }

    // The slot of the ready row that is picked.
    #[inline(always)]
    fn pick_ready(&mut self) -> usize
        requires { (slot : ℕ) × IsRow self.old.rows slot }
        ensures ready { IsTrue (is_ready (row_at self.old.rows result)) }
        ensures same { self.new ≡ self.old }
    {
        let ready = self.tasks.ready();
        ready[self.pick.pick(ready)]
    }

    /// Drops contexts, held values and noted positions. The contexts give their memory back: the next demand may have as many tasks wait
    /// as there were references on the way to what was held.
    pub(crate) fn clear(&mut self)
        ensures cleared { self.new ≡ record self.old {
          engine = record self.old.engine { known = empty_context ∷ []; stored = cleared self.old.engine.stored; noted = record self.old.engine.noted { sites = [] } };
        } }
        ensures one_for_one { IsOneForOne self.new.engine.known }
    {
        self.tags = Tags::make(self.alloc);
        self.warehouse.clear();
        self.positions.clear();
    }
}
