//! The engine, as its callers see it.
ghost use Rattle.std.specs.Prelude.{◌≡◌, ◌∷◌, [], length, IfOk};
ghost use Rattle.lucid_tags.specs.Contexts.{root};
ghost use Rattle.lucid_store.specs.Entries.{count_of, cleared, empty_warehouse, IsOneForEach};
ghost use Rattle.lucid_search.specs.Noted.{nothing_noted};
ghost use Rattle.lucid_inputs.specs.Inputs.{streams, most_bytes};
ghost use Rattle.lucid_equations.specs.Programs.{table_of};
ghost use Rattle.lucid_demand_steps.specs.Engine.{IsSoundEngine};

use crate::DemandFault;
use crate::turn::Evaluation;
use lucid_equations::Program;
use lucid_inputs::Inputs;
use lucid_ports::Places;
use lucid_retire::Retire;
use lucid_schedule::Pick;
use lucid_search::Positions;
use lucid_store::Warehouse;
use lucid_tags::Tags;
use lucid_tasks::Tasks;
use lucid_value::Value;
use std::alloc::{AllocError, Global};
use std::marker::Model;

/// An engine for one program over its inputs. Whatever the policy drops at each turn, and whatever is picked, a value that is demanded
/// is the one that the program means.
pub struct Engine<R: Retire, S: Pick> {
    evaluation: Evaluation<R, S>,
}

// Not derived: a derived one is proved again wherever one is dropped.
impl<R: Retire, S: Pick> Drop for Engine<R, S> {
    fn drop(self) {
        let Engine { evaluation } = self;
    }
}

impl<R: Retire, S: Pick> Model for Engine<R, S> {
    ghost use Rattle.std.specs.Prelude.{◌≡◌, []};
    ghost use Rattle.lucid_demand_steps.specs.Engine.{EngineView, IsSoundEngine};
    ghost use Rattle.lucid_demand_steps.specs.EngineCode.{engine_code};

    ghost Value = { EngineView };

    ghost coded = { engine_code };

    ghost view = { λ e. e.evaluation.engine };

    ghost invariant = { λ e. IsSoundEngine e.evaluation.engine × (e.evaluation.rows ≡ []) };
}

impl<R: Retire, S: Pick> Engine<R, S> {
    ghost use Rattle.lucid_demand.specs.Demanded.{MayDemand, Demanded};

    /// An engine that holds nothing, knows the empty context alone, and has the inputs as they are.
    pub fn make(
        alloc: Global,
        program: Program,
        inputs: Inputs,
        policy: R,
        pick: S,
    ) -> Result<Engine<R, S>, AllocError>
        requires streams { length (streams inputs) ≡ length (table_of program).inputs }
        ensures made { IfOk result (λ engine. engine ≡ record {
          table = table_of program;
          known = root ∷ [];
          stored = empty_warehouse;
          noted = nothing_noted;
          streams = streams inputs;
          most = most_bytes inputs;
          keeps = R.keeps policy;
          empties = R.empties policy;
          room = R.most policy;
        }) }
        ensures sound { IfOk result (λ engine. IsSoundEngine engine) }
    {
        // Each number in the table is of a row that is there.
        let _ = program.table();
        // No two streams are read from one place: so one that is read on leaves the others as they were.
        lucid_inputs::places_differ();
        Ok(Engine {
            evaluation: Evaluation {
                alloc,
                program,
                tags: Tags::make(alloc),
                tasks: Tasks::make(alloc),
                warehouse: Warehouse::make(alloc),
                positions: Positions::make(alloc),
                inputs,
                policy,
                pick,
            },
        })
    }

    /// The value of the program at a point.
    ///
    /// `limit` is how many references deep it may look where nothing is held. A refusal leaves the engine as fit for a next demand as it was.
    pub fn demand_at<P: Places>(
        &mut self,
        places: &mut P,
        time: u64,
        space: u64,
        limit: u32,
    ) -> Result<Value, DemandFault>
        requires { MayDemand self.old (P.world places.old) time space limit }
        ensures { Demanded self.old self.new (P.world places.old) (P.world places.new) time space limit result }
    {
        // No stream is read on past the bytes that may be read: so it is when the demand begins.
        lucid_inputs::keeps_within();
        let answer = self.evaluation.demand(places, time, space, limit);
        self.evaluation.tasks.clear();
        answer
    }

    /// The value of the program at a time, at space 0.
    pub fn demand<P: Places>(
        &mut self,
        places: &mut P,
        time: u64,
        limit: u32,
    ) -> Result<Value, DemandFault>
        requires { MayDemand self.old (P.world places.old) time 0 limit }
        ensures { Demanded self.old self.new (P.world places.old) (P.world places.new) time 0 limit result }
    {
        self.demand_at(places, time, 0, limit)
    }

    /// How many values are held.
    pub fn held(&self) -> u64
        ensures value { result ≡ count_of self.now.stored }
        ensures one_for_each { IsOneForEach self.now.stored }
        ensures sound { IsSoundEngine self.now }
    {
        self.evaluation.warehouse.len()
    }

    /// How many values were lost for want of memory.
    pub fn lost(&self) -> u64
        ensures { result ≡ self.now.stored.lost }
    {
        self.evaluation.warehouse.lost()
    }

    /// How many contexts are known, the empty one included.
    pub fn tags(&self) -> u64
        ensures { result ≡ length self.now.known }
    {
        self.evaluation.tags.count()
    }

    /// Drops contexts, held values and noted positions together. The elements that were read stay, and so does the count of lost values.
    pub fn clear(&mut self)
        ensures cleared { self.new ≡ record self.old { known = root ∷ []; stored = cleared self.old.stored; noted = record self.old.noted { sites = [] } } }
        ensures sound { IsSoundEngine self.new }
    {
        self.evaluation.clear();
    }
}
