//! An engine over files in memory, with what its calls require.
use crate::trials::setup::{Parts, Setup};
use crate::trials::texts::answer_text;
use lucid_demand::Engine;
use lucid_ports::MemoryPlaces;
use lucid_retire::Retire;
use lucid_schedule::Pick;
use std::alloc::Global;
use std::marker::Model;
use std::test::Fail;

// How many contexts may be known at a demand.
const MOST_TAGS: u64 = 1_000_000;

/// A demand at a time and a space, by the approximation of a limit, which is at least 1.
#[derive(Clone, Copy)]
pub struct Demand {
    pub time: u32,
    pub space: u32,
    pub limit: u32,
}

impl Demand {
    /// The demand at a time, at space 0.
    pub const fn at(time: u32, limit: u32) -> Demand {
        Demand {
            time,
            space: 0,
            limit,
        }
    }
}

/// An engine, and the places of its inputs, numbered as these are.
pub struct OverFiles<R: Retire, S: Pick> {
    engine: Engine<R, S>,
    places: MemoryPlaces,
    count: u32,
}

// (A derived one stands in the proof of each function that owns an engine, once for each way out of it.)
impl<R: Retire, S: Pick> Drop for OverFiles<R, S> {
    fn drop(self) {
        let OverFiles {
            engine,
            places,
            count,
        } = self;
    }
}

impl<R: Retire, S: Pick> Model for OverFiles<R, S> {
    ghost use Rattle.std.specs.Prelude.{◌≡◌, ℕ};
    ghost use Rattle.lucid_ports.specs.MemoryView.{memory_world};
    ghost use Rattle.lucid_demand_steps.specs.Engine.{AreAskable};

    ghost Value = { ℕ };

    ghost view = { λ b. b.count };

    ghost invariant = { λ b. AreAskable b.engine.streams (memory_world b.places) × ((memory_world b.places).reached ≡ b.count) };
}

impl<R: Retire, S: Pick> OverFiles<R, S> {
    /// The engine of a program, each of whose inputs is read from the file of its name.
    pub fn make(alloc: Global, setup: &Setup, policy: R, pick: S) -> Result<OverFiles<R, S>, Fail> {
        let Parts {
            program,
            inputs,
            places,
        } = Parts::make(alloc, setup)?;
        let count = program.streams();
        let engine = Engine::make(alloc, program, inputs, policy, pick)?;
        Ok(OverFiles {
            engine,
            places,
            count,
        })
    }

    /// The text of what is answered. Where no demand may be made the test fails.
    pub fn ask(&mut self, alloc: Global, demand: Demand) -> Result<String, Fail> {
        let Demand { time, space, limit } = demand;
        if limit == 0 {
            return Err(Fail::new("a limit of 0"));
        }
        if self.engine.tags() > MOST_TAGS {
            return Err(Fail::new("too many contexts"));
        }
        let (time, space) = (u64::from(time), u64::from(space));
        let answer = self.engine.demand_at(&mut self.places, time, space, limit);
        answer_text(alloc, &answer)
    }

    /// How many values are held.
    pub fn held(&self) -> u64 {
        self.engine.held()
    }

    /// How many contexts are known.
    pub fn tags(&self) -> u64 {
        self.engine.tags()
    }

    /// Drops contexts, held values and noted positions together.
    pub fn clear(&mut self) {
        self.engine.clear();
    }

    /// How many bytes of an input are consumed. An input that isn't there has none.
    pub fn consumed(&self, input: u32) -> u64 {
        if input < self.count {
            self.places.consumed(input)
        } else {
            0
        }
    }
}
