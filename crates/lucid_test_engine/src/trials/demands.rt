//! Demands on one engine.
use crate::trials::over_files::{Demand, OverFiles};
use crate::trials::setup::Setup;
use lucid_retire::Retire;
use lucid_schedule::Pick;
use std::alloc::Global;
use std::test::Fail;

/// Demands one after another on one engine.
#[derive(Clone, Copy)]
pub struct Demands<'a> {
    pub setup: Setup<'a>,
    pub demands: &'a [Demand],
}

/// What demands gave: their answers' texts, how many bytes of the first and of the second input are consumed after each, and how many
/// values are held at the end.
#[derive(Drop)]
pub struct Outcome {
    pub answers: Vec<String>,
    pub consumed: Vec<[u64; 2]>,
    pub held: u64,
}

/// A demand at each time below a count, at space 0.
pub fn times_below(alloc: Global, count: u32, limit: u32) -> Result<Vec<Demand>, Fail> {
    let mut demands = Vec::new(alloc);
    for time in 0..count {
        demands.push(Demand::at(time, limit))?;
    }
    Ok(demands)
}

impl Demands<'_> {
    /// What they give by a policy and a pick.
    pub fn outcome<R: Retire, S: Pick>(
        &self,
        alloc: Global,
        policy: R,
        pick: S,
    ) -> Result<Outcome, Fail> {
        let mut engine = OverFiles::make(alloc, &self.setup, policy, pick)?;
        self.asked(alloc, &mut engine)
    }

    // The same of an engine that is borrowed, which takes less to prove than one that is owned.
    fn asked<R: Retire, S: Pick>(
        &self,
        alloc: Global,
        engine: &mut OverFiles<R, S>,
    ) -> Result<Outcome, Fail> {
        let mut outcome = Outcome {
            answers: Vec::new(alloc),
            consumed: Vec::new(alloc),
            held: 0,
        };
        self.ask_each(alloc, engine, &mut outcome)?;
        Ok(outcome)
    }

    fn ask_each<R: Retire, S: Pick>(
        &self,
        alloc: Global,
        engine: &mut OverFiles<R, S>,
        outcome: &mut Outcome,
    ) -> Result<(), Fail> {
        for demand in self.demands {
            outcome.answers.push(engine.ask(alloc, *demand)?)?;
            let consumed = [engine.consumed(0), engine.consumed(1)];
            outcome.consumed.push(consumed)?;
        }
        outcome.held = engine.held();
        Ok(())
    }
}
