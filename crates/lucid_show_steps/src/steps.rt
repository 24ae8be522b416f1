//! The steps of a run, by its notes.
ghost use Rattle.std.specs.Prelude.{◌≡◌, ◌+◌, ◌++◌, ◌∷◌, [], true, false, OnOk, IfOk, option_map, map};
ghost use Rattle.lucid_show_steps.specs.Events.{plain_event, plain_events, plain_touched};
ghost use Rattle.lucid_show_steps.specs.Steps.{plain_step, plain_steps, drops, writes, leaves_out, is_picked, touched_step, touched_steps, more_steps, late_steps, first_steps, end_steps, steps, steps_of};

use crate::event::{Event, Touched};
use crate::step::Step;
use lucid_store::Key;
use std::alloc::{AllocError, Global};

// The steps so far, the time of the demand, and whether that has begun.
#[derive(Drop)]
struct Telling {
    alloc: Global,
    steps: Vec<Step>,
    time: u64,
    begun: bool,
}

// Whether a row is picked next.
#[tactic(auto, unfolding(crate::specs::Steps::is_picked))]
fn is_picked(later: &[Event]) -> bool
    ensures { result ≡ is_picked (plain_events later.now) }
{
    match later {
        [Event::Pick, ..] => true,
        _ => false,
    }
}

// The step of what was touched.
#[tactic(auto, unfolding(crate::specs::Steps::touched_step))]
fn touched_step(alloc: Global, touched: &Touched, later: &[Event]) -> Result<Step, AllocError>
    ensures { IfOk result (λ step. plain_step step ≡ touched_step (plain_touched touched.now) (plain_events later.now)) }
{
    let key = touched.key;
    let value = touched.value.copy(alloc)?;
    Ok(if touched.added {
        Step::Computes { key, value }
    } else if is_picked(later) {
        Step::ComputesAgain { key, value }
    } else {
        Step::Finds { key, value }
    })
}

impl Telling {
    // Tells what was touched, where something was.
    #[tactic(auto, unfolding(crate::specs::Steps::touched_steps))]
    fn tell_touched(&mut self, touched: &Option<Touched>, later: &[Event]) -> Result<(), AllocError>
        ensures steps { OnOk result (plain_steps self.new.steps.items ≡ plain_steps self.old.steps.items ++ touched_steps (option_map plain_touched touched.now) (plain_events later.now)) }
        ensures time { self.new.time ≡ self.old.time }
        ensures begun { self.new.begun ≡ self.old.begun }
    {
        match touched {
            Some(touched) => {
                let step = touched_step(self.alloc, touched, later)?;
                self.steps.push(step)?;
                Ok(())
            }
            None => Ok(()),
        }
    }

    // Tells what was dropped.
    #[tactic(auto, using(crate::proofs::Told::drops_more_keys))]
    fn tell_dropped(&mut self, keys: &[Key]) -> Result<(), AllocError>
        ensures steps { OnOk result (plain_steps self.new.steps.items ≡ plain_steps self.old.steps.items ++ map drops keys.now) }
        ensures time { self.new.time ≡ self.old.time }
        ensures begun { self.new.begun ≡ self.old.begun }
    {
        for key in keys {
            self.steps.push(Step::Drops { key: *key })?;
        }
        Ok(())
    }

    // Tells how many more were dropped, where there are such.
    #[tactic(auto, unfolding(crate::specs::Steps::more_steps))]
    fn tell_more(&mut self, count: u64) -> Result<(), AllocError>
        ensures steps { OnOk result (plain_steps self.new.steps.items ≡ plain_steps self.old.steps.items ++ more_steps count) }
        ensures time { self.new.time ≡ self.old.time }
        ensures begun { self.new.begun ≡ self.old.begun }
    {
        if count == 0 {
            return Ok(());
        }
        self.steps.push(Step::DropsMore { count })?;
        Ok(())
    }

    // Tells with what a turn begins.
    #[tactic(auto, unfolding(crate::specs::Steps::first_steps))]
    fn tell_first(&mut self, touched: &Option<Touched>, later: &[Event]) -> Result<(), AllocError>
        ensures steps { OnOk result (plain_steps self.new.steps.items ≡ plain_steps self.old.steps.items ++ first_steps self.old.time self.old.begun (option_map plain_touched touched.now) (plain_events later.now)) }
        ensures time { self.new.time ≡ self.old.time }
    {
        if self.begun {
            return self.tell_touched(touched, later);
        }
        self.steps.push(Step::Asks { time: self.time })?;
        Ok(())
    }

    // Tells a turn.
    fn tell_turn(
        &mut self,
        touched: &Option<Touched>,
        dropped: &[Key],
        more: u64,
        later: &[Event],
    ) -> Result<(), AllocError>
        ensures steps { OnOk result (plain_steps self.new.steps.items
            ≡ plain_steps self.old.steps.items ++ first_steps self.old.time self.old.begun (option_map plain_touched touched.now) (plain_events later.now) ++ map drops dropped.now ++ more_steps more) }
        ensures time { self.new.time ≡ self.old.time }
        ensures begun { OnOk result (self.new.begun ≡ true) }
    {
        self.tell_first(touched, later)?;
        self.tell_dropped(dropped)?;
        self.tell_more(more)?;
        self.begun = true;
        Ok(())
    }

    // Tells what comes late.
    #[tactic(auto, unfolding(crate::specs::Steps::late_steps))]
    fn tell_late(&mut self, later: &[Event]) -> Result<(), AllocError>
        ensures steps { OnOk result (plain_steps self.new.steps.items ≡ plain_steps self.old.steps.items ++ late_steps (plain_events later.now)) }
        ensures time { self.new.time ≡ self.old.time }
        ensures begun { self.new.begun ≡ self.old.begun }
    {
        match later {
            [Event::Turn { touched, .. }, rest @ ..] => self.tell_touched(touched, rest),
            _ => Ok(()),
        }
    }

    // Tells a line.
    fn tell_line(&mut self, later: &[Event]) -> Result<(), AllocError>
        ensures steps { OnOk result (plain_steps self.new.steps.items ≡ plain_steps self.old.steps.items ++ late_steps (plain_events later.now) ++ writes self.old.time ∷ []) }
        ensures time { OnOk result (self.new.time ≡ self.old.time + 1) }
        ensures begun { OnOk result (self.new.begun ≡ false) }
    {
        self.tell_late(later)?;
        let time = self.time;
        self.steps.push(Step::Writes { time })?;
        self.time = time.checked_add(1).ok_or(AllocError)?;
        self.begun = false;
        Ok(())
    }

    // Tells how many values are left out.
    fn tell_left_out(&mut self, count: u64) -> Result<(), AllocError>
        ensures steps { OnOk result (plain_steps self.new.steps.items ≡ plain_steps self.old.steps.items ++ leaves_out count ∷ []) }
        ensures time { self.new.time ≡ self.old.time }
        ensures begun { self.new.begun ≡ self.old.begun }
    {
        self.steps.push(Step::LeavesOut { count })?;
        Ok(())
    }

    // Tells an event, behind which these come.
    fn tell(&mut self, event: &Event, later: &[Event]) -> Result<(), AllocError>
        ensures { OnOk result (plain_steps self.new.steps.items ++ steps self.new.time self.new.begun (plain_events later.now)
            ≡ plain_steps self.old.steps.items ++ steps self.old.time self.old.begun (plain_event event.now ∷ plain_events later.now)) }
    {
        match event {
            Event::Turn {
                touched,
                dropped,
                more,
            } => self.tell_turn(touched, dropped, *more, later),
            Event::Pick => Ok(()),
            Event::Line => self.tell_line(later),
            Event::LeftOut { count } => self.tell_left_out(*count),
        }
    }

    // Tells that what comes after the policy's last turn isn't seen, where a line ends the run.
    #[tactic(auto, unfolding(crate::specs::Steps::end_steps))]
    fn tell_end(&mut self) -> Result<(), AllocError>
        ensures { OnOk result (plain_steps self.new.steps.items ≡ plain_steps self.old.steps.items ++ end_steps self.old.time self.old.begun) }
    {
        if self.begun || self.time == 0 {
            return Ok(());
        }
        self.steps.push(Step::Unseen)?;
        Ok(())
    }
}

/// The steps of a run, by what was noted of it.
pub(crate) fn steps_of(alloc: Global, events: &[Event]) -> Result<Vec<Step>, AllocError>
    ensures { IfOk result (λ told. plain_steps told.items ≡ steps_of (plain_events events.now)) }
{
    let mut telling = Telling {
        alloc,
        steps: Vec::new(alloc),
        time: 0,
        begun: false,
    };
    let mut rest = events;
    while let Some((event, later)) = rest.split_first() {
        telling.tell(event, later)?;
        rest = later;
    }
    telling.tell_end()?;
    Ok(telling.steps)
}
