//! What demands are to give by each of some policies and picks.
use crate::told::all_hold;
use crate::trials::{Demand, Demands, Order, Outcome, Plan, Setup};
use std::alloc::Global;
use std::test::Fail;

/// Demands on one engine, and what they are to give.
#[derive(Clone, Copy)]
pub struct Wanted<'a> {
    /// By which what fails is told, beside the source.
    pub name: &'a str,
    pub demands: Demands<'a>,
    pub answers: &'a [&'a str],
    /// How many bytes of the first and of the second input are consumed at the end.
    pub consumed: [u64; 2],
    /// How many values are held at the end where nothing is dropped, if it is said.
    pub held: Option<u64>,
}

fn are_texts(texts: &[String], wanted: &[&str]) -> bool {
    texts.len() == wanted.len() && texts.iter().zip(wanted).all(|(a, b)| a.as_str() == *b)
}

impl<'a> Wanted<'a> {
    /// What demands on an engine of this setup are to give, without a name, and with nothing said of what is held.
    pub fn of(
        setup: Setup<'a>,
        demands: &'a [Demand],
        answers: &'a [&'a str],
        consumed: [u64; 2],
    ) -> Wanted<'a> {
        Wanted {
            name: "",
            demands: Demands { setup, demands },
            answers,
            consumed,
            held: None,
        }
    }

    fn holds(&self, plan: Plan, held: u64) -> bool {
        match self.held {
            Some(wanted) => plan != Plan::Keep || held == wanted,
            None => true,
        }
    }

    // What was given is what is wanted.
    fn is_met(&self, plan: Plan, order: Order, outcome: &Outcome) -> Result<(), Fail> {
        if all_hold(&[
            self.holds(plan, outcome.held),
            outcome.consumed.last() == Some(&self.consumed),
            are_texts(&outcome.answers, self.answers),
        ]) {
            return Ok(());
        }
        let (name, source) = (self.name, self.demands.setup.source);
        let (answers, consumed, held) = (&outcome.answers, &outcome.consumed, outcome.held);
        Err(Fail::new(format_args!(
            "{name}: {source} by {plan:?}, {order:?}: {answers:?}, {consumed:?}, {held}"
        )))
    }

    fn by(&self, alloc: Global, plan: Plan, order: Order) -> Result<(), Fail> {
        let outcome = self.demands.outcome_by(alloc, plan, order, 1)?;
        self.is_met(plan, order, &outcome)
    }

    fn by_each_order(&self, alloc: Global, plan: Plan, orders: &[Order]) -> Result<(), Fail> {
        for order in orders {
            self.by(alloc, plan, *order)?;
        }
        Ok(())
    }

    /// They give it by each of these policies and picks.
    pub fn by_each(&self, alloc: Global, plans: &[Plan], orders: &[Order]) -> Result<(), Fail> {
        for plan in plans {
            self.by_each_order(alloc, *plan, orders)?;
        }
        Ok(())
    }
}
