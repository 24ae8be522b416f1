//! The same demands under each policy and each pick.
use crate::trials::demands::{Demands, Outcome};
use crate::trials::random::Random;
use lucid_retire::{Keep, Last, Nothing, Retire, Scrap, Scripted};
use lucid_schedule::{Listed, Newest, Oldest};
use lucid_store::Key;
use lucid_tags::{Tag, Tags};
use std::alloc::Global;
use std::test::Fail;

/// A policy.
#[derive(Clone, Copy, PartialEq, Eq, Debug)]
pub enum Plan {
    Keep,
    Nothing,
    /// What was put last is held, and no more.
    LastOne,
    /// Keys at random are dropped.
    Scripted,
}

pub const PLANS: [Plan; 4] = [Plan::Keep, Plan::Nothing, Plan::LastOne, Plan::Scripted];

/// Who picks.
#[derive(Clone, Copy, Debug)]
pub enum Order {
    Newest,
    Oldest,
    /// Numbers at random.
    Listed,
}

pub const ORDERS: [Order; 3] = [Order::Newest, Order::Oldest, Order::Listed];

// The empty context, and those that a block enters at the first times.
fn some_tags(alloc: Global) -> Result<Vec<Tag>, Fail> {
    let mut tags = Tags::make(alloc);
    let mut known = Vec::new(alloc);
    known.push(tags.root())?;
    for time in 0..5 {
        known.push(tags.enter_frozen(tags.root(), time)?)?;
    }
    Ok(known)
}

// Three keys at each of fifty turns, of which some may be held.
fn random_scraps(alloc: Global, random: &mut Random) -> Result<Vec<Scrap>, Fail> {
    let tags = some_tags(alloc)?;
    let mut scraps = Vec::new(alloc);
    for turn in 0..150 {
        let Some(tag) = tags.get(random.below(6) as usize) else {
            continue;
        };
        let key = Key {
            name: random.below(6),
            tag: tag.at_space(u64::from(random.below(8) / 6)),
            time: u64::from(random.below(4)),
        };
        scraps.push(Scrap {
            turn: turn / 3,
            key,
        })?;
    }
    Ok(scraps)
}

fn random_numbers(alloc: Global, random: &mut Random) -> Result<Vec<usize>, Fail> {
    let mut numbers = Vec::new(alloc);
    for _ in 0..100 {
        numbers.push(random.below(1_000) as usize)?;
    }
    Ok(numbers)
}

impl Demands<'_> {
    /// What they give by a policy and a pick. The seed is that of the numbers at random.
    pub fn outcome_by(
        &self,
        alloc: Global,
        plan: Plan,
        order: Order,
        seed: u64,
    ) -> Result<Outcome, Fail> {
        match plan {
            Plan::Keep => self.by_policy(alloc, order, seed, Keep),
            Plan::Nothing => self.by_policy(alloc, order, seed, Nothing),
            Plan::LastOne => self.by_policy(alloc, order, seed, Last::make(alloc, 1)?),
            Plan::Scripted => {
                let scraps = random_scraps(alloc, &mut Random { state: seed })?;
                self.by_policy(alloc, order, seed, Scripted::make(alloc, scraps))
            }
        }
    }

    fn by_policy<R: Retire>(
        &self,
        alloc: Global,
        order: Order,
        seed: u64,
        policy: R,
    ) -> Result<Outcome, Fail> {
        match order {
            Order::Newest => self.outcome(alloc, policy, Newest),
            Order::Oldest => self.outcome(alloc, policy, Oldest),
            Order::Listed => {
                let numbers = random_numbers(alloc, &mut Random { state: seed })?;
                self.outcome(alloc, policy, Listed::make(numbers))
            }
        }
    }
}
