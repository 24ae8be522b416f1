//! Under each policy and each pick the engine gives what the evaluator by plain recursion gives of a made program, is too deep where that has
//! no value, and reads what the values need.
use crate::made_programs::maker::{FORMS, Maker};
use crate::made_programs::plainly::{Files, POINTS, Plainly};
use crate::told::must;
use crate::trials::{
    Demand, Demands, ORDERS, Order, Outcome, PLANS, Plan, Random, Setup, TOO_DEEP, scoped_of,
};
use std::alloc::Global;
use std::test::Fail;

// How many programs are made.
const PROGRAMS: u32 = 1_000;

static INPUTS: [Files; 5] = [
    Files {
        a: "3\n1\n4\n1\n5\n9\n2\n6\n",
        b: "true\nfalse\ntrue\ntrue\nfalse\n",
    },
    Files {
        a: "0\n1\n2\n3\n4\n5\n6\n7\n",
        b: "false\nfalse\ntrue\ntrue\ntrue\ntrue\nfalse\ntrue\n",
    },
    Files {
        a: "2\neod\n0\n",
        b: "true\n[% 1 2 %]\nfalse\n1\n",
    },
    Files {
        a: "1\n0\n",
        b: "dog\n`ab'\n[% 1 2 %]\ntrue\nerror\n7\n",
    },
    Files {
        a: "1\n1\n1\n1\n",
        b: "true\ntrue\ntrue\ntrue\ntrue\n",
    },
];

// A program over two inputs, a limit, and the seed of what is dropped and picked.
#[derive(Drop)]
struct Made {
    source: String,
    files: Files,
    limit: u32,
    seed: u64,
}

impl Made {
    // The next program of a maker.
    fn next(alloc: Global, maker: &mut Maker) -> Result<Made, Fail> {
        let source = maker.program(alloc)?;
        let random = &mut maker.random;
        let files = INPUTS.get(random.below(5) as usize).copied();
        Ok(Made {
            source,
            files: files.ok_or("no inputs")?,
            limit: random.below(5).saturating_add(1),
            seed: random.state,
        })
    }

    fn demands(&self, alloc: Global) -> Result<Vec<Demand>, Fail> {
        let mut demands = Vec::new(alloc);
        for (time, space) in POINTS {
            demands.push(Demand {
                time,
                space,
                limit: self.limit,
            })?;
        }
        Ok(demands)
    }

    // What the engine gives by a policy and a pick.
    fn outcome(&self, alloc: Global, plan: Plan, order: Order) -> Result<Outcome, Fail> {
        let Files { a, b } = self.files;
        let files = [("a", a), ("b", b)];
        let setup = Setup::of(&self.source, &files);
        let points = self.demands(alloc)?;
        let demands = Demands {
            setup,
            demands: &points,
        };
        demands.outcome_by(alloc, plan, order, self.seed)
    }

    // What was given is what the plain evaluator gives.
    fn is_allowed(
        &self,
        plainly: &Plainly,
        plan: Plan,
        order: Order,
        outcome: &Outcome,
    ) -> Result<(), Fail> {
        let (answers, consumed) = (&outcome.answers, &outcome.consumed);
        if plainly.allows(plan, answers) && plainly.consumes(consumed) {
            return Ok(());
        }
        let (source, limit) = (&self.source, self.limit);
        Err(Fail::new(format_args!(
            "{source} by limit {limit}, {plan:?}, {order:?}: {answers:?}, {consumed:?}"
        )))
    }

    fn agrees_by(
        &self,
        alloc: Global,
        plainly: &Plainly,
        plan: Plan,
        order: Order,
    ) -> Result<(), Fail> {
        let outcome = self.outcome(alloc, plan, order)?;
        self.is_allowed(plainly, plan, order, &outcome)
    }

    fn agrees_by_each(&self, alloc: Global, plainly: &Plainly) -> Result<(), Fail> {
        for plan in PLANS {
            for order in ORDERS {
                self.agrees_by(alloc, plainly, plan, order)?;
            }
        }
        Ok(())
    }

    // What the plain evaluator gives.
    fn plainly(&self, alloc: Global) -> Result<Plainly, Fail> {
        let (source, limit) = (&self.source, self.limit);
        let scoped = scoped_of(alloc, source)?;
        self.files.plainly(alloc, source, &scoped, limit)
    }

    // By each policy and each pick the engine gives what the plain evaluator gives.
    fn agrees(&self, alloc: Global) -> Result<(), Fail> {
        let plainly = self.plainly(alloc)?;
        self.agrees_by_each(alloc, &plainly)
    }
}

// The answer is that of the approximation. Where that is undefined, it is too deep or what the one of the greater limit has, if that is
// defined.
fn may_answer(answer: &str, text: &str, greater: &str) -> bool {
    if text == TOO_DEEP {
        answer == TOO_DEEP || greater == TOO_DEEP || answer == greater
    } else {
        answer == text
    }
}

impl Plainly {
    // Where nothing is held, the answers are those of the approximation; else a greater limit may tell them.
    fn allows(&self, plan: Plan, answers: &[String]) -> bool {
        if plan == Plan::Nothing {
            return answers == self.texts.as_slice();
        }
        let texts = self.texts.iter().zip(&self.greater);
        let mut pairs = answers.iter().zip(texts);
        pairs.all(|(answer, (text, greater))| may_answer(answer, text, greater))
    }

    // After the first demands each input is consumed as far as their values need it.
    fn consumes(&self, consumed: &[[u64; 2]]) -> bool {
        let first = consumed.iter().take(self.first).last();
        first.is_none_or(|consumed| consumed.iter().zip(&self.needed).all(|(a, b)| a == b))
    }
}

// Each form stands in one of the programs.
fn each_is_used(maker: &Maker) -> Result<(), Fail> {
    for ((_, _, form), uses) in FORMS.iter().zip(&maker.uses) {
        must(*uses > 0, form)?;
    }
    Ok(())
}

#[test]
fn made_programs(rt: HostRuntime) -> Result<(), Fail> {
    let mut maker = Maker::of(1);
    for _ in 0..PROGRAMS {
        let made = Made::next(rt.alloc(), &mut maker)?;
        made.agrees(rt.alloc())?;
    }
    each_is_used(&maker)
}
