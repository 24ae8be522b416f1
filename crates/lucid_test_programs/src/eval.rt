//! The value of a tree by plain recursion.
ghost use Rattle.std.specs.Prelude.{◌≡◌, ◌+◌, ◌<◌, ◌^◌, IfOk, Some};
ghost use Rattle.std.specs.Option.{option_map};
ghost use Rattle.lucid_value.specs.View.{plain};
ghost use Rattle.lucid_ops.specs.Arity.{arity};
ghost use Rattle.lucid_tree.specs.Size.{count, nodes, nodes_in, nodes_in_defs};
ghost use Rattle.lucid_tree.specs.Levels.{below, nothing_held};
ghost use Rattle.lucid_tree.specs.Meaning.{value as value_of, val};
ghost use Rattle.lucid_tree.specs.Tree.{form, apply as apply_form, choose as choose_form, both as both_form, either as either_form, attime as attime_form, atspace as atspace_form, tree as a_tree, block as a_block, no_trees};
ghost use Rattle.lucid_tree.specs.Env.{frozen_at, name_target, call_target};
ghost use Rattle.lucid_tree.specs.Rows.{only_truth};
ghost use Rattle.lucid_test_programs.specs.View.{env_of};
ghost use Rattle.lucid_test_programs.specs.Streams.{elements_of};
ghost use Rattle.lucid_test_programs.specs.Turns.{turn_of, place_of, found_by, counted_by};
ghost use Rattle.lucid_test_programs.specs.Turned.{turn_seen, place_seen};
ghost use Rattle.lucid_test_programs.specs.Small.{Applies, AllApply, DefsApply, IsPoint, IsTime};

use crate::env::{Callee, Env, Target, callee_of, goal_of};
use crate::streams::{Stream, element};
use lucid_ops::{Op, apply};
use lucid_tree::{Block, DefKind, Defs, Kind, LAST, Tree, Trees};
use lucid_value::{Name, Value};
use std::alloc::{AllocError, Global};

/// Where a tree is evaluated: in an environment, at a time and a space, by the approximation of a limit.
#[derive(Clone, Copy)]
pub struct Point<'a> {
    pub env: &'a Env<'a>,
    pub time: u64,
    pub space: u64,
    pub limit: u32,
}

// The frozen time of the block's scope, where it has a current definition.
fn frozen_time(defs: &Defs, time: u64) -> Option<u64>
    requires { time < 2 ^ 63 }
    ensures value { result ≡ frozen_at defs.now time }
    ensures small { IsTime result }
{
    for def in defs.items() {
        if let DefKind::Current { .. } = def.kind {
            return Some(time);
        }
    }
    None
}

// What a test's value does.
enum Turn {
    On,
    Off,
    Ends(Option<Value>),
}

fn tested(value: Option<Value>) -> Turn
    ensures { turn_seen result ≡ turn_of (option_map plain value) }
{
    match value {
        Some(Value::Truth(truth)) => { if truth { Turn::On } else { Turn::Off } }
        Some(Value::Eod) => Turn::Ends(Some(Value::Eod)),
        Some(_) => Turn::Ends(Some(Value::Fault)),
        None => Turn::Ends(None),
    }
}

fn truth_alone(value: Option<Value>) -> Option<Value>
    ensures { option_map plain result ≡ option_map only_truth (option_map plain value) }
{
    match value {
        Some(Value::Truth(truth)) => Some(Value::Truth(truth)),
        Some(Value::Eod) => Some(Value::Eod),
        Some(_) => Some(Value::Fault),
        None => None,
    }
}

// What a value does as a time or a space.
enum Place {
    At(u64),
    Ends(Option<Value>),
}

fn placed(value: Option<Value>) -> Place
    ensures { place_seen result ≡ place_of (option_map plain value) }
{
    match value {
        Some(Value::Int(number)) => {
            if 0 <= number && number <= LAST as i128 {
                Place::At(number as u64)
            } else {
                Place::Ends(Some(Value::Fault))
            }
        }
        Some(Value::Eod) => Place::Ends(Some(Value::Eod)),
        Some(_) => Place::Ends(Some(Value::Fault)),
        None => Place::Ends(None),
    }
}

/// Evaluates trees over inputs in memory.
#[derive(Drop)]
pub struct Evaluator<'a> {
    pub alloc: Global,
    pub streams: &'a [Stream],
}

impl Evaluator<'_> {
    /// The value of a tree at a point; `None` where the approximation is undefined. It calls a function of its own for each form
    /// that needs room on the stack, which isn't inlined: so its own frame, of which a walk down a tree has as many as the tree is
    /// deep, stays small.
    #[cycle(value)]
    pub fn value(&self, tree: &Tree, at: &Point) -> Result<Option<Value>, AllocError>
        requires small { nodes tree.now < 2 ^ 31 }
        requires applies { Applies tree.now }
        requires point { IsPoint at.now }
        ensures { IfOk result (λ found. option_map plain found
            ≡ val (elements_of self.now.streams.now) at.now.limit tree.now (env_of at.now.env.now) at.now.time at.now.space) }
    {
        match &tree.kind {
            Kind::Const(constant) => self.constant(constant),
            Kind::Name(name) => self.named(name, at),
            Kind::Call { name, args } => self.called(tree.at, name, args, at),
            Kind::Apply { op, args } => self.applied(*op, args, at),
            Kind::If { test, yes, no } => self.choose(test, yes, no, at),
            Kind::And(left, right) => self.both(left, right, at),
            Kind::Or(left, right) => self.either(left, right, at),
            Kind::First(of) => self.value(of, &Point { time: 0, ..*at }),
            Kind::Next(of) if at.time < LAST => {
                let time = at.time + 1;
                self.value(of, &Point { time, ..*at })
            }
            Kind::Fby(left, _) if at.time == 0 => self.value(left, at),
            Kind::Fby(_, right) => {
                let time = at.time - 1;
                self.value(right, &Point { time, ..*at })
            }
            Kind::Whenever(left, right) => self.search(left, right, at.time, at),
            Kind::Asa(left, right) => self.search(left, right, 0, at),
            Kind::Upon(left, right) if at.time <= at.limit as u64 => self.counted(left, right, at),
            Kind::Upon(_, _) => Ok(None),
            Kind::Attime(left, right) => self.attime(left, right, at),
            Kind::Initial(of) => self.value(of, &Point { space: 0, ..*at }),
            Kind::Succ(of) if at.space < LAST => {
                let space = at.space + 1;
                self.value(of, &Point { space, ..*at })
            }
            Kind::Next(_) | Kind::Succ(_) => Ok(Some(Value::Fault)),
            Kind::Sby(left, _) if at.space == 0 => self.value(left, at),
            Kind::Sby(_, right) => {
                let space = at.space - 1;
                self.value(right, &Point { space, ..*at })
            }
            Kind::Atspace(left, right) => self.atspace(left, right, at),
            Kind::Scope(block) => self.scoped(block, at),
        }
    }

    #[inline(never)]
    fn constant(&self, constant: &Value) -> Result<Option<Value>, AllocError>
        ensures { IfOk result (λ found. option_map plain found ≡ Some (plain constant.now)) }
    {
        Ok(Some(constant.copy(self.alloc)?))
    }

    // A name.
    #[cycle(value)]
    #[inline(never)]
    fn named(&self, name: &Name, at: &Point) -> Result<Option<Value>, AllocError>
        requires point { IsPoint at.now }
        ensures { IfOk result (λ found. option_map plain found
            ≡ below value_of (nothing_held (elements_of self.now.streams.now)) at.now.limit (name_target name.now (env_of at.now.env.now) at.now.time) at.now.space) }
    {
        if at.limit == 0 {
            return Ok(None);
        }
        let limit = at.limit - 1;
        match goal_of(name, at.env, at.time) {
            Target::Element(index) => element(self.alloc, self.streams, name, index),
            Target::Goes { tree, env, time } => {
                let below = Point {
                    env,
                    time,
                    limit,
                    ..*at
                };
                self.value(tree, &below)
            }
            Target::Lost => Ok(None),
        }
    }

    // A choice.
    #[cycle(value)]
    #[inline(never)]
    fn choose(
        &self,
        test: &Tree,
        yes: &Tree,
        no: &Tree,
        at: &Point,
    ) -> Result<Option<Value>, AllocError>
        requires small { nodes test.now + nodes yes.now + nodes no.now < 2 ^ 31 }
        requires applies { Applies test.now × Applies yes.now × Applies no.now }
        requires point { IsPoint at.now }
        ensures { IfOk result (λ found. option_map plain found
            ≡ val (elements_of self.now.streams.now) at.now.limit (form 0 choose_form (a_tree test.now (a_tree yes.now (a_tree no.now no_trees)))) (env_of at.now.env.now) at.now.time at.now.space) }
    {
        match tested(self.value(test, at)?) {
            Turn::On => self.value(yes, at),
            Turn::Off => self.value(no, at),
            Turn::Ends(end) => Ok(end),
        }
    }

    #[cycle(value)]
    #[inline(never)]
    fn both(&self, left: &Tree, right: &Tree, at: &Point) -> Result<Option<Value>, AllocError>
        requires small { nodes left.now + nodes right.now < 2 ^ 31 }
        requires applies { Applies left.now × Applies right.now }
        requires point { IsPoint at.now }
        ensures { IfOk result (λ found. option_map plain found
            ≡ val (elements_of self.now.streams.now) at.now.limit (form 0 both_form (a_tree left.now (a_tree right.now no_trees))) (env_of at.now.env.now) at.now.time at.now.space) }
    {
        match tested(self.value(left, at)?) {
            Turn::On => Ok(truth_alone(self.value(right, at)?)),
            Turn::Off => Ok(Some(Value::Truth(false))),
            Turn::Ends(end) => Ok(end),
        }
    }

    #[cycle(value)]
    #[inline(never)]
    fn either(&self, left: &Tree, right: &Tree, at: &Point) -> Result<Option<Value>, AllocError>
        requires small { nodes left.now + nodes right.now < 2 ^ 31 }
        requires applies { Applies left.now × Applies right.now }
        requires point { IsPoint at.now }
        ensures { IfOk result (λ found. option_map plain found
            ≡ val (elements_of self.now.streams.now) at.now.limit (form 0 either_form (a_tree left.now (a_tree right.now no_trees))) (env_of at.now.env.now) at.now.time at.now.space) }
    {
        match tested(self.value(left, at)?) {
            Turn::On => Ok(Some(Value::Truth(true))),
            Turn::Off => Ok(truth_alone(self.value(right, at)?)),
            Turn::Ends(end) => Ok(end),
        }
    }

    // The subject at the time of the true value of that number, from 0, of the test.
    #[cycle(value)]
    #[inline(never)]
    fn search(
        &self,
        subject: &Tree,
        test: &Tree,
        number: u64,
        at: &Point,
    ) -> Result<Option<Value>, AllocError>
        requires small { nodes subject.now + nodes test.now < 2 ^ 31 }
        requires applies { Applies subject.now × Applies test.now }
        requires point { IsPoint at.now }
        ensures { IfOk result (λ found. option_map plain found
            ≡ found_by self.now.streams.now at.now.limit subject.now test.now (env_of at.now.env.now) at.now.limit 0 number at.now.space) }
    {
        let mut left = number;
        for j in 0..at.limit {
            let time = j as u64;
            match tested(self.value(test, &Point { time, ..*at })?) {
                Turn::On => {
                    if left == 0 {
                        return self.value(subject, &Point { time, ..*at });
                    }
                    left -= 1;
                }
                Turn::Off => {}
                Turn::Ends(end) => return Ok(end),
            }
        }
        Ok(None)
    }

    // A block.
    #[cycle(value)]
    #[inline(never)]
    fn scoped(&self, block: &Block, at: &Point) -> Result<Option<Value>, AllocError>
        requires small { nodes block.now.subject + nodes_in_defs block.now.defs < 2 ^ 31 }
        requires applies { Applies block.now.subject × DefsApply block.now.defs }
        requires point { IsPoint at.now }
        ensures { IfOk result (λ found. option_map plain found
            ≡ val (elements_of self.now.streams.now) at.now.limit (a_block 0 block.now.subject block.now.defs) (env_of at.now.env.now) at.now.time at.now.space) }
    {
        let frozen = frozen_time(&block.defs, at.time);
        let inner = Env::Scope {
            defs: &block.defs,
            frozen,
            rest: at.env,
        };
        self.value(&block.subject, &Point { env: &inner, ..*at })
    }

    #[cycle(value)]
    #[inline(never)]
    fn attime(&self, left: &Tree, right: &Tree, at: &Point) -> Result<Option<Value>, AllocError>
        requires small { nodes left.now + nodes right.now < 2 ^ 31 }
        requires applies { Applies left.now × Applies right.now }
        requires point { IsPoint at.now }
        ensures { IfOk result (λ found. option_map plain found
            ≡ val (elements_of self.now.streams.now) at.now.limit (form 0 attime_form (a_tree left.now (a_tree right.now no_trees))) (env_of at.now.env.now) at.now.time at.now.space) }
    {
        match placed(self.value(right, at)?) {
            Place::At(time) => self.value(left, &Point { time, ..*at }),
            Place::Ends(end) => Ok(end),
        }
    }

    #[cycle(value)]
    #[inline(never)]
    fn atspace(&self, left: &Tree, right: &Tree, at: &Point) -> Result<Option<Value>, AllocError>
        requires small { nodes left.now + nodes right.now < 2 ^ 31 }
        requires applies { Applies left.now × Applies right.now }
        requires point { IsPoint at.now }
        ensures { IfOk result (λ found. option_map plain found
            ≡ val (elements_of self.now.streams.now) at.now.limit (form 0 atspace_form (a_tree left.now (a_tree right.now no_trees))) (env_of at.now.env.now) at.now.time at.now.space) }
    {
        match placed(self.value(right, at)?) {
            Place::At(space) => self.value(left, &Point { space, ..*at }),
            Place::Ends(end) => Ok(end),
        }
    }

    // A data operator on the values of all arguments.
    #[cycle(value)]
    #[inline(never)]
    fn applied(&self, op: Op, args: &Trees, at: &Point) -> Result<Option<Value>, AllocError>
        requires small { nodes_in args.now < 2 ^ 31 }
        requires arity { count args.now ≡ arity op }
        requires applies { AllApply args.now }
        requires point { IsPoint at.now }
        ensures { IfOk result (λ found. option_map plain found
            ≡ val (elements_of self.now.streams.now) at.now.limit (form 0 (apply_form op (count args.now)) args.now) (env_of at.now.env.now) at.now.time at.now.space) }
    {
        let mut values = Vec::with_capacity(self.alloc, args.items().len())?;
        for arg in args.items() {
            match self.value(arg, at)? {
                None => return Ok(None),
                Some(value) => values.push(value)?,
            }
        }
        Ok(Some(apply(self.alloc, op, &values)?))
    }

    // The subject at the number of true values of the test below the time.
    #[cycle(value)]
    #[inline(never)]
    fn counted(&self, subject: &Tree, test: &Tree, at: &Point) -> Result<Option<Value>, AllocError>
        requires small { nodes subject.now + nodes test.now < 2 ^ 31 }
        requires applies { Applies subject.now × Applies test.now }
        requires point { IsPoint at.now }
        ensures { IfOk result (λ found. option_map plain found
            ≡ counted_by self.now.streams.now at.now.limit subject.now test.now (env_of at.now.env.now) at.now.time at.now.time 0 0 at.now.space) }
    {
        let mut number: u64 = 0;
        for time in 0..at.time {
            match tested(self.value(test, &Point { time, ..*at })?) {
                Turn::On => {
                    number += 1;
                }
                Turn::Off => {}
                Turn::Ends(end) => return Ok(end),
            }
        }
        self.value(
            subject,
            &Point {
                time: number,
                ..*at
            },
        )
    }

    // A call.
    #[cycle(value)]
    #[inline(never)]
    fn called(
        &self,
        place: u32,
        name: &Name,
        args: &Trees,
        at: &Point,
    ) -> Result<Option<Value>, AllocError>
        requires small { nodes_in args.now < 2 ^ 31 }
        requires applies { AllApply args.now }
        requires point { IsPoint at.now }
        ensures { IfOk result (λ found. option_map plain found
            ≡ below value_of (nothing_held (elements_of self.now.streams.now)) at.now.limit (call_target place name.now args.now (env_of at.now.env.now) (env_of at.now.env.now) at.now.time) at.now.space) }
    {
        if at.limit == 0 {
            return Ok(None);
        }
        let limit = at.limit - 1;
        match callee_of(name, at.env) {
            Callee::Is {
                names,
                places,
                tree,
                env: outer,
            } => {
                let inner = Env::Args {
                    names,
                    places,
                    actuals: args,
                    caller: at.env,
                    rest: outer,
                };
                self.value(
                    tree,
                    &Point {
                        env: &inner,
                        limit,
                        ..*at
                    },
                )
            }
            Callee::Lost => Ok(None),
        }
    }
}
