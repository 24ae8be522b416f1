//! An operator is asked for. Where both its arguments are told at once, as those of `a + 1` are where `a` is held, it is applied at once, and has no
//! row.
ghost use Rattle.std.specs.Prelude.{◌≡◌, ◌<◌, ◌∷◌, [], None, IfSome, IfOk, OnOk, length};
ghost use Rattle.lucid_value.specs.View.{plain};
ghost use Rattle.lucid_ops.specs.Algebra.{algebra};
ghost use Rattle.lucid_ops.specs.Arity.{arity};
ghost use Rattle.lucid_tags.specs.Known.{IsKnown};
ghost use Rattle.lucid_tasks.specs.Rows.{IsIdlePart};
ghost use Rattle.lucid_demand.specs.Evaluating.{gave};
ghost use Rattle.lucid_demand.specs.Acting.{DemandIn};
ghost use Rattle.lucid_demand.specs.Asking.{AsksIn, SetsPart};
ghost use Rattle.lucid_demand.specs.Naming.{MayHaveRow, MayGiveAtOnce};
ghost use Rattle.lucid_demand.specs.Telling.{IsOperation, IsSeenAs, LooksAt, HasFirst};
ghost use Rattle.lucid_demand.specs.Leading.{LeadsTo, OnDone};

use crate::DemandFault;
use crate::turn::Evaluation;
use lucid_demand_steps::Aim;
use lucid_equations::Node;
use lucid_ops::{Op, apply_to_two};
use lucid_retire::Retire;
use lucid_schedule::Pick;
use lucid_tasks::{Key, Part, Task};
use lucid_value::Value;
use std::alloc::{AllocError, Global};

/// An operator of two arguments, and their nodes.
#[derive(Clone, Copy)]
struct Operation {
    op: Op,
    first: u32,
    second: u32,
}

// So many operators are looked at in one step. Without a limit `x + f(x + 1)`, where a call asks for the next one before x is computed, would have a row at
// each call for the x of every call round it.
const MOST_OPERATORS: u32 = 2;

// A task that is asked for, for a part or for the demand's answer. The body of a reference has its key.
#[derive(Clone, Copy)]
struct Wanted {
    part: Option<Part>,
    task: Task,
    key: Option<Key>,
}

// The body of the reference with this key, for a part of a row.
#[inline(always)]
fn for_part(slot: usize, index: u32, body: Task, key: Key) -> Wanted
    ensures { result ≡ record { part = Some (record { slot = slot; index = index }); task = body; key = Some key } }
{
    Wanted {
        part: Some(Part { slot, index }),
        task: body,
        key: Some(key),
    }
}

// What an argument is before it is asked for: one that has its value at once, a constant or a name that is held; a name that isn't held, with what
// it goes on with; or another.
#[derive(Drop)]
enum Argument {
    Told(Value),
    Absent(Aim),
    Other,
}

// An operator applied to two values, which are dropped here: so none is owned any more where memory lacks, or lacks later.
#[inline(always)]
fn applied_to_both(alloc: Global, op: Op, first: Value, second: Value) -> Result<Value, AllocError>
    requires { arity op ≡ 2 }
    ensures { IfOk result (λ value. plain value ≡ algebra op (plain first ∷ plain second ∷ [])) }
{
    apply_to_two(alloc, op, &first, &second)
}

impl<R: Retire, S: Pick> Evaluation<R, S> {
    /// Asks for a task that doesn't move the point, for a part or for the demand's answer, which is the body of a reference where there is a key.
    /// An operator whose two arguments are told is applied. Else the task has a row, which has the first argument where that was told; and the body of
    /// a name that was looked up and isn't held is asked for at once, in the same way where it is such an operator, but for few in a row.
    #[inline(never)]
    pub(crate) fn ask_operator(
        &mut self,
        part: Option<Part>,
        task: Task,
        key: Option<Key>,
        answer: &mut Option<Value>,
    ) -> Result<(), DemandFault>
        requires idle { IfSome part (IsIdlePart self.old.rows) }
        requires there { task.node < length self.old.engine.table.nodes }
        requires known { IsKnown self.old.engine.known task.tag }
        requires open { answer.old ≡ None }
        ensures sets { OnOk result (IfSome part (SetsPart self.old self.new)) }
        ensures open { IfSome part (λ p. answer.new ≡ None) }
        ensures asks { (i : DemandIn) (x : Task) → MayHaveRow i.demand self.old i.world part x task key → AsksIn i.demand self.old self.new i.world part (gave result answer.new) }
    {
        let mut wanted = Wanted { part, task, key };
        for _ in 0..MOST_OPERATORS {
            let Some(next) = self.ask_operation(wanted, answer)? else {
                return Ok(());
            };
            if !self.may_be_told(next.task.node) {
                return self.ask_other(next, answer);
            }
            wanted = next;
        }
        self.ask_other(wanted, answer)
    }

    // The same, but that the body of a name that isn't held is given back as what is wanted next. No look is made twice: the row's own turn would look
    // the name up again. The policy has its turn after each look that found something, so that it is told of each key that is touched.
    #[inline(always)]
    fn ask_operation(
        &mut self,
        wanted: Wanted,
        answer: &mut Option<Value>,
    ) -> Result<Option<Wanted>, DemandFault>
        requires idle { IfSome wanted.part (IsIdlePart self.old.rows) }
        requires there { wanted.task.node < length self.old.engine.table.nodes }
        requires known { IsKnown self.old.engine.known wanted.task.tag }
        requires open { answer.old ≡ None }
        ensures sets { OnDone result (λ done. OnOk done (IfSome wanted.part (SetsPart self.old self.new))) }
        ensures open { IfSome wanted.part (λ p. answer.new ≡ None) }
        ensures asks { (i : DemandIn) (x : Task) → MayHaveRow i.demand self.old i.world wanted.part x wanted.task wanted.key
            → OnDone result (λ done. AsksIn i.demand self.old self.new i.world wanted.part (gave done answer.new)) }
        ensures next { IfOk result (λ next. IfSome next (λ n. LeadsTo self.old self.new wanted n × (answer.new ≡ None))) }
    {
        let Wanted { part, task, key } = wanted;
        let Some(operation) = self.operation(task.node) else {
            return self.ask_row(part, task, key);
        };
        let argument = Task {
            node: operation.first,
            ..task
        };
        let first = match self.look(argument)? {
            Argument::Told(value) => value,
            Argument::Absent(aim) => {
                let slot = self.tasks.ask(part, task, key)?;
                let body = self.body_of(argument, aim)?;
                return Ok(Some(for_part(slot, 0, body, aim.key)));
            }
            Argument::Other => return self.ask_row(part, task, key),
        };
        self.drop_values();
        let argument = Task {
            node: operation.second,
            ..task
        };
        let second = match self.look(argument)? {
            Argument::Told(value) => value,
            Argument::Absent(aim) => {
                let slot = self.ask_row_with(part, task, key, first)?;
                let body = self.body_of(argument, aim)?;
                return Ok(Some(for_part(slot, 1, body, aim.key)));
            }
            Argument::Other => {
                self.ask_row_with(part, task, key, first)?;
                return Ok(None);
            }
        };
        let value = applied_to_both(self.alloc, operation.op, first, second)?;
        self.give_at_once(part, key, value, answer)?;
        Ok(None)
    }

    // Asks for what is no operator whose arguments may be told: a name is looked up, and all else has a row.
    #[inline(always)]
    fn ask_other(&mut self, wanted: Wanted, answer: &mut Option<Value>) -> Result<(), DemandFault>
        requires idle { IfSome wanted.part (IsIdlePart self.old.rows) }
        requires there { wanted.task.node < length self.old.engine.table.nodes }
        requires known { IsKnown self.old.engine.known wanted.task.tag }
        requires open { answer.old ≡ None }
        ensures sets { OnOk result (IfSome wanted.part (SetsPart self.old self.new)) }
        ensures open { IfSome wanted.part (λ p. answer.new ≡ None) }
        ensures asks { (i : DemandIn) (x : Task) → MayHaveRow i.demand self.old i.world wanted.part x wanted.task wanted.key
            → AsksIn i.demand self.old self.new i.world wanted.part (gave result answer.new) }
    {
        let Wanted { part, task, key } = wanted;
        match (self.program.node(task.node), key) {
            (Node::Refer { .. }, Some(key)) => self.ask_named(part, task, key, answer),
            _ => {
                self.tasks.ask(part, task, key)?;
                Ok(())
            }
        }
    }

    /// Whether a node is an operator of two arguments each of which may be told at once, as it is a constant or a name. It is asked before the call:
    /// any other operator has its row without one.
    #[inline(always)]
    pub(crate) fn may_be_told(&self, node: u32) -> bool
        requires { node < length self.now.engine.table.nodes }
    {
        match self.operation(node) {
            Some(operation) => self.is_plain(operation.first) && self.is_plain(operation.second),
            None => false,
        }
    }

    // Whether a node is a constant or a name.
    #[inline(always)]
    fn is_plain(&self, node: u32) -> bool
        requires { node < length self.now.engine.table.nodes }
    {
        matches!(
            self.program.node(node),
            Node::Const { .. } | Node::Refer { .. }
        )
    }

    // What a node applies, if that is an operator of two arguments.
    #[inline(always)]
    fn operation(&self, node: u32) -> Option<Operation>
        requires { node < length self.now.engine.table.nodes }
        ensures { IfSome result (IsOperation self.now.engine.table node) }
    {
        match self.program.node(node) {
            Node::Apply { op, args } if op.arity() == 2 => {
                let [first, second, _] = args;
                Some(Operation { op, first, second })
            }
            _ => None,
        }
    }

    // What an argument is before it is asked for.
    #[inline(always)]
    fn look(&mut self, task: Task) -> Result<Argument, AllocError>
        requires there { task.node < length self.old.engine.table.nodes }
        requires known { IsKnown self.old.engine.known task.tag }
        ensures looks { LooksAt self.old self.new }
        ensures seen { IfOk result (IsSeenAs self.new task) }
    {
        if let Node::Const { constant } = self.program.node(task.node) {
            return Ok(Argument::Told(self.program.constant(constant).copy(self.alloc)?));
        }
        let Some(aim) = self.named_aim(task) else {
            return Ok(Argument::Other);
        };
        match self.copy_held(aim.key)? {
            Some(value) => Ok(Argument::Told(value)),
            None => Ok(Argument::Absent(aim)),
        }
    }

    // A row waits for a task, and nothing else is wanted.
    #[inline(always)]
    fn ask_row(
        &mut self,
        part: Option<Part>,
        task: Task,
        key: Option<Key>,
    ) -> Result<Option<Wanted>, DemandFault>
        requires idle { IfSome part (IsIdlePart self.old.rows) }
        ensures sets { OnDone result (λ done. OnOk done (IfSome part (SetsPart self.old self.new))) }
        ensures asks { (i : DemandIn) (x : Task) → MayHaveRow i.demand self.old i.world part x task key
            → OnDone result (λ done. AsksIn i.demand self.old self.new i.world part (gave done None)) }
        ensures done { IfOk result (λ next. next ≡ None) }
    {
        self.tasks.ask(part, task, key)?;
        Ok(None)
    }

    // A row waits for a task, and has the value of its first part. Its slot is answered.
    #[inline(always)]
    fn ask_row_with(
        &mut self,
        part: Option<Part>,
        task: Task,
        key: Option<Key>,
        first: Value,
    ) -> Result<usize, AllocError>
        requires idle { IfSome part (IsIdlePart self.old.rows) }
        ensures rows { IfOk result (λ slot. HasFirst self.old.rows self.new.rows part slot task key first) }
        ensures only { self.new.engine ≡ self.old.engine }
    {
        let slot = self.tasks.ask(part, task, key)?;
        let _ = self.tasks.give(Some(Part { slot, index: 0 }), first);
        Ok(slot)
    }

    // The value of a task is given. Under a key it is put first.
    #[inline(always)]
    fn give_at_once(
        &mut self,
        part: Option<Part>,
        key: Option<Key>,
        value: Value,
        answer: &mut Option<Value>,
    ) -> Result<(), DemandFault>
        requires idle { IfSome part (IsIdlePart self.old.rows) }
        requires open { answer.old ≡ None }
        ensures sets { OnOk result (IfSome part (SetsPart self.old self.new)) }
        ensures open { IfSome part (λ p. answer.new ≡ None) }
        ensures asks { (i : DemandIn) (x y : Task) → MayGiveAtOnce i.demand self.old i.world part x y key value → AsksIn i.demand self.old self.new i.world part (gave result answer.new) }
    {
        if let Some(key) = key {
            return self.give_named(part, key, value, answer);
        }
        self.give(part, value, answer);
        self.drop_values();
        Ok(())
    }
}
