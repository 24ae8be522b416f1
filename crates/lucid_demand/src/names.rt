//! The body of a reference is asked for. Where it is a name, that is looked for at once.
ghost use Rattle.std.specs.Prelude.{◌≡◌, ◌<◌, Some, None, IfSome, IfOk, IfErr, OnOk, length};
ghost use Rattle.lucid_tags.specs.Known.{IsKnown, KeepsKnown};
ghost use Rattle.lucid_tasks.specs.Rows.{IsIdlePart};
ghost use Rattle.lucid_store.specs.Entries.{value_at};
ghost use Rattle.lucid_demand.specs.Evaluating.{gave};
ghost use Rattle.lucid_demand.specs.Acting.{DemandIn};
ghost use Rattle.lucid_demand.specs.Asking.{MayRefer, AsksIn, SetsPart};
ghost use Rattle.lucid_demand.specs.Leading.{GoesOnWith, IsRefused};
ghost use Rattle.lucid_demand.specs.Naming.{IsNamedAim, MayAskBody, MayGiveBody};

use crate::DemandFault;
use crate::turn::Evaluation;
use lucid_demand_steps::{Aim, Named, moved_on, name_aim};
use lucid_equations::Node;
use lucid_retire::Retire;
use lucid_schedule::Pick;
use lucid_tasks::{Key, Part, Task};
use lucid_value::Value;

impl<R: Retire, S: Pick> Evaluation<R, S> {
    /// Asks for the body of a reference with this key, for a part or for the demand's answer. It has a row, which remembers the key. A name is
    /// looked up first.
    #[inline(always)]
    pub(crate) fn ask_body(
        &mut self,
        part: Option<Part>,
        body: Task,
        key: Key,
        answer: &mut Option<Value>,
    ) -> Result<(), DemandFault>
        requires idle { IfSome part (IsIdlePart self.old.rows) }
        requires there { body.node < length self.old.engine.table.nodes }
        requires known { IsKnown self.old.engine.known body.tag }
        requires open { answer.old ≡ None }
        ensures sets { OnOk result (IfSome part (SetsPart self.old self.new)) }
        ensures open { IfSome part (λ p. answer.new ≡ None) }
        ensures asks { (i : DemandIn) (x : Task) → MayAskBody i.demand self.old i.world part x body key → AsksIn i.demand self.old self.new i.world part (gave result answer.new) }
    {
        match self.program.node(body.node) {
            Node::Refer { .. } => self.ask_named(part, body, key, answer),
            Node::Apply { .. } if self.may_be_told(body.node) => {
                self.ask_operator(part, body, Some(key), answer)
            }
            _ => {
                self.tasks.ask(part, body, Some(key))?;
                Ok(())
            }
        }
    }

    // The same of a body that may be a name. Where the name's value is held, that is the reference's value too. Else the body has a row, which
    // asks for the name's own body at once.
    #[inline(never)]
    pub(crate) fn ask_named(
        &mut self,
        part: Option<Part>,
        body: Task,
        key: Key,
        answer: &mut Option<Value>,
    ) -> Result<(), DemandFault>
        requires idle { IfSome part (IsIdlePart self.old.rows) }
        requires there { body.node < length self.old.engine.table.nodes }
        requires known { IsKnown self.old.engine.known body.tag }
        requires open { answer.old ≡ None }
        ensures sets { OnOk result (IfSome part (SetsPart self.old self.new)) }
        ensures open { IfSome part (λ p. answer.new ≡ None) }
        ensures asks { (i : DemandIn) (x : Task) → MayAskBody i.demand self.old i.world part x body key → AsksIn i.demand self.old self.new i.world part (gave result answer.new) }
    {
        let Some(aim) = self.named_aim(body) else {
            self.tasks.ask(part, body, Some(key))?;
            return Ok(());
        };
        if let Some(value) = self.copy_held(aim.key)? {
            return self.give_named(part, key, value, answer);
        }
        let slot = self.tasks.ask(part, body, Some(key))?;
        self.ask_within(Part { slot, index: 0 }, body, aim)
    }

    /// A part of a new row is a name that isn't held: the name's body is asked for. The row's own turn would look the name up again.
    #[inline(never)]
    pub(crate) fn ask_within(&mut self, part: Part, task: Task, aim: Aim) -> Result<(), DemandFault>
        requires idle { IsIdlePart self.old.rows part }
        requires known { IsKnown self.old.engine.known task.tag }
        requires named { IsNamedAim self.old task aim }
        ensures sets { OnOk result (SetsPart self.old self.new part) }
        ensures asks { (i : DemandIn) → MayRefer i.demand self.old i.world (Some part) task → value_at self.old.engine.stored aim.key ≡ None
            → AsksIn i.demand self.old self.new i.world (Some part) (gave result None) }
    {
        let body = self.body_of(task, aim)?;
        self.tasks.ask(Some(part), body, Some(aim.key))?;
        Ok(())
    }

    /// The body of a name that isn't held, after all that only moves the point.
    #[inline(always)]
    pub(crate) fn body_of(&mut self, task: Task, aim: Aim) -> Result<Task, DemandFault>
        requires known { IsKnown self.old.engine.known task.tag }
        requires named { IsNamedAim self.old task aim }
        ensures rows { self.new.rows ≡ self.old.rows }
        ensures only { self.new.engine ≡ record self.old.engine { known = self.new.engine.known } }
        ensures keeps { KeepsKnown self.old.engine.known self.new.engine.known }
        ensures there { IfOk result (λ body. body.node < length self.new.engine.table.nodes) }
        ensures known { IfOk result (λ body. IsKnown self.new.engine.known body.tag) }
        ensures goes_on { IfOk result (GoesOnWith self.old self.new task aim) }
        ensures refused { IfErr result (IsRefused self.old self.new task aim) }
    {
        if task.depth == 0 {
            return Err(DemandFault::TooDeep);
        }
        Ok(moved_on(&self.program, &mut self.tags, aim.task(task.depth - 1))?)
    }

    /// A value that another name has, or that an operator gives, is put under a key, and given. The policy has its turn before and after, so that it
    /// is told of each key that is touched, and nothing is put past its room.
    #[inline(never)]
    pub(crate) fn give_named(
        &mut self,
        part: Option<Part>,
        key: Key,
        value: Value,
        answer: &mut Option<Value>,
    ) -> Result<(), DemandFault>
        requires idle { IfSome part (IsIdlePart self.old.rows) }
        requires open { answer.old ≡ None }
        ensures sets { OnOk result (IfSome part (SetsPart self.old self.new)) }
        ensures open { IfSome part (λ p. answer.new ≡ None) }
        ensures asks { (i : DemandIn) (x y : Task) → MayGiveBody i.demand self.old i.world part x y key value → AsksIn i.demand self.old self.new i.world part (gave result answer.new) }
    {
        self.drop_values();
        self.put(key, &value)?;
        self.give(part, value, answer);
        self.drop_values();
        Ok(())
    }

    /// What a task goes on with, if it is a name that leads somewhere.
    #[inline(always)]
    pub(crate) fn named_aim(&self, task: Task) -> Option<Aim>
        requires there { task.node < length self.now.engine.table.nodes }
        requires known { IsKnown self.now.engine.known task.tag }
        ensures { IfSome result (IsNamedAim self.now task) }
    {
        match self.program.node(task.node) {
            Node::Refer { name, level } => {
                let named = Named { name, level };
                name_aim(&self.program, &self.tags, named, task.tag, task.time)
            }
            _ => None,
        }
    }
}
