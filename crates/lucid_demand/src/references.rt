//! A reference is answered by the held value of its daton, or goes on with its body.
ghost use Rattle.std.specs.Prelude.{◌≡◌, Some, None, IfOk, OnOk, IfSome, length, ◌<◌};
ghost use Rattle.lucid_tags.specs.Known.{IsKnown};
ghost use Rattle.lucid_store.specs.Entries.{value_at, IsTouched};
ghost use Rattle.lucid_demand_steps.specs.Tasks.{plain_task};
ghost use Rattle.lucid_demand_steps.specs.Parts.{node_of, IsReference};
ghost use Rattle.lucid_demand.specs.Evaluating.{gave};
ghost use Rattle.lucid_demand.specs.Acting.{DemandIn};
ghost use Rattle.lucid_demand.specs.Asking.{CanAsk, FindsAim, MayRefer, AsksIn, SetsPart};

use crate::DemandFault;
use crate::turn::Evaluation;
use lucid_demand_steps::{Aim, Called, Named, call_aim, moved_on, name_aim};
use lucid_equations::Node;
use lucid_retire::Retire;
use lucid_schedule::Pick;
use lucid_tasks::{Key, Part, Task};
use lucid_value::Value;
use std::alloc::AllocError;

impl<R: Retire, S: Pick> Evaluation<R, S> {
    /// Asks for a reference, for a part or for the demand's answer. A held value is given at once, at any depth; then the policy has its
    /// turn, so that it is told of each key that is touched. Else the reference's body is asked for.
    #[inline(never)]
    pub(crate) fn ask_reference(
        &mut self,
        part: Option<Part>,
        task: Task,
        answer: &mut Option<Value>,
    ) -> Result<(), DemandFault>
        requires can { CanAsk self.old part task }
        requires open { answer.old ≡ None }
        requires reference { IsReference (node_of self.old.engine.table (plain_task self.old.engine.known task)) }
        ensures sets { OnOk result (IfSome part (SetsPart self.old self.new)) }
        ensures open { IfSome part (λ p. answer.new ≡ None) }
        ensures asks { (i : DemandIn) → MayRefer i.demand self.old i.world part task → AsksIn i.demand self.old self.new i.world part (gave result answer.new) }
    {
        let Some(aim) = self.aim(task)? else {
            return Err(DemandFault::TooDeep);
        };
        if let Some(value) = self.copy_held(aim.key)? {
            self.give(part, value, answer);
            self.drop_values();
            return Ok(());
        }
        if task.depth == 0 {
            return Err(DemandFault::TooDeep);
        }
        let body = moved_on(&self.program, &mut self.tags, aim.task(task.depth - 1))?;
        self.ask_body(part, body, aim.key, answer)
    }

    // What a task's reference goes on with.
    #[inline(always)]
    fn aim(&mut self, task: Task) -> Result<Option<Aim>, AllocError>
        requires there { task.node < length self.old.engine.table.nodes }
        requires known { IsKnown self.old.engine.known task.tag }
        ensures { FindsAim self.old self.new task result }
    {
        match self.program.node(task.node) {
            Node::Refer { name, level } => {
                let named = Named { name, level };
                Ok(name_aim(&self.program, &self.tags, named, task.tag, task.time))
            }
            Node::Call { name, place, level } => {
                let call = Called { name, place, level };
                call_aim(&self.program, &mut self.tags, call, task.tag, task.time)
            }
            _ => Ok(None),
        }
    }

    /// A copy of the value that is held under a key.
    #[inline(always)]
    pub(crate) fn copy_held(&mut self, key: Key) -> Result<Option<Value>, AllocError>
        ensures value { IfOk result (λ found. found ≡ value_at self.old.engine.stored key) }
        ensures touched { IsTouched self.old.engine.stored self.new.engine.stored key }
        ensures only { self.new ≡ record self.old { engine = record self.old.engine { stored = self.new.engine.stored } } }
    {
        let Some(value) = self.warehouse.get(key) else {
            return Ok(None);
        };
        Ok(Some(value.copy(self.alloc)?))
    }
}
