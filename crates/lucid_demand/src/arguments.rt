//! A task is asked for: what answers it at once is given, and else a row waits for it.
ghost use Rattle.std.specs.Prelude.{◌≡◌, Some, None, OnOk, IfSome};
ghost use Rattle.lucid_tasks.specs.Rows.{returned, Gives, IsIdlePart};
ghost use Rattle.lucid_demand_steps.specs.declared.decision.Decision.TheVariants as decision;
ghost use Rattle.lucid_demand.specs.Evaluating.{gave, Stepped};
ghost use Rattle.lucid_demand.specs.Acting.{DemandIn, MayAct};
ghost use Rattle.lucid_demand.specs.Asking.{CanAsk, CanAskAll, MayAskNow, AsksIn, SetsPart};

use crate::DemandFault;
use crate::turn::Evaluation;
use lucid_demand_steps::moved_on;
use lucid_equations::Node;
use lucid_ops::Op;
use lucid_retire::Retire;
use lucid_schedule::Pick;
use lucid_tasks::{Part, Task};
use lucid_value::Value;

impl<R: Retire, S: Pick> Evaluation<R, S> {
    /// Asks for a task, for a part or for the demand's answer. What only moves the point is gone through first. A constant is given at once, and
    /// so is a reference whose value is held; else a row waits.
    #[inline(always)]
    pub(crate) fn ask(
        &mut self,
        part: Option<Part>,
        task: Task,
        answer: &mut Option<Value>,
    ) -> Result<(), DemandFault>
        requires can { CanAsk self.old part task }
        requires open { answer.old ≡ None }
        ensures sets { OnOk result (IfSome part (SetsPart self.old self.new)) }
        ensures open { IfSome part (λ p. answer.new ≡ None) }
        ensures asks { (i : DemandIn) → MayAskNow i.demand self.old i.world part task → AsksIn i.demand self.old self.new i.world part (gave result answer.new) }
    {
        let task = moved_on(&self.program, &mut self.tags, task)?;
        match self.program.node(task.node) {
            Node::Const { constant } => {
                let value = self.program.constant(constant).copy(self.alloc)?;
                self.give(part, value, answer);
                Ok(())
            }
            Node::Refer { .. } | Node::Call { .. } => self.ask_reference(part, task, answer),
            Node::Apply { .. } if self.may_be_told(task.node) => {
                self.ask_operator(part, task, None, answer)
            }
            _ => {
                self.tasks.ask(part, task, None)?;
                Ok(())
            }
        }
    }

    /// Gives a part its value, without a row. Where there is no part, that is the answer, which is written only then.
    #[inline(always)]
    pub(crate) fn give(&mut self, part: Option<Part>, value: Value, answer: &mut Option<Value>)
        requires part { IfSome part (IsIdlePart self.old.rows) }
        requires open { answer.old ≡ None }
        ensures rows { Gives self.old.rows self.new.rows part value }
        ensures answer { answer.new ≡ returned part value }
        ensures only { self.new ≡ record self.old { rows = self.new.rows } }
    {
        if let Some(value) = self.tasks.give(part, value) {
            *answer = Some(value);
        }
    }

    // Asks for one part. A search that asks for what it found looks no further, so it is noted.
    #[inline(never)]
    pub(crate) fn ask_one(
        &mut self,
        slot: usize,
        index: u32,
        task: Task,
        answer: &mut Option<Value>,
    ) -> Result<(), DemandFault>
        requires may { (i : DemandIn) × MayAct i.demand self.old i.world slot (decision.Ask index task) }
        requires open { answer.old ≡ None }
        ensures { (i : DemandIn) → MayAct i.demand self.old i.world slot (decision.Ask index task) → Stepped i.demand self.old self.new i.world i.world (gave result answer.new) }
    {
        self.note_end(slot, index);
        self.ask(Some(Part { slot, index }), task, answer)
    }

    // Asks for the arguments of an operator that lack.
    #[inline(never)]
    pub(crate) fn ask_arguments(
        &mut self,
        slot: usize,
        op: Op,
        args: [u32; 3],
        answer: &mut Option<Value>,
    ) -> Result<(), DemandFault>
        requires can { CanAskAll self.old slot op args }
        requires open { answer.old ≡ None }
        ensures { (i : DemandIn) → MayAct i.demand self.old i.world slot (decision.AskAll op args) → Stepped i.demand self.old self.new i.world i.world (gave result answer.new) }
    {
        let task = self.tasks.task(slot);
        for index in 0..op.arity() as u32 {
            let node = args[index as usize];
            if self.argument(slot, index, node).is_none() {
                self.ask(Some(Part { slot, index }), Task { node, ..task }, answer)?;
            }
        }
        Ok(())
    }
}
