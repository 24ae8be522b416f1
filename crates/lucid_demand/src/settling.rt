//! A row settles: its value stands in its parent's part, or is the demand's.
ghost use Rattle.std.specs.Prelude.{◌≡◌, ℕ, ◌<◌, ◌≤◌, List, ◌∷◌, length, option_map, option_copied, Some, None, OnOk, OnErr, IfOk, IsSome, IsTrue};
ghost use Rattle.lucid_value.specs.Plain.{truth, eod, fault};
ghost use Rattle.lucid_value.specs.View.{plain};
ghost use Rattle.lucid_ops.specs.Arity.{arity};
ghost use Rattle.lucid_tasks.specs.Rows.{row_at, parent_of, key_of, got_of, taken, returned, is_ready, ChangesOnly, IsRow, Settles};
ghost use Rattle.lucid_ports.specs.Faults.{AsksNoneLate};
ghost use Rattle.lucid_demand_steps.specs.Demands.{Demand};
ghost use Rattle.lucid_demand_steps.specs.Engine.{AreAskable};
ghost use Rattle.lucid_demand_steps.specs.declared.decision.Decision.TheVariants as decision;
ghost use Rattle.lucid_demand_steps.specs.Faults.{CountsReadFaults};
ghost use Rattle.lucid_demand.specs.Evaluating.{gave, Stepped};
ghost use Rattle.lucid_demand.specs.Acting.{DemandIn, Settling, MayAct, MayGive, MaySettle, IsKept, IsReadyTask, IsThere, AreThere, Applies, value_of};
ghost use Rattle.lucid_demand.specs.Reading.{ReadsElement};

use crate::DemandFault;
use crate::turn::Evaluation;
use lucid_demand_steps::argument;
use lucid_ops::{Op, apply_to_one, apply_to_three, apply_to_two};
use lucid_ports::Places;
use lucid_retire::Retire;
use lucid_schedule::Pick;
use lucid_tasks::{Key, Part};
use lucid_value::Value;
use std::alloc::AllocError;

impl<R: Retire, S: Pick> Evaluation<R, S> {
    /// Puts a copy of a value under a key.
    #[inline(always)]
    pub(crate) fn put(&mut self, key: Key, value: &Value) -> Result<(), AllocError>
        ensures kept { OnOk result (IsKept (Some key) self.old.engine self.new.engine value.now) }
        ensures rows { self.new.rows ≡ self.old.rows }
        ensures err { OnErr result (self.new ≡ self.old) }
    {
        let copy = value.copy(self.alloc)?;
        let _ = self.warehouse.put(key, copy);
        Ok(())
    }

    // The same under the key that a row remembers, if it remembers one.
    #[inline(always)]
    fn put_remembered(&mut self, slot: usize, value: &Value) -> Result<(), AllocError>
        requires { IsRow self.old.rows slot }
        ensures kept { OnOk result (IsKept (key_of self.old.rows slot) self.old.engine self.new.engine value.now) }
        ensures rows { self.new.rows ≡ self.old.rows }
        ensures err { OnErr result (self.new ≡ self.old) }
    {
        match self.tasks.key(slot) {
            Some(key) => self.put(key, value),
            None => Ok(()),
        }
    }

    // Takes the value of a part that has one.
    #[inline(always)]
    fn take_part(&mut self, slot: usize, index: u32) -> Value
        requires row { IsRow self.old.rows slot }
        requires index { index < 3 }
        requires got { IsSome (got_of self.old.rows (record { slot = slot; index = index })) }
        ensures value { got_of self.old.rows (record { slot = slot; index = index }) ≡ Some result }
        ensures rows { ChangesOnly self.old.rows self.new.rows slot (taken index) }
        ensures engine { self.new.engine ≡ self.old.engine }
    {
        match self.tasks.take(Part { slot, index }) {
            Some(value) => value,
            None => unreachable!(),
        }
    }

    // The value of an argument, if it is there.
    #[inline(always)]
    pub(crate) fn argument(&self, slot: usize, index: u32, node: u32) -> Option<&Value>
        requires row { IsRow self.now.rows slot }
        requires index { index < 3 }
        requires node { node < length self.now.engine.table.nodes }
        ensures { option_map plain (option_copied result) ≡ value_of self.now slot index node }
    {
        argument(&self.program, &self.tasks, slot, index, node)
    }

    // An operator applied to the value of its argument, where it lies.
    #[inline(never)]
    fn applied_to_one(&self, slot: usize, op: Op, first: u32) -> Result<Value, AllocError>
        requires row { IsRow self.now.rows slot }
        requires count { arity op ≡ 1 }
        requires first { IsThere self.now slot 0 first }
        ensures { IfOk result (λ v. (rest : List ℕ) → Applies self.now slot op (first ∷ rest) v) }
    {
        match self.argument(slot, 0, first) {
            Some(first) => apply_to_one(self.alloc, op, first),
            None => unreachable!(),
        }
    }

    // The same with two values.
    #[inline(always)]
    fn applied_to_two(
        &self,
        slot: usize,
        op: Op,
        first: u32,
        second: u32,
    ) -> Result<Value, AllocError>
        requires row { IsRow self.now.rows slot }
        requires count { arity op ≡ 2 }
        requires first { IsThere self.now slot 0 first }
        requires second { IsThere self.now slot 1 second }
        ensures { IfOk result (λ v. (rest : List ℕ) → Applies self.now slot op (first ∷ second ∷ rest) v) }
    {
        match (
            self.argument(slot, 0, first),
            self.argument(slot, 1, second),
        ) {
            (Some(first), Some(second)) => apply_to_two(self.alloc, op, first, second),
            _ => unreachable!(),
        }
    }

    // The same with three values.
    #[inline(never)]
    fn applied_to_three(&self, slot: usize, op: Op, args: [u32; 3]) -> Result<Value, AllocError>
        requires row { IsRow self.now.rows slot }
        requires count { arity op ≡ 3 }
        requires there { AreThere self.now slot 3 args }
        ensures { IfOk result (Applies self.now slot op args) }
    {
        let [first, second, third] = args;
        match (
            self.argument(slot, 0, first),
            self.argument(slot, 1, second),
            self.argument(slot, 2, third),
        ) {
            (Some(first), Some(second), Some(third)) => {
                apply_to_three(self.alloc, op, first, second, third)
            }
            _ => unreachable!(),
        }
    }

    // An operator applied to the values of its arguments.
    #[inline(always)]
    fn applied(&self, slot: usize, op: Op, args: [u32; 3]) -> Result<Value, AllocError>
        requires row { IsRow self.now.rows slot }
        requires there { AreThere self.now slot (arity op) args }
        ensures { IfOk result (Applies self.now slot op args) }
    {
        let [first, second, third] = args;
        match op.arity() {
            1 => self.applied_to_one(slot, op, first),
            2 => self.applied_to_two(slot, op, first, second),
            _ => self.applied_to_three(slot, op, args),
        }
    }

    // A copy of the element of a time. The stream is read on for it.
    fn element<P: Places>(
        &mut self,
        places: &mut P,
        stream: u32,
        time: u64,
    ) -> Result<Value, DemandFault>
        requires stream { stream < length self.old.engine.streams }
        requires askable { AreAskable self.old.engine.streams (P.world places.old) }
        ensures reads { ReadsElement self.old.engine self.new.engine stream time (P.world places.old) (P.world places.new) result }
        ensures rows { self.new.rows ≡ self.old.rows }
        ensures late { AsksNoneLate (P.world places.old) (P.world places.new) }
    {
        Ok(self.inputs.element(places, stream, time)?.copy(self.alloc)?)
    }

    // The row goes, and its value is that of the part that it was asked for, or the answer. An answer is written only where there is one.
    #[inline(always)]
    fn leave(&mut self, slot: usize, value: Value, answer: &mut Option<Value>)
        requires ready { IsTrue (is_ready (row_at self.old.rows slot)) }
        requires open { answer.old ≡ None }
        ensures rows { Settles self.old.rows self.new.rows slot value }
        ensures answer { answer.new ≡ returned (parent_of self.old.rows slot) value }
        ensures only { self.new ≡ record self.old { rows = self.new.rows } }
    {
        if let Some(value) = self.tasks.settle(slot, value) {
            *answer = Some(value);
        }
    }

    // The row's value: its daton's, where it remembers one.
    #[inline(always)]
    pub(crate) fn settle(
        &mut self,
        slot: usize,
        value: Value,
        answer: &mut Option<Value>,
    ) -> Result<(), DemandFault>
        requires ready { IsTrue (is_ready (row_at self.old.rows slot)) }
        requires open { answer.old ≡ None }
        ensures { (s : Settling) → MaySettle s self.old slot value
            → Stepped s.demand (record { engine = self.old.engine; rows = s.before }) self.new s.world s.world (gave result answer.new) }
    {
        self.put_remembered(slot, &value)?;
        self.leave(slot, value, answer);
        Ok(())
    }

    #[inline(never)]
    pub(crate) fn settle_part(
        &mut self,
        slot: usize,
        index: u32,
        answer: &mut Option<Value>,
    ) -> Result<(), DemandFault>
        requires ready { IsTrue (is_ready (row_at self.old.rows slot)) }
        requires index { index < 3 }
        requires got { IsSome (got_of self.old.rows (record { slot = slot; index = index })) }
        requires open { answer.old ≡ None }
        ensures { (i : DemandIn) → MayAct i.demand self.old i.world slot (decision.Part index) → Stepped i.demand self.old self.new i.world i.world (gave result answer.new) }
    {
        let value = self.take_part(slot, index);
        self.settle(slot, value, answer)
    }

    #[inline(never)]
    pub(crate) fn settle_applied(
        &mut self,
        slot: usize,
        op: Op,
        args: [u32; 3],
        answer: &mut Option<Value>,
    ) -> Result<(), DemandFault>
        requires ready { IsTrue (is_ready (row_at self.old.rows slot)) }
        requires there { AreThere self.old slot (arity op) args }
        requires open { answer.old ≡ None }
        ensures { (i : DemandIn) → MayAct i.demand self.old i.world slot (decision.Apply op args) → Stepped i.demand self.old self.new i.world i.world (gave result answer.new) }
    {
        let value = self.applied(slot, op, args)?;
        self.settle(slot, value, answer)
    }

    #[inline(never)]
    pub(crate) fn settle_constant(
        &mut self,
        slot: usize,
        constant: u32,
        answer: &mut Option<Value>,
    ) -> Result<(), DemandFault>
        requires ready { IsTrue (is_ready (row_at self.old.rows slot)) }
        requires there { constant < length self.old.engine.table.constants }
        requires open { answer.old ≡ None }
        ensures { (i : DemandIn) → MayAct i.demand self.old i.world slot (decision.Constant constant) → Stepped i.demand self.old self.new i.world i.world (gave result answer.new) }
    {
        let value = self.program.constant(constant).copy(self.alloc)?;
        self.settle(slot, value, answer)
    }

    // A truth is passed as such, as no value is to those below: so a turn clears no room for one.
    #[inline(never)]
    pub(crate) fn settle_truth(
        &mut self,
        slot: usize,
        holds: bool,
        answer: &mut Option<Value>,
    ) -> Result<(), DemandFault>
        requires ready { IsTrue (is_ready (row_at self.old.rows slot)) }
        requires open { answer.old ≡ None }
        ensures { (i : DemandIn) → MayGive i.demand self.old i.world slot (truth holds) → Stepped i.demand self.old self.new i.world i.world (gave result answer.new) }
    {
        self.settle(slot, Value::Truth(holds), answer)
    }

    // Settles with the end of data, once its search was noted.
    #[inline(never)]
    pub(crate) fn end_of_data(
        &mut self,
        slot: usize,
        answer: &mut Option<Value>,
    ) -> Result<(), DemandFault>
        requires ready { IsReadyTask self.old slot }
        requires open { answer.old ≡ None }
        ensures { (i : DemandIn) → MayGive i.demand self.old i.world slot eod → Stepped i.demand self.old self.new i.world i.world (gave result answer.new) }
    {
        self.end(slot, Value::Eod, answer)
    }

    // The same with an error.
    #[inline(never)]
    pub(crate) fn end_in_error(
        &mut self,
        slot: usize,
        answer: &mut Option<Value>,
    ) -> Result<(), DemandFault>
        requires ready { IsReadyTask self.old slot }
        requires open { answer.old ≡ None }
        ensures { (i : DemandIn) → MayGive i.demand self.old i.world slot fault → Stepped i.demand self.old self.new i.world i.world (gave result answer.new) }
    {
        self.end(slot, Value::Fault, answer)
    }

    // The same with either.
    #[inline(never)]
    fn end(
        &mut self,
        slot: usize,
        value: Value,
        answer: &mut Option<Value>,
    ) -> Result<(), DemandFault>
        requires ready { IsReadyTask self.old slot }
        requires open { answer.old ≡ None }
        ensures { (i : DemandIn) → MayGive i.demand self.old i.world slot (plain value) → Stepped i.demand self.old self.new i.world i.world (gave result answer.new) }
    {
        self.note_here(slot);
        self.settle(slot, value, answer)
    }

    #[inline(never)]
    pub(crate) fn read<P: Places>(
        &mut self,
        places: &mut P,
        slot: usize,
        stream: u32,
        answer: &mut Option<Value>,
    ) -> Result<(), DemandFault>
        requires ready { IsTrue (is_ready (row_at self.old.rows slot)) }
        requires stream { stream < length self.old.engine.streams }
        requires askable { AreAskable self.old.engine.streams (P.world places.old) }
        requires open { answer.old ≡ None }
        ensures steps { (d : Demand) → MayAct d self.old (P.world places.old) slot (decision.Read stream) → Stepped d self.old self.new (P.world places.old) (P.world places.new) (gave result answer.new) }
        ensures faults { (P.world places.old).faults ≤ (P.world places.new).faults }
        ensures counts { CountsReadFaults result (P.world places.old) (P.world places.new) }
        ensures late { AsksNoneLate (P.world places.old) (P.world places.new) }
    {
        let time = self.tasks.task(slot).time;
        let value = self.element(places, stream, time)?;
        self.settle(slot, value, answer)
    }
}
