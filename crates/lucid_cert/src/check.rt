//! Certificates are checked judgment by judgment.
ghost use Rattle.std.specs.Prelude.{◌≡◌, ℕ, ◌+◌, ◌<◌, ◌≤◌, ◌^◌, ◌↔◌, true, Some, map, length, option_map, IfOk, IfSome, MatchOption};
ghost use Rattle.std.specs.List.{AllByRecursion};
ghost use Rattle.lucid_value.specs.View.{plain};
ghost use Rattle.lucid_tree.specs.Tree.{Head};
ghost use Rattle.lucid_tree.specs.Rows.{plan};
ghost use Rattle.lucid_tree.specs.Levels.{Elements};
ghost use Rattle.lucid_tags.specs.Contexts.{Context};
ghost use Rattle.lucid_tags.specs.Known.{context_of};
ghost use Rattle.lucid_equations.specs.Programs.{table_of};
ghost use Rattle.lucid_equations.specs.Ranges.{NodeNames, sizes};
ghost use Rattle.lucid_equations.specs.Rows.{row_at};
ghost use Rattle.lucid_cert_rules.specs.Certificates.{plain_judgment};
ghost use Rattle.lucid_cert_rules.specs.Fed.{fed};
ghost use Rattle.lucid_cert_rules.specs.Follows.{used, of_part, by_onward, HasForm, FollowsIn, IsOfRoot};
ghost use Rattle.lucid_cert_rules.specs.RestPlans.{IsForm, HasHead, rest_plan, Stands};
ghost use Rattle.lucid_cert_rules.specs.Checking.{IsOfContext, PassesOn, going, row_onward};
ghost use Rattle.lucid_inputs.specs.Inputs.{streams};
ghost use Rattle.lucid_demand_steps.specs.Engine.{AreAskable};
ghost use Rattle.lucid_cert.specs.Checked.{MayBe, Checked};
ghost use Rattle.lucid_cert.specs.CheckReads.{ReadsFor};
ghost use Rattle.lucid_cert.specs.Uses.{told, gives_only, plain_look, IsFed};

use crate::compared::is_element;
use crate::fault::CheckFault;
use crate::uses::applied;
use lucid_cert_rules::{
    JudgmentRow, Look, Position, Rest, Why, begin, context_at, enter_all, onward,
};
use lucid_equations::{Node, Program};
use lucid_inputs::Inputs;
use lucid_ports::Places;
use lucid_tags::{Tag, Tags};
use lucid_tree::LAST;
use lucid_value::Value;
use std::alloc::{AllocError, Global};

// A certificate under check, with its contexts as tags.
struct Check<'a> {
    alloc: Global,
    program: &'a Program,
    judgments: &'a [JudgmentRow],
    tags: Tags,
    contexts: Vec<Option<Tag>>,
}

// Not derived: a derived one is proved again wherever one is dropped.
impl<'a> Drop for Check<'a> {
    fn drop(self) {
        let Check {
            alloc,
            program,
            judgments,
            tags,
            contexts,
        } = self;
    }
}

// A use in its turn: the look that stands next, and the number that the judgment tells for it.
#[derive(Clone, Copy)]
struct NextUse {
    look: Look,
    number: u64,
}

impl<'a> Check<'a> {
    ghost use Rattle.lucid_cert.specs.Checks.{judgments_of, contexts_in, HasRow, IsSoundCheck, IsSameCheck};

    // The value of a use: that of an earlier judgment of this node in this context at this point.
    fn used(&self, before: usize, at: Position, space: u64, number: u64) -> Option<&'a Value>
        requires sound { IsSoundCheck self.now }
        requires before { before ≤ length (judgments_of self.now) }
        requires there { IsOfContext self.now.tags at.context }
        ensures { option_map (λ v. plain v.now) result ≡ used (contexts_in self.now) (judgments_of self.now) before at.node (context_of self.now.tags at.context) at.time space number }
    {
        if number >= before as u64 {
            return None;
        }
        let judgment = &self.judgments[number as usize];
        let context = context_at(self.contexts.as_slice(), judgment.context)?;
        if judgment.node == at.node
            && context == at.context
            && judgment.time == at.time
            && judgment.space == space
        {
            Some(&judgment.value)
        } else {
            None
        }
    }

    // Whether what is left of a plan gives the judgment's value by itself.
    fn gives(&self, rest: Rest, row: &JudgmentRow) -> Result<bool, AllocError>
        requires there { AllByRecursion (λ u. u < length (judgments_of self.now)) row.now.uses }
        requires stands { Stands (length row.now.uses) rest }
        ensures { IfOk result (λ it. (m : ℕ) → (it ≡ true) ↔ gives_only (rest_plan m (map (told (judgments_of self.now)) row.now.uses) rest.entry) (plain row.now.value)) }
    {
        Ok(match rest {
            Rest::Look(_) => false,
            Rest::Value(value) => value.same(&row.value),
            Rest::Truth(holds) => matches!(&row.value, Value::Truth(told) if *told == holds),
            Rest::End => matches!(&row.value, Value::Eod),
            Rest::Fault => matches!(&row.value, Value::Fault),
            Rest::Apply(op) => applied(self.alloc, op, self.judgments, row.uses.items())?.same(
                &row.value,
            ),
        })
    }

    // The value of the next use, where it is one of the look that stands next.
    fn looked_at(&self, before: usize, node: Node, context: Tag, next: NextUse) -> Option<&'a Value>
        requires sound { IsSoundCheck self.now }
        requires before { before ≤ length (judgments_of self.now) }
        requires there { IsOfContext self.now.tags context }
        ensures earlier { IfSome result (λ _. next.number < before) }
        ensures told { IfSome result (λ v. plain v.now ≡ told (judgments_of self.now) next.number) }
        ensures value { (id : ℕ) → row_at (table_of self.now.program.now) id ≡ Some node
            → option_map (λ v. plain v.now) result ≡ of_part (table_of self.now.program.now) (used (contexts_in self.now) (judgments_of self.now) before) id (context_of self.now.tags context) (plain_look next.look) next.number }
    {
        let parts = node.parts();
        let node = *parts.as_slice().get(next.look.part as usize)?;
        let at = Position {
            node,
            context,
            time: next.look.time,
        };
        self.used(before, at, next.look.space, next.number)
    }

    // What is left of the plan of a form once it is fed by the judgment's uses; nothing where one isn't that of the look that stands next.
    fn fed(&self, before: usize, node: Node, context: Tag, row: &JudgmentRow) -> Option<Rest<'a>>
        requires sound { IsSoundCheck self.now }
        requires before { before ≤ length (judgments_of self.now) }
        requires there { IsOfContext self.now.tags context }
        requires form { IsForm node }
        requires in_range { NodeNames (sizes (table_of self.now.program.now)) node }
        requires time { row.now.time < 2 ^ 63 }
        ensures { IsFed (table_of self.now.program.now) (contexts_in self.now) (judgments_of self.now) before node (context_of self.now.tags context) (plain_judgment row.now) result }
    {
        let mut rest = begin(self.program, node, row.time, row.space);
        let uses = row.uses.items();
        for number in uses {
            let Rest::Look(look) = rest else {
                return None;
            };
            let next = NextUse {
                look,
                number: *number,
            };
            let value = self.looked_at(before, node, context, next)?;
            rest = look.go_on(value);
        }
        Some(rest)
    }

    // Whether the plan of the judgment's form, fed by its uses, gives its value.
    fn is_fed(
        &self,
        before: usize,
        node: Node,
        context: Tag,
        row: &JudgmentRow,
    ) -> Result<bool, AllocError>
        requires sound { IsSoundCheck self.now }
        requires before { before ≤ length (judgments_of self.now) }
        requires there { IsOfContext self.now.tags context }
        requires form { IsForm node }
        requires in_range { NodeNames (sizes (table_of self.now.program.now)) node }
        requires time { row.now.time < 2 ^ 63 }
        ensures { IfOk result (λ it. (id : ℕ) (f : Head) → row_at (table_of self.now.program.now) id ≡ Some node → HasHead (table_of self.now.program.now) node f
            → (it ≡ true) ↔ (fed (of_part (table_of self.now.program.now) (used (contexts_in self.now) (judgments_of self.now) before) id (context_of self.now.tags context))
            (plan (row.now.time + length row.now.uses) f row.now.time row.now.space) row.now.uses ≡ Some (plain row.now.value))) }
    {
        match self.fed(before, node, context, row) {
            Some(rest) => self.gives(rest, row),
            None => Ok(false),
        }
    }

    // Whether the judgment has one use, which has its value where its node goes on.
    fn is_passed_on(&self, before: usize, at: Option<Position>, row: &JudgmentRow) -> bool
        requires sound { IsSoundCheck self.now }
        requires before { before ≤ length (judgments_of self.now) }
        requires there { IfSome at (λ p. IsOfContext self.now.tags p.context) }
        ensures { (b : Elements) → (result ≡ true) ↔ (by_onward b (used (contexts_in self.now) (judgments_of self.now) before) (going self.now.tags at) row.now.space row.now.uses ≡ Some (plain row.now.value)) }
    {
        match (at, row.uses.items()) {
            (Some(at), [number]) => match self.used(before, at, row.space, *number) {
                Some(value) => value.same(&row.value),
                None => false,
            },
            _ => false,
        }
    }

    // The same where it is told what the node is.
    fn passes_on(
        &mut self,
        before: usize,
        node: Node,
        context: Tag,
        row: &JudgmentRow,
    ) -> Result<bool, AllocError>
        requires sound { IsSoundCheck self.old }
        requires before { before ≤ length (judgments_of self.old) }
        requires there { IsOfContext self.old.tags context }
        requires passes { PassesOn node }
        requires in_range { NodeNames (sizes (table_of self.old.program.now)) node }
        ensures sound { IsSoundCheck self.new }
        ensures same { IsSameCheck self.old self.new }
        ensures follows { IfOk result (λ it. (b : Elements)
            → (it ≡ true) ↔ (by_onward b (used (contexts_in self.old) (judgments_of self.old) before)
            (row_onward (table_of self.old.program.now) node (context_of self.old.tags context) row.now.time) row.now.space row.now.uses ≡ Some (plain row.now.value))) }
    {
        let at = onward(self.program, &mut self.tags, node, context, row.time)?;
        Ok(self.is_passed_on(before, at, row))
    }

    // The node and the context of a judgment that can follow.
    fn form(&self, row: &JudgmentRow) -> Option<(Node, Tag)>
        requires { IsSoundCheck self.now }
        ensures { MatchOption result ((c : Context) → HasForm (table_of self.now.program.now) (contexts_in self.now) (plain_judgment row.now) c → ⊥)
            (λ x. HasRow (table_of self.now.program.now) self.now (plain_judgment row.now) x.0 x.1) }
    {
        if row.time > LAST || row.space > LAST || row.node >= self.program.nodes() {
            return None;
        }
        let context = context_at(self.contexts.as_slice(), row.context)?;
        Some((self.program.node(row.node), context))
    }

    // Whether the judgment of a number follows. Its form, its context and its uses are looked at before an element is read.
    fn follows<P: Places>(
        &mut self,
        places: &mut P,
        inputs: &mut Inputs,
        number: usize,
    ) -> Result<bool, CheckFault>
        requires sound { IsSoundCheck self.old }
        requires number { number < length (judgments_of self.old) }
        requires streams { length (streams inputs.old) ≡ length (table_of self.old.program.now).inputs }
        requires askable { AreAskable (streams inputs.old) (P.world places.old) }
        ensures sound { IsSoundCheck self.new }
        ensures same { IsSameCheck self.old self.new }
        ensures follows { IfOk result (λ it. (b : Elements) → MayBe (table_of self.old.program.now) inputs.new b
            → (it ≡ true) ↔ FollowsIn (table_of self.old.program.now) b (contexts_in self.old) (judgments_of self.old) number) }
        ensures reads { ReadsFor (table_of self.old.program.now) (contexts_in self.old) (judgments_of self.old) number inputs.old inputs.new (P.world places.old) (P.world places.new) result }
    {
        let row = &self.judgments[number];
        let Some((node, context)) = self.form(row) else {
            return Ok(false);
        };
        match node {
            Node::Input { stream } => {
                if !row.uses.items().is_empty() {
                    return Ok(false);
                }
                is_element(inputs, places, stream, row.time, &row.value)
            }
            Node::Freeze { .. } | Node::Refer { .. } | Node::Call { .. } => {
                Ok(self.passes_on(number, node, context, row)?)
            }
            _ => Ok(self.is_fed(number, node, context, row)?),
        }
    }

    // Whether the judgment is of the root in the empty context at space 0.
    fn is_of_root(&self, number: usize) -> bool
        requires sound { IsSoundCheck self.now }
        requires number { number < length (judgments_of self.now) }
        ensures { (result ≡ true) ↔ IsOfRoot (table_of self.now.program.now) (contexts_in self.now) (judgments_of self.now) number }
    {
        let row = &self.judgments[number];
        if row.node != self.program.root() || row.space != 0 {
            return false;
        }
        match context_at(self.contexts.as_slice(), row.context) {
            Some(context) => context == self.tags.root(),
            None => false,
        }
    }
}

/// Checks a certificate against a program and its inputs. It is right where each judgment follows from earlier ones, and the last is of
/// the root in the empty context at space 0. Judgments are looked at in order, and no element is read past the first that doesn't follow.
pub fn check_why<P: Places>(
    alloc: Global,
    program: &Program,
    places: &mut P,
    inputs: &mut Inputs,
    why: &Why,
) -> Result<(), CheckFault>
    requires streams { length (streams inputs.old) ≡ length (table_of program.now).inputs }
    requires askable { AreAskable (streams inputs.old) (P.world places.old) }
    requires some { 0 < length why.now.judgments }
    ensures { Checked (table_of program.now) why.now inputs.old inputs.new (P.world places.old) (P.world places.new) result }
{
    // The names of the inputs differ.
    let _ = program.table();
    // For the proof: no two streams are read from one place.
    lucid_inputs::places_differ();
    let mut tags = Tags::make(alloc);
    let contexts = enter_all(alloc, program, &mut tags, why.contexts.items())?;
    let judgments = why.judgments.items();
    let mut check = Check {
        alloc,
        program,
        judgments,
        tags,
        contexts,
    };
    for number in 0..judgments.len() {
        if !check.follows(places, inputs, number)? {
            return Err(CheckFault::Wrong {
                judgment: number as u64,
            });
        }
    }
    let last = judgments.len() - 1;
    if check.is_of_root(last) {
        Ok(())
    } else {
        Err(CheckFault::Wrong {
            judgment: last as u64,
        })
    }
}
