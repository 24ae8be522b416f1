//! A certificate in the making, and the steps of the walk by which it is made.
ghost use Rattle.std.specs.Prelude.{◌≡◌, ℕ, ◌<◌, ◌≤◌, ◌^◌, [], Some, map, length, ◌++◌, ◌∷◌, IfOk, OnOk, IfErr, IfSome, IfNone, option_to_list};
ghost use Rattle.std.specs.List.{AllByRecursion};
ghost use Rattle.lucid_value.specs.View.{plain};
ghost use Rattle.lucid_tree.specs.Rows.{last};
ghost use Rattle.lucid_tree.specs.Levels.{Elements};
ghost use Rattle.lucid_tags.specs.Contexts.{root as empty_context};
ghost use Rattle.lucid_tags.specs.Known.{context_of, number_of, space_of};
ghost use Rattle.lucid_equations.specs.Programs.{table_of};
ghost use Rattle.lucid_equations.specs.Ranges.{IsInRange, NodeIsInRange, sizes};
ghost use Rattle.lucid_equations.specs.Rows.{node_at, node_by, row_at};
ghost use Rattle.lucid_equations.specs.declared.rows.Node.TheVariants.{Input};
ghost use Rattle.lucid_inputs.specs.Inputs.{streams};
ghost use Rattle.lucid_demand_steps.specs.Engine.{AreAskable};
ghost use Rattle.lucid_demand_steps.specs.Tasks.{PlainTask};
ghost use Rattle.lucid_cert_rules.specs.Checking.{PassesOn};
ghost use Rattle.lucid_cert_rules.specs.RestPlans.{rest_plan, Stands};
ghost use Rattle.lucid_cert_rules.specs.declared.rest.Look.{Look as NextLook};
ghost use Rattle.lucid_cert_rules.specs.declared.rest.Rest.TheVariants as rests;
ghost use Rattle.lucid_cert.specs.Checked.{MayBe};
ghost use Rattle.lucid_cert.specs.Uses.{told, gives_only};
ghost use Rattle.lucid_cert.specs.Makings.{HasUse};

use crate::elements::element;
use crate::making::{Making, Next, Spot, is_allowed};
use crate::{applied, told};
use indexmap::IndexSet;
use lucid_cert_rules::{
    ContextRows, JudgmentRow, JudgmentRows, Look, Position, Rest, Why, begin, onward, rows_of,
};
use lucid_demand_steps::DemandFault;
use lucid_equations::{Node, Program};
use lucid_inputs::Inputs;
use lucid_lists::Numbers;
use lucid_ports::Places;
use lucid_tags::{Key, Tags};
use lucid_value::Value;
use std::alloc::{AllocError, Global};
use std::mem;

// How many judgments there may be, and how many uses of one.
const MOST: usize = u32::MAX as usize;

/// A certificate in the making: the judgments that are made, each with the key of its node in its context at its point, and those that
/// wait, the innermost last.
pub(crate) struct Maker<'a> {
    alloc: Global,
    program: &'a Program,
    tags: Tags,
    keys: IndexSet<Key>,
    judgments: Vec<JudgmentRow>,
    waiting: Vec<Making>,
}

// Not derived: a derived one is proved again wherever one is dropped.
impl<'a> Drop for Maker<'a> {
    fn drop(self) {
        let Maker {
            alloc,
            program,
            tags,
            keys,
            judgments,
            waiting,
        } = self;
    }
}

// The key of a node in a context at a point.
fn key_of(at: Position, space: u64) -> Key
    requires { space < 2 ^ 63 }
    ensures node { result.name ≡ at.node }
    ensures context { number_of result.tag ≡ number_of at.context }
    ensures time { result.time ≡ at.time }
    ensures space { space_of result.tag ≡ space }
{
    Key {
        name: at.node,
        tag: at.context.at_space(space),
        time: at.time,
    }
}

// The judgment with one more use.
fn with_use(making: Making, number: u64) -> Result<Making, AllocError>
    ensures { IfOk result (HasUse making number) }
{
    let mut making = making;
    making.uses.push(number)?;
    Ok(making)
}

impl<'a> Maker<'a> {
    ghost use Rattle.lucid_cert.specs.Makers.{table_in, judgments_of, spot_at, AreKeysOf, IsJudgmentAt, IsMade, MayJudge, IsForming, IsWaiting, Wants, IsSoundMaker, GivesBy, AreFollowing, Goes, IsRoot, Leaves};
    ghost use Rattle.lucid_cert.specs.Reads.{IsOwn, ReadsElement, ReadsFor, ReadsNext};
    ghost use Rattle.lucid_cert.specs.Certified.{IsCertificate};
    ghost use Rattle.lucid_cert.specs.Wanted.{task_at, IsWanted, HasCome, MayWait, AreWanted, references_of, StaysWanted};

    /// Nothing is made, and nothing waits.
    pub(crate) fn new(alloc: Global, program: &'a Program) -> Maker<'a>
        ensures sound { IsSoundMaker result }
        ensures table { table_in result ≡ table_of program.now }
        ensures judgments { judgments_of result ≡ [] }
        ensures waiting { result.waiting.items ≡ [] }
    {
        Maker {
            alloc,
            program,
            tags: Tags::make(alloc),
            keys: IndexSet::new(alloc),
            judgments: Vec::new(alloc),
            waiting: Vec::new(alloc),
        }
    }

    /// The root in the empty context at a time.
    pub(crate) fn root(&self, time: u64) -> Position
        requires { time ≤ last }
        ensures root { IsRoot (table_in self.now) result }
        ensures time { result.time ≡ time }
        ensures may { MayJudge (table_in self.now) self.now.tags result 0 }
        ensures empty { context_of self.now.tags result.context ≡ empty_context }
    {
        Position {
            node: self.program.root(),
            context: self.tags.root(),
            time,
        }
    }

    /// The innermost judgment that waits waits no more.
    pub(crate) fn innermost(&mut self) -> Option<Making>
        requires { IsSoundMaker self.old }
        ensures waiting { self.old.waiting.items ≡ self.new.waiting.items ++ option_to_list result }
        ensures leaves { Leaves self.old self.new }
        ensures it { IfSome result (IsWaiting (table_in self.new) self.new.tags (judgments_of self.new)) }
        ensures none { IfNone result (self.old.waiting.items ≡ []) }
    {
        self.waiting.pop()
    }

    /// The certificate whose last judgment is the root's at a time, which is made. It takes the judgments with it.
    pub(crate) fn finish(&mut self, root: Position) -> Result<Why, AllocError>
        requires sound { IsSoundMaker self.old }
        requires root { IsRoot (table_in self.old) root }
        requires made { IsMade (judgments_of self.old) root 0 }
        ensures { IfOk result (λ w. (b : Elements) → AreFollowing b self.old → IsCertificate (table_in self.old) b w root.time) }
    {
        let Some(number) = self.number_of(root, 0) else {
            unreachable!()
        };
        let contexts = rows_of(self.alloc, &self.tags)?;
        self.judgments.truncate(number + 1);
        let judgments = mem::replace(&mut self.judgments, Vec::new(self.alloc));
        Ok(Why {
            contexts: ContextRows::from_vec(contexts),
            judgments: JudgmentRows::from_vec(judgments),
        })
    }

    // The number of the judgment that is made of this node in this context at this point.
    fn number_of(&self, at: Position, space: u64) -> Option<usize>
        requires keys { AreKeysOf self.now.keys.keys (judgments_of self.now) }
        requires space { space ≤ last }
        ensures there { IfSome result (IsJudgmentAt (judgments_of self.now) (spot_at at space)) }
        ensures none { IfNone result (IsMade (judgments_of self.now) at space → ⊥) }
    {
        let (number, _) = self.keys.get_full(&key_of(at, space))?;
        Some(number)
    }

    // The value of a judgment.
    fn value(&self, number: u64) -> &Value
        requires { number < length (judgments_of self.now) }
        ensures { plain result.now ≡ told (judgments_of self.now) number }
    {
        told(self.judgments.as_slice(), number)
    }

    // The value that a plan gives by itself, once it looks at nothing more.
    fn given(&self, rest: Rest, uses: &[u64]) -> Result<Value, AllocError>
        requires no_look { (l : NextLook) → rest ≡ rests.Look l → ⊥ }
        requires there { AllByRecursion (λ u. u < length (judgments_of self.now)) uses.now }
        requires stands { Stands (length uses.now) rest }
        ensures { IfOk result (λ v. (m : ℕ) → gives_only (rest_plan m (map (told (judgments_of self.now)) uses.now) rest.entry) (plain v)) }
    {
        match rest {
            Rest::Look(_) => unreachable!(),
            Rest::Value(value) => value.copy(self.alloc),
            Rest::Truth(holds) => Ok(Value::Truth(holds)),
            Rest::End => Ok(Value::Eod),
            Rest::Fault => Ok(Value::Fault),
            Rest::Apply(op) => applied(self.alloc, op, self.judgments.as_slice(), uses),
        }
    }

    // The judgment is made, unless it was made before. More than the most are want of memory.
    fn make(
        &mut self,
        at: Position,
        space: u64,
        uses: Vec<u64>,
        value: Value,
    ) -> Result<(), AllocError>
        requires sound { IsSoundMaker self.old }
        requires may { MayJudge (table_in self.old) self.old.tags at space }
        requires earlier { AllByRecursion (λ u. u < length (judgments_of self.old)) uses.items }
        ensures goes { OnOk result (Goes self.old self.new at space) }
        ensures follow { OnOk result ((b : Elements) → GivesBy (table_in self.old) b self.old.tags (judgments_of self.old) at space uses.items (plain value)
            → AreFollowing b self.old → AreFollowing b self.new) }
        ensures wanted { OnOk result ((b : Elements) (root : PlainTask) → AreWanted b root self.old → AreWanted b root self.new) }
    {
        if self.judgments.len() >= MOST || uses.len() >= MOST {
            return Err(AllocError);
        }
        let row = JudgmentRow {
            node: at.node,
            context: at.context.number(),
            time: at.time,
            space,
            uses: Numbers::from_vec(uses),
            value,
        };
        let added = self.keys.insert(key_of(at, space))?;
        if !added {
            return Ok(());
        }
        self.judgments.push(row)?;
        Ok(())
    }

    // The judgment waits.
    fn wait(&mut self, making: Making) -> Result<(), AllocError>
        requires sound { IsSoundMaker self.old }
        requires waiting { IsWaiting (table_in self.old) self.old.tags (judgments_of self.old) making }
        ensures table { table_in self.new ≡ table_in self.old }
        ensures known { self.new.tags ≡ self.old.tags }
        ensures judgments { judgments_of self.new ≡ judgments_of self.old }
        ensures waiting { OnOk result (self.new.waiting.items ≡ self.old.waiting.items ++ making ∷ []) }
        ensures goes { OnOk result (Goes self.old self.new making.at making.space) }
        ensures follow { OnOk result ((b : Elements) → AreFollowing b self.old → AreFollowing b self.new) }
        ensures wanted { OnOk result ((b : Elements) (root : PlainTask) → MayWait (table_in self.old) b root self.old.tags making → AreWanted b root self.old → AreWanted b root self.new) }
    {
        self.waiting.push(making)?;
        Ok(())
    }

    // The judgment waits for the value of a look, which its limit has to allow.
    fn wait_for(&mut self, making: Making, look: Look) -> Result<(), DemandFault>
        requires sound { IsSoundMaker self.old }
        requires may { MayJudge (table_in self.old) self.old.tags making.at making.space }
        requires forming { IsForming (table_in self.old) self.old.tags (judgments_of self.old) making.at making.space making.uses.items (rests.Look look) }
        ensures goes { OnOk result (Goes self.old self.new making.at making.space) }
        ensures follow { OnOk result ((b : Elements) → AreFollowing b self.old → AreFollowing b self.new) }
        ensures own { IfErr result IsOwn }
        ensures wanted { (b : Elements) (root : PlainTask) → IsInRange (table_in self.old) → IsWanted (table_in self.old) b root (task_at self.old.tags making.at making.space making.limit)
            → HasCome (table_in self.old) b (task_at self.old.tags making.at making.space making.limit) (rests.Look look) → AreWanted b root self.old → StaysWanted b root self.old self.new result }
    {
        if !is_allowed(&look, making.limit) {
            return Err(DemandFault::TooDeep);
        }
        let waiting = Making {
            next: Next::Look(look),
            ..making
        };
        Ok(self.wait(waiting)?)
    }

    // The judgment goes on with what is left of its form's plan: it waits for a look, or it is made.
    fn go_on(&mut self, making: Making, rest: Rest) -> Result<(), DemandFault>
        requires sound { IsSoundMaker self.old }
        requires may { MayJudge (table_in self.old) self.old.tags making.at making.space }
        requires forming { IsForming (table_in self.old) self.old.tags (judgments_of self.old) making.at making.space making.uses.items rest }
        ensures goes { OnOk result (Goes self.old self.new making.at making.space) }
        ensures follow { OnOk result ((b : Elements) → AreFollowing b self.old → AreFollowing b self.new) }
        ensures own { IfErr result IsOwn }
        ensures wanted { (b : Elements) (root : PlainTask) → IsInRange (table_in self.old) → IsWanted (table_in self.old) b root (task_at self.old.tags making.at making.space making.limit)
            → HasCome (table_in self.old) b (task_at self.old.tags making.at making.space making.limit) rest.entry → AreWanted b root self.old → StaysWanted b root self.old self.new result }
    {
        if let Rest::Look(look) = rest {
            return self.wait_for(making, look);
        }
        let value = self.given(rest, making.uses.as_slice())?;
        Ok(self.make(making.at, making.space, making.uses, value)?)
    }

    // A judgment of an input is made: its element is looked up.
    fn read<P: Places>(
        &mut self,
        places: &mut P,
        inputs: &mut Inputs,
        stream: u32,
        spot: Spot,
    ) -> Result<(), DemandFault>
        requires sound { IsSoundMaker self.old }
        requires may { MayJudge (table_in self.old) self.old.tags spot.at spot.space }
        requires row { row_at (table_in self.old) spot.at.node ≡ Some (Input stream) }
        requires meaning { node_at (table_in self.old) spot.at.node ≡ node_by (table_in self.old) (Input stream) }
        requires stream { stream < length (table_in self.old).inputs }
        requires streams { length (streams inputs.old) ≡ length (table_in self.old).inputs }
        requires askable { AreAskable (streams inputs.old) (P.world places.old) }
        ensures goes { OnOk result (Goes self.old self.new spot.at spot.space) }
        ensures follow { OnOk result ((b : Elements) → MayBe (table_in self.old) inputs.new b → AreFollowing b self.old → AreFollowing b self.new) }
        ensures reads { ReadsElement (Unit {0}) inputs.old inputs.new stream spot.at.time (P.world places.old) (P.world places.new) result }
        ensures wanted { OnOk result ((b : Elements) (root : PlainTask) → AreWanted b root self.old → AreWanted b root self.new) }
    {
        // The names of the inputs differ.
        let _ = self.program.table();
        let value = element(self.alloc, places, inputs, stream, spot.at.time)?;
        Ok(self.make(spot.at, spot.space, Vec::new(self.alloc), value)?)
    }

    // The judgment waits for what a frozen time, a reference or a call goes on with, so many references further on.
    fn wait_on(&mut self, making: Making, node: Node, references: u32) -> Result<(), DemandFault>
        requires sound { IsSoundMaker self.old }
        requires may { MayJudge (table_in self.old) self.old.tags making.at making.space }
        requires no_uses { making.uses.items ≡ [] }
        requires row { row_at (table_in self.old) making.at.node ≡ Some node }
        requires meaning { node_at (table_in self.old) making.at.node ≡ node_by (table_in self.old) node }
        requires in_range { NodeIsInRange (sizes (table_in self.old)) making.at.node node }
        requires passes { PassesOn node }
        requires references { references ≡ references_of node }
        ensures goes { OnOk result (Goes self.old self.new making.at making.space) }
        ensures follow { OnOk result ((b : Elements) → AreFollowing b self.old → AreFollowing b self.new) }
        ensures own { IfErr result IsOwn }
        ensures wanted { (b : Elements) (root : PlainTask) → IsInRange (table_in self.old) → IsWanted (table_in self.old) b root (task_at self.old.tags making.at making.space making.limit)
            → AreWanted b root self.old → StaysWanted b root self.old self.new result }
    {
        let at = onward(
            self.program,
            &mut self.tags,
            node,
            making.at.context,
            making.at.time,
        )?;
        let Some(at) = at else {
            return Err(DemandFault::TooDeep);
        };
        if references > making.limit {
            return Err(DemandFault::TooDeep);
        }
        let waiting = Making {
            next: Next::Position { at, references },
            ..making
        };
        Ok(self.wait(waiting)?)
    }

    /// The judgment of a node begins.
    pub(crate) fn start<P: Places>(
        &mut self,
        places: &mut P,
        inputs: &mut Inputs,
        spot: Spot,
        limit: u32,
    ) -> Result<(), DemandFault>
        requires sound { IsSoundMaker self.old }
        requires may { MayJudge (table_in self.old) self.old.tags spot.at spot.space }
        requires streams { length (streams inputs.old) ≡ length (table_in self.old).inputs }
        requires askable { AreAskable (streams inputs.old) (P.world places.old) }
        ensures goes { OnOk result (Goes self.old self.new spot.at spot.space) }
        ensures follow { OnOk result ((b : Elements) → MayBe (table_in self.old) inputs.new b → AreFollowing b self.old → AreFollowing b self.new) }
        ensures reads { ReadsFor (table_in self.old) spot.at limit inputs.old inputs.new (P.world places.old) (P.world places.new) result }
        ensures wanted { (b : Elements) (root : PlainTask) → IsInRange (table_in self.old) → IsWanted (table_in self.old) b root (task_at self.old.tags spot.at spot.space limit)
            → AreWanted b root self.old → StaysWanted b root self.old self.new result }
    {
        let node = self.program.node(spot.at.node);
        let making = Making {
            at: spot.at,
            space: spot.space,
            limit,
            uses: Vec::new(self.alloc),
            next: Next::Position {
                at: spot.at,
                references: 0,
            },
        };
        match node {
            Node::Input { .. } if limit == 0 => Err(DemandFault::TooDeep),
            Node::Input { stream } => self.read(places, inputs, stream, spot),
            Node::Freeze { .. } => self.wait_on(making, node, 0),
            Node::Refer { .. } | Node::Call { .. } => self.wait_on(making, node, 1),
            _ => {
                let rest = begin(self.program, node, spot.at.time, spot.space);
                self.go_on(making, rest)
            }
        }
    }

    // The judgment has one more use.
    fn uses(&mut self, making: Making, number: usize) -> Result<(), DemandFault>
        requires sound { IsSoundMaker self.old }
        requires waiting { IsWaiting (table_in self.old) self.old.tags (judgments_of self.old) making }
        requires it { (at : Position) (s r : ℕ) → Wants (table_in self.old) making at s r → IsJudgmentAt (judgments_of self.old) (spot_at at s) number }
        ensures goes { OnOk result (Goes self.old self.new making.at making.space) }
        ensures follow { OnOk result ((b : Elements) → AreFollowing b self.old → AreFollowing b self.new) }
        ensures own { IfErr result IsOwn }
        ensures wanted { (b : Elements) (root : PlainTask) → IsInRange (table_in self.old) → AreFollowing b self.old → MayWait (table_in self.old) b root self.old.tags making
            → AreWanted b root self.old → StaysWanted b root self.old self.new result }
    {
        let value = self.value(number as u64).copy(self.alloc)?;
        let making = with_use(making, number as u64)?;
        match making.next {
            Next::Look(look) => self.go_on(making, look.go_on(&value)),
            Next::Position { .. } => { Ok(self.make(making.at, making.space, making.uses, value)?) }
        }
    }

    // Where a judgment wants its next use, and how many references further on.
    fn wanted(&self, making: &Making) -> (Position, u64, u32)
        requires { IsWaiting (table_in self.now) self.now.tags (judgments_of self.now) making.now }
        ensures wants { Wants (table_in self.now) making.now result.0 result.1 result.2 }
        ensures may { MayJudge (table_in self.now) self.now.tags result.0 result.1 }
        ensures references { result.2 ≤ making.now.limit }
    {
        match making.next {
            Next::Look(look) => {
                let parts = self.program.node(making.at.node).parts();
                let at = Position {
                    node: parts.as_slice()[look.part as usize],
                    context: making.at.context,
                    time: look.time,
                };
                (at, look.space, 0)
            }
            Next::Position { at, references } => (at, making.space, references),
        }
    }

    /// The innermost judgment that waits goes on: it uses the one that it wants, where that is made, and else that begins.
    pub(crate) fn step<P: Places>(
        &mut self,
        places: &mut P,
        inputs: &mut Inputs,
        making: Making,
    ) -> Result<(), DemandFault>
        requires sound { IsSoundMaker self.old }
        requires waiting { IsWaiting (table_in self.old) self.old.tags (judgments_of self.old) making }
        requires streams { length (streams inputs.old) ≡ length (table_in self.old).inputs }
        requires askable { AreAskable (streams inputs.old) (P.world places.old) }
        ensures goes { OnOk result (Goes self.old self.new making.at making.space) }
        ensures follow { OnOk result ((b : Elements) → MayBe (table_in self.old) inputs.new b → AreFollowing b self.old → AreFollowing b self.new) }
        ensures reads { ReadsNext (table_in self.old) making inputs.old inputs.new (P.world places.old) (P.world places.new) result }
        ensures wanted { (b : Elements) (root : PlainTask) → IsInRange (table_in self.old) → AreFollowing b self.old → MayWait (table_in self.old) b root self.old.tags making
            → AreWanted b root self.old → StaysWanted b root self.old self.new result }
    {
        let (at, space, references) = self.wanted(&making);
        let Some(number) = self.number_of(at, space) else {
            let limit = making.limit - references;
            self.wait(making)?;
            return self.start(places, inputs, Spot { at, space }, limit);
        };
        self.uses(making, number)
    }
}
