//! What a ready row does next. It is decided by the row alone, and takes no memory.
ghost use Rattle.std.specs.Prelude.{◌≡◌, ℕ, ◌<◌, ◌≤◌, length, List, Option, Some, option_map, option_copied, is_none, get_or, slice_get};
ghost use Rattle.lucid_ops.specs.Arity.{arity};
ghost use Rattle.lucid_value.specs.View.{plain};
ghost use Rattle.lucid_tree.specs.Forms.{part_count};
ghost use Rattle.lucid_tree.specs.Rows.{last};
ghost use Rattle.lucid_equations.specs.Steps.{StepLooks};
ghost use Rattle.lucid_tags.specs.Contexts.{Context};
ghost use Rattle.lucid_tasks.specs.Rows.{TaskRow, IsRow, row_at, got_of};
ghost use Rattle.lucid_equations.specs.Programs.{table_of};
ghost use Rattle.lucid_demand_steps.specs.Tasks.{plain_row};
ghost use Rattle.lucid_demand_steps.specs.Justified.{Justified};
ghost use Rattle.lucid_demand_steps.specs.Ready.{MayDecide, argument_of};
ghost use Rattle.lucid_demand_steps.specs.Taken.{settled};
ghost use Rattle.lucid_equations.specs.declared.rows.Node.TheVariants as node;

use crate::moving::at_point;
use lucid_equations::{
    Answer, Given, Node, PartAt, Place, Program, Start, Step, after, begin, judged,
};
use lucid_ops::Op;
use lucid_tasks::{Task, Tasks};
use lucid_tree::Form;
use lucid_value::Value;

/// What a ready row does next.
#[derive(Clone, Copy)]
pub enum Decision {
    /// It settles with the value of a part.
    Part {
        /// Which part.
        index: u32,
    },
    /// It settles with an operator applied to its arguments' values.
    Apply {
        /// The operator.
        op: Op,
        /// The nodes of its arguments, as many as it has.
        args: [u32; 3],
    },
    /// It settles with a constant.
    Constant {
        /// The constant's number.
        constant: u32,
    },
    /// It settles with a truth, which its form gives by itself.
    Truth(bool),
    /// It settles with the end of data.
    End,
    /// It settles with an error.
    Fault,
    /// It asks for a part.
    Ask {
        /// Which part.
        index: u32,
        /// The task that gives the part its value.
        task: Task,
    },
    /// It asks for its arguments that have no value yet.
    AskAll {
        /// The operator.
        op: Op,
        /// The nodes of its arguments, as many as it has.
        args: [u32; 3],
    },
    /// Its search goes on to the next time, after a truth.
    LookOn {
        /// The truth.
        seen: bool,
    },
    /// It asks for what its reference goes on with.
    Refer {
        /// The reference's own task.
        task: Task,
    },
    /// It reads the element of its time.
    Read {
        /// The input's number.
        stream: u32,
    },
    /// Its approximation has no value.
    Refuse,
}

/// The value of an operator's argument, if it is there: the part's, or a constant's, where it stands in the table.
#[inline(always)]
pub fn argument<'a>(
    program: &'a Program,
    tasks: &'a Tasks,
    slot: usize,
    index: u32,
    node: u32,
) -> Option<&'a Value>
    requires row { IsRow tasks.now slot }
    requires index { index < 3 }
    requires node { node < length (table_of program.now).nodes }
    ensures { option_map plain (option_copied result) ≡ argument_of (table_of program.now) tasks.now slot index node }
{
    match tasks.got(slot, index) {
        Some(value) => Some(value),
        None => match program.node(node) {
            Node::Const { constant } => Some(program.constant(constant)),
            _ => None,
        },
    }
}

// A row settles with what its form gives by itself.
#[inline(always)]
fn settled(given: Given) -> Decision
    ensures { result ≡ settled given }
{
    match given {
        Given::Truth(holds) => Decision::Truth(holds),
        Given::End => Decision::End,
        Given::Fault => Decision::Fault,
    }
}

// A ready row: its slot and its task.
#[derive(Clone, Copy)]
struct Ready {
    slot: usize,
    task: Task,
}

impl Ready {
    ghost use Rattle.lucid_demand_steps.specs.Taken.{place_of, parts_at, IsAskFor, IsFormRow, MayTake, DecidesFor, DecidesIn};

    // Where the row is taken, and where its search stands.
    #[inline(always)]
    fn place(self, tasks: &Tasks) -> Place
        requires { IsRow tasks.now self.slot }
        ensures row { (known : List Context) (its : TaskRow) → row_at tasks.now self.slot ≡ Some its → its.task ≡ self.task → result ≡ place_of (plain_row known its) }
        ensures space { result.space ≤ last }
    {
        let cursor = tasks.cursor(self.slot);
        Place {
            time: self.task.time,
            space: self.task.tag.space(),
            limit: u64::from(self.task.depth),
            reached: cursor.time,
            count: cursor.count,
        }
    }

    // Asks for a part, at a time and a space.
    #[inline(always)]
    fn ask(self, program: &Program, at: PartAt) -> Decision
        requires node { self.task.node < length (table_of program.now).nodes }
        requires part { at.part < length (parts_at (table_of program.now) self.task.node) }
        requires space { at.space ≤ last }
        ensures { IsAskFor self.task (get_or (parts_at (table_of program.now) self.task.node) at.part 0) at result }
    {
        let parts = program.node(self.task.node).parts();
        let node = parts.as_slice()[at.part as usize];
        Decision::Ask {
            index: at.part,
            task: at_point(self.task, node, at.time, at.space),
        }
    }

    // What the row does whose form takes a step.
    #[inline(always)]
    fn take(self, program: &Program, tasks: &Tasks, step: Step) -> Decision
        requires row { IsRow tasks.now self.slot }
        requires node { self.task.node < length (table_of program.now).nodes }
        requires few { length (parts_at (table_of program.now) self.task.node) ≤ 3 }
        requires looks { StepLooks (length (parts_at (table_of program.now) self.task.node)) step }
        ensures { (known : List Context) (its : TaskRow) (f : Form) → IsFormRow (table_of program.now) known tasks.now self.slot self.task its f
            → MayTake f (plain_row known its) step → Justified (table_of program.now) known (plain_row known its) result }
    {
        match step {
            Step::Part(at) => match tasks.got(self.slot, at.part) {
                Some(_) => Decision::Part { index: at.part },
                None => self.ask(program, at),
            },
            Step::Judge(at) => match tasks.got(self.slot, at.part) {
                Some(value) => settled(judged(Answer::of(value))),
                None => self.ask(program, at),
            },
            Step::Give(given) => settled(given),
            Step::On { seen } => Decision::LookOn { seen },
            Step::Nothing => Decision::Refuse,
        }
    }

    // What the row of a form over streams does, by the form's step where its search stands.
    #[inline(always)]
    fn stream(self, program: &Program, tasks: &Tasks, form: Form) -> Decision
        requires row { IsRow tasks.now self.slot }
        requires node { self.task.node < length (table_of program.now).nodes }
        requires count { length (parts_at (table_of program.now) self.task.node) ≡ part_count form }
        ensures { (known : List Context) (its : TaskRow) → IsFormRow (table_of program.now) known tasks.now self.slot self.task its form
            → Justified (table_of program.now) known (plain_row known its) result }
    {
        let place = self.place(tasks);
        match begin(form, place) {
            Start::Look(at) => match tasks.got(self.slot, at.part) {
                Some(value) => self.take(program, tasks, after(form, place, Answer::of(value))),
                None => self.ask(program, at),
            },
            Start::Step(step) => self.take(program, tasks, step),
        }
    }

    // Whether a part has no value yet.
    #[inline(always)]
    fn lacks(self, tasks: &Tasks, index: u32) -> bool
        requires row { IsRow tasks.now self.slot }
        requires index { index < 3 }
        ensures { result ≡ is_none (got_of tasks.now (record { slot = self.slot; index = index })) }
    {
        tasks.got(self.slot, index).is_none()
    }

    #[inline(always)]
    fn lacks_argument(self, program: &Program, tasks: &Tasks, index: u32, node: u32) -> bool
        requires row { IsRow tasks.now self.slot }
        requires index { index < 3 }
        requires node { node < length (table_of program.now).nodes }
        ensures { result ≡ is_none (argument_of (table_of program.now) tasks.now self.slot index node) }
    {
        argument(program, tasks, self.slot, index, node).is_none()
    }

    #[inline(always)]
    fn apply(self, program: &Program, tasks: &Tasks, op: Op, args: [u32; 3]) -> Decision
        requires row { IsRow tasks.now self.slot }
        requires there { (i n : ℕ) → i < arity op → slice_get args i ≡ Some n → n < length (table_of program.now).nodes }
        ensures { DecidesIn (table_of program.now) tasks.now self.slot self.task (node.Apply op args) result }
    {
        let arity = op.arity();
        let [first, second, third] = args;
        if self.lacks_argument(program, tasks, 0, first) {
            return Decision::AskAll { op, args };
        }
        if arity == 1 {
            return Decision::Apply { op, args };
        }
        if self.lacks_argument(program, tasks, 1, second) {
            return Decision::AskAll { op, args };
        }
        if arity == 2 {
            return Decision::Apply { op, args };
        }
        if self.lacks_argument(program, tasks, 2, third) {
            return Decision::AskAll { op, args };
        }
        Decision::Apply { op, args }
    }

    #[inline(always)]
    fn refer(self, tasks: &Tasks) -> Decision
        requires { IsRow tasks.now self.slot }
        ensures names { (name level : ℕ) → DecidesFor tasks.now self.slot self.task (node.Refer name level) result }
        ensures calls { (name place level : ℕ) → DecidesFor tasks.now self.slot self.task (node.Call name place level) result }
    {
        if self.lacks(tasks, 0) {
            Decision::Refer { task: self.task }
        } else {
            Decision::Part { index: 0 }
        }
    }

    #[inline(always)]
    fn read(self, stream: u32) -> Decision
        ensures { (forest : List (Option TaskRow)) → DecidesFor forest self.slot self.task (node.Input stream) result }
    {
        if self.task.depth == 0 {
            Decision::Refuse
        } else {
            Decision::Read { stream }
        }
    }
}

/// What the ready row in a slot does next, by the row and the program alone. It takes no memory.
#[inline(always)]
pub fn decide(program: &Program, tasks: &Tasks, slot: usize) -> Decision
    ghost known: { List Context }
    requires { MayDecide (table_of program.now) known tasks.now slot }
    ensures { (its : TaskRow) → row_at tasks.now slot ≡ Some its → Justified (table_of program.now) known (plain_row known its) result }
{
    let task = tasks.task(slot);
    let ready = Ready { slot, task };
    let node = program.node(task.node);
    match node {
        Node::Const { constant } => Decision::Constant { constant },
        Node::Input { stream } => ready.read(stream),
        Node::Apply { op, args } => ready.apply(program, tasks, op, args),
        Node::Refer { .. } | Node::Call { .. } => ready.refer(tasks),
        // These go as the forms below do, without the second match: `if` comes most, and a search comes here once for each time it looks at.
        Node::If { .. } => ready.stream(program, tasks, Form::If),
        Node::Whenever { .. } => ready.stream(program, tasks, Form::Whenever),
        Node::Asa { .. } => ready.stream(program, tasks, Form::Asa),
        Node::Upon { .. } => ready.stream(program, tasks, Form::Upon),
        Node::Freeze { .. } => unreachable!(),
        // What only moves the point is passed before a row is made: of these, `next` and `succ` come here, at the last time and space.
        _ => match node.read() {
            Some((form, _)) => ready.stream(program, tasks, form),
            None => unreachable!(),
        },
    }
}
