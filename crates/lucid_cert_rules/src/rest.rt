//! The plan of a form, as a small value: what it looks at next and what is done with that, or what it gives.
ghost use Rattle.std.specs.Prelude.{◌≡◌, ℕ, suc, ◌+◌, ◌-◌, ◌<◌, ◌≤◌, ◌^◌, List, [], ◌∷◌, ◌++◌, length};
ghost use Rattle.lucid_value.specs.Plain.{PlainValue};
ghost use Rattle.lucid_value.specs.View.{plain};
ghost use Rattle.lucid_ops.specs.Arity.{arity};
ghost use Rattle.lucid_tree.specs.declared.form.Form.TheVariants as forms;
ghost use Rattle.lucid_tree.specs.Forms.{part_count};
ghost use Rattle.lucid_tree.specs.Tree.{Head, stream};
ghost use Rattle.lucid_tree.specs.Rows.{gives, gives_part, count_true, find_true, last, plan};
ghost use Rattle.lucid_equations.specs.Steps.{given_value, step_after, step_plan, IsDecided, IsNoSearch, EndsSearch, StepInside};
ghost use Rattle.lucid_equations.specs.Programs.{table_of};
ghost use Rattle.lucid_equations.specs.Ranges.{NodeNames, sizes};
ghost use Rattle.lucid_equations.specs.Rows.{parts, read};
ghost use Rattle.lucid_equations.specs.declared.table.Table.{Table};
ghost use Rattle.lucid_cert_rules.specs.RestPlans.{IsForm, IsReadAtOnce, HasHead, by_then, rest_plan, CanGoOn, MayGoOn, Stands, IsLookOf, LooksInside, AreFedAlike};
ghost use Rattle.lucid_cert_rules.specs.Told.{at_limit, looked_from, told_plan};
ghost use Rattle.lucid_cert_rules.specs.declared.rest.Then.TheVariants as then;
ghost use Rattle.lucid_cert_rules.specs.declared.rest.Rest.TheVariants as rest;

use lucid_equations::{Answer, Given, Node, Place, Program, Start, Step, after, judged};
use lucid_ops::Op;
use lucid_tree::Form;
use lucid_value::Value;

/// What is done with the value of a look.
#[derive(Clone, Copy)]
pub enum Then {
    /// It is the form's.
    Give,
    /// It is the form's where it is a truth or the end of data.
    Judge,
    /// The form looked at its point, and takes its step by what the value tells.
    Decide { form: Form },
    /// Where it is true, and none more is wanted, part 0 is looked at; else the search goes on.
    Find { wanted: u64 },
    /// It is counted, where it is true, until a time; then part 0 is looked at, at the time that is the count.
    Count { seen: u64, until: u64 },
    /// It is an argument: the next one is looked at, or the operator is applied.
    Argument { op: Op },
}

/// A look at a part of a form, by its index, and what is done with the value.
#[derive(Clone, Copy)]
pub struct Look {
    pub part: u32,
    pub time: u64,
    pub space: u64,
    pub then: Then,
}

/// What is left of a form's plan.
#[derive(Clone, Copy)]
pub enum Rest<'a> {
    /// It looks.
    Look(Look),
    /// It gives this value.
    Value(&'a Value),
    /// It gives a truth, the end of data or an error by itself.
    Truth(bool),
    End,
    Fault,
    /// It gives the operator applied to the values of all its looks.
    Apply(Op),
}

// A look at a part whose value is the form's.
fn give(part: u32, time: u64, space: u64) -> Rest<'static>
    ensures plan { (m : ℕ) (vs : List PlainValue) → rest_plan m vs result ≡ gives_part part time space }
    ensures stands { (k : ℕ) → Stands k result }
    ensures inside { (n : ℕ) → part < n → time ≤ last → space ≤ last → LooksInside n result }
{
    Rest::Look(Look {
        part,
        time,
        space,
        then: Then::Give,
    })
}

// What a form gives by itself.
fn settled(given: Given) -> Rest<'static>
    ensures plan { (m : ℕ) (vs : List PlainValue) → rest_plan m vs result ≡ gives (given_value given) }
    ensures stands { (k : ℕ) → Stands k result }
    ensures inside { (n : ℕ) → LooksInside n result }
{
    match given {
        Given::Truth(holds) => Rest::Truth(holds),
        Given::End => Rest::End,
        Given::Fault => Rest::Fault,
    }
}

// A step after which no search goes on.
fn taken(step: Step) -> Rest<'static>
    requires { EndsSearch step }
    ensures plan { (f : Form) (p : Place) (m : ℕ) (vs : List PlainValue) → rest_plan m vs result ≡ step_plan f p step }
    ensures stands { (k : ℕ) → Stands k result }
    ensures inside { (n : ℕ) → StepInside n step → LooksInside n result }
{
    match step {
        Step::Part(at) => give(at.part, at.time, at.space),
        Step::Judge(at) => here(at.part, at.time, at.space, Then::Judge),
        Step::Give(given) => settled(given),
        Step::On { .. } | Step::Nothing => unreachable!(),
    }
}

impl Look {
    // Where a form stands that looked here: at its own time, with so many true values before.
    fn place(self, time: u64, count: u64) -> Place
        ensures { result ≡ looked_from self time count }
    {
        Place {
            time,
            space: self.space,
            limit: time,
            reached: self.time,
            count,
        }
    }

    // The step of a form that looked at its point, by what the value tells.
    fn decide(self, form: Form, answer: Answer) -> Rest<'static>
        requires { IsDecided form }
        ensures plan { (m : ℕ) (vs : List PlainValue) → rest_plan m vs result ≡ told_plan form (looked_from self self.time 0) answer }
        ensures stands { (k : ℕ) → Stands k result }
        ensures inside { (n : ℕ) → StepInside n (step_after form (looked_from self self.time 0) answer) → LooksInside n result }
    {
        taken(after(form, self.place(self.time, 0), answer))
    }

    // The search at the next time.
    fn search_on(self, wanted: u64) -> Rest<'static>
        requires { self.time + 1 < 2 ^ 64 }
        ensures plan { (m most : ℕ) (vs : List PlainValue) → self.time + 1 + most ≤ m → AreFedAlike most (find_true (m - suc self.time) (suc self.time) wanted self.space) (rest_plan m vs result) }
        ensures stands { (k : ℕ) → self.time ≡ k → Stands (k + 1) result }
        ensures inside { (n : ℕ) → 1 < n → self.space ≤ last → LooksInside n result }
    {
        Rest::Look(Look {
            part: 1,
            time: self.time + 1,
            space: self.space,
            then: Then::Find { wanted },
        })
    }

    fn find(self, answer: Answer, wanted: u64) -> Rest<'static>
        requires { self.time + 1 < 2 ^ 64 }
        ensures plan { (m most : ℕ) (vs : List PlainValue) → self.time + 1 + most ≤ m
            → AreFedAlike most (told_plan forms.Whenever (at_limit m (looked_from self wanted 0)) answer) (rest_plan m vs result) }
        ensures stands { (k : ℕ) → self.time ≡ k → Stands (k + 1) result }
        ensures inside { (n : ℕ) → 1 < n → self.time ≤ last → self.space ≤ last → LooksInside n result }
    {
        match after(Form::Whenever, self.place(wanted, 0), answer) {
            Step::On { seen } => {
                if seen {
                    return self.search_on(wanted - 1);
                }
                self.search_on(wanted)
            }
            step => taken(step),
        }
    }

    // The count at the next time, or what it was for.
    fn count_on(self, seen: u64, until: u64) -> Rest<'static>
        requires below { self.time < until }
        requires few { seen ≤ self.time + 1 }
        requires until { until < 2 ^ 63 }
        ensures plan { (m : ℕ) (vs : List PlainValue) → rest_plan m vs result ≡ count_true (until - suc self.time) (suc self.time) seen self.space until }
        ensures stands { (k : ℕ) → Stands k result }
        ensures inside { (n : ℕ) → 1 < n → self.space ≤ last → LooksInside n result }
    {
        if self.time + 1 == until {
            return give(0, seen, self.space);
        }
        Rest::Look(Look {
            part: 1,
            time: self.time + 1,
            space: self.space,
            then: Then::Count { seen, until },
        })
    }

    fn count(self, answer: Answer, seen: u64, until: u64) -> Rest<'static>
        requires below { self.time < until }
        requires few { seen ≤ self.time }
        requires until { until < 2 ^ 63 }
        ensures plan { (m : ℕ) (vs : List PlainValue) → rest_plan m vs result ≡ told_plan forms.Upon (looked_from self until seen) answer }
        ensures stands { (k : ℕ) → Stands k result }
        ensures inside { (n : ℕ) → 1 < n → self.space ≤ last → LooksInside n result }
    {
        match after(Form::Upon, self.place(until, seen), answer) {
            Step::On { seen: holds } => {
                if holds {
                    return self.count_on(seen + 1, until);
                }
                self.count_on(seen, until)
            }
            step => taken(step),
        }
    }

    fn argument(self, op: Op) -> Rest<'static>
        requires { self.part < arity op }
        ensures plan { (m most : ℕ) (vs : List PlainValue) (v : PlainValue) → AreFedAlike most (by_then m vs (then.Argument op) self.part self.time self.space v) (rest_plan m (vs ++ v ∷ []) result) }
        ensures stands { (k : ℕ) → self.part ≡ k → Stands (k + 1) result }
        ensures inside { (n : ℕ) → arity op ≤ n → self.time ≤ last → self.space ≤ last → LooksInside n result }
    {
        let part = self.part + 1;
        if (part as usize) < op.arity() {
            Rest::Look(Look {
                part,
                time: self.time,
                space: self.space,
                then: Then::Argument { op },
            })
        } else {
            Rest::Apply(op)
        }
    }

    /// What is left once the look has the value.
    pub fn go_on<'a>(self, value: &'a Value) -> Rest<'a>
        requires { MayGoOn self }
        ensures plan { (m k most : ℕ) (vs : List PlainValue) → CanGoOn k self → k + 1 + most ≤ m
            → AreFedAlike most (by_then m vs self.then self.part self.time self.space (plain value.now)) (rest_plan m (vs ++ plain value.now ∷ []) result) }
        ensures stands { (k : ℕ) → CanGoOn k self → Stands (k + 1) result }
        ensures inside { (n : ℕ) → self.time ≤ last → IsLookOf n self → LooksInside n result }
    {
        let answer = Answer::of(value);
        match self.then {
            Then::Give => Rest::Value(value),
            Then::Judge => settled(judged(answer)),
            Then::Decide { form } => self.decide(form, answer),
            Then::Find { wanted } => self.find(answer, wanted),
            Then::Count { seen, until } => self.count(answer, seen, until),
            Then::Argument { op } => self.argument(op),
        }
    }
}

// The search for a true value behind so many.
fn search(space: u64, wanted: u64) -> Rest<'static>
    ensures plan { (m most : ℕ) (vs : List PlainValue) → most ≤ m → AreFedAlike most (find_true m 0 wanted space) (rest_plan m vs result) }
    ensures stands { Stands 0 result }
    ensures inside { (n : ℕ) → 1 < n → space ≤ last → LooksInside n result }
{
    Rest::Look(Look {
        part: 1,
        time: 0,
        space,
        then: Then::Find { wanted },
    })
}

// The count of true values below a time.
fn count_below(until: u64, space: u64) -> Rest<'static>
    requires { until < 2 ^ 63 }
    ensures plan { (m : ℕ) (vs : List PlainValue) → rest_plan m vs result ≡ count_true until 0 0 space until }
    ensures stands { Stands 0 result }
    ensures inside { (n : ℕ) → 1 < n → space ≤ last → LooksInside n result }
{
    if until == 0 {
        return give(0, 0, space);
    }
    Rest::Look(Look {
        part: 1,
        time: 0,
        space,
        then: Then::Count { seen: 0, until },
    })
}

// A look at a part at the point, with something done with its value.
fn here(part: u32, time: u64, space: u64, then: Then) -> Rest<'static>
    ensures { result ≡ rest.Look (record { part = part; time = time; space = space; then = then }) }
{
    Rest::Look(Look {
        part,
        time,
        space,
        then,
    })
}

// The plan of a form that doesn't search: it looks once at most before it takes its step.
fn begun(form: Form, time: u64, space: u64) -> Rest<'static>
    requires { IsNoSearch form }
    ensures plan { (m : ℕ) (vs : List PlainValue) → rest_plan m vs result ≡ plan m (stream form) time space }
    ensures stands { (k : ℕ) → Stands k result }
    ensures inside { time ≤ last → space ≤ last → LooksInside (part_count form) result }
{
    let place = Place {
        time,
        space,
        limit: time,
        reached: time,
        count: 0,
    };
    let first = lucid_equations::begin(form, place);
    match first {
        Start::Look(at) => here(at.part, at.time, at.space, Then::Decide { form }),
        Start::Step(step) => taken(step),
    }
}

// The same of the form over streams that a node is.
fn at_once(node: Node, time: u64, space: u64) -> Rest<'static>
    requires { IsReadAtOnce (read node) }
    ensures plan { (T : Table) (f : Head) → HasHead T node f → (m : ℕ) (vs : List PlainValue) → rest_plan m vs result ≡ plan m f time space }
    ensures stands { (k : ℕ) → Stands k result }
    ensures inside { time ≤ last → space ≤ last → LooksInside (length (parts node)) result }
{
    let found = node.read();
    match found {
        Some((form, _)) => begun(form, time, space),
        None => unreachable!(),
    }
}

/// The plan of a form at a point.
pub fn begin<'a>(program: &'a Program, node: Node, time: u64, space: u64) -> Rest<'a>
    requires form { IsForm node }
    requires in_range { NodeNames (sizes (table_of program.now)) node }
    requires time { time < 2 ^ 63 }
    ensures plan { (f : Head) → HasHead (table_of program.now) node f → (m most : ℕ) → time + most ≤ m → AreFedAlike most (plan m f time space) (rest_plan m [] result) }
    ensures stands { Stands 0 result }
    ensures inside { space ≤ last → LooksInside (length (parts node)) result }
{
    match node {
        Node::Const { constant } => Rest::Value(program.constant(constant)),
        Node::Apply { op, .. } => here(0, time, space, Then::Argument { op }),
        Node::Whenever { .. } => search(space, time),
        Node::Asa { .. } => search(space, 0),
        Node::Upon { .. } => count_below(time, space),
        Node::Input { .. } | Node::Freeze { .. } | Node::Refer { .. } | Node::Call { .. } => {
            unreachable!()
        }
        _ => at_once(node, time, space),
    }
}
