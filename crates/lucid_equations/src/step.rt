//! What a form does first, and what it does by a look.
ghost use Rattle.std.specs.Prelude.{◌≡◌};
ghost use Rattle.lucid_tree.specs.declared.form.Form.TheVariants as forms;
ghost use Rattle.lucid_equations.specs.Steps.{part_at, judged, by_truth, found, moved_step, searched, counted, start_of, step_after};

use crate::answer::Answer;
use lucid_tree::{Form, LAST};

/// Where a form is taken, and where its search stands.
#[derive(Clone, Copy)]
pub struct Place {
    /// The time.
    pub time: u64,
    /// The space.
    pub space: u64,
    /// The limit of the approximation.
    pub limit: u64,
    /// The time that the search has come to.
    pub reached: u64,
    /// How many true values it has seen below that time.
    pub count: u64,
}

/// A part, at a time and a space.
#[derive(Clone, Copy)]
pub struct PartAt {
    pub part: u32,
    pub time: u64,
    pub space: u64,
}

/// What a form gives by itself: a truth, the end of data or an error.
#[derive(Clone, Copy)]
pub enum Given {
    Truth(bool),
    End,
    Fault,
}

/// What a form does once no further value decides it.
#[derive(Clone, Copy)]
pub enum Step {
    /// It gives the value of a part.
    Part(PartAt),
    /// It gives the value of a part where that is a truth or the end of data, and else an error.
    Judge(PartAt),
    /// It gives this by itself.
    Give(Given),
    /// Its search goes on to the next time, after a truth.
    On { seen: bool },
    /// Its approximation has no value.
    Nothing,
}

/// What a form does first.
#[derive(Clone, Copy)]
pub enum Start {
    /// It looks at a part, whose value decides.
    Look(PartAt),
    /// It takes a step at once.
    Step(Step),
}

#[inline(always)]
fn part_at(part: u32, time: u64, space: u64) -> PartAt
    ensures { result ≡ part_at part time space }
{
    PartAt { part, time, space }
}

/// What a form gives that judges a part by what its value tells.
#[inline(always)]
pub fn judged(answer: Answer) -> Given
    ensures { result ≡ judged answer }
{
    match answer {
        Answer::Holds(holds) => Given::Truth(holds),
        Answer::Ended => Given::End,
        Answer::At(_) | Answer::Other => Given::Fault,
    }
}

// On by a truth.
#[inline(always)]
fn by_truth(answer: Answer, on: Step, off: Step) -> Step
    ensures { result ≡ by_truth answer on off }
{
    match answer {
        Answer::Holds(true) => on,
        Answer::Holds(false) => off,
        Answer::Ended => Step::Give(Given::End),
        Answer::At(_) | Answer::Other => Step::Give(Given::Fault),
    }
}

impl Place {
    // A part at the point.
    #[inline(always)]
    fn part(self, part: u32) -> PartAt
        ensures { result ≡ part_at part self.time self.space }
    {
        part_at(part, self.time, self.space)
    }

    // A part at the time that the search has come to.
    #[inline(always)]
    fn part_reached(self, part: u32) -> PartAt
        ensures { result ≡ part_at part self.reached self.space }
    {
        part_at(part, self.reached, self.space)
    }

    // What the forms do that only move the point; any other does nothing here.
    #[inline(always)]
    fn moved(self, form: Form) -> Step
        ensures { result ≡ moved_step form self }
    {
        match form {
            Form::First => Step::Part(part_at(0, 0, self.space)),
            Form::Next => self.next(),
            Form::Fby => self.fby(),
            Form::Initial => Step::Part(part_at(0, self.time, 0)),
            Form::Succ => self.succ(),
            Form::Sby => self.sby(),
            _ => Step::Nothing,
        }
    }

    #[inline(always)]
    fn next(self) -> Step
        ensures { result ≡ moved_step forms.Next self }
    {
        if self.time < LAST {
            Step::Part(part_at(0, self.time + 1, self.space))
        } else {
            Step::Give(Given::Fault)
        }
    }

    #[inline(always)]
    fn fby(self) -> Step
        ensures { result ≡ moved_step forms.Fby self }
    {
        if self.time == 0 {
            Step::Part(part_at(0, 0, self.space))
        } else {
            Step::Part(part_at(1, self.time - 1, self.space))
        }
    }

    #[inline(always)]
    fn succ(self) -> Step
        ensures { result ≡ moved_step forms.Succ self }
    {
        if self.space < LAST {
            Step::Part(part_at(0, self.time, self.space + 1))
        } else {
            Step::Give(Given::Fault)
        }
    }

    #[inline(always)]
    fn sby(self) -> Step
        ensures { result ≡ moved_step forms.Sby self }
    {
        if self.space == 0 {
            Step::Part(part_at(0, self.time, 0))
        } else {
            Step::Part(part_at(1, self.time, self.space - 1))
        }
    }

    // `whenever` and `asa` look at the time that they have come to, below the limit.
    #[inline(always)]
    fn search(self) -> Start
        ensures { result ≡ searched self }
    {
        if self.reached < self.limit {
            Start::Look(self.part_reached(1))
        } else {
            Start::Step(Step::Nothing)
        }
    }

    // `upon` looks at the times below its own, and none above the limit.
    #[inline(always)]
    fn count_below(self) -> Start
        ensures { result ≡ counted self }
    {
        if self.time > self.limit {
            Start::Step(Step::Nothing)
        } else if self.reached < self.time {
            Start::Look(self.part_reached(1))
        } else {
            Start::Step(Step::Part(part_at(0, self.count, self.space)))
        }
    }

    // `whenever` at a true value: it is the one that is wanted, or not yet.
    #[inline(always)]
    fn found(self) -> Step
        ensures { result ≡ found self }
    {
        if self.count >= self.time {
            Step::Part(self.part_reached(0))
        } else {
            Step::On { seen: true }
        }
    }

    // Part 0 at the time that part 1 gives.
    #[inline(always)]
    fn attime(self, answer: Answer) -> Step
        ensures { result ≡ step_after forms.Attime self answer }
    {
        match answer {
            Answer::At(time) => Step::Part(part_at(0, time, self.space)),
            Answer::Ended => Step::Give(Given::End),
            Answer::Holds(_) | Answer::Other => Step::Give(Given::Fault),
        }
    }

    // Part 0 at the space that part 1 gives.
    #[inline(always)]
    fn atspace(self, answer: Answer) -> Step
        ensures { result ≡ step_after forms.Atspace self answer }
    {
        match answer {
            Answer::At(space) => Step::Part(part_at(0, self.time, space)),
            Answer::Ended => Step::Give(Given::End),
            Answer::Holds(_) | Answer::Other => Step::Give(Given::Fault),
        }
    }
}

/// What the form does first where its search stands. It takes no memory.
#[inline(always)]
pub fn begin(form: Form, place: Place) -> Start
    ensures { result ≡ start_of form place }
{
    match form {
        Form::If => Start::Look(place.part(0)),
        Form::And => Start::Look(place.part(0)),
        Form::Or => Start::Look(place.part(0)),
        Form::Whenever => place.search(),
        Form::Asa => place.search(),
        Form::Upon => place.count_below(),
        Form::Attime => Start::Look(place.part(1)),
        Form::Atspace => Start::Look(place.part(1)),
        _ => Start::Step(place.moved(form)),
    }
}

/// What the form does once the value of its look tells this. A form that looks at none has nothing.
#[inline(always)]
pub fn after(form: Form, place: Place, answer: Answer) -> Step
    ensures { result ≡ step_after form place answer }
{
    let yes = Step::Give(Given::Truth(true));
    let no = Step::Give(Given::Truth(false));
    let on = Step::On { seen: true };
    let past = Step::On { seen: false };
    match form {
        Form::If => by_truth(answer, Step::Part(place.part(1)), Step::Part(place.part(2))),
        Form::And => by_truth(answer, Step::Judge(place.part(1)), no),
        Form::Or => by_truth(answer, yes, Step::Judge(place.part(1))),
        Form::Whenever => by_truth(answer, place.found(), past),
        Form::Asa => by_truth(answer, Step::Part(place.part_reached(0)), past),
        Form::Upon => by_truth(answer, on, past),
        Form::Attime => place.attime(answer),
        Form::Atspace => place.atspace(answer),
        _ => Step::Nothing,
    }
}
