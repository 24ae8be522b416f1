//! The value of a compiled table by plain recursion, from the public readers of programs alone: slow on purpose, it keeps nothing.
//! No input has an element here.
ghost use Rattle.std.specs.Prelude.{◌≡◌, ◌<◌, ◌+◌, length, IfSome};
ghost use Rattle.lucid_ops.specs.Arity.{arity};
ghost use Rattle.lucid_equations.specs.Ranges.{EachBelow};
ghost use Rattle.lucid_equations.specs.Programs.{table_of};

use lucid_equations::{Entry, Node, Program};
use lucid_ops::{Op, apply};
use lucid_value::Value;
use std::alloc::{AllocError, Global};

// The last time, and the last space.
const LAST: u64 = 9_223_372_036_854_775_807;

/// The frames in which a node is evaluated, the innermost one first.
#[derive(Drop)]
pub enum Context<'a> {
    Empty,
    Frozen {
        time: u64,
        outer: &'a Context<'a>,
    },
    Call {
        place: u32,
        caller: &'a Context<'a>,
        outer: &'a Context<'a>,
    },
}

// The number of frames; a caller's frames are not counted.
fn frames(context: &Context) -> u32 {
    match context {
        Context::Empty => 0,
        Context::Frozen { outer, .. } | Context::Call { outer, .. } => {
            frames(outer).saturating_add(1)
        }
    }
}

// The context of the outermost frames, where there are so many.
fn cut<'a>(context: &'a Context<'a>, level: u32) -> Option<&'a Context<'a>> {
    if frames(context) == level {
        return Some(context);
    }
    match context {
        Context::Empty => None,
        Context::Frozen { outer, .. } | Context::Call { outer, .. } => cut(outer, level),
    }
}

/// Where a node is evaluated: in a context, at a time and a space, by the approximation of a limit.
#[derive(Clone, Copy)]
pub struct Point<'a> {
    pub context: &'a Context<'a>,
    pub time: u64,
    pub space: u64,
    pub limit: u32,
}

impl<'a> Point<'a> {
    fn at_time(self, time: u64) -> Point<'a>
        ensures { result.limit ≡ self.entry.limit }
    {
        Point { time, ..self }
    }

    fn at_space(self, space: u64) -> Point<'a>
        ensures { result.limit ≡ self.entry.limit }
    {
        Point { space, ..self }
    }

    fn within(self, context: &'a Context<'a>) -> Point<'a>
        ensures { result.limit ≡ self.entry.limit }
    {
        Point { context, ..self }
    }

    // The point by the approximation just below.
    fn below(self) -> Point<'a>
        requires { 0 < self.limit }
        ensures { result.limit + 1 ≡ self.entry.limit }
    {
        let limit = self.limit - 1;
        Point { limit, ..self }
    }
}

// What a test's value says: a truth, or what the test ends with.
#[derive(Drop)]
enum Turn {
    Is(bool),
    Ends(Option<Value>),
}

fn tested(value: Option<Value>) -> Turn {
    match value {
        Some(Value::Truth(truth)) => Turn::Is(truth),
        Some(Value::Eod) => Turn::Ends(Some(Value::Eod)),
        Some(_) => Turn::Ends(Some(Value::Fault)),
        None => Turn::Ends(None),
    }
}

// A truth and end of data as they are, and an error for all else.
fn only_truth(value: Option<Value>) -> Option<Value> {
    match tested(value) {
        Turn::Is(truth) => Some(Value::Truth(truth)),
        Turn::Ends(end) => end,
    }
}

// Where a form goes on, as a time or a space, or what it ends with.
#[derive(Drop)]
enum Place {
    At(u64),
    Ends(Option<Value>),
}

fn placed(value: Option<Value>) -> Place {
    match value {
        Some(Value::Int(number)) => match u64::try_from(number) {
            Ok(place) if place <= LAST => Place::At(place),
            _ => Place::Ends(Some(Value::Fault)),
        },
        Some(Value::Eod) => Place::Ends(Some(Value::Eod)),
        Some(_) => Place::Ends(Some(Value::Fault)),
        None => Place::Ends(None),
    }
}

/// A program whose nodes are evaluated.
#[derive(Drop)]
pub struct Evaluator<'a> {
    pub alloc: Global,
    pub program: &'a Program,
}

impl Evaluator<'_> {
    /// The value of a node at a point; `None` where the approximation is undefined.
    #[cycle(value)]
    pub fn value(&self, id: u32, at: Point) -> Result<Option<Value>, AllocError>
        requires { id < length (table_of self.now.program.now).nodes }
    {
        match self.program.node(id) {
            Node::Const { constant } => self.constant(constant),
            Node::Apply { op, args } if op.arity() <= 3 => {
                self.applied(id, op, &args[..op.arity()], at)
            }
            Node::Input { .. } | Node::Apply { .. } => Ok(None),
            Node::If { test, yes, no } => self.chosen(test, yes, no, at),
            Node::And { left, right } => self.decided(left, right, false, at),
            Node::Or { left, right } => self.decided(left, right, true, at),
            Node::First { of } => self.value(of, at.at_time(0)),
            Node::Next { of } if at.time < LAST => self.value(of, at.at_time(at.time + 1)),
            Node::Fby { left, .. } if at.time == 0 => self.value(left, at),
            Node::Fby { right, .. } => self.value(right, at.at_time(at.time - 1)),
            Node::Whenever { left, right } => self.on_found(left, right, at.time, at),
            Node::Asa { left, right } => self.on_found(left, right, 0, at),
            Node::Upon { left, right } => self.on_counted(left, right, at),
            Node::Attime { left, right } => self.on_placed(left, right, at),
            Node::Initial { of } => self.value(of, at.at_space(0)),
            Node::Succ { of } if at.space < LAST => self.value(of, at.at_space(at.space + 1)),
            Node::Next { .. } | Node::Succ { .. } => Ok(Some(Value::Fault)),
            Node::Sby { left, .. } if at.space == 0 => self.value(left, at),
            Node::Sby { right, .. } => self.value(right, at.at_space(at.space - 1)),
            Node::Atspace { left, right } => self.beside(left, right, at),
            Node::Freeze { subject } => self.frozen(subject, at),
            Node::Refer { name, level } => self.referred(name, level, at),
            Node::Call { name, place, level } => self.called(name, place, level, at),
        }
    }

    fn constant(&self, constant: u32) -> Result<Option<Value>, AllocError>
        requires { constant < length (table_of self.now.program.now).constants }
    {
        Ok(Some(self.program.constant(constant).copy(self.alloc)?))
    }

    // A data operator on the values of the arguments, whose numbers are below the node's.
    #[cycle(value)]
    fn applied(&self, id: u32, op: Op, args: &[u32], at: Point) -> Result<Option<Value>, AllocError>
        requires id { id < length (table_of self.now.program.now).nodes }
        requires args { EachBelow id args.now }
        requires count { length args.now ≡ arity op }
    {
        let mut values = Vec::new(self.alloc);
        for arg in args {
            match self.value(*arg, at)? {
                Some(value) => values.push(value)?,
                None => return Ok(None),
            }
        }
        Ok(Some(apply(self.alloc, op, &values)?))
    }

    // `and`, which false decides, and `or`, which true decides.
    #[cycle(value)]
    fn decided(
        &self,
        left: u32,
        right: u32,
        by: bool,
        at: Point,
    ) -> Result<Option<Value>, AllocError>
        requires left { left < length (table_of self.now.program.now).nodes }
        requires right { right < length (table_of self.now.program.now).nodes }
    {
        match tested(self.value(left, at)?) {
            Turn::Is(truth) if truth == by => Ok(Some(Value::Truth(by))),
            Turn::Is(_) => Ok(only_truth(self.value(right, at)?)),
            Turn::Ends(end) => Ok(end),
        }
    }

    // `if`, whose test picks a part.
    #[cycle(value)]
    fn chosen(&self, test: u32, yes: u32, no: u32, at: Point) -> Result<Option<Value>, AllocError>
        requires test { test < length (table_of self.now.program.now).nodes }
        requires yes { yes < length (table_of self.now.program.now).nodes }
        requires no { no < length (table_of self.now.program.now).nodes }
    {
        match tested(self.value(test, at)?) {
            Turn::Is(true) => self.value(yes, at),
            Turn::Is(false) => self.value(no, at),
            Turn::Ends(end) => Ok(end),
        }
    }

    // `atspace`, whose right part is a space.
    #[cycle(value)]
    fn beside(&self, left: u32, right: u32, at: Point) -> Result<Option<Value>, AllocError>
        requires left { left < length (table_of self.now.program.now).nodes }
        requires right { right < length (table_of self.now.program.now).nodes }
    {
        match placed(self.value(right, at)?) {
            Place::At(space) => self.value(left, at.at_space(space)),
            Place::Ends(end) => Ok(end),
        }
    }

    // `whenever` and `asa`, which go on at the time of a true value of a test.
    #[cycle(value)]
    fn on_found(
        &self,
        left: u32,
        right: u32,
        number: u64,
        at: Point,
    ) -> Result<Option<Value>, AllocError>
        requires left { left < length (table_of self.now.program.now).nodes }
        requires right { right < length (table_of self.now.program.now).nodes }
    {
        let place = self.found(right, number, at)?;
        self.on(left, place, at)
    }

    // `upon`, which goes on at as many times as its test was true.
    #[cycle(value)]
    fn on_counted(&self, left: u32, right: u32, at: Point) -> Result<Option<Value>, AllocError>
        requires left { left < length (table_of self.now.program.now).nodes }
        requires right { right < length (table_of self.now.program.now).nodes }
    {
        let place = self.counted(right, at)?;
        self.on(left, place, at)
    }

    // `attime`, whose right part is a time.
    #[cycle(value)]
    fn on_placed(&self, left: u32, right: u32, at: Point) -> Result<Option<Value>, AllocError>
        requires left { left < length (table_of self.now.program.now).nodes }
        requires right { right < length (table_of self.now.program.now).nodes }
    {
        let value = self.value(right, at)?;
        self.on(left, placed(value), at)
    }

    // A node at the time at which a form goes on.
    #[cycle(value)]
    fn on(&self, id: u32, place: Place, at: Point) -> Result<Option<Value>, AllocError>
        requires { id < length (table_of self.now.program.now).nodes }
    {
        match place {
            Place::At(time) => self.value(id, at.at_time(time)),
            Place::Ends(end) => Ok(end),
        }
    }

    // The time of the true value of that number, from 0, of a test.
    #[cycle(value)]
    fn found(&self, test: u32, number: u64, at: Point) -> Result<Place, AllocError>
        requires { test < length (table_of self.now.program.now).nodes }
    {
        let mut left = number;
        for time in 0..at.limit {
            match tested(self.value(test, at.at_time(u64::from(time)))?) {
                Turn::Is(true) if left == 0 => return Ok(Place::At(u64::from(time))),
                Turn::Is(true) => left -= 1,
                Turn::Is(false) => {}
                Turn::Ends(end) => return Ok(Place::Ends(end)),
            }
        }
        Ok(Place::Ends(None))
    }

    // The number of true values of a test below the time.
    #[cycle(value)]
    fn counted(&self, test: u32, at: Point) -> Result<Place, AllocError>
        requires { test < length (table_of self.now.program.now).nodes }
    {
        if at.time > u64::from(at.limit) {
            return Ok(Place::Ends(None));
        }
        let mut number = 0;
        for time in 0..at.time {
            match tested(self.value(test, at.at_time(time))?) {
                Turn::Is(true) => number += 1,
                Turn::Is(false) => {}
                Turn::Ends(end) => return Ok(Place::Ends(end)),
            }
        }
        Ok(Place::At(number))
    }

    // A block's subject, with the time frozen.
    #[cycle(value)]
    fn frozen(&self, subject: u32, at: Point) -> Result<Option<Value>, AllocError>
        requires { subject < length (table_of self.now.program.now).nodes }
    {
        let inner = Context::Frozen {
            time: at.time,
            outer: at.context,
        };
        let context = &inner;
        self.value(subject, Point { context, ..at })
    }

    // A name, in the context of the outermost frames.
    #[cycle(value)]
    fn referred(&self, name: u32, level: u32, at: Point) -> Result<Option<Value>, AllocError>
        requires { name < length (table_of self.now.program.now).names }
    {
        match cut(at.context, level) {
            Some(context) => self.entered(name, Point { context, ..at }),
            None => Ok(None),
        }
    }

    // A call, in the context of the outermost frames with the call added.
    #[cycle(value)]
    fn called(
        &self,
        name: u32,
        place: u32,
        level: u32,
        at: Point,
    ) -> Result<Option<Value>, AllocError>
        requires { name < length (table_of self.now.program.now).names }
    {
        let Some(outer) = cut(at.context, level) else {
            return Ok(None);
        };
        let inner = Context::Call {
            place,
            caller: at.context,
            outer,
        };
        let context = &inner;
        self.entered(name, Point { context, ..at })
    }

    // A name in its own context, which costs one of the limit. A plain name and a call go on with their bodies there, a parameter
    // with the actual in the caller's context, and a current name with its right side in the context outside, at the frozen time.
    #[cycle(value)]
    fn entered(&self, name: u32, at: Point) -> Result<Option<Value>, AllocError>
        requires { name < length (table_of self.now.program.now).names }
    {
        if at.limit == 0 {
            return Ok(None);
        }
        let lower = at.below();
        match (self.program.entry(name), at.context) {
            (Entry::Plain { body } | Entry::Called { body }, _) => self.value(body, lower),
            (Entry::Parameter { index }, Context::Call { place, caller, .. }) => {
                match self.actual(*place, index) {
                    Some(actual) => self.value(actual, lower.within(caller)),
                    None => Ok(None),
                }
            }
            (Entry::Current { body }, Context::Frozen { time, outer }) => {
                self.value(body, lower.at_time(*time).within(outer))
            }
            _ => Ok(None),
        }
    }

    // The node of an actual, where the place has so many.
    fn actual(&self, place: u32, index: u32) -> Option<u32>
        ensures { IfSome result (λ id. id < length (table_of self.now.program.now).nodes) }
    {
        if place < self.program.places() && index < self.program.actuals(place) {
            Some(self.program.actual(place, index))
        } else {
            None
        }
    }
}
