//! The parser as a machine over terminals.

ghost use Rattle.std.specs.Prelude.{◌≡◌, List, [], ◌∷◌, ◌++◌, Option, Some, None, Result, OnOk, IfOk, MatchOption, if◌then◌else◌};
ghost use Rattle.lucid_ops.specs.declared.op.Form.TheVariants.{Before, Called};
ghost use Rattle.lucid_parse.specs.Grammar.{level_of, operator_in};
ghost use Rattle.lucid_parse.specs.Machine.{State, state, takes, shift, inner_frames, inner_out, after_frame, close, settle, begun, begin, step_named, step_heads, step_headed, step_at, step, finished, finish, Steps, IsAtHead, IsAtParameters};

use crate::Operator;
use crate::state::{CalledOperator, Defines, Definition, Focus, Frame, Item};
use crate::terminal::Terminal;
use lucid_lists::Stack;
use lucid_ops::Form;
use lucid_tree::Form as StreamForm;
use std::alloc::AllocError;

/// What follows a terminal, or none where no program goes on so.
pub type Step<N> = Result<Option<Focus<N>>, AllocError>;

/// The machine: what is open, the innermost on top, and the nodes that are written.
#[derive(Drop)]
pub struct Machine<N, V> {
    pub frames: Stack<Frame<N>>,
    pub out: Vec<Item<N, V>>,
}

/// The level of what stands alone or in parentheses, which binds tightest.
const TIGHTEST: u8 = 12;

/// What follows a whole operand of the tightest level.
fn whole<N>(allowed: u8) -> Focus<N>
    ensures { result ≡ Focus.Have 12 allowed }
{
    let level = TIGHTEST;
    Focus::Have { level, allowed }
}

/// The level at which the operator binds.
fn level_of(op: Operator) -> u8
    ensures { result ≡ level_of op }
{
    op.row().level
}

/// Whether the operator may take an operand of this level in a place that allows a level.
fn may_take(op: Operator, level: u8, allowed: u8) -> bool
    ensures { result ≡ takes op level allowed }
{
    op.left_level() <= level && allowed <= level_of(op)
}

impl<N: Copy, V: Copy> Machine<N, V> {
    /// Opens a frame, in which an operand of this level or a tighter one comes next.
    fn open(&mut self, frame: Frame<N>, allowed: u8) -> Step<N>
        ensures { Steps result self.new.frames self.new.out.items (Some (state (Focus.Await allowed) (frame ∷ self.old.frames) self.old.out.items)) }
    {
        self.frames.push(frame)?;
        Ok(Some(Focus::Await { allowed }))
    }

    /// Writes a node, behind which this comes next.
    fn write(&mut self, item: Item<N, V>, next: Focus<N>) -> Step<N>
        ensures { Steps result self.new.frames self.new.out.items (Some (state next self.old.frames (self.old.out.items ++ item ∷ []))) }
    {
        self.out.push(item)?;
        Ok(Some(next))
    }

    /// An operator after an operand of this level in a place that allows a level.
    fn shift_to(&mut self, op: Operator, at: u32, level: u8, allowed: u8) -> Step<N>
        ensures { Steps result self.new.frames self.new.out.items (shift op at level allowed self.old.frames self.old.out.items) }
    {
        let mut operand = level;
        let mut place = allowed;
        loop {
            if may_take(op, operand, place) {
                let allowed = place;
                self.frames.push(Frame::Operator { op, at, allowed })?;
                let allowed = op.right_level();
                return Ok(Some(Focus::Await { allowed }));
            }
            match self.frames.pop() {
                Some(Frame::Operator { op, at, allowed }) => {
                    self.out.push(Item::Operator { op, at })?;
                    operand = level_of(op);
                    place = allowed;
                }
                _ => return Ok(None),
            }
        }
    }

    /// Writes the operators that wait for their last operand, and answers what is open then.
    fn close_operators(&mut self) -> Result<Option<Frame<N>>, AllocError>
        ensures { IfOk result (λ inner. (self.new.out.items ≡ inner_out self.old.frames self.old.out.items)
            × MatchOption inner ((inner_frames self.old.frames ≡ []) × (self.new.frames ≡ [])) (λ frame. inner_frames self.old.frames ≡ frame ∷ self.new.frames)) }
    {
        loop {
            match self.frames.pop() {
                Some(Frame::Operator { op, at, .. }) => self.out.push(Item::Operator { op, at })?,
                open => return Ok(open),
            }
        }
    }

    /// A terminal behind an operand of a called operator that wants so many more.
    fn close_part(&mut self, called: CalledOperator, more: u8, terminal: Terminal<N, V>) -> Step<N>
        ensures { Steps result self.new.frames self.new.out.items (after_frame (Frame.Operands called more) terminal self.old.frames self.old.out.items) }
    {
        match terminal {
            Terminal::Comma if more != 0 => {
                let more = more - 1;
                self.open(Frame::Operands { called, more }, 0)
            }
            Terminal::Close if more == 0 => {
                let CalledOperator { op, at, allowed } = called;
                self.write(Item::Operator { op, at }, whole(allowed))
            }
            _ => Ok(None),
        }
    }

    /// A terminal behind an argument of a call.
    fn close_argument(&mut self, at: u32, name: N, allowed: u8, terminal: Terminal<N, V>) -> Step<N>
        ensures { Steps result self.new.frames self.new.out.items (after_frame (Frame.Arguments at name allowed) terminal self.old.frames self.old.out.items) }
    {
        match terminal {
            Terminal::Comma => {
                self.out.push(Item::More)?;
                self.open(Frame::Arguments { at, name, allowed }, 0)
            }
            Terminal::Close => {
                self.out.push(Item::More)?;
                self.write(Item::Call { at, name }, whole(allowed))
            }
            _ => Ok(None),
        }
    }

    /// A terminal that ends the innermost of what is open, where no operator waits.
    fn close_frame(&mut self, frame: Frame<N>, terminal: Terminal<N, V>) -> Step<N>
        ensures { Steps result self.new.frames self.new.out.items (after_frame frame terminal self.old.frames self.old.out.items) }
    {
        match (frame, terminal) {
            (Frame::Parenthesis { allowed }, Terminal::Close) => Ok(Some(whole(allowed))),
            (Frame::Test { at, allowed }, Terminal::Then) => self.open(
                Frame::Yes { at, allowed },
                0,
            ),
            (Frame::Yes { at, allowed }, Terminal::Else) => self.open(Frame::No { at, allowed }, 0),
            (Frame::No { at, allowed }, Terminal::Fi) => {
                let op = Operator::Stream(StreamForm::If);
                self.write(Item::Operator { op, at }, whole(allowed))
            }
            (Frame::Arguments { at, name, allowed }, _) => self.close_argument(
                at, name, allowed, terminal,
            ),
            (Frame::Operands { called, more }, _) => self.close_part(called, more, terminal),
            (Frame::RightSide(defines, definition), Terminal::Semicolon) => {
                let Definition { block, at, name } = definition;
                self.write(Item::Def { defines, at, name }, Focus::Heads { block })
            }
            _ => Ok(None),
        }
    }

    /// A terminal that is no operator, after an operand.
    fn close_at(&mut self, terminal: Terminal<N, V>, at: u32) -> Step<N>
        ensures { Steps result self.new.frames self.new.out.items (close terminal at (inner_frames self.old.frames) (inner_out self.old.frames self.old.out.items)) }
    {
        let open = self.close_operators()?;
        if let Terminal::Where = terminal {
            self.out.push(Item::NoDefs)?;
            if let Some(frame) = open {
                self.frames.push(frame)?;
            }
            return Ok(Some(Focus::Heads { block: at }));
        }
        match open {
            Some(frame) => self.close_frame(frame, terminal),
            None => Ok(None),
        }
    }

    /// A terminal after an operand of this level in a place that allows a level.
    fn settle_to(&mut self, terminal: Terminal<N, V>, at: u32, level: u8, allowed: u8) -> Step<N>
        ensures { Steps result self.new.frames self.new.out.items (settle terminal at level allowed self.old.frames self.old.out.items) }
    {
        match terminal.operator_in(Form::Between) {
            Some(op) => self.shift_to(op, at, level, allowed),
            None => self.close_at(terminal, at),
        }
    }

    /// An operator that begins an operand, in a place that allows a level.
    fn begin_operator(&mut self, terminal: Terminal<N, V>, at: u32, allowed: u8) -> Step<N>
        ensures { Steps result self.new.frames self.new.out.items (begun (operator_in Called terminal) (operator_in Before terminal) at allowed self.old.frames self.old.out.items) }
    {
        if let Some(op) = terminal.operator_in(Form::Called) {
            return Ok(Some(Focus::Opens(CalledOperator { op, at, allowed })));
        }
        match terminal.operator_in(Form::Before) {
            Some(op) if allowed <= level_of(op) => self.open(
                Frame::Operator { op, at, allowed },
                level_of(op),
            ),
            _ => Ok(None),
        }
    }

    /// A terminal that begins an operand, in a place that allows a level.
    fn begin_at(&mut self, terminal: Terminal<N, V>, at: u32, allowed: u8) -> Step<N>
        ensures { Steps result self.new.frames self.new.out.items (begin terminal at allowed self.old.frames self.old.out.items) }
    {
        match terminal {
            Terminal::Name(name) => Ok(Some(Focus::Named { at, name, allowed })),
            Terminal::Const(value) => self.write(Item::Const { at, value }, whole(allowed)),
            Terminal::If => self.open(Frame::Test { at, allowed }, 0),
            Terminal::Open => self.open(Frame::Parenthesis { allowed }, 0),
            _ => self.begin_operator(terminal, at, allowed),
        }
    }

    /// A terminal at `next` after the name at `at`: a call, or what follows an operand.
    fn step_name(
        &mut self,
        terminal: Terminal<N, V>,
        next: u32,
        at: u32,
        name: N,
        allowed: u8,
    ) -> Step<N>
        ensures { Steps result self.new.frames self.new.out.items (step_named terminal next at name allowed self.old.frames self.old.out.items) }
    {
        if let Terminal::Open = terminal {
            self.out.push(Item::NoTrees)?;
            return self.open(Frame::Arguments { at, name, allowed }, 0);
        }
        self.out.push(Item::Name { at, name })?;
        self.settle_to(terminal, next, TIGHTEST, allowed)
    }

    /// Opens the right side of a definition.
    fn open_right(&mut self, defines: Defines, definition: Definition<N>) -> Step<N>
        ensures { Steps result self.new.frames self.new.out.items (Some (state (Focus.Await 0) (Frame.RightSide defines definition ∷ self.old.frames) self.old.out.items)) }
    {
        self.open(Frame::RightSide(defines, definition), 0)
    }

    /// A terminal at `next` at a definition's head, or where the block may end.
    fn step_head(&mut self, focus: Focus<N>, terminal: Terminal<N, V>, next: u32) -> Step<N>
        requires { IsAtHead focus }
        ensures { Steps result self.new.frames self.new.out.items (step_at focus terminal next self.old.frames self.old.out.items) }
    {
        match (focus, terminal) {
            (Focus::Heads { block }, Terminal::Name(name)) => {
                let at = next;
                Ok(Some(Focus::Headed(Definition { block, at, name })))
            }
            (Focus::Heads { block: at }, Terminal::End) => {
                let (level, allowed) = (0, 0);
                self.write(Item::Block { at }, Focus::Have { level, allowed })
            }
            (Focus::Headed(head), Terminal::Is) => Ok(Some(Focus::Frozen(head))),
            (Focus::Headed(head), Terminal::Open) => self.write(Item::NoNames, Focus::Names(head)),
            (Focus::Headed(head), Terminal::Equals) => self.open_right(Defines::Plain, head),
            (Focus::Frozen(head), Terminal::Current) => self.open_right(Defines::Current, head),
            _ => Ok(None),
        }
    }

    /// A terminal at `next` among a definition's parameters, or behind them.
    fn step_parameters(&mut self, focus: Focus<N>, terminal: Terminal<N, V>, next: u32) -> Step<N>
        requires { IsAtParameters focus }
        ensures { Steps result self.new.frames self.new.out.items (step_at focus terminal next self.old.frames self.old.out.items) }
    {
        match (focus, terminal) {
            (Focus::Names(head), Terminal::Name(name)) => {
                let at = next;
                self.write(Item::Param { at, name }, Focus::Listed(head))
            }
            (Focus::Listed(head), Terminal::Comma) => Ok(Some(Focus::Names(head))),
            (Focus::Listed(head), Terminal::Close) => Ok(Some(Focus::Ready(head))),
            (Focus::Ready(head), Terminal::Equals) => self.open_right(Defines::Function, head),
            _ => Ok(None),
        }
    }

    /// What the terminal at `next` leads to, or none where no program goes on so.
    pub fn step_to(&mut self, focus: Focus<N>, terminal: Terminal<N, V>, next: u32) -> Step<N>
        ensures { Steps result self.new.frames self.new.out.items (step (state focus self.old.frames self.old.out.items) terminal next) }
    {
        match focus {
            Focus::Await { allowed } => self.begin_at(terminal, next, allowed),
            Focus::Named { at, name, allowed } => {
                self.step_name(terminal, next, at, name, allowed)
            }
            Focus::Have { level, allowed } => self.settle_to(terminal, next, level, allowed),
            Focus::Opens(called) => match terminal {
                Terminal::Open => {
                    let more = called.op.row().arity - 1;
                    self.open(Frame::Operands { called, more }, 0)
                }
                _ => Ok(None),
            },
            Focus::Heads { .. } | Focus::Headed(_) | Focus::Frozen(_) => {
                self.step_head(focus, terminal, next)
            }
            Focus::Names(_) | Focus::Listed(_) | Focus::Ready(_) => {
                self.step_parameters(focus, terminal, next)
            }
        }
    }

    /// Whether a program ends after the terminals that led to the focus; what waits is written then.
    pub fn finish_to(&mut self, focus: Focus<N>) -> Result<bool, AllocError>
        ensures { IfOk result (λ ended. finish (state focus self.old.frames self.old.out.items) ≡ (if ended then Some self.new.out.items else None)) }
    {
        match focus {
            Focus::Named { at, name, .. } => self.out.push(Item::Name { at, name })?,
            Focus::Have { .. } => {}
            _ => return Ok(false),
        }
        let open = self.close_operators()?;
        Ok(open.is_none())
    }
}
