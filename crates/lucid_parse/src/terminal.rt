//! The terminals of the grammar: what tokens stand for.

use crate::Operator;
use lucid_ops::{Form, Op};
use lucid_value::{Name, Value};
use std::alloc::AllocError;

/// What a token stands for: a name, a constant, or a mark or reserved word. `N` is what it holds of a name, and `V` of a
/// constant's value.
#[derive(Copy)]
pub enum Terminal<N, V> {
    Name(N),
    Const(V),
    Operator(Operator),
    /// `-`, which stands between two operands or before one.
    Minus,
    Is,
    Current,
    Where,
    End,
    If,
    Then,
    Else,
    Fi,
    Open,
    Close,
    Comma,
    Semicolon,
    Equals,
}

// Not derived: a derived one is proved variant by variant.
impl<N: Copy, V: Copy> Clone for Terminal<N, V> {
    fn clone(&self) -> Result<Terminal<N, V>, AllocError> {
        Ok(*self)
    }
}

impl<N: Copy, V: Copy> Terminal<N, V> {
    ghost use Rattle.std.specs.Prelude.{◌≡◌};
    ghost use Rattle.lucid_parse.specs.Grammar.{operator_in};

    /// The operator that the terminal is in this form.
    pub fn operator_in(self, wanted: Form) -> Option<Operator>
        ensures { result ≡ operator_in wanted self }
    {
        match (self, wanted) {
            (Terminal::Operator(op), _) => match op.row().form {
                Some(form) if form == wanted => Some(op),
                _ => None,
            },
            (Terminal::Minus, Form::Between) => Some(Operator::Data(Op::Sub)),
            (Terminal::Minus, Form::Before) => Some(Operator::Data(Op::Neg)),
            _ => None,
        }
    }
}

/// A terminal that borrows its name or its value.
pub type BorrowedTerminal<'a> = Terminal<&'a Name, &'a Value>;

/// A terminal with the place of its token.
#[derive(Drop)]
pub struct TerminalAt {
    pub terminal: Terminal<Name, Value>,
    pub at: u32,
}

impl TerminalAt {
    ghost use Rattle.std.specs.Prelude.{◌≡◌};
    ghost use Rattle.lucid_parse.specs.Fill.{fill_terminal};
    ghost use Rattle.lucid_parse.specs.Views.{name_now, value_now, placed_of};

    /// The terminal, with its name or its value borrowed.
    pub fn borrowed(&self) -> BorrowedTerminal<'_>
        ensures { fill_terminal name_now value_now result ≡ (placed_of self.now).terminal }
    {
        match &self.terminal {
            Terminal::Name(name) => Terminal::Name(name),
            Terminal::Const(value) => Terminal::Const(value),
            Terminal::Operator(op) => Terminal::Operator(*op),
            Terminal::Minus => Terminal::Minus,
            Terminal::Is => Terminal::Is,
            Terminal::Current => Terminal::Current,
            Terminal::Where => Terminal::Where,
            Terminal::End => Terminal::End,
            Terminal::If => Terminal::If,
            Terminal::Then => Terminal::Then,
            Terminal::Else => Terminal::Else,
            Terminal::Fi => Terminal::Fi,
            Terminal::Open => Terminal::Open,
            Terminal::Close => Terminal::Close,
            Terminal::Comma => Terminal::Comma,
            Terminal::Semicolon => Terminal::Semicolon,
            Terminal::Equals => Terminal::Equals,
        }
    }
}
