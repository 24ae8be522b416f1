//! The terminals of marks and reserved words.
ghost use Rattle.std.specs.Prelude.{◌≡◌, ◌||◌, true, Some, map};
ghost use Rattle.std.specs.Option.{option_map};
ghost use Rattle.lucid_value.specs.Names.{is_reserved};
ghost use Rattle.lucid_value.specs.View.{plain};
ghost use Rattle.lucid_scan.specs.Texts.{is_mark};
ghost use Rattle.lucid_parse.specs.Views.{plain_terminal};
ghost use Rattle.lucid_parse.specs.Terminals.{terminal_in, fixed_terminal};
ghost use Rattle.lucid_parse.specs.Spellings.{fixed_value, fixed_plain, pair_of};

use crate::Operator;
use crate::terminal::Terminal;
use lucid_tree::Form;
use lucid_value::{List, Name, Value};
use std::alloc::Global;
use std::convert::Infallible;

/// A constant that a mark or a reserved word stands for.
#[derive(Clone, Copy)]
pub enum FixedValue {
    EmptyList,
    True,
    False,
    Eod,
    Error,
}

/// The terminal of a mark or of a reserved word. It holds no name.
pub type FixedTerminal = Terminal<Infallible, FixedValue>;

/// A mark or a reserved word, with its terminal.
#[derive(Clone, Copy)]
pub struct Spelling {
    pub bytes: &'static [u8],
    pub terminal: FixedTerminal,
}

macro_rules! spelling {
    ($bytes:literal, $terminal:expr) => {
        Spelling {
            bytes: $bytes,
            terminal: $terminal,
        }
    };
}

// The marks and the reserved words that stand for no operator; `-`, which stands for two; and a second spelling of an operator.
const FORMS: [Spelling; 20] = [
    spelling!(b"(", Terminal::Open),
    spelling!(b")", Terminal::Close),
    spelling!(b",", Terminal::Comma),
    spelling!(b";", Terminal::Semicolon),
    spelling!(b"=", Terminal::Equals),
    spelling!(b"[]", Terminal::Const(FixedValue::EmptyList)),
    spelling!(b"-", Terminal::Minus),
    spelling!(b"where", Terminal::Where),
    spelling!(b"end", Terminal::End),
    spelling!(b"is", Terminal::Is),
    spelling!(b"current", Terminal::Current),
    spelling!(b"if", Terminal::If),
    spelling!(b"then", Terminal::Then),
    spelling!(b"else", Terminal::Else),
    spelling!(b"fi", Terminal::Fi),
    spelling!(b"wvr", Terminal::Operator(Operator::Stream(Form::Whenever))),
    spelling!(b"true", Terminal::Const(FixedValue::True)),
    spelling!(b"false", Terminal::Const(FixedValue::False)),
    spelling!(b"eod", Terminal::Const(FixedValue::Eod)),
    spelling!(b"error", Terminal::Const(FixedValue::Error)),
];

impl FixedValue {
    fn value(self, alloc: Global) -> Value
        ensures { plain result ≡ fixed_value self }
    {
        match self {
            FixedValue::EmptyList => Value::List(List::empty(alloc)),
            FixedValue::True => Value::Truth(true),
            FixedValue::False => Value::Truth(false),
            FixedValue::Eod => Value::Eod,
            FixedValue::Error => Value::Fault,
        }
    }
}

// The terminal of the first spelling with these bytes.
#[tactic(auto, using(crate::proofs::Spellings::found_here, crate::proofs::Spellings::not_here))]
fn terminal_among(bytes: &[u8], spellings: &[Spelling]) -> Option<FixedTerminal>
    ensures { option_map fixed_plain result ≡ terminal_in bytes.now (map pair_of spellings.now) }
{
    for spelling in spellings {
        if bytes == spelling.bytes {
            return Some(spelling.terminal);
        }
    }
    None
}

/// The terminal of a mark or of a reserved word.
pub fn fixed_terminal(bytes: &[u8]) -> FixedTerminal
    requires { (is_mark bytes.now || is_reserved bytes.now) ≡ true }
    ensures { fixed_terminal bytes.now ≡ Some (fixed_plain result) }
{
    match terminal_among(bytes, &FORMS) {
        Some(terminal) => terminal,
        None => match Operator::find(bytes) {
            Some(op) => Terminal::Operator(op),
            None => unreachable!(),
        },
    }
}

/// The terminal, with its value if it is a constant's.
pub fn with_value(alloc: Global, terminal: FixedTerminal) -> Terminal<Name, Value>
    ensures { plain_terminal result ≡ fixed_plain terminal }
{
    match terminal {
        Terminal::Const(value) => Terminal::Const(value.value(alloc)),
        Terminal::Operator(op) => Terminal::Operator(op),
        Terminal::Minus => Terminal::Minus,
        Terminal::Is => Terminal::Is,
        Terminal::Current => Terminal::Current,
        Terminal::Where => Terminal::Where,
        Terminal::End => Terminal::End,
        Terminal::If => Terminal::If,
        Terminal::Then => Terminal::Then,
        Terminal::Else => Terminal::Else,
        Terminal::Fi => Terminal::Fi,
        Terminal::Open => Terminal::Open,
        Terminal::Close => Terminal::Close,
        Terminal::Comma => Terminal::Comma,
        Terminal::Semicolon => Terminal::Semicolon,
        Terminal::Equals => Terminal::Equals,
    }
}
