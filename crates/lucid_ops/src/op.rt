//! Operators, and what a row of their table says.

use crate::table::TableRow;

/// A data operator: its result is decided by the values of its arguments at one point, a time and a space.
#[derive(Clone, Copy, Debug, PartialEq, Eq, Drop)]
pub enum Op {
    /// The sum of two integers, `+`.
    Add,
    /// The difference of two integers, `-`.
    Sub,
    /// The product of two integers, `*`.
    Mul,
    /// The quotient of two integers rounded toward zero, `div`.
    Div,
    /// The remainder of that division, with the sign of the dividend, `mod`.
    Mod,
    /// An integer to the power of another one, `**`.
    Pow,
    /// An integer with the other sign, `-` in front.
    Neg,
    /// An integer without its sign, `abs`.
    Abs,
    /// Whether two values are equal, `eq`.
    Eq,
    /// Whether two values differ, `ne`.
    Ne,
    /// Whether the first of two integers, words or strings is less, `<`.
    Lt,
    /// Whether it is less or equal, `<=`.
    Le,
    /// Whether it is greater, `>`.
    Gt,
    /// Whether it is greater or equal, `>=`.
    Ge,
    /// The order of two integers, words or strings as -1, 0 or 1, `cmp`.
    Cmp,
    /// The other truth, `not`.
    Not,
    /// The first item of a list, `hd`.
    Head,
    /// The items of a list after the first, `tl`.
    Tail,
    /// A value in front of a list, `::`.
    Cons,
    /// Two lists, one after the other, `<>`.
    Append,
    /// Two strings, one after the other, `^`.
    Join,
    /// The number of a list's items or a string's bytes, `length`.
    Length,
    /// The bytes of a string from one place up to another, `substr`.
    Substr,
    /// The item of a list at a place, from 0, `nth`.
    Nth,
    /// The word of a string's bytes, `mkword`.
    MakeWord,
    /// The string of a word's bytes or an integer's text, `mkstring`.
    MakeString,
    /// Whether a value is an integer, `isint`.
    IsInt,
    /// Whether it is a word, `isword`.
    IsWord,
    /// Whether it is a string, `isstring`.
    IsString,
    /// Whether it is a list, `islist`.
    IsList,
    /// Whether it is a truth, `istruth`.
    IsTruth,
    /// Whether it is the empty list, `isnull`.
    IsNull,
    /// Whether it is no list, `isatom`.
    IsAtom,
    /// Whether it is the end of data, `iseod`.
    IsEod,
    /// Whether it is an error, `iserror`.
    IsError,
}

/// How an operator stands to its arguments in a source.
#[derive(Clone, Copy, Debug, PartialEq, Eq, PartialOrd, Ord, Drop)]
pub enum Form {
    /// In front of its one argument.
    Before,
    /// Between its two arguments.
    Between,
    /// In front of its arguments in parentheses, parted by commas.
    Called,
}

/// To which side operators of one level group.
#[derive(Clone, Copy, Debug, PartialEq, Eq, Drop)]
pub enum Side {
    /// The one on the left binds first.
    Left,
    /// The one on the right binds first.
    Right,
    /// Two of them that stand between their arguments have no grouping without parentheses. Operators in front of one argument
    /// are of this kind too; they may follow one another.
    Single,
}

impl Side {
    ghost use Rattle.std.specs.Prelude.{◌≡◌, ◌<◌};
    ghost use Rattle.lucid_ops.specs.Row.{left_level, right_level};

    /// The least level of the argument to the left of an operator of this side and level.
    pub fn left_level(self, level: u8) -> u8
        requires { level < 255 }
        ensures { result ≡ left_level self level }
    {
        match self {
            Side::Left => level,
            Side::Right | Side::Single => level + 1,
        }
    }

    /// The least level of the argument to its right.
    pub fn right_level(self, level: u8) -> u8
        requires { level < 255 }
        ensures { result ≡ right_level self level }
    {
        match self {
            Side::Right => level,
            Side::Left | Side::Single => level + 1,
        }
    }
}

/// A row of the operator table.
#[derive(Clone, Copy, Debug, PartialEq, Eq, Drop)]
pub struct OpRow {
    /// The operator.
    pub op: Op,
    /// The bytes that stand for it in a source.
    pub spelling: &'static [u8],
    /// How it stands to its arguments.
    pub form: Form,
    /// How tightly it binds, from 0, the loosest, to 12.
    pub level: u8,
    /// To which side it groups among operators of its level.
    pub side: Side,
    /// The number of its arguments.
    pub arity: u8,
}

impl TableRow for OpRow {
    ghost use Rattle.lucid_ops.specs.Row.{plain_row};

    ghost seen_row = { plain_row };

    fn form(&self) -> Form {
        self.form
    }

    fn spelling(&self) -> &[u8] {
        self.spelling
    }
}
