//! The operators of the language: the row of each, and their table by form and by the bytes of their spellings.
ghost use Rattle.std.specs.Prelude.{◌≡◌, ◌≤◌, map};
ghost use Rattle.lucid_ops.specs.Arity.{arity};
ghost use Rattle.lucid_ops.specs.Row.{plain_row};
ghost use Rattle.lucid_ops.specs.Rows.{before, between, called, operator_of, operator_row, standard_rows};

use crate::op::{Form, Op, OpRow, Side};
use crate::table::OpTable;

// The level of what stands in parentheses, which binds tightest.
const TIGHTEST: u8 = 12;

// The row of an operator in front of its one argument.
fn before(op: Op, spelling: &'static [u8], level: u8) -> OpRow
    ensures { plain_row result ≡ before op spelling.now level }
{
    OpRow {
        op,
        spelling,
        form: Form::Before,
        level,
        side: Side::Single,
        arity: 1,
    }
}

// The row of an operator between its two arguments.
fn between(op: Op, spelling: &'static [u8], level: u8, side: Side) -> OpRow
    ensures { plain_row result ≡ between op spelling.now level side }
{
    OpRow {
        op,
        spelling,
        form: Form::Between,
        level,
        side,
        arity: 2,
    }
}

// The row of an operator in front of its arguments in parentheses.
fn called(op: Op, spelling: &'static [u8], arity: u8) -> OpRow
    ensures { plain_row result ≡ called op spelling.now arity }
{
    OpRow {
        op,
        spelling,
        form: Form::Called,
        level: TIGHTEST,
        side: Side::Single,
        arity,
    }
}

impl Op {
    /// Its row in the table of the language, which is this language's own.
    #[tactic(auto, using(crate::proofs::OperatorRows::level_most))]
    pub fn row(self) -> OpRow
        ensures row { plain_row result ≡ operator_row self }
        ensures level { result.level ≤ 12 }
    {
        match self {
            Op::Add => between(self, b"+", 8, Side::Left),
            Op::Sub => between(self, b"-", 8, Side::Left),
            Op::Mul => between(self, b"*", 9, Side::Left),
            Op::Div => between(self, b"div", 9, Side::Left),
            Op::Mod => between(self, b"mod", 9, Side::Left),
            Op::Pow => between(self, b"**", 10, Side::Right),
            Op::Neg => before(self, b"-", 11),
            Op::Abs => before(self, b"abs", 11),
            Op::Eq => between(self, b"eq", 6, Side::Single),
            Op::Ne => between(self, b"ne", 6, Side::Single),
            Op::Lt => between(self, b"<", 6, Side::Single),
            Op::Le => between(self, b"<=", 6, Side::Single),
            Op::Gt => between(self, b">", 6, Side::Single),
            Op::Ge => between(self, b">=", 6, Side::Single),
            Op::Cmp => between(self, b"cmp", 6, Side::Single),
            Op::Not => before(self, b"not", 5),
            Op::Head => before(self, b"hd", 11),
            Op::Tail => before(self, b"tl", 11),
            Op::Cons => between(self, b"::", 7, Side::Right),
            Op::Append => between(self, b"<>", 7, Side::Right),
            Op::Join => between(self, b"^", 7, Side::Right),
            Op::Length => before(self, b"length", 11),
            Op::Substr => called(self, b"substr", 3),
            Op::Nth => called(self, b"nth", 2),
            Op::MakeWord => before(self, b"mkword", 11),
            Op::MakeString => before(self, b"mkstring", 11),
            Op::IsInt => before(self, b"isint", 11),
            Op::IsWord => before(self, b"isword", 11),
            Op::IsString => before(self, b"isstring", 11),
            Op::IsList => before(self, b"islist", 11),
            Op::IsTruth => before(self, b"istruth", 11),
            Op::IsNull => before(self, b"isnull", 11),
            Op::IsAtom => before(self, b"isatom", 11),
            Op::IsEod => before(self, b"iseod", 11),
            Op::IsError => before(self, b"iserror", 11),
        }
    }

    /// The number of arguments that it takes.
    #[tactic(auto, using(crate::proofs::OperatorRows::arity_some, crate::proofs::OperatorRows::arity_few))]
    pub fn arity(self) -> usize
        ensures arity { result ≡ arity self }
        ensures some { 1 ≤ result }
        ensures few { result ≤ 3 }
    {
        self.row().arity as usize
    }

    /// The operator of this form and this spelling, if there is one.
    pub fn find(form: Form, spelling: &[u8]) -> Option<Op>
        ensures { result ≡ operator_of form spelling.now }
    {
        standard().find(form, spelling).map(|row| row.op)
    }
}

/// The table of the 35 operators of the language.
pub fn standard() -> OpTable<35>
    ensures { map plain_row result ≡ standard_rows }
{
    OpTable::of([
        Op::Neg.row(),
        Op::Abs.row(),
        Op::Head.row(),
        Op::IsAtom.row(),
        Op::IsEod.row(),
        Op::IsError.row(),
        Op::IsInt.row(),
        Op::IsList.row(),
        Op::IsNull.row(),
        Op::IsString.row(),
        Op::IsTruth.row(),
        Op::IsWord.row(),
        Op::Length.row(),
        Op::MakeString.row(),
        Op::MakeWord.row(),
        Op::Not.row(),
        Op::Tail.row(),
        Op::Mul.row(),
        Op::Pow.row(),
        Op::Add.row(),
        Op::Sub.row(),
        Op::Cons.row(),
        Op::Lt.row(),
        Op::Le.row(),
        Op::Append.row(),
        Op::Gt.row(),
        Op::Ge.row(),
        Op::Join.row(),
        Op::Cmp.row(),
        Op::Div.row(),
        Op::Eq.row(),
        Op::Mod.row(),
        Op::Ne.row(),
        Op::Nth.row(),
        Op::Substr.row(),
    ])
}
