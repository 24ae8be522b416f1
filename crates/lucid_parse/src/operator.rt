//! Operators, and the row of each.
ghost use Rattle.std.specs.Prelude.{◌≡◌, ◌≤◌};
ghost use Rattle.lucid_ops.specs.Rows.{level_side};
ghost use Rattle.lucid_parse.specs.Operators.{row_of, plain_row, fixity, data_spelled, spelled, left, right};

use lucid_ops::{Form as Fixity, Op, OpRow, Side};
use lucid_tree::{Form, FormRow};

/// An operator of a source: a data operator, or a form over streams.
#[derive(Clone, Copy)]
pub enum Operator {
    Data(Op),
    Stream(Form),
}

/// What the row of an operator says.
#[derive(Clone, Copy)]
pub struct OperatorRow {
    /// The bytes that stand for it in a source.
    pub spelling: &'static [u8],
    /// How it stands to its parts; `if` has words of its own round them.
    pub form: Option<Fixity>,
    /// How tightly it binds, from 0, the loosest, to 12.
    pub level: u8,
    /// To which side it groups among operators of its level.
    pub side: Side,
    /// The number of its parts.
    pub arity: u8,
}

// The side to which what stands at each level groups.
const SIDES: [Side; 13] = [
    Side::Left,
    Side::Right,
    Side::Left,
    Side::Left,
    Side::Left,
    Side::Single,
    Side::Single,
    Side::Right,
    Side::Left,
    Side::Left,
    Side::Right,
    Side::Single,
    Side::Single,
];

fn level_side(level: u8) -> Side
    ensures { result ≡ level_side level }
{
    SIDES.get(level as usize).copied().unwrap_or(Side::Single)
}

// How a form over streams with so many parts stands to them.
fn fixity(parts: u8) -> Option<Fixity>
    ensures { result ≡ fixity parts }
{
    if parts == 1 {
        return Some(Fixity::Before);
    }
    if parts == 2 {
        return Some(Fixity::Between);
    }
    None
}

// The row of a data operator.
fn data_row(op: Op) -> OperatorRow
    ensures { plain_row result ≡ row_of (Operator.Data op) }
{
    let OpRow {
        spelling,
        form,
        level,
        side,
        arity,
        ..
    } = op.row();
    OperatorRow {
        spelling,
        form: Some(form),
        level,
        side,
        arity,
    }
}

// The row of a form over streams.
fn stream_row(form: Form) -> OperatorRow
    ensures { plain_row result ≡ row_of (Operator.Stream form) }
{
    let FormRow {
        spelling,
        level,
        parts,
        ..
    } = form.row();
    OperatorRow {
        spelling,
        form: fixity(parts),
        level,
        side: level_side(level),
        arity: parts,
    }
}

// The data operator with this spelling. One between its parts comes before one of the same spelling in front of its part.
fn data_operator(spelling: &[u8]) -> Option<Op>
    ensures { result ≡ data_spelled spelling.now }
{
    if let Some(op) = Op::find(Fixity::Between, spelling) {
        return Some(op);
    }
    match Op::find(Fixity::Before, spelling) {
        Some(op) => Some(op),
        None => Op::find(Fixity::Called, spelling),
    }
}

impl Operator {
    /// Its row in the table of the language, which is this language's own.
    #[tactic(auto, using(crate::proofs::OperatorRows::level_most))]
    pub fn row(self) -> OperatorRow
        ensures row { plain_row result ≡ row_of self }
        ensures level { result.level ≤ 12 }
    {
        match self {
            Operator::Data(op) => data_row(op),
            Operator::Stream(form) => stream_row(form),
        }
    }

    /// The least level of the part to its left.
    pub fn left_level(self) -> u8
        ensures { result ≡ left self }
    {
        let row = self.row();
        row.side.left_level(row.level)
    }

    /// The least level of the part to its right.
    pub fn right_level(self) -> u8
        ensures { result ≡ right self }
    {
        let row = self.row();
        row.side.right_level(row.level)
    }

    /// The operator with this spelling, if there is one. Of two with one spelling it is the one between its parts.
    pub fn find(spelling: &[u8]) -> Option<Operator>
        ensures { result ≡ spelled spelling.now }
    {
        match Form::of_word(spelling) {
            Some(form) => Some(Operator::Stream(form)),
            None => data_operator(spelling).map(Operator::Data),
        }
    }
}
