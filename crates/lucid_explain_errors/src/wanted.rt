//! What operators want of their arguments.
ghost use Rattle.std.specs.Prelude.{◌≡◌, map};
ghost use Rattle.lucid_value.specs.View.{plain};
ghost use Rattle.lucid_ops.specs.Algebra.{is_error};
ghost use Rattle.lucid_explain_errors.specs.Wanted.{wanted_of, wanted_text, is_wanted, are_two_wanted, are_three_wanted, are_wanted};

use lucid_ops::Op;
use lucid_value::Value;

/// What an operator wants of its arguments.
#[derive(Clone, Copy, Debug, PartialEq, Eq)]
pub enum Wanted {
    Integer,
    Integers,
    /// Two integers, two words or two strings.
    Ordered,
    OneTruth,
    OneList,
    /// A value, and a list behind it.
    ListBehind,
    Lists,
    Strings,
    ListOrString,
    StringAndIntegers,
    ListAndInteger,
    OneString,
    WordOrInteger,
    /// Values of any kind.
    Anything,
}

/// Whether a value is the one written `error`.
pub(crate) fn is_error(value: &Value) -> bool
    ensures { result ≡ is_error (plain value.now) }
{
    matches!(value, Value::Fault)
}

impl Wanted {
    /// What an operator wants.
    pub fn of(op: Op) -> Wanted
        ensures { result ≡ wanted_of op }
    {
        match op {
            Op::Add | Op::Sub | Op::Mul | Op::Div | Op::Mod | Op::Pow => Wanted::Integers,
            Op::Neg | Op::Abs => Wanted::Integer,
            Op::Lt | Op::Le | Op::Gt | Op::Ge | Op::Cmp => Wanted::Ordered,
            Op::Not => Wanted::OneTruth,
            Op::Head | Op::Tail => Wanted::OneList,
            Op::Cons => Wanted::ListBehind,
            Op::Append => Wanted::Lists,
            Op::Join => Wanted::Strings,
            Op::Length => Wanted::ListOrString,
            Op::Substr => Wanted::StringAndIntegers,
            Op::Nth => Wanted::ListAndInteger,
            Op::MakeWord => Wanted::OneString,
            Op::MakeString => Wanted::WordOrInteger,
            _ => Wanted::Anything,
        }
    }

    /// The words for it.
    pub(crate) fn text(self) -> &'static [u8]
        ensures { result.now ≡ wanted_text self }
    {
        match self {
            Wanted::Integer => b"an integer",
            Wanted::Integers => b"two integers",
            Wanted::Ordered => b"two integers, two words or two strings",
            Wanted::OneTruth => b"`true` or `false`",
            Wanted::OneList => b"a list",
            Wanted::ListBehind => b"a value and a list",
            Wanted::Lists => b"two lists",
            Wanted::Strings => b"two strings",
            Wanted::ListOrString => b"a list or a string",
            Wanted::StringAndIntegers => b"a string and two integers",
            Wanted::ListAndInteger => b"a list and an integer",
            Wanted::OneString => b"a string",
            Wanted::WordOrInteger => b"a word or an integer",
            Wanted::Anything => b"values",
        }
    }

    // Whether one argument is that.
    fn is_met(self, value: &Value) -> bool
        ensures { result ≡ is_wanted self (plain value.now) }
    {
        match self {
            Wanted::Integer => matches!(value, Value::Int(_)),
            Wanted::OneTruth => matches!(value, Value::Truth(_)),
            Wanted::OneList => matches!(value, Value::List(_)),
            Wanted::ListOrString => matches!(value, Value::List(_) | Value::Text(_)),
            Wanted::OneString => matches!(value, Value::Text(_)),
            Wanted::WordOrInteger => matches!(value, Value::Word(_) | Value::Int(_)),
            Wanted::Anything => !is_error(value),
            _ => false,
        }
    }

    // Whether two arguments are that.
    fn is_met_by_two(self, left: &Value, right: &Value) -> bool
        ensures { result ≡ are_two_wanted self (plain left.now) (plain right.now) }
    {
        match self {
            Wanted::Integers => matches!((left, right), (Value::Int(_), Value::Int(_))),
            Wanted::Ordered => left.order(right).is_some(),
            Wanted::ListBehind => matches!(right, Value::List(_)) && !is_error(left),
            Wanted::Lists => matches!((left, right), (Value::List(_), Value::List(_))),
            Wanted::Strings => matches!((left, right), (Value::Text(_), Value::Text(_))),
            Wanted::ListAndInteger => matches!((left, right), (Value::List(_), Value::Int(_))),
            Wanted::Anything => !is_error(left) && !is_error(right),
            _ => false,
        }
    }

    // Whether three arguments are that.
    fn is_met_by_three(self, first: &Value, second: &Value, third: &Value) -> bool
        ensures { result ≡ are_three_wanted self (plain first.now) (plain second.now) (plain third.now) }
    {
        match self {
            Wanted::StringAndIntegers => matches!(
                (first, second, third),
                (Value::Text(_), Value::Int(_), Value::Int(_))
            ),
            _ => false,
        }
    }

    /// Whether the arguments are that.
    pub fn is_met_by(self, values: &[Value]) -> bool
        ensures { result ≡ are_wanted self (map plain values.now) }
    {
        match values {
            [value] => self.is_met(value),
            [left, right] => self.is_met_by_two(left, right),
            [first, second, third] => self.is_met_by_three(first, second, third),
            _ => false,
        }
    }
}
