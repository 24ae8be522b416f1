//! What an operator gives for its arguments.
ghost use Rattle.std.specs.Prelude.{◌≡◌, [], ◌∷◌, ◌<◌, IfOk, IsTrue, map, length};
ghost use Rattle.std.specs.Fmt.{signed_decimal};
ghost use Rattle.lucid_value.specs.Plain.{may_be_held, text, is_text};
ghost use Rattle.lucid_value.specs.View.{plain};
ghost use Rattle.lucid_ops.specs.Arity.{arity};
ghost use Rattle.lucid_ops.specs.Algebra.{algebra, row_of_one, row_of_two, row_of_three, integer};

use crate::integers::{placed, quotient, remainder};
use crate::op::Op;
use crate::power::power;
use lucid_value::{MakeRefusal, Text, Value, Word, append, cons, cut, head, join, pick_item, tail};
use std::alloc::{AllocError, Global};

// The case that an operator's row names, and an error for every other one.
macro_rules! row {
    ($arguments:expr, $case:pat => $result:expr) => {
        match $arguments {
            $case => $result,
            _ => Ok(Value::Fault),
        }
    };
}

// The row of an operator of two integers, by the operation that gives the result where it has a place.
macro_rules! of_integers {
    ($left:ident, $right:ident, $operation:path) => {
        row!(($left, $right), (Value::Int(a), Value::Int(b)) => Ok(placed($operation(*a, *b))))
    };
}

// The row of a comparison: a test of the order of the two values, where they have one.
macro_rules! of_order {
    ($left:ident, $right:ident, $test:ident) => {
        row!($left.order($right), Some(order) => Ok(Value::Truth(order.$test())))
    };
}

// The row of a test of a value's kind.
macro_rules! of_kind {
    ($value:ident, $($kind:tt)+) => {
        Ok(Value::Truth(matches!($value, $($kind)+)))
    };
}

// The row of an operator of two arguments that are neither end of data nor an error.
#[tactic(auto, using(crate::proofs::Places::integer_checked))]
fn row_of_two(alloc: Global, op: Op, left: &Value, right: &Value) -> Result<Value, AllocError>
    requires { IsTrue (may_be_held (plain left.now)) }
    ensures { IfOk result (λ value. plain value ≡ row_of_two integer op (plain left.now) (plain right.now)) }
{
    match op {
        Op::Add => of_integers!(left, right, i128::checked_add),
        Op::Sub => of_integers!(left, right, i128::checked_sub),
        Op::Mul => of_integers!(left, right, i128::checked_mul),
        Op::Div => of_integers!(left, right, quotient),
        Op::Mod => of_integers!(left, right, remainder),
        Op::Pow => of_integers!(left, right, power),
        Op::Eq => Ok(Value::Truth(left == right)),
        Op::Ne => Ok(Value::Truth(left != right)),
        Op::Lt => of_order!(left, right, is_lt),
        Op::Le => of_order!(left, right, is_le),
        Op::Gt => of_order!(left, right, is_gt),
        Op::Ge => of_order!(left, right, is_ge),
        Op::Cmp => row!(left.order(right), Some(order) => Ok(Value::Int(order as i128))),
        Op::Cons => row!(right, Value::List(list) => cons(alloc, left, list)),
        Op::Append => row!((left, right), (Value::List(a), Value::List(b)) => append(alloc, a, b)),
        Op::Join => row!((left, right), (Value::Text(a), Value::Text(b)) => join(alloc, a, b)),
        Op::Nth =>
            row!((left, right), (Value::List(list), Value::Int(index)) => pick_item(alloc, list, *index)),
        _ => Ok(Value::Fault),
    }
}

// The row of an operator of three such arguments.
fn row_of_three(
    alloc: Global,
    op: Op,
    first: &Value,
    second: &Value,
    third: &Value,
) -> Result<Value, AllocError>
    ensures { IfOk result (λ value. plain value ≡ row_of_three op (plain first.now) (plain second.now) (plain third.now)) }
{
    match (op, first, second, third) {
        (Op::Substr, Value::Text(text), Value::Int(i), Value::Int(j)) => cut(alloc, text, *i, *j),
        _ => Ok(Value::Fault),
    }
}

// The word of a string's bytes, where these are a word.
fn word_of(alloc: Global, letters: &Text) -> Result<Value, AllocError>
    ensures { IfOk result (λ value. plain value ≡ row_of_one integer Op.MakeWord (text letters.now)) }
{
    letters.keeps_rules();
    match Word::make(alloc, letters.bytes()) {
        Ok(word) => Ok(Value::Word(word)),
        Err(MakeRefusal::NotThat) => Ok(Value::Fault),
        Err(MakeRefusal::NoMemory) => Err(AllocError),
    }
}

// The string of these bytes.
fn string_of(alloc: Global, bytes: &[u8]) -> Result<Value, AllocError>
    requires rule { IsTrue (is_text bytes.now) }
    requires light { length bytes.now < 65536 }
    ensures { IfOk result (λ value. plain value ≡ text bytes.now) }
{
    match Text::make(alloc, bytes) {
        Ok(string) => Ok(Value::Text(string)),
        Err(MakeRefusal::NotThat) => unreachable!(),
        Err(MakeRefusal::NoMemory) => Err(AllocError),
    }
}

// The string of an integer's text.
#[tactic(auto, using(crate::proofs::Strings::decimal_is_text, crate::proofs::Strings::decimal_is_short))]
fn decimal_of(alloc: Global, number: i128) -> Result<Value, AllocError>
    ensures { IfOk result (λ value. plain value ≡ text (signed_decimal number)) }
{
    let mut digits = Vec::new(alloc);
    Value::Int(number).show(alloc, &mut digits)?;
    string_of(alloc, digits.as_slice())
}

// The row of an operator of one such argument.
#[tactic(auto, using(crate::proofs::Places::integer_checked, crate::proofs::Places::size_checked, crate::proofs::Places::count_placed, crate::proofs::Strings::word_is_text))]
fn row_of_one(alloc: Global, op: Op, value: &Value) -> Result<Value, AllocError>
    ensures { IfOk result (λ made. plain made ≡ row_of_one integer op (plain value.now)) }
{
    match op {
        Op::Neg => row!(value, Value::Int(n) => Ok(placed(n.checked_neg()))),
        Op::Abs => row!(value, Value::Int(n) => Ok(placed(n.checked_abs()))),
        Op::Not => row!(value, Value::Truth(b) => Ok(Value::Truth(!*b))),
        Op::Head => row!(value, Value::List(list) => head(alloc, list)),
        Op::Tail => row!(value, Value::List(list) => tail(alloc, list)),
        Op::Length => match value {
            Value::List(list) => Ok(Value::Int(i128::from(list.len()))),
            Value::Text(string) => Ok(Value::Int(string.bytes().len() as i128)),
            _ => Ok(Value::Fault),
        },
        Op::MakeWord => row!(value, Value::Text(letters) => word_of(alloc, letters)),
        Op::MakeString => match value {
            Value::Word(word) => {
                word.keeps_rules();
                string_of(alloc, word.bytes())
            }
            Value::Int(n) => decimal_of(alloc, *n),
            _ => Ok(Value::Fault),
        },
        Op::IsInt => of_kind!(value, Value::Int(_)),
        Op::IsWord => of_kind!(value, Value::Word(_)),
        Op::IsString => of_kind!(value, Value::Text(_)),
        Op::IsList => of_kind!(value, Value::List(_)),
        Op::IsTruth => of_kind!(value, Value::Truth(_)),
        Op::IsNull => of_kind!(value, Value::List(list) if list.len() == 0),
        Op::IsAtom => Ok(Value::Truth(!matches!(value, Value::List(_)))),
        _ => Ok(Value::Fault),
    }
}

// The two that look at end of data and errors, the rule of all others, and their rows.
/// What an operator of one argument gives, as `apply` says it.
#[tactic(auto, using(crate::proofs::Rule::keeps_rule))]
pub fn apply_to_one(alloc: Global, op: Op, value: &Value) -> Result<Value, AllocError>
    ensures { IfOk result (λ made. plain made ≡ algebra op (plain value.now ∷ [])) }
{
    match (op, value) {
        (Op::IsEod, _) => of_kind!(value, Value::Eod),
        (Op::IsError, _) => of_kind!(value, Value::Fault),
        (_, Value::Eod) => Ok(Value::Eod),
        (_, Value::Fault) => Ok(Value::Fault),
        _ => row_of_one(alloc, op, value),
    }
}

// The rule, and the row.
/// What an operator of two arguments gives, as `apply` says it.
#[tactic(auto, using(crate::proofs::Rule::many_keep_rule))]
pub fn apply_to_two(alloc: Global, op: Op, left: &Value, right: &Value) -> Result<Value, AllocError>
    requires { arity op ≡ 2 }
    ensures { IfOk result (λ value. plain value ≡ algebra op (plain left.now ∷ plain right.now ∷ [])) }
{
    match (left, right) {
        (Value::Eod, _) | (_, Value::Eod) => Ok(Value::Eod),
        (Value::Fault, _) | (_, Value::Fault) => Ok(Value::Fault),
        _ => row_of_two(alloc, op, left, right),
    }
}

// The rule, and the row.
/// What an operator of three arguments gives, as `apply` says it.
#[tactic(auto, using(crate::proofs::Rule::many_keep_rule))]
pub fn apply_to_three(
    alloc: Global,
    op: Op,
    first: &Value,
    second: &Value,
    third: &Value,
) -> Result<Value, AllocError>
    requires { arity op ≡ 3 }
    ensures { IfOk result (λ value. plain value ≡ algebra op (plain first.now ∷ plain second.now ∷ plain third.now ∷ [])) }
{
    match (first, second, third) {
        (Value::Eod, _, _) | (_, Value::Eod, _) | (_, _, Value::Eod) => Ok(Value::Eod),
        (Value::Fault, _, _) | (_, Value::Fault, _) | (_, _, Value::Fault) => Ok(Value::Fault),
        _ => row_of_three(alloc, op, first, second, third),
    }
}

/// What an operator gives for its arguments.
///
/// For `iseod` and `iserror` this is a truth. For all others it is end of data where an argument is, else an error where an
/// argument is one, else what the operator's row says over integers without bounds, and an error where the row names no such
/// case or its result is no value. A power is not slower at a great exponent than at one of 127.
pub fn apply(alloc: Global, op: Op, args: &[Value]) -> Result<Value, AllocError>
    requires { length args.now ≡ arity op }
    ensures { IfOk result (λ value. plain value ≡ algebra op (map plain args.now)) }
{
    match args {
        [value] => apply_to_one(alloc, op, value),
        [left, right] => apply_to_two(alloc, op, left, right),
        [first, second, third] => apply_to_three(alloc, op, first, second, third),
        _ => unreachable!(),
    }
}
