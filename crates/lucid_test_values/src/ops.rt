//! Worked rows of every operator. What is expected comes from the language's table of operators.
ghost use Rattle.std.specs.Prelude.{◌<◌};

use crate::ops::Sample::{Bare, Eod, Error, Int, Ints, Quoted, Truth};
use crate::told::{first_false, none_wrong};
use lucid_ops::{Form, Op, OpTable, Side, apply, standard};
use lucid_value::{List, Text, Value, Word, cons};
use std::alloc::{AllocError, Global};
use std::test::Fail;

// A value, as a test writes it: an integer, a truth, a word, a string, a list of integers, end of data or an error.
#[derive(Clone, Copy)]
enum Sample {
    Int(i128),
    Truth(bool),
    Bare(&'static str),
    Quoted(&'static str),
    Ints(&'static [i128]),
    Eod,
    Error,
}

// The number in front of a list; in front of what isn't one, the end of data.
fn in_front(alloc: Global, item: i128, rest: &Value) -> Result<Value, AllocError> {
    match rest {
        Value::List(rest) => cons(alloc, &Value::Int(item), rest),
        _ => Ok(Value::Eod),
    }
}

fn list(alloc: Global, items: &[i128]) -> Result<Value, AllocError> {
    let mut made = Value::List(List::empty(alloc));
    for item in items.iter().rev() {
        made = in_front(alloc, *item, &made)?;
    }
    Ok(made)
}

fn value(alloc: Global, sample: Sample) -> Result<Value, Fail> {
    Ok(match sample {
        Int(n) => Value::Int(n),
        Truth(b) => Value::Truth(b),
        Bare(text) => Value::Word(Word::make(alloc, text.as_bytes())?),
        Quoted(text) => Value::Text(Text::make(alloc, text.as_bytes())?),
        Ints(items) => list(alloc, items)?,
        Eod => Value::Eod,
        Error => Value::Fault,
    })
}

fn push_each(alloc: Global, samples: &[Sample], args: &mut Vec<Value>) -> Result<(), Fail> {
    for sample in samples {
        args.push(value(alloc, *sample)?)?;
    }
    Ok(())
}

// The text of what the operator gives; none where it takes another number of arguments.
fn show(alloc: Global, op: Op, args: &[Value], text: &mut Vec<u8>) -> Result<(), Fail> {
    if args.len() == op.arity() {
        apply(alloc, op, args)?.show(alloc, text)?;
    }
    Ok(())
}

fn answer(alloc: Global, op: Op, samples: &[Sample], text: &mut Vec<u8>) -> Result<(), Fail> {
    let mut args = Vec::new(alloc);
    push_each(alloc, samples, &mut args)?;
    show(alloc, op, args.as_slice(), text)
}

type Row = (Op, &'static [Sample], &'static str);

// The operator gives a value with this text.
fn holds(alloc: Global, op: Op, samples: &[Sample], expected: &str) -> Result<(), Fail> {
    let mut text = Vec::new(alloc);
    answer(alloc, op, samples, &mut text)?;
    if text.as_slice() == expected.as_bytes() {
        return Ok(());
    }
    Err(Fail::new(format_args!("{op:?} doesn't give {expected}")))
}

fn each_holds(alloc: Global, rows: &[Row]) -> Result<(), Fail> {
    for (op, samples, expected) in rows {
        holds(alloc, *op, samples, expected)?;
    }
    Ok(())
}

// Operators at their edges.
static EDGES: [Row; 8] = [
    (Op::Div, &[Int(-7), Int(2)], "-3"),
    (Op::Mod, &[Int(-7), Int(2)], "-1"),
    (Op::Pow, &[Int(2), Int(63)], "9223372036854775808"),
    (Op::Div, &[Int(i128::MIN), Int(-1)], "error"),
    (Op::Mod, &[Int(i128::MIN), Int(-1)], "0"),
    (Op::Pow, &[Int(0), Int(0)], "1"),
    (Op::Eq, &[Int(1), Truth(true)], "false"),
    (Op::Lt, &[Truth(true), Truth(false)], "error"),
];

// Sums, differences, products, quotients and remainders.
static ARITHMETIC: [Row; 22] = [
    (Op::Add, &[Int(1), Int(2)], "3"),
    (Op::Add, &[Int(i128::MAX), Int(1)], "error"),
    (Op::Add, &[Int(i128::MIN), Int(-1)], "error"),
    (Op::Add, &[Int(i128::MAX), Int(i128::MIN)], "-1"),
    (Op::Sub, &[Int(1), Int(2)], "-1"),
    (Op::Sub, &[Int(i128::MIN), Int(1)], "error"),
    (Op::Sub, &[Int(0), Int(i128::MIN)], "error"),
    (
        Op::Sub,
        &[Int(-1), Int(i128::MIN)],
        "170141183460469231731687303715884105727",
    ),
    (Op::Mul, &[Int(3), Int(-4)], "-12"),
    (Op::Mul, &[Int(i128::MAX), Int(2)], "error"),
    (Op::Mul, &[Int(i128::MIN), Int(-1)], "error"),
    (
        Op::Mul,
        &[Int(i128::MIN), Int(1)],
        "-170141183460469231731687303715884105728",
    ),
    (Op::Div, &[Int(-7), Int(2)], "-3"),
    (Op::Div, &[Int(7), Int(-2)], "-3"),
    (Op::Div, &[Int(-7), Int(-2)], "3"),
    (Op::Div, &[Int(1), Int(0)], "error"),
    (Op::Div, &[Int(i128::MIN), Int(-1)], "error"),
    (
        Op::Div,
        &[Int(i128::MIN), Int(1)],
        "-170141183460469231731687303715884105728",
    ),
    (Op::Mod, &[Int(-7), Int(2)], "-1"),
    (Op::Mod, &[Int(7), Int(-2)], "1"),
    (Op::Mod, &[Int(1), Int(0)], "error"),
    (Op::Mod, &[Int(i128::MIN), Int(-1)], "0"),
];

// Powers, opposites and sizes.
static POWERS: [Row; 21] = [
    (Op::Pow, &[Int(2), Int(63)], "9223372036854775808"),
    (Op::Pow, &[Int(0), Int(0)], "1"),
    (Op::Pow, &[Int(2), Int(-1)], "error"),
    (
        Op::Pow,
        &[Int(2), Int(126)],
        "85070591730234615865843651857942052864",
    ),
    (Op::Pow, &[Int(2), Int(127)], "error"),
    (
        Op::Pow,
        &[Int(-2), Int(127)],
        "-170141183460469231731687303715884105728",
    ),
    (Op::Pow, &[Int(-2), Int(128)], "error"),
    (
        Op::Pow,
        &[Int(3), Int(80)],
        "147808829414345923316083210206383297601",
    ),
    (Op::Pow, &[Int(3), Int(81)], "error"),
    (
        Op::Pow,
        &[Int(10), Int(38)],
        "100000000000000000000000000000000000000",
    ),
    (Op::Pow, &[Int(2), Int(9223372036854775807)], "error"),
    (Op::Pow, &[Int(1), Int(i128::MAX)], "1"),
    (Op::Pow, &[Int(0), Int(i128::MAX)], "0"),
    (Op::Pow, &[Int(-1), Int(i128::MAX)], "-1"),
    (
        Op::Pow,
        &[Int(-1), Int(170141183460469231731687303715884105726)],
        "1",
    ),
    (Op::Pow, &[Int(i128::MIN), Int(i128::MAX)], "error"),
    (Op::Neg, &[Int(5)], "-5"),
    (Op::Neg, &[Int(i128::MIN)], "error"),
    (Op::Abs, &[Int(-5)], "5"),
    (Op::Abs, &[Int(i128::MIN)], "error"),
    (
        Op::Abs,
        &[Int(-170141183460469231731687303715884105727)],
        "170141183460469231731687303715884105727",
    ),
];

// Equality, the order as a number, and negation.
static EQUALITY: [Row; 12] = [
    (Op::Eq, &[Int(1), Truth(true)], "false"),
    (Op::Eq, &[Bare("dog"), Quoted("dog")], "false"),
    (Op::Eq, &[Ints(&[]), Ints(&[])], "true"),
    (Op::Eq, &[Ints(&[1, 2]), Ints(&[1, 2])], "true"),
    (Op::Eq, &[Ints(&[1, 2]), Ints(&[1])], "false"),
    (Op::Ne, &[Int(1), Int(2)], "true"),
    (Op::Ne, &[Ints(&[1]), Ints(&[1])], "false"),
    (Op::Cmp, &[Int(1), Int(2)], "-1"),
    (Op::Cmp, &[Bare("b"), Bare("b")], "0"),
    (Op::Cmp, &[Quoted("b"), Quoted("a b")], "1"),
    (Op::Cmp, &[Ints(&[1]), Ints(&[1])], "error"),
    (Op::Not, &[Truth(true)], "false"),
];

// The four tests of order.
static ORDER: [Row; 15] = [
    (Op::Lt, &[Truth(true), Truth(false)], "error"),
    (Op::Lt, &[Int(-1), Int(0)], "true"),
    (Op::Lt, &[Int(0), Int(-1)], "false"),
    (Op::Lt, &[Bare("ab"), Bare("abc")], "true"),
    (Op::Lt, &[Bare("abc"), Bare("ab")], "false"),
    (Op::Lt, &[Bare("Z"), Bare("a")], "true"),
    (Op::Lt, &[Quoted(""), Quoted("a")], "true"),
    (Op::Lt, &[Bare("a"), Quoted("b")], "error"),
    (Op::Lt, &[Ints(&[1]), Ints(&[2])], "error"),
    (Op::Le, &[Int(2), Int(2)], "true"),
    (Op::Le, &[Int(3), Int(2)], "false"),
    (Op::Gt, &[Int(3), Int(2)], "true"),
    (Op::Gt, &[Int(2), Int(2)], "false"),
    (Op::Ge, &[Int(2), Int(2)], "true"),
    (Op::Ge, &[Int(1), Int(2)], "false"),
];

// Lists.
static LISTS: [Row; 14] = [
    (Op::Head, &[Ints(&[1, 2])], "1"),
    (Op::Head, &[Ints(&[])], "error"),
    (Op::Tail, &[Ints(&[1, 2])], "[% 2 %]"),
    (Op::Tail, &[Ints(&[1])], "[% %]"),
    (Op::Tail, &[Ints(&[])], "error"),
    (Op::Cons, &[Int(1), Ints(&[])], "[% 1 %]"),
    (Op::Append, &[Ints(&[]), Ints(&[1])], "[% 1 %]"),
    (Op::Append, &[Ints(&[1]), Ints(&[2, 3])], "[% 1 2 3 %]"),
    (Op::Nth, &[Ints(&[7, 8]), Int(0)], "7"),
    (Op::Nth, &[Ints(&[7, 8]), Int(1)], "8"),
    (Op::Nth, &[Ints(&[7, 8]), Int(2)], "error"),
    (Op::Nth, &[Ints(&[7, 8]), Int(-1)], "error"),
    (Op::IsNull, &[Ints(&[])], "true"),
    (Op::IsNull, &[Ints(&[1])], "false"),
];

// Strings, words, and what has a length.
static STRINGS: [Row; 19] = [
    (Op::Join, &[Quoted(""), Quoted("")], "`'"),
    (Op::Join, &[Quoted("a "), Quoted("b")], "`a b'"),
    (Op::Length, &[Ints(&[])], "0"),
    (Op::Length, &[Ints(&[1, 2, 3])], "3"),
    (Op::Length, &[Quoted("")], "0"),
    (Op::Length, &[Quoted("abc")], "3"),
    (Op::Substr, &[Quoted("lucid"), Int(1), Int(3)], "`uc'"),
    (Op::Substr, &[Quoted("lucid"), Int(0), Int(5)], "`lucid'"),
    (Op::Substr, &[Quoted("lucid"), Int(5), Int(5)], "`'"),
    (Op::Substr, &[Quoted("lucid"), Int(3), Int(2)], "error"),
    (Op::Substr, &[Quoted("lucid"), Int(0), Int(6)], "error"),
    (Op::Substr, &[Quoted("lucid"), Int(-1), Int(2)], "error"),
    (Op::MakeWord, &[Quoted("a1")], "a1"),
    (Op::MakeWord, &[Quoted("1a")], "error"),
    (Op::MakeWord, &[Quoted("")], "error"),
    (Op::MakeWord, &[Quoted("true")], "error"),
    (Op::MakeWord, &[Quoted("a b")], "error"),
    (Op::MakeString, &[Int(-7)], "`-7'"),
    (
        Op::MakeString,
        &[Int(i128::MIN)],
        "`-170141183460469231731687303715884105728'",
    ),
];

// End of data and errors.
static ENDS: [Row; 9] = [
    (Op::Add, &[Error, Eod], "eod"),
    (Op::Add, &[Eod, Error], "eod"),
    (Op::Div, &[Int(1), Error], "error"),
    (Op::Div, &[Eod, Int(0)], "eod"),
    (Op::Substr, &[Error, Int(0), Eod], "eod"),
    (Op::Substr, &[Error, Int(0), Truth(true)], "error"),
    (Op::Eq, &[Error, Error], "error"),
    (Op::Eq, &[Eod, Eod], "eod"),
    (Op::Cons, &[Error, Ints(&[])], "error"),
];

#[test]
fn operators_at_their_edges(rt: HostRuntime) -> Result<(), Fail> {
    for rows in [
        EDGES.as_slice(),
        ARITHMETIC.as_slice(),
        POWERS.as_slice(),
        EQUALITY.as_slice(),
        ORDER.as_slice(),
        LISTS.as_slice(),
        STRINGS.as_slice(),
        ENDS.as_slice(),
    ] {
        each_holds(rt.alloc(), rows)?;
    }
    Ok(())
}

// A value of each kind.
static SAMPLES: [Sample; 7] = [
    Int(1),
    Truth(true),
    Bare("dog"),
    Quoted("ab"),
    Ints(&[1, 2]),
    Eod,
    Error,
];

// What an operator of one argument gives for each of the first five samples.
static ONE: [(Op, [&str; 5]); 15] = [
    (Op::Neg, ["-1", "error", "error", "error", "error"]),
    (Op::Abs, ["1", "error", "error", "error", "error"]),
    (Op::Not, ["error", "false", "error", "error", "error"]),
    (Op::Head, ["error", "error", "error", "error", "1"]),
    (Op::Tail, ["error", "error", "error", "error", "[% 2 %]"]),
    (Op::Length, ["error", "error", "error", "2", "2"]),
    (Op::MakeWord, ["error", "error", "error", "ab", "error"]),
    (Op::MakeString, ["`1'", "error", "`dog'", "error", "error"]),
    (Op::IsInt, ["true", "false", "false", "false", "false"]),
    (Op::IsWord, ["false", "false", "true", "false", "false"]),
    (Op::IsString, ["false", "false", "false", "true", "false"]),
    (Op::IsList, ["false", "false", "false", "false", "true"]),
    (Op::IsTruth, ["false", "true", "false", "false", "false"]),
    (Op::IsNull, ["false", "false", "false", "false", "false"]),
    (Op::IsAtom, ["true", "true", "true", "true", "false"]),
];

// What an operator of two arguments gives where both are one of the first five samples, and where they are two of them.
static TWO: [(Op, [&str; 5], &str); 15] = [
    (Op::Add, ["2", "error", "error", "error", "error"], "error"),
    (Op::Sub, ["0", "error", "error", "error", "error"], "error"),
    (Op::Mul, ["1", "error", "error", "error", "error"], "error"),
    (Op::Div, ["1", "error", "error", "error", "error"], "error"),
    (Op::Mod, ["0", "error", "error", "error", "error"], "error"),
    (Op::Pow, ["1", "error", "error", "error", "error"], "error"),
    (Op::Eq, ["true", "true", "true", "true", "true"], "false"),
    (
        Op::Ne,
        ["false", "false", "false", "false", "false"],
        "true",
    ),
    (
        Op::Lt,
        ["false", "error", "false", "false", "error"],
        "error",
    ),
    (Op::Le, ["true", "error", "true", "true", "error"], "error"),
    (
        Op::Gt,
        ["false", "error", "false", "false", "error"],
        "error",
    ),
    (Op::Ge, ["true", "error", "true", "true", "error"], "error"),
    (Op::Cmp, ["0", "error", "0", "0", "error"], "error"),
    (
        Op::Append,
        ["error", "error", "error", "error", "[% 1 2 1 2 %]"],
        "error",
    ),
    (
        Op::Join,
        ["error", "error", "error", "`abab'", "error"],
        "error",
    ),
];

// What `::` gives for each of the first five samples in front of the list.
static IN_FRONT: [&str; 5] = [
    "[% 1 1 2 %]",
    "[% true 1 2 %]",
    "[% dog 1 2 %]",
    "[% `ab' 1 2 %]",
    "[% [% 1 2 %] 1 2 %]",
];

// End of data goes before an error, and an error before what the operator's row says.
fn by_rule(at: &[usize], row: &'static str) -> &'static str {
    if at.contains(&5) {
        "eod"
    } else if at.contains(&6) {
        "error"
    } else {
        row
    }
}

// The operator gives what its row says, where an argument isn't the end of data or an error.
fn gives(
    alloc: Global,
    op: Op,
    at: &[usize],
    args: &[Sample],
    row: &'static str,
) -> Result<(), Fail> {
    holds(alloc, op, args, by_rule(at, row))
}

// `iseod` and `iserror` are true of their own sample alone, and `by_rule` says nothing of them.
fn tells(alloc: Global, op: Op, args: &[Sample], truth: bool) -> Result<(), Fail> {
    holds(alloc, op, args, if truth { "true" } else { "false" })
}

// A sample, at each operator of one.
fn each_of_one(alloc: Global, i: usize) -> Result<(), Fail>
    requires { i < 7 }
{
    let args = [SAMPLES[i]];
    for (op, results) in &ONE {
        let row = if i < 5 { results[i] } else { "" };
        gives(alloc, *op, &[i], &args, row)?;
    }
    tells(alloc, Op::IsEod, &args, i == 5)?;
    tells(alloc, Op::IsError, &args, i == 6)
}

// Two samples, at each operator of two.
fn each_of_two(alloc: Global, i: usize, j: usize) -> Result<(), Fail>
    requires first { i < 7 }
    requires second { j < 7 }
{
    let args = [SAMPLES[i], SAMPLES[j]];
    for (op, same, across) in &TWO {
        let row = if i == j && i < 5 { same[i] } else { *across };
        gives(alloc, *op, &[i, j], &args, row)?;
    }
    let row = if i < 5 && j == 4 {
        IN_FRONT[i]
    } else {
        "error"
    };
    gives(alloc, Op::Cons, &[i, j], &args, row)?;
    let row = if i == 4 && j == 0 { "2" } else { "error" };
    gives(alloc, Op::Nth, &[i, j], &args, row)
}

// Three samples, at the operator of three.
fn each_of_three(alloc: Global, i: usize, j: usize) -> Result<(), Fail>
    requires first { i < 7 }
    requires second { j < 7 }
{
    for k in 0..SAMPLES.len() {
        let row = if i == 3 && j == 0 && k == 0 {
            "`'"
        } else {
            "error"
        };
        let args = [SAMPLES[i], SAMPLES[j], SAMPLES[k]];
        gives(alloc, Op::Substr, &[i, j, k], &args, row)?;
    }
    Ok(())
}

#[test]
fn each_kind_at_each_operator(rt: HostRuntime) -> Result<(), Fail> {
    let alloc = rt.alloc();
    for i in 0..SAMPLES.len() {
        each_of_one(alloc, i)?;
        for j in 0..SAMPLES.len() {
            each_of_two(alloc, i, j)?;
            each_of_three(alloc, i, j)?;
        }
    }
    Ok(())
}

// The form, the spelling, the level and the side of some operators.
static FOUND: [(Form, &'static [u8], Op, u8, Side); 8] = [
    (Form::Before, b"-", Op::Neg, 11, Side::Single),
    (Form::Between, b"-", Op::Sub, 8, Side::Left),
    (Form::Before, b"not", Op::Not, 5, Side::Single),
    (Form::Between, b"**", Op::Pow, 10, Side::Right),
    (Form::Between, b"cmp", Op::Cmp, 6, Side::Single),
    (Form::Between, b"<>", Op::Append, 7, Side::Right),
    (Form::Called, b"nth", Op::Nth, 12, Side::Single),
    (Form::Called, b"substr", Op::Substr, 12, Side::Single),
];

// The number of the first whose row is another one.
fn wrong_found() -> Option<usize> {
    let table = standard();
    for (number, (form, spelling, op, level, side)) in FOUND.iter().enumerate() {
        let row = table.find(*form, *spelling);
        let facts = [
            row.map(|row| (row.op, row.level, row.side)) == Some((*op, *level, *side)),
            row == Some(op.row()),
            Op::find(*form, *spelling) == Some(*op),
        ];
        if first_false(&facts).is_some() {
            return Some(number);
        }
    }
    None
}

#[test]
fn rows_are_found() -> Result<(), Fail> {
    let table = standard();
    let facts = [
        table.find(Form::Called, b"-").is_none(),
        table.find(Form::Between, b"").is_none(),
        Op::find(Form::Before, b"**").is_none(),
    ];
    none_wrong(wrong_found(), "found")?;
    none_wrong(first_false(&facts), "not found")
}

// The levels of the arguments of an operator of level 7, by its side.
static LEVELS: [(Side, u8, u8); 3] = [
    (Side::Left, 7, 8),
    (Side::Right, 8, 7),
    (Side::Single, 8, 8),
];

fn wrong_level() -> Option<usize> {
    for (number, (side, left, right)) in LEVELS.iter().enumerate() {
        if side.left_level(7) != *left || side.right_level(7) != *right {
            return Some(number);
        }
    }
    None
}

#[test]
fn rows_of_a_table_rise() -> Result<(), Fail> {
    let (first, second) = (Op::Neg.row(), Op::Abs.row());
    let facts = [
        OpTable::make([first, second]).is_some(),
        OpTable::make([second, first]).is_none(),
        OpTable::make([first, first]).is_none(),
        OpTable::make([]).is_some(),
        wrong_level().is_none(),
    ];
    none_wrong(first_false(&facts), "rows of a table")
}
