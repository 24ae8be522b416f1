//! Where an `error` or an end of data came from, by certificates that are written out by hand.
use lucid_explain_errors::{Cause, Input, cause_of, explain_error};
use lucid_ops::Op;
use lucid_value::{Name, read_value};
use std::alloc::{AllocError, Global};
use std::test::Fail;

// A source, the certificate of a value of its program, the bytes of its input a, where they are there, and what is said of the value.
struct Row {
    source: &'static str,
    certificate: &'static str,
    input: Option<&'static str>,
    text: &'static str,
}

// The nodes of the sources with `next a` are t, a, t, a, next, +, fby; those of the one with f 3, f(3), x, "b", *; of the one with u u, 1, atspace, 0, u,
// hd, sby; of the `if` 3, 1, 2, if; of the one with `attime` 1, 2, 3, -, attime; of the one with `error fby t` t, error, t, fby; of the others what
// the operator takes, and then the operator. The source a is one node.
static ROWS: [Row; 24] = [
    Row {
        source: "length \"dog\"",
        certificate: "j 0 0 0 0 0 dog\nj 1 0 0 0 1 0 error\n",
        input: None,
        text: "The value at time 0 is `error`.\np:1:1:\nlength \"dog\"\n^\nAt time 0 `length` gets dog: it wants a list or a string.\n\"red\" is a word, and no string: the string of a word x is `mkstring x`.\n",
    },
    Row {
        source: "1 + \"dog\"",
        certificate: "j 0 0 0 0 0 1\nj 1 0 0 0 0 dog\nj 2 0 0 0 2 0 1 error\n",
        input: None,
        text: "The value at time 0 is `error`.\np:1:3:\n1 + \"dog\"\n  ^\nAt time 0 `+` gets 1 and dog: it wants two integers.\nStrings, as `red' and `blue', are joined by `^`, and lists by `<>`. \"red\" is a word, and words aren't joined. Each line of an input is a value, also a heading.\n",
    },
    Row {
        source: "t where t = a fby t + next a; end",
        certificate: "j 3 0 1 0 0 dog\nj 4 0 0 0 1 0 dog\nj 1 0 0 0 0 1\nj 6 0 0 0 1 2 1\nj 2 0 0 0 1 3 1\nj 5 0 0 0 2 4 1 error\nj 6 0 1 0 1 5 error\nj 0 0 1 0 1 6 error\n",
        input: None,
        text: "The value at time 1 is `error`.\nt at time 1 is `error`.\np:1:21:\nt where t = a fby t + next a; end\n                    ^\nAt time 0 `+` gets 1 and dog: it wants two integers.\nStrings, as `red' and `blue', are joined by `^`, and lists by `<>`. \"red\" is a word, and words aren't joined. Each line of an input is a value, also a heading.\n",
    },
    Row {
        source: "f(3) where f(x) = x * \"b\"; end",
        certificate: "c 0 0 0\nj 0 0 0 0 0 3\nj 2 1 0 0 1 0 3\nj 3 1 0 0 0 b\nj 4 1 0 0 2 1 2 error\nj 1 0 0 0 1 3 error\n",
        input: None,
        text: "The value at time 0 is `error`.\nf(..) at time 0 is `error`.\np:1:21:\nf(3) where f(x) = x * \"b\"; end\n                    ^\nAt time 0 `*` gets 3 and b: it wants two integers.\n",
    },
    Row {
        source: "u atspace 1 where u = 0 sby hd u; end",
        certificate: "j 3 0 0 0 0 0\nj 6 0 0 0 1 0 0\nj 4 0 0 0 1 1 0\nj 5 0 0 0 1 2 error\nj 6 0 0 1 1 3 error\nj 0 0 0 1 1 4 error\nj 1 0 0 0 0 1\nj 2 0 0 0 2 6 5 error\n",
        input: None,
        text: "The value at time 0 is `error`.\nu at time 0, space 1 is `error`.\np:1:29:\nu atspace 1 where u = 0 sby hd u; end\n                            ^\nAt time 0 `hd` gets 0: it wants a list.\nThe first value of a stream n is `first n`.\n",
    },
    Row {
        source: "t where t = a fby t + next a; end",
        certificate: "j 3 0 1 0 0 error\nj 4 0 0 0 1 0 error\nj 1 0 0 0 0 1\nj 6 0 0 0 1 2 1\nj 2 0 0 0 1 3 1\nj 5 0 0 0 2 4 1 error\nj 6 0 1 0 1 5 error\nj 0 0 1 0 1 6 error\n",
        input: Some("1\n2.50\n3\n"),
        text: "The value at time 1 is `error`.\nt at time 1 is `error`.\na at time 1 is `error`.\np:1:28:\nt where t = a fby t + next a; end\n                           ^\nLine 2 of this input is no value, or it is `error` itself. A value is an integer, as -12, a word without quotes, as red, a string, as `two words', a list, as [% 1 2 %], `true` or `false`. Of an input x, `x whenever not iserror x` has the other lines, and `x whenever not iserror x and isint x` the integers.\nThe line is: 2.50\nAs a string it is written `2.50'.\n",
    },
    Row {
        source: "a",
        certificate: "j 0 0 0 0 0 error\n",
        input: Some("\n"),
        text: "The value at time 0 is `error`.\na at time 0 is `error`.\np:1:1:\na\n^\nLine 1 of this input is no value, or it is `error` itself. A value is an integer, as -12, a word without quotes, as red, a string, as `two words', a list, as [% 1 2 %], `true` or `false`. Of an input x, `x whenever not iserror x` has the other lines, and `x whenever not iserror x and isint x` the integers.\nThe line is empty.\n",
    },
    Row {
        source: "a",
        certificate: "j 0 0 0 0 0 error\n",
        input: Some("\u{feff}1\n"),
        text: "The value at time 0 is `error`.\na at time 0 is `error`.\np:1:1:\na\n^\nLine 1 of this input is no value, or it is `error` itself. A value is an integer, as -12, a word without quotes, as red, a string, as `two words', a list, as [% 1 2 %], `true` or `false`. Of an input x, `x whenever not iserror x` has the other lines, and `x whenever not iserror x and isint x` the integers.\nThe line is: ???1\nA byte order mark stands in front of it: save the file without it.\n",
    },
    Row {
        source: "a",
        certificate: "j 0 0 0 0 0 eod\n",
        input: None,
        text: "The value at time 0 is `eod`, the end of data: a run ends before it.\na at time 0 is `eod`.\np:1:1:\na\n^\nThis input ends before line 1, or that line is `eod` itself. At the last line of an input x `iseod next x` is true.\n",
    },
    Row {
        source: "if 3 then 1 else 2 fi",
        certificate: "j 0 0 0 0 0 3\nj 3 0 0 0 1 0 error\n",
        input: None,
        text: "The value at time 0 is `error`.\np:1:1:\nif 3 then 1 else 2 fi\n^\nAt time 0 `if` gets 3: it wants `true` or `false`.\n",
    },
    Row {
        source: "1 whenever 0",
        certificate: "j 1 0 0 0 0 0\nj 2 0 0 0 1 0 error\n",
        input: None,
        text: "The value at time 0 is `error`.\np:1:3:\n1 whenever 0\n  ^\nAt time 0 `whenever` gets 0: it wants `true` or `false` on its right side.\n",
    },
    Row {
        source: "1 attime 2 - 3",
        certificate: "j 1 0 0 0 0 2\nj 2 0 0 0 0 3\nj 3 0 0 0 2 0 1 -1\nj 4 0 0 0 1 2 error\n",
        input: None,
        text: "The value at time 0 is `error`.\np:1:3:\n1 attime 2 - 3\n  ^\nAt time 0 `attime` gets -1: it wants a time, from 0 to 9223372036854775807. The value of n one time before is `(0 fby n)`, which is 0 at first.\n",
    },
    Row {
        source: "iserror error",
        certificate: "j 0 0 0 0 0 error\nj 1 0 0 0 1 0 true\n",
        input: None,
        text: "",
    },
    Row {
        source: "a",
        certificate: "j 0 0 0 0 0 error\n",
        input: Some("1,2\n"),
        text: "The value at time 0 is `error`.\na at time 0 is `error`.\np:1:1:\na\n^\nLine 1 of this input is no value, or it is `error` itself. A value is an integer, as -12, a word without quotes, as red, a string, as `two words', a list, as [% 1 2 %], `true` or `false`. Of an input x, `x whenever not iserror x` has the other lines, and `x whenever not iserror x and isint x` the integers.\nThe line is: 1,2\nAs a string it is written `1,2'.\nA line is one value: 1200 has no comma, there are no real numbers, and two columns stand in two files, or as lists, `[% 1 2 %]`.\n",
    },
    Row {
        source: "a",
        certificate: "j 0 0 0 0 0 error\n",
        input: Some("1;2\n"),
        text: "The value at time 0 is `error`.\na at time 0 is `error`.\np:1:1:\na\n^\nLine 1 of this input is no value, or it is `error` itself. A value is an integer, as -12, a word without quotes, as red, a string, as `two words', a list, as [% 1 2 %], `true` or `false`. Of an input x, `x whenever not iserror x` has the other lines, and `x whenever not iserror x and isint x` the integers.\nThe line is: 1;2\nAs a string it is written `1;2'.\nA line is one value: 1200 has no comma, there are no real numbers, and two columns stand in two files, or as lists, `[% 1 2 %]`.\n",
    },
    Row {
        source: "a",
        certificate: "j 0 0 0 0 0 error\n",
        input: Some("\"dog\"\n"),
        text: "The value at time 0 is `error`.\na at time 0 is `error`.\np:1:1:\na\n^\nLine 1 of this input is no value, or it is `error` itself. A value is an integer, as -12, a word without quotes, as red, a string, as `two words', a list, as [% 1 2 %], `true` or `false`. Of an input x, `x whenever not iserror x` has the other lines, and `x whenever not iserror x and isint x` the integers.\nThe line is: \"dog\"\nIt is written without quotes: dog\n",
    },
    Row {
        source: "a",
        certificate: "j 0 0 0 0 0 error\n",
        input: Some("\"12\"\n"),
        text: "The value at time 0 is `error`.\na at time 0 is `error`.\np:1:1:\na\n^\nLine 1 of this input is no value, or it is `error` itself. A value is an integer, as -12, a word without quotes, as red, a string, as `two words', a list, as [% 1 2 %], `true` or `false`. Of an input x, `x whenever not iserror x` has the other lines, and `x whenever not iserror x and isint x` the integers.\nThe line is: \"12\"\nIt is written without quotes: 12\n",
    },
    Row {
        source: "a",
        certificate: "j 0 0 0 0 0 error\n",
        input: Some("\"two words\"\n"),
        text: "The value at time 0 is `error`.\na at time 0 is `error`.\np:1:1:\na\n^\nLine 1 of this input is no value, or it is `error` itself. A value is an integer, as -12, a word without quotes, as red, a string, as `two words', a list, as [% 1 2 %], `true` or `false`. Of an input x, `x whenever not iserror x` has the other lines, and `x whenever not iserror x and isint x` the integers.\nThe line is: \"two words\"\nAs a string it is written `two words'.\n",
    },
    Row {
        source: "substr(`hello', 3, 6)",
        certificate: "j 0 0 0 0 0 `hello'\nj 1 0 0 0 0 3\nj 2 0 0 0 0 6\nj 3 0 0 0 3 0 1 2 error\n",
        input: None,
        text: "The value at time 0 is `error`.\np:1:1:\nsubstr(`hello', 3, 6)\n^\nAt time 0 `substr` gets `hello', 3 and 6: the string has no such part. Its first byte is byte 0, and a part ends before the last number, which is the length at most.\n",
    },
    Row {
        source: "false or 3",
        certificate: "j 0 0 0 0 0 false\nj 1 0 0 0 0 3\nj 2 0 0 0 2 0 1 error\n",
        input: None,
        text: "The value at time 0 is `error`.\np:1:7:\nfalse or 3\n      ^\nAt time 0 `or` gets 3: it wants `true` or `false`. On both sides of it stands a test, as in `n eq 1 or n eq 2`.\n",
    },
    Row {
        source: "t where t = error fby t; end",
        certificate: "j 1 0 0 0 0 error\nj 3 0 0 0 1 0 error\nj 2 0 0 0 1 1 error\nj 3 0 1 0 1 2 error\nj 2 0 1 0 1 3 error\nj 3 0 2 0 1 4 error\nj 2 0 2 0 1 5 error\nj 3 0 3 0 1 6 error\nj 2 0 3 0 1 7 error\nj 3 0 4 0 1 8 error\nj 2 0 4 0 1 9 error\nj 3 0 5 0 1 10 error\nj 2 0 5 0 1 11 error\nj 3 0 6 0 1 12 error\nj 2 0 6 0 1 13 error\nj 3 0 7 0 1 14 error\nj 0 0 7 0 1 15 error\n",
        input: None,
        text: "The value at time 7 is `error`.\nt at time 7 is `error`.\nt at time 6 is `error`.\n.. 2 more ..\nt at time 3 is `error`.\nt at time 2 is `error`.\nt at time 1 is `error`.\nt at time 0 is `error`.\np:1:13:\nt where t = error fby t; end\n            ^\nHere `error` itself is written.\n",
    },
    Row {
        source: "0 <> 3",
        certificate: "j 0 0 0 0 0 0\nj 1 0 0 0 0 3\nj 2 0 0 0 2 0 1 error\n",
        input: None,
        text: "The value at time 0 is `error`.\np:1:3:\n0 <> 3\n  ^\nAt time 0 `<>` gets 0 and 3: it wants two lists.\nWhat differs is written with `ne`, as in `n ne 3`.\n",
    },
    Row {
        source: "`a' ^ 0",
        certificate: "j 0 0 0 0 0 `a'\nj 1 0 0 0 0 0\nj 2 0 0 0 2 0 1 error\n",
        input: None,
        text: "The value at time 0 is `error`.\np:1:5:\n`a' ^ 0\n    ^\nAt time 0 `^` gets `a' and 0: it wants two strings.\nA string is written `red', and \"red\" is a word. Lists are joined by `<>`. A power is written `**`. The string of an integer or a word x is `mkstring x`.\n",
    },
    Row {
        source: "1 asa 5",
        certificate: "j 1 0 0 0 0 5\nj 2 0 0 0 1 0 error\n",
        input: None,
        text: "The value at time 0 is `error`.\np:1:3:\n1 asa 5\n  ^\nAt time 0 `asa` gets 5: it wants `true` or `false` on its right side. The value of n at time 5 is `n attime 5`.\n",
    },
];

// The input a with these bytes.
fn inputs_of(alloc: Global, bytes: Option<&str>) -> Result<Vec<Input>, Fail> {
    let mut inputs = Vec::new(alloc);
    if let Some(bytes) = bytes {
        inputs.push(Input {
            name: Name::make(alloc, b"a")?,
            bytes: Vec::from_slice(alloc, bytes.as_bytes())?,
        })?;
    }
    Ok(inputs)
}

// Whether this is said.
fn is_told(alloc: Global, row: &Row) -> Result<bool, Fail> {
    let inputs = inputs_of(alloc, row.input)?;
    let text = explain_error(
        alloc,
        b"p",
        row.source.as_bytes(),
        row.certificate.as_bytes(),
        &inputs,
    )?;
    Ok(text.as_slice() == row.text.as_bytes())
}

#[test]
fn errors_are_told(rt: HostRuntime) -> Result<(), Fail> {
    for row in &ROWS {
        if !is_told(rt.alloc(), row)? {
            return Err(Fail::new(format_args!("{}: {}", row.source, row.text)));
        }
    }
    Ok(())
}

// Why an operator gives `error` for the values that the texts read as; nothing where it takes another number of arguments.
fn cause_for(alloc: Global, op: Op, texts: &[&str]) -> Result<Option<Cause>, Fail> {
    let mut values = Vec::new(alloc);
    for text in texts {
        values.push(read_value(alloc, text.as_bytes())?)?;
    }
    if values.len() != op.arity() {
        return Ok(None);
    }
    Ok(cause_of(alloc, op, &values)?)
}

// An operator, its arguments, and why it gives `error`.
static CAUSES: [(Op, &[&str], Option<Cause>); 20] = [
    (Op::Add, &["1", "dog"], Some(Cause::Kinds)),
    (Op::Add, &["1", "2"], None),
    (Op::Add, &["1", "error"], Some(Cause::Kinds)),
    (Op::Add, &["eod", "error"], None),
    (
        Op::Neg,
        &["-170141183460469231731687303715884105728"],
        Some(Cause::TooBig),
    ),
    (Op::Div, &["1", "0"], Some(Cause::ZeroDivisor)),
    (
        Op::Div,
        &["-170141183460469231731687303715884105728", "-1"],
        Some(Cause::TooBig),
    ),
    (Op::Mod, &["1", "0"], Some(Cause::ZeroDivisor)),
    (Op::Pow, &["2", "127"], Some(Cause::TooBig)),
    (Op::Pow, &["2", "-1"], Some(Cause::BelowZero)),
    (Op::Lt, &["1", "one"], Some(Cause::Kinds)),
    (Op::Eq, &["1", "one"], None),
    (Op::Eq, &["1", "error"], Some(Cause::Kinds)),
    (Op::IsError, &["error"], None),
    (Op::Head, &["[% %]"], Some(Cause::Empty)),
    (Op::Nth, &["[% 1 %]", "1"], Some(Cause::NoItem)),
    (Op::Substr, &["`abc'", "2", "9"], Some(Cause::NoPart)),
    (Op::MakeWord, &["`a b'"], Some(Cause::NoWord)),
    (Op::MakeString, &["true"], Some(Cause::Kinds)),
    (Op::Cons, &["1", "2"], Some(Cause::Kinds)),
];

#[test]
fn causes_of_errors(rt: HostRuntime) -> Result<(), Fail> {
    for (op, texts, cause) in &CAUSES {
        let found = cause_for(rt.alloc(), *op, *texts)?;
        assert_eq!(rt; found, *cause, "{op:?}");
    }
    Ok(())
}
