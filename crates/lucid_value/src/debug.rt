//! The text of a value in the message of a failed test.
use crate::{Link, List, Value};
use std::fmt::{Debug, Formatter, Result, Write};

impl Debug for Value {
    fn fmt<W: Write>(&self, f: &mut Formatter<W>) -> Result {
        write_value(self, f)
    }
}

fn write_bytes<W: Write>(bytes: &[u8], f: &mut Formatter<W>) -> Result {
    match std::str::from_utf8(bytes) {
        Ok(text) => f.write_str(text),
        Err(_) => f.write_str("?"),
    }
}

#[cycle(debug)]
fn write_value<W: Write>(value: &Value, f: &mut Formatter<W>) -> Result {
    match value {
        Value::Int(n) => write!(f, "{n}"),
        Value::Truth(true) => f.write_str("true"),
        Value::Truth(false) => f.write_str("false"),
        Value::Word(w) => write_bytes(w.bytes(), f),
        Value::Text(t) => {
            f.write_str("`")?;
            write_bytes(t.bytes(), f)?;
            f.write_str("'")
        }
        Value::List(l) => write_list(l, f),
        Value::Eod => f.write_str("eod"),
        Value::Fault => f.write_str("error"),
    }
}

// Along the list a loop, and into its items a recursion.
#[cycle(debug)]
fn write_list<W: Write>(list: &List, f: &mut Formatter<W>) -> Result {
    f.write_str("[%")?;
    let mut rest = list;
    while let Link::More(cell) = &rest.top {
        f.write_str(" ")?;
        write_value(&cell.item, f)?;
        rest = &cell.rest;
    }
    f.write_str(" %]")
}
