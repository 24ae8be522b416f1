//! The worked programs without inputs, as trees and as tables: at each limit both have the same values.
ghost use Rattle.std.specs.Prelude.{IfOk};
ghost use Rattle.lucid_tree.specs.WellMade.{IsWellMade};

use crate::table_value::{Context, Evaluator, Point};
use crate::told::must;
use lucid_compile::compile;
use lucid_equations::Program;
use lucid_parse::parse;
use lucid_scan::scan;
use lucid_scope::{Scoped, resolve_owned};
use lucid_test_programs::{
    DOUBLING_TEXT, Worked, approximation, in_contexts, over_space, over_time, without_value,
};
use lucid_tree::Tree;
use lucid_value::Value;
use std::alloc::Global;
use std::test::Fail;

// A value's text behind those before it.
fn add_value(alloc: Global, text: &mut String, value: &Option<Value>) -> Result<(), Fail> {
    if !text.is_empty() {
        text.push_str(" / ")?;
    }
    match value {
        Some(value) => {
            let mut bytes = Vec::new(alloc);
            value.show(alloc, &mut bytes)?;
            text.push_str(str::from_utf8(&bytes)?)?;
        }
        None => text.push_str("undefined")?,
    }
    Ok(())
}

// The values of the tree at the times below a count.
fn tree_values(alloc: Global, tree: &Tree, count: u32, limit: u32) -> Result<String, Fail>
    requires { IsWellMade tree.now }
{
    let mut text = String::new(alloc);
    for time in 0..count {
        let value = approximation(alloc, &[], tree, u64::from(time), 0, limit)?;
        add_value(alloc, &mut text, &value)?;
    }
    Ok(text)
}

// The values of the table's root in the empty context at the times below a count.
fn table_values(alloc: Global, program: &Program, count: u32, limit: u32) -> Result<String, Fail> {
    let evaluator = Evaluator { alloc, program };
    let mut text = String::new(alloc);
    for time in 0..count {
        let at = Point {
            context: &Context::Empty,
            time: u64::from(time),
            space: 0,
            limit,
        };
        let value = evaluator.value(program.root(), at)?;
        add_value(alloc, &mut text, &value)?;
    }
    Ok(text)
}

/// The tree that a source spells.
pub(crate) fn tree_of(alloc: Global, source: &[u8]) -> Result<Tree, Fail>
    ensures { IfOk result (λ tree. IsWellMade tree) }
{
    let tokens = scan(alloc, source)?;
    Ok(parse(alloc, source, &tokens)?)
}

/// The names of a source are resolved.
pub(crate) fn scoped(alloc: Global, source: &[u8]) -> Result<Scoped, Fail> {
    Ok(resolve_owned(alloc, tree_of(alloc, source)?)?)
}

// The values of the tree at a limit, if they are those of the table.
fn same_values(
    alloc: Global,
    scoped: &Scoped,
    program: &Program,
    count: u32,
    limit: u32,
) -> Result<Option<String>, Fail> {
    let of_tree = tree_values(alloc, scoped.tree(), count, limit)?;
    let of_table = table_values(alloc, program, count, limit)?;
    if of_table == of_tree {
        Ok(Some(of_tree))
    } else {
        Ok(None)
    }
}

// The same if they are so at each limit from the least one to the greatest.
fn same_at_each(
    alloc: Global,
    scoped: &Scoped,
    program: &Program,
    count: u32,
    (least, greatest): (u32, u32),
) -> Result<Option<String>, Fail> {
    for limit in least..greatest {
        if same_values(alloc, scoped, program, count, limit)?.is_none() {
            return Ok(None);
        }
    }
    same_values(alloc, scoped, program, count, greatest)
}

// The same of a source.
fn values_of(
    alloc: Global,
    source: &str,
    count: u32,
    limits: (u32, u32),
) -> Result<Option<String>, Fail> {
    let scoped = scoped(alloc, source.as_bytes())?;
    let program = compile(alloc, &scoped)?;
    same_at_each(alloc, &scoped, &program, count, limits)
}

// Whether the values of a source are so.
fn are(
    alloc: Global,
    source: &str,
    count: u32,
    limits: (u32, u32),
    wanted: &str,
) -> Result<bool, Fail> {
    Ok(values_of(alloc, source, count, limits)?.as_deref() == Some(wanted))
}

// The texts of the values, each behind those before it.
fn add_texts(text: &mut String, values: &[&str]) -> Result<(), Fail> {
    for value in values {
        if !text.is_empty() {
            text.push_str(" / ")?;
        }
        text.push_str(value)?;
    }
    Ok(())
}

// The tree and the table have the program's values at a limit that is enough, and the same ones at each lower limit.
fn keeps_values(alloc: Global, program: &Worked) -> Result<bool, Fail> {
    let mut wanted = String::new(alloc);
    add_texts(&mut wanted, program.values)?;
    add_texts(&mut wanted, program.later)?;
    let count = u32::try_from(program.count())?;
    are(alloc, program.source, count, (0, program.enough), &wanted)
}

fn each_keeps_values(alloc: Global, programs: &[Worked]) -> Result<(), Fail> {
    for program in programs {
        must(keeps_values(alloc, program)?, program.name)?;
    }
    Ok(())
}

fn each_is_undefined(alloc: Global, programs: &[Worked]) -> Result<(), Fail> {
    for program in programs {
        must(
            are(alloc, program.source, 1, (0, 20), "undefined")?,
            program.name,
        )?;
    }
    Ok(())
}

#[test]
fn worked_programs(rt: HostRuntime) -> Result<(), Fail> {
    let alloc = rt.alloc();
    each_keeps_values(alloc, over_time())?;
    each_keeps_values(alloc, over_space())?;
    each_keeps_values(alloc, in_contexts())?;
    each_is_undefined(alloc, without_value())
}

// The length of the text of the values of a text that doubles at each time.
fn weight(alloc: Global) -> Result<Option<usize>, Fail> {
    let text = values_of(alloc, DOUBLING_TEXT, 18, (18, 18))?;
    Ok(text.map(|text| text.len()))
}

// not not .. true, as deep as a tree may be.
fn is_deep(alloc: Global) -> Result<bool, Fail> {
    let mut source = "not ".repeat(alloc, 399)?;
    source.push_str("true")?;
    are(alloc, &source, 1, (1, 1), "false")
}

// A text that doubles at each time is too heavy from time 16 on: so there are the texts of the sixteen strings and of two errors.
#[test]
fn weight_and_depth(rt: HostRuntime) -> Result<(), Fail> {
    let weight = weight(rt.alloc())?;
    let is_deep = is_deep(rt.alloc())?;
    assert_eq!(rt;
        (weight, is_deep),
        (Some(65_535 + 16 * 2 + 2 * 5 + 17 * 3), true)
    );
    Ok(())
}
