//! What the test of cycles says of sources. The crate of the test has no sources of its own, so its tests stand here. Each row is worked
//! out by hand from the delays of the references.
ghost use Rattle.lucid_scope.specs.Scoped.{scoped_tree};
ghost use Rattle.lucid_cycles.specs.Judged.{IsJudged};

use crate::told::{must, none_wrong};
use crate::tree::tree_of;
use lucid_cycles::{Judgment, enough, judge};
use lucid_lists::Numbers;
use lucid_scope::{Scoped, resolve_owned};
use std::alloc::{AllocError, Global};
use std::test::Fail;

/// A source, and its judgment as text: the depth and the potentials, the numbers of a cycle's names and its delays, or the refusal.
type Row = (&'static str, &'static str);

fn scoped_of(alloc: Global, source: &[u8]) -> Result<Scoped, Fail> {
    Ok(resolve_owned(alloc, tree_of(alloc, source)?)?)
}

fn tell_depth(
    text: &mut String,
    factor: u64,
    add: u64,
    potentials: &[u64],
) -> Result<(), AllocError> {
    write!(text, "depth {factor} * t + {add}, potentials")?;
    for potential in potentials {
        write!(text, " {potential}")?;
    }
    Ok(())
}

fn tell_cycle(text: &mut String, names: &[u64], delays: &[i64]) -> Result<(), AllocError> {
    text.push_str("cycle")?;
    for name in names {
        write!(text, " {name}")?;
    }
    text.push_str(", delays")?;
    for delay in delays {
        write!(text, " {delay}")?;
    }
    Ok(())
}

fn tell(text: &mut String, judgment: &Judgment) -> Result<(), AllocError> {
    match judgment {
        Judgment::Enough {
            factor,
            add,
            potentials,
        } => tell_depth(text, *factor, *add, potentials.items()),
        Judgment::Cycle { names, delays } => tell_cycle(text, names.items(), delays.items()),
    }
}

fn told(alloc: Global, judgment: &Judgment) -> Result<String, AllocError> {
    let mut text = String::new(alloc);
    tell(&mut text, judgment)?;
    Ok(text)
}

fn judged_of(alloc: Global, scoped: &Scoped) -> Result<String, AllocError> {
    match judge(alloc, scoped) {
        Ok(judgment) => told(alloc, &judgment),
        Err(refusal) => refusal.to_string(alloc),
    }
}

fn judged(alloc: Global, source: &[u8]) -> Result<String, Fail> {
    let scoped = scoped_of(alloc, source)?;
    Ok(judged_of(alloc, &scoped)?)
}

fn is_judged_so(alloc: Global, source: &str, expected: &str) -> Result<bool, Fail> {
    Ok(judged(alloc, source.as_bytes())?.as_str() == expected)
}

fn each_is_judged(alloc: Global, rows: &[Row]) -> Result<(), Fail> {
    for (source, expected) in rows {
        must(is_judged_so(alloc, source, expected)?, source)?;
    }
    Ok(())
}

// A depth is enough.
static ENOUGH: [Row; 9] = [
    (
        "x where x = 0 fby x + 1; end",
        "depth 1 * t + 2, potentials 0",
    ),
    (
        "f where f = 0 fby g; g = 1 fby f + g; end",
        "depth 2 * t + 2, potentials 0 0",
    ),
    ("a + 1", "depth 1 * t + 2, potentials"),
    // two cycles that share a name
    (
        "x where x = 0 fby y + z; y = x; z = x; end",
        "depth 3 * t + 2, potentials 0 1 1",
    ),
    // inside `first` the delay begins again
    (
        "x where x = first (0 fby x); end",
        "depth 1 * t + 2, potentials 0",
    ),
    // a name that nothing demands
    (
        "1 where x = 0 fby x; y = x; end",
        "depth 2 * t + 2, potentials 0 1",
    ),
    // a block's subject belongs to what the block stands in
    (
        "x where x = y where y = 0 fby x; end; end",
        "depth 2 * t + 3, potentials 1 0",
    ),
    (
        "next next x where x = 0 fby x; end",
        "depth 1 * t + 4, potentials 0",
    ),
    (
        "0 fby x where x = 0 fby x; end",
        "depth 1 * t + 2, potentials 0",
    ),
];

// A cycle has a sum of at most 0.
static CYCLES: [Row; 8] = [
    (
        "x where x = 0 fby y; y = next x; end",
        "cycle 0 1, delays 1 -1",
    ),
    ("x where x = next x; end", "cycle 0, delays -1"),
    ("x where x = x; end", "cycle 0, delays 0"),
    // two cycles that share a name
    (
        "x where x = 0 fby y + z; y = x; z = next x; end",
        "cycle 0 2, delays 1 -1",
    ),
    // inside `first` the delay is 0
    ("x where x = 0 fby first x; end", "cycle 0, delays 0"),
    // a name that nothing demands
    ("1 where x = x; end", "cycle 0, delays 0"),
    // the least name of a cycle needn't be the first name of all
    ("x where x = y; y = z; z = y; end", "cycle 1 2, delays 0 0"),
    // a block's subject belongs to what the block stands in
    (
        "x where x = next (y where y = x; end); end",
        "cycle 0 1, delays -1 0",
    ),
];

static OUTSIDE: [Row; 6] = [
    ("1 asa false", "not judged at 2"),
    ("(initial 1) asa true", "not judged at 1"),
    ("initial 1", "not judged at 0"),
    ("f(1) where f(y) = y; end", "not judged at 0"),
    ("1 where f(y) = y; end", "not judged at 8"),
    ("x where x is current 1; end", "not judged at 8"),
];

fn show(alloc: Global, scoped: &Scoped, line: &mut Vec<u8>) -> Result<(), Fail> {
    let judgment = judge(alloc, scoped)?;
    Ok(judgment.show(alloc, scoped, line)?)
}

fn line_of(alloc: Global, scoped: &Scoped) -> Result<Vec<u8>, Fail> {
    let mut line = Vec::new(alloc);
    show(alloc, scoped, &mut line)?;
    Ok(line)
}

// The line of each judgment. The places are counted by hand, from 0.
static LINES: [Row; 6] = [
    ("x where x = 0 fby x + 1; end", "depth 1 * t + 2\n"),
    (
        "f where f = 0 fby g; g = 1 fby f + g; end",
        "depth 2 * t + 2\n",
    ),
    (
        "x where x = 0 fby y; y = next x; end",
        "cycle x at 8, y at 21: sum 0\n",
    ),
    // a sum below 0
    ("x where x = next x; end", "cycle x at 8: sum -1\n"),
    // the least name of a cycle needn't be the first name of all
    (
        "x where x = y; y = z; z = y; end",
        "cycle y at 15, z at 22: sum 0\n",
    ),
    // a name of a block inside a definition
    (
        "x where x = next (yy where yy = x; end); end",
        "cycle x at 8, yy at 27: sum -1\n",
    ),
];

fn has_line(alloc: Global, source: &str, expected: &str) -> Result<bool, Fail> {
    let scoped = scoped_of(alloc, source.as_bytes())?;
    Ok(line_of(alloc, &scoped)?.as_slice() == expected.as_bytes())
}

#[test]
fn judgments_and_their_lines(rt: HostRuntime) -> Result<(), Fail> {
    let alloc = rt.alloc();
    each_is_judged(alloc, &ENOUGH)?;
    each_is_judged(alloc, &CYCLES)?;
    each_is_judged(alloc, &OUTSIDE)?;
    for (source, expected) in &LINES {
        must(has_line(alloc, source, expected)?, source)?;
    }
    Ok(())
}

/// A source of so many names.
#[derive(Clone, Copy)]
enum Long {
    Chain,
    Wide,
    WideCycle,
    Made,
}

// x0 where x0 = 0; x1 = x0 + 1; x2 = x1 + 1; .. end
fn chain(text: &mut String, count: u32) -> Result<(), AllocError> {
    text.push_str("x0 where x0 = 0;\n")?;
    for number in 1..count {
        let last = number - 1;
        write!(text, "x{number} = x{last} + 1;\n")?;
    }
    text.push_str("end")
}

// x0 where x0 = LAST; x1 = x0 + x0 + x0 + x0 + x0; x2 = x1 + x1 + x0 + x0 + x0; .. end: each name has five references of lesser ones
fn wide(text: &mut String, count: u32, last: &str) -> Result<(), AllocError> {
    write!(text, "x0 where x0 = {last};\n")?;
    for number in 1..count {
        write!(text, "x{number} = x{}", number - 1)?;
        for part in 2..=5 {
            write!(text, " + x{}", number / part)?;
        }
        text.push_str(";\n")?;
    }
    text.push_str("end")
}

// vN where v0 = 1 fby (v0 + 1) mod 1000; v1 = v0 fby (v1 + v0) mod 1000; .. end
fn made(text: &mut String, last: u32) -> Result<(), AllocError> {
    write!(text, "v{last} where\nv0 = 1 fby (v0 + 1) mod 1000;\n")?;
    for number in 1..=last {
        let before = number - 1;
        write!(
            text,
            "v{number} = v{before} fby (v{number} + v{before}) mod 1000;\n"
        )?;
    }
    text.push_str("end")
}

fn put_long(text: &mut String, long: Long, count: u32) -> Result<(), AllocError> {
    match long {
        Long::Chain => chain(text, count),
        Long::Wide => wide(text, count, "0"),
        Long::WideCycle => wide(text, count, "x1999"),
        Long::Made => made(text, count),
    }
}

fn long_source(alloc: Global, long: Long, count: u32) -> Result<String, AllocError> {
    let mut text = String::new(alloc);
    put_long(&mut text, long, count)?;
    Ok(text)
}

// The judgment of so many names, each of which needs the one before it at the same time.
fn rises(text: &mut String, names: u32, add: u32) -> Result<(), AllocError> {
    write!(text, "depth {names} * t + {add}, potentials")?;
    for potential in 0..names {
        write!(text, " {potential}")?;
    }
    Ok(())
}

fn rising(alloc: Global, names: u32, add: u32) -> Result<String, AllocError> {
    let mut text = String::new(alloc);
    rises(&mut text, names, add)?;
    Ok(text)
}

// A long source, how many names it is made of, and how many it has; what is added to its depth.
type Rising = (Long, u32, u32, u32);

static RISING: [Rising; 3] = [
    (Long::Chain, 2000, 2000, 2),
    (Long::Wide, 2000, 2000, 2),
    (Long::Made, 1000, 1001, 1002),
];

fn is_rising(alloc: Global, (long, count, names, add): Rising) -> Result<bool, Fail> {
    let source = long_source(alloc, long, count)?;
    is_judged_as_rising(alloc, &source, names, add)
}

fn is_judged_as_rising(alloc: Global, source: &str, names: u32, add: u32) -> Result<bool, Fail> {
    let expected = rising(alloc, names, add)?;
    is_judged_so(alloc, source, &expected)
}

// The number of the first long source that is judged otherwise.
fn wrong_rising(alloc: Global) -> Result<Option<usize>, Fail> {
    for (number, row) in RISING.iter().enumerate() {
        if !is_rising(alloc, *row)? {
            return Ok(Some(number));
        }
    }
    Ok(None)
}

fn is_too_long(alloc: Global) -> Result<bool, Fail> {
    let source = long_source(alloc, Long::Chain, 2001)?;
    is_judged_so(alloc, &source, "too many names")
}

fn is_cycle(alloc: Global) -> Result<bool, Fail> {
    let source = long_source(alloc, Long::WideCycle, 2000)?;
    Ok(judged(alloc, source.as_bytes())?.starts_with("cycle"))
}

// Where each name of a wide program needs the one before it, potentials rise in as many rounds as there are names; with the last name in the
// place of 0 there are cycles without delay.
#[test]
fn large_programs_are_judged(rt: HostRuntime) -> Result<(), Fail> {
    let alloc = rt.alloc();
    none_wrong(wrong_rising(alloc)?, "long sources")?;
    must(is_too_long(alloc)?, "a chain of 2,001 names")?;
    must(is_cycle(alloc)?, "a wide cycle")
}

/// A factor, a number that is added, the potentials of two names, and whether that is enough.
type Depth = (u64, u64, [u64; 2], bool);

static DEPTHS: [Depth; 5] = [
    (2, 3, [1, 0], true),
    (2, 4, [1, 0], true),
    (2, 2, [1, 0], false),
    (1, 3, [1, 0], false),
    (2, 3, [0, 0], false),
];

// Whether a depth is enough for a program.
fn is_enough(alloc: Global, scoped: &Scoped, depth: &Depth) -> Result<bool, Fail>
    requires { IsJudged (scoped_tree scoped.now) }
{
    let (factor, add, potentials, _) = *depth;
    let mut items = Vec::new(alloc);
    items.extend_from_slice(&potentials)?;
    Ok(enough(scoped, factor, add, &Numbers::from_vec(items)))
}

// The number of the first depth that is checked otherwise.
fn wrong_depth(alloc: Global, scoped: &Scoped) -> Result<Option<usize>, Fail>
    requires { IsJudged (scoped_tree scoped.now) }
{
    for (number, depth) in DEPTHS.iter().enumerate() {
        if is_enough(alloc, scoped, depth)? != depth.3 {
            return Ok(Some(number));
        }
    }
    Ok(None)
}

// The same of a program that is judged first.
fn wrong_once_judged(alloc: Global, scoped: &Scoped) -> Result<Option<usize>, Fail> {
    judge(alloc, scoped)?;
    wrong_depth(alloc, scoped)
}

fn wrong_of_program(alloc: Global) -> Result<Option<usize>, Fail> {
    let scoped = scoped_of(alloc, b"x where x = y where y = 0 fby x; end; end")?;
    wrong_once_judged(alloc, &scoped)
}

#[test]
fn a_depth_is_checked(rt: HostRuntime) -> Result<(), Fail> {
    none_wrong(wrong_of_program(rt.alloc())?, "depths")
}
