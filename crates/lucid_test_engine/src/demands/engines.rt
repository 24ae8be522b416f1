//! Single engines that hold all: long runs, and one that is cleared.
use crate::told::{all_hold, must};
use crate::trials::{Demand, Demands, OverFiles, Setup, times_below};
use lucid_retire::Keep;
use lucid_schedule::Newest;
use lucid_test_programs::{FIBONACCI, LONG_ADVANCE};
use std::alloc::{AllocError, Global};
use std::test::Fail;

// How many references deep a demand may be.
const DEPTH: u32 = 100_000;

// How many values of a search are demanded.
const LONG: u32 = 100_000;

// Whether demands on a program without inputs give these answers where all is held, and so many values are held then.
fn gives<'a>(
    alloc: Global,
    source: &'a str,
    demands: &'a [Demand],
    answers: &[String],
    held: u64,
) -> Result<bool, Fail> {
    let setup = Setup::of(source, &[]);
    let outcome = Demands { setup, demands }.outcome(alloc, Keep, Newest)?;
    Ok(all_hold(&[outcome.answers.as_slice() == answers, outcome.held == held]))
}

// So many numbers, each of which is the sum of the two before it, from 0 and 1 on.
fn sums(alloc: Global, count: u32) -> Result<Vec<String>, AllocError> {
    let mut numbers = Vec::new(alloc);
    let mut present: u128 = 0;
    let mut next: u128 = 1;
    for _ in 0..count {
        numbers.push(format!(in alloc; "{present}")?)?;
        (present, next) = (next, present.wrapping_add(next));
    }
    Ok(numbers)
}

// The numbers below a count.
fn numbers_below(alloc: Global, count: u32) -> Result<Vec<String>, AllocError> {
    let mut numbers = Vec::new(alloc);
    for number in 0..count {
        numbers.push(format!(in alloc; "{number}")?)?;
    }
    Ok(numbers)
}

// 94 of the numbers and 93 further ones are held, so the last one is given again at any depth.
fn fibonacci_numbers(alloc: Global) -> Result<bool, Fail> {
    let mut demands = times_below(alloc, 94, DEPTH)?;
    demands.push(Demand::at(93, 1))?;
    let mut wanted = sums(alloc, 94)?;
    wanted.push(String::from_str(alloc, "12200160415121876738")?)?;
    gives(alloc, FIBONACCI, &demands, &wanted, 187)
}

// A search that began at the start for each demand would look at `true` some 5,000,000,000 times.
fn long_search(alloc: Global) -> Result<bool, Fail> {
    let demands = times_below(alloc, LONG, DEPTH)?;
    let wanted = numbers_below(alloc, LONG)?;
    gives(alloc, LONG_ADVANCE, &demands, &wanted, u64::from(LONG))
}

// Nothing is held, and a demand needs the depth that it would on a new engine.
fn is_as_new(alloc: Global, engine: &mut OverFiles<Keep, Newest>) -> Result<bool, Fail> {
    let before = (engine.held(), engine.tags());
    let deep = engine.ask(alloc, Demand::at(3, 4))?;
    let answer = engine.ask(alloc, Demand::at(3, 5))?;
    Ok(all_hold(&[
        before == (0, 1),
        deep.as_str() == "too deep",
        answer.as_str() == "3",
        (engine.held(), engine.tags()) == (5, 2),
    ]))
}

// Contexts and what is held are dropped at each clearing. The engine is borrowed here: to own it takes more to prove.
fn is_cleared(alloc: Global, engine: &mut OverFiles<Keep, Newest>) -> Result<bool, Fail> {
    for _ in 0..3 {
        if !is_as_new(alloc, engine)? {
            return Ok(false);
        }
        engine.clear();
    }
    Ok(true)
}

fn cleared(alloc: Global) -> Result<bool, Fail> {
    let source = "m where m is current x; end where x = 0 fby x + 1; end";
    let mut engine = OverFiles::make(alloc, &Setup::of(source, &[]), Keep, Newest)?;
    is_cleared(alloc, &mut engine)
}

#[test]
fn long_demands_and_clearings(rt: HostRuntime) -> Result<(), Fail> {
    let alloc = rt.alloc();
    must(fibonacci_numbers(alloc)?, "Fibonacci numbers")?;
    must(long_search(alloc)?, "a long search")?;
    must(cleared(alloc)?, "an engine that is cleared")
}
