//! The cycle, read back from rounds that don't end: from a name that rose last, along the edges that raised it, to a name that comes again.
ghost use Rattle.std.specs.Prelude.{◌≡◌, ◌<◌, ◌≤◌, ◌↔◌, ◌+◌, ℕ, [], length, IfOk, IsTrue, MatchOption, slice_index, slice_index_or};
ghost use Rattle.lucid_tree.specs.Members.{In};
ghost use Rattle.lucid_cycles.specs.Graph.{factor_of};
ghost use Rattle.lucid_cycles.specs.Judged.{most_names};
ghost use Rattle.lucid_cycles.specs.Potentials.{potential};
ghost use Rattle.lucid_cycles.specs.Rounds.{IsDue, IsDueEdge, Makes, AreLevels, levels_of};
ghost use Rattle.lucid_cycles.specs.Closes.{Closed, IsJudgedCycle};

use crate::edge::Edge;
use crate::judgment::{Delays, Judgment};
use crate::rounds::{along, potential, risen};
use lucid_lists::Numbers;
use std::alloc::{AllocError, Global};

// Whether the edge makes the name's potential this, by the potentials before.
fn makes(edge: &Edge, factor: u64, before: &[u64], name: u32, value: u64) -> bool
    ensures { IsTrue result ↔ Makes factor before.now name value edge.now }
{
    let end = i128::from(potential(before, edge.to));
    edge.from == Some(name) && end + 1 == along(value, factor, edge.delay)
}

// The first edge from the name that makes its potential this.
fn due(edges: &[Edge], factor: u64, before: &[u64], name: u32, value: u64) -> Option<Edge>
    ensures { MatchOption result (IsDue edges.now factor before.now name value → ⊥) (λ edge. IsDueEdge edges.now factor before.now name value edge) }
{
    for edge in edges {
        if makes(edge, factor, before, name, value) {
            return Some(*edge);
        }
    }
    None
}

// The place of a number in a list.
fn place_of(numbers: &[u64], number: u64) -> Option<usize>
    ensures { MatchOption result (In number numbers.now → ⊥) (λ i. (i < length numbers.now) × (slice_index numbers.now i ≡ number)) }
{
    for (i, x) in numbers.iter().enumerate() {
        if *x == number {
            return Some(i);
        }
    }
    None
}

// The place of the least number.
fn least_at(numbers: &[u64]) -> usize
    requires { 0 < length numbers.now }
    ensures within { result < length numbers.now }
    ensures least { (k : ℕ) → k < length numbers.now → slice_index numbers.now result ≤ slice_index numbers.now k }
{
    let mut at = 0;
    for i in 1..numbers.len() {
        if numbers[i] < numbers[at] {
            at = i;
        }
    }
    at
}

// The potentials of a level.
fn level_at(levels: &[Vec<u64>], level: usize) -> &[u64]
    requires { level < length levels.now }
    ensures { result.now ≡ slice_index_or (levels_of levels.now) level [] }
{
    levels[level].as_slice()
}

// The cycle, begun at its least name.
fn begun(edges: &[Edge], mut names: Vec<u64>, mut delays: Vec<i64>) -> Judgment
    requires { Closed edges.now names.items delays.items }
    ensures { IsJudgedCycle edges.now result }
{
    let least = least_at(&names);
    names.rotate_left(least);
    delays.rotate_left(least);
    let names = Numbers::from_vec(names);
    let delays = Delays::from_vec(delays);
    Judgment::Cycle { names, delays }
}

/// The cycle that the levels of potentials show.
pub(crate) fn cycle(
    alloc: Global,
    edges: &[Edge],
    factor: u64,
    count: usize,
    levels: &[Vec<u64>],
) -> Result<Judgment, AllocError>
    requires count { count ≤ most_names }
    requires factor { factor ≡ factor_of count }
    requires many { length levels.now ≡ count + 2 }
    requires levels { AreLevels edges.now factor count (levels_of levels.now) }
    ensures { IfOk result (λ judgment. IsJudgedCycle edges.now judgment) }
{
    let mut level = count + 1;
    let mut name = match risen(level_at(levels, count), level_at(levels, level)) {
        Some(name) => name,
        None => unreachable!(),
    };
    let mut names = Vec::new(alloc);
    let mut delays = Vec::new(alloc);
    while level > 0 {
        let number = u64::from(name);
        if let Some(start) = place_of(&names, number) {
            let names = names.split_off(start)?;
            let delays = delays.split_off(start)?;
            return Ok(begun(edges, names, delays));
        }
        let value = potential(level_at(levels, level), name);
        level -= 1;
        match due(edges, factor, level_at(levels, level), name, value) {
            Some(edge) => {
                names.push(number)?;
                delays.push(edge.delay)?;
                name = edge.to;
            }
            None => unreachable!(),
        }
    }
    unreachable!()
}
