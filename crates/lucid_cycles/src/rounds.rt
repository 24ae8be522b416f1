//! Least potentials by rounds that raise them, until nothing rises: the relaxation of Bellman and Ford. A round takes a step for each edge,
//! and where no cycle lacks a positive sum there are at most as many rounds as names, and one.
ghost use Rattle.std.specs.Prelude.{◌≡◌, ◌<◌, ◌≤◌, ◌^◌, ◌+◌, ℕ, length, All, IfOk, MatchOption, pos, ◌≤ℤ◌, ◌+ℤ◌, ◌*ℤ◌};
ghost use Rattle.lucid_cycles.specs.Potentials.{potential, Adds};
ghost use Rattle.lucid_cycles.specs.Rounds.{Fits, IsSmall, IsRaised, IsRound, AreLeastAdded};

use crate::edge::Edge;
use std::alloc::{AllocError, Global};

/// The potential of a name, 0 where there is none.
pub(crate) fn potential(potentials: &[u64], name: u32) -> u64
    ensures { result ≡ potential potentials.now name }
{
    potentials.get(name as usize).copied().unwrap_or(0)
}

/// A start and the factor times a delay: what an edge asks of it is at most this.
pub(crate) fn along(start: u64, factor: u64, delay: i64) -> i128
    ensures { result ≡ pos start +ℤ (pos factor *ℤ delay) }
{
    i128::from(start) + i128::from(factor) * i128::from(delay)
}

// What a start must at least be, by an edge from it to an end with this potential: some more, less the factor times the delay, but at
// least 0.
fn wanted(potential: u64, more: u32, factor: u64, delay: i64) -> u64
    requires potential { potential ≤ 2 ^ 62 }
    requires factor { factor ≤ 2000 }
    requires delay { Fits delay 0 }
    ensures reaches { pos (potential + more) ≤ℤ (pos result +ℤ (pos factor *ℤ delay)) }
    ensures exact { 0 < result → pos (potential + more) ≡ pos result +ℤ (pos factor *ℤ delay) }
{
    let size = factor * delay.unsigned_abs();
    let want = potential + u64::from(more);
    if delay < 0 {
        want + size
    } else {
        want.saturating_sub(size)
    }
}

// Raises the potential of the name from which the edge goes to what the edge asks, where it isn't as much.
fn raise(edge: &Edge, factor: u64, before: &[u64], after: &mut Vec<u64>)
    requires small { IsSmall (length after.old.items) edge.now }
    requires factor { factor ≤ 2000 }
    requires low { (x : ℕ) → potential before.now x ≤ 2 ^ 62 }
    ensures { IsRaised factor before.now after.old.items after.new.items edge.now }
{
    if let Some(from) = edge.from {
        let end = potential(before, edge.to);
        let want = wanted(end, 1, factor, edge.delay);
        let index = from as usize;
        if after[index] < want {
            after[index] = want;
        }
    }
}

/// One round: each potential rises to what the edges from its name ask of it.
pub(crate) fn round(
    alloc: Global,
    edges: &[Edge],
    factor: u64,
    before: &[u64],
) -> Result<Vec<u64>, AllocError>
    requires small { All (IsSmall (length before.now)) edges.now }
    requires factor { factor ≤ 2000 }
    requires low { (x : ℕ) → potential before.now x ≤ 2 ^ 62 }
    ensures { IfOk result (λ after. IsRound edges.now factor before.now after.items) }
{
    let mut after = Vec::from_slice(alloc, before)?;
    for edge in edges {
        raise(edge, factor, before, &mut after);
    }
    Ok(after)
}

/// The first name whose potential rose.
pub(crate) fn risen(before: &[u64], after: &[u64]) -> Option<u32>
    requires same { length after.now ≡ length before.now }
    requires few { length before.now ≤ 2000 }
    ensures { MatchOption result ((k : ℕ) → potential after.now k ≤ potential before.now k) (λ k. potential before.now k < potential after.now k) }
{
    for (k, old) in before.iter().enumerate() {
        if after[k] > *old {
            return Some(k as u32);
        }
    }
    None
}

// The number, or what an edge from the program asks of it, whichever is greater.
fn with_edge(edge: &Edge, factor: u64, potentials: &[u64], add: u64) -> u64
    requires small { IsSmall (length potentials.now) edge.now }
    requires factor { factor ≤ 2000 }
    requires low { (x : ℕ) → potential potentials.now x ≤ 2 ^ 62 }
    ensures kept { add ≤ result }
    ensures asked { Adds factor potentials.now result edge.now }
    ensures least { (c : ℕ) → add ≤ c → Adds factor potentials.now c edge.now → result ≤ c }
{
    match edge.from {
        Some(_) => add,
        None => wanted(potential(potentials, edge.to), 2, factor, edge.delay).max(add),
    }
}

/// The least number that is 2 more than 0, and than the potential of each edge from the program, less the factor times its delay.
pub(crate) fn added(edges: &[Edge], factor: u64, potentials: &[u64]) -> u64
    requires small { All (IsSmall (length potentials.now)) edges.now }
    requires factor { factor ≤ 2000 }
    requires low { (x : ℕ) → potential potentials.now x ≤ 2 ^ 62 }
    ensures { AreLeastAdded factor potentials.now result edges.now }
{
    let mut add = 2;
    for edge in edges {
        add = with_edge(edge, factor, potentials, add);
    }
    add
}
