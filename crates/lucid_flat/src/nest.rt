//! The scopes of a table: whether their rows are right, and which scope of a depth stands round another.

ghost use Rattle.std.specs.Prelude.{◌≡◌, ◌<◌, ◌≤◌, ◌^◌, ◌↔◌, List, true, length, slice_index, MatchOption, IfOk};
ghost use Rattle.lucid_equations.specs.Sound.{IsRound, HasDepth};
ghost use Rattle.lucid_equations.specs.declared.rows.ScopeRow.{ScopeRow};
ghost use Rattle.lucid_flat.specs.WrongRows.{ScopeIsRight, AllRight, IsFirstWrong};
ghost use Rattle.lucid_flat.specs.Nests.{AreRound, AreLow, IsNestOf, IsNest};

use lucid_equations::{ScopeKind, ScopeRow};
use std::alloc::{AllocError, Global};

// Whether scope 0 is its own parent and the root, or another scope has a lower parent and is no root.
fn is_scope_right(id: usize, row: &ScopeRow) -> bool
    ensures { (result ≡ true) ↔ ScopeIsRight id row.now }
{
    let is_root = matches!(row.kind, ScopeKind::Root);
    if id == 0 {
        row.parent == 0 && is_root
    } else {
        (row.parent as usize) < id && !is_root
    }
}

/// The first scope whose row is wrong.
pub(crate) fn first_wrong_scope(rows: &[ScopeRow]) -> Option<u32>
    requires { length rows.now < 2 ^ 32 }
    ensures { MatchOption result (AllRight ScopeIsRight rows.now) (λ at. IsFirstWrong ScopeIsRight rows.now at) }
{
    for (id, row) in rows.iter().enumerate() {
        if !is_scope_right(id, row) {
            return Some(id as u32);
        }
    }
    None
}

/// The depth of each scope, and a scope round it to which a walk outwards may leap. The leaps are those of Myers's random-access stack:
/// a walk by them takes a number of steps logarithmic in the depth.
#[derive(Drop)]
pub(crate) struct Nest {
    depths: Vec<u32>,
    leaps: Vec<u32>,
}

// Where a scope with this parent leaps: as far again as the parent's leap does twice, where these two are equally long, else to the parent.
fn leap_of(depths: &[u32], leaps: &[u32], parent: u32) -> u32
    requires as_many { length depths.now ≡ length leaps.now }
    requires known { parent < length leaps.now }
    requires low { AreLow leaps.now }
    ensures low { result ≤ parent }
    ensures round { (xs : List ScopeRow) → AreRound xs leaps.now → IsRound xs result parent }
{
    let once = leaps[parent as usize];
    let twice = leaps[once as usize];
    let near = u64::from(depths[parent as usize]);
    let middle = u64::from(depths[once as usize]);
    let far = u64::from(depths[twice as usize]);
    if near + far == 2 * middle {
        twice
    } else {
        parent
    }
}

// The depth and the leap of the next scope.
fn next_scope(rows: &[ScopeRow], depths: &[u32], leaps: &[u32]) -> (u32, u32)
    requires few { length rows.now < 2 ^ 32 }
    requires right { AllRight ScopeIsRight rows.now }
    requires nest { IsNestOf rows.now depths.now leaps.now (length depths.now) }
    requires known { length depths.now < length rows.now }
    ensures depth { HasDepth rows.now (length depths.now) result.0 }
    ensures round { IsRound rows.now result.1 (length depths.now) }
    ensures lower { 0 < length depths.now → result.1 < length depths.now }
{
    let id = depths.len();
    if id == 0 {
        return (0, 0);
    }
    let parent = rows[id].parent;
    (depths[parent as usize] + 1, leap_of(depths, leaps, parent))
}

impl Nest {
    /// The depths and leaps of scopes whose rows are right.
    pub(crate) fn make(alloc: Global, rows: &[ScopeRow]) -> Result<Nest, AllocError>
        requires few { length rows.now < 2 ^ 32 }
        requires right { AllRight ScopeIsRight rows.now }
        ensures { IfOk result (IsNest rows.now) }
    {
        let mut depths = Vec::new(alloc);
        let mut leaps = Vec::new(alloc);
        while depths.len() < rows.len() {
            let (depth, leap) = next_scope(rows, &depths, &leaps);
            depths.push(depth)?;
            leaps.push(leap)?;
        }
        Ok(Nest { depths, leaps })
    }

    // A scope further out, at that depth or deeper.
    fn further(&self, rows: &[ScopeRow], at: u32, level: u32) -> u32
        requires right { AllRight ScopeIsRight rows.now }
        requires nest { IsNest rows.now self.now }
        requires known { at < length rows.now }
        requires deeper { level < slice_index self.now.depths.items at }
        ensures less { result < at }
        ensures round { IsRound rows.now result at }
        ensures deep { level ≤ slice_index self.now.depths.items result }
    {
        let leap = self.leaps[at as usize];
        if self.depths[leap as usize] >= level {
            leap
        } else {
            rows[at as usize].parent
        }
    }

    /// Whether a scope is another one or stands round it, at that depth.
    pub(crate) fn is_round_at(&self, rows: &[ScopeRow], outer: u32, scope: u32, level: u32) -> bool
        requires right { AllRight ScopeIsRight rows.now }
        requires nest { IsNest rows.now self.now }
        requires known { scope < length rows.now }
        ensures { (result ≡ true) ↔ (IsRound rows.now outer scope × HasDepth rows.now outer level) }
    {
        if self.depths[scope as usize] < level {
            return false;
        }
        let mut at = scope;
        while self.depths[at as usize] > level {
            at = self.further(rows, at, level);
        }
        at == outer
    }
}
