//! The least place that is too deep.

ghost use Rattle.std.specs.Prelude.{◌≡◌, List, [], ◌∷◌, None, IfOk, OnOk, reverse};
ghost use Rattle.lucid_parse.specs.Depth.{below, copies, found, here, least_in, search_from};

use crate::state::{Defines, Item};
use lucid_lists::Stack;
use std::alloc::{AllocError, Global};

// Puts a depth onto the stack so many times.
fn push_times(depths: &mut Stack<u32>, count: u8, depth: u32) -> Result<(), AllocError>
    ensures { OnOk result (depths.new ≡ copies count depth depths.old) }
{
    for i in 0..count {
        depths.push(depth)?;
    }
    Ok(())
}

/// Puts the depths that are sought from a node's parts onto the stack, the last part's last.
fn push_below<N: Copy, V: Copy>(
    depths: &mut Stack<u32>,
    item: Item<N, V>,
    depth: u32,
) -> Result<(), AllocError>
    ensures { OnOk result (depths.new ≡ below item depth depths.old) }
{
    let inner = depth.saturating_sub(1);
    match item {
        Item::Operator { op, .. } => push_times(depths, op.row().arity, inner),
        Item::Block { .. } => push_times(depths, 2, inner),
        Item::Call { .. } => push_times(depths, 1, inner),
        Item::Def {
            defines: Defines::Function,
            ..
        } => push_times(depths, 3, depth),
        Item::More | Item::Def { .. } => push_times(depths, 2, depth),
        Item::Param { .. } => push_times(depths, 1, depth),
        _ => Ok(()),
    }
}

/// The lesser of the place and what was found, where the node is at the depth that is sought.
fn lesser_of(best: Option<u32>, depth: u32, at: u32) -> Option<u32>
    ensures { result ≡ least_in best (here depth at) }
{
    if depth != 1 {
        return best;
    }
    match best {
        None => Some(at),
        Some(least) => Some(at.min(least)),
    }
}

/// What is found with the node.
fn found_with<N: Copy, V: Copy>(best: Option<u32>, item: Item<N, V>, depth: u32) -> Option<u32>
    ensures { result ≡ found item depth best }
{
    match item {
        Item::Const { at, .. }
        | Item::Name { at, .. }
        | Item::Operator { at, .. }
        | Item::Call { at, .. }
        | Item::Block { at } => lesser_of(best, depth, at),
        _ => best,
    }
}

/// The least place of a node at this depth.
pub fn least_at<N: Copy, V: Copy>(
    alloc: Global,
    items: &[Item<N, V>],
    depth: u32,
) -> Result<Option<u32>, AllocError>
    ensures { IfOk result (λ least. least ≡ search_from (reverse items.now) (depth ∷ []) None) }
{
    let mut depths = Stack::new(alloc);
    depths.push(depth)?;
    let mut best = None;
    for i in (0..items.len()).rev() {
        let Some(sought) = depths.pop() else {
            return Ok(best);
        };
        let item = items[i];
        best = found_with(best, item, sought);
        push_below(&mut depths, item, sought)?;
    }
    Ok(best)
}
