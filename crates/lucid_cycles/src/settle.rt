//! From the edges of a graph to its judgment.
ghost use Rattle.std.specs.Prelude.{◌≡◌, ◌≤◌, All, IfOk};
ghost use Rattle.lucid_cycles.specs.Judged.{most_names};
ghost use Rattle.lucid_cycles.specs.Rounds.{IsSmall};
ghost use Rattle.lucid_cycles.specs.Judgments.{IsGraphJudgment};

use crate::cycle::cycle;
use crate::edge::Edge;
use crate::judgment::Judgment;
use crate::rounds::{added, risen, round};
use lucid_lists::Numbers;
use std::alloc::{AllocError, Global};

/// The judgment of a graph with so many names.
pub(crate) fn settle(alloc: Global, edges: &[Edge], names: usize) -> Result<Judgment, AllocError>
    requires small { All (IsSmall names) edges.now }
    requires names { names ≤ most_names }
    ensures { IfOk result (λ judgment. IsGraphJudgment edges.now names judgment) }
{
    let factor = names.max(1) as u64;
    let mut levels = Vec::new(alloc);
    let mut last = vec![in alloc; 0; names]?;
    while levels.len() <= names {
        let next = round(alloc, edges, factor, &last)?;
        let Some(_) = risen(&last, &next) else {
            let add = added(edges, factor, &last);
            let potentials = Numbers::from_vec(last);
            return Ok(Judgment::Enough {
                factor,
                add,
                potentials,
            });
        };
        levels.push(last)?;
        last = next;
    }
    levels.push(last)?;
    cycle(alloc, edges, factor, names, &levels)
}
