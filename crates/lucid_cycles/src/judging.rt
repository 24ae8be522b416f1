//! Programs are judged.
ghost use Rattle.std.specs.Prelude.{◌≡◌, ◌≤◌, ◌↔◌, length, IfOk, IfErr, OnOk, IsTrue};
ghost use Rattle.lucid_scope.specs.Scoped.{scoped_tree, scoped_binding};
ghost use Rattle.lucid_cycles.specs.Judged.{IsJudged};
ghost use Rattle.lucid_cycles.specs.Graph.{factor_of};
ghost use Rattle.lucid_cycles.specs.Judgments.{IsEnough, IsJudgment, IsJudgeRefusal};
ghost use Rattle.lucid_cycles.specs.Laws.{IsDefinedAtDepth, IsDefinedAsJudged};

use crate::edge::{Ask, Edges};
use crate::judgment::{JudgeRefusal, Judgment};
use crate::laws::enough_is_enough;
use crate::names::{MOST_NAMES, Survey};
use crate::settle::settle;
use crate::walk::walk;
use lucid_lists::Numbers;
use lucid_scope::Scoped;
use std::alloc::Global;

/// Judges a program by the delays along its cycles of references: a depth that is enough at each time, by the least potentials, or a
/// cycle whose delays have a sum of at most 0. The potentials are found by the relaxation of Bellman and Ford, in at most as many rounds
/// as there are names, and one, of a step for each reference; the cycle is read back from the rounds.
pub fn judge(alloc: Global, scoped: &Scoped) -> Result<Judgment, JudgeRefusal>
    ensures judged { OnOk result (IsJudged (scoped_tree scoped.now)) }
    ensures judgment { IfOk result (λ judgment. IsJudgment (scoped_tree scoped.now) (scoped_binding scoped.now) judgment) }
    ensures depth { IfOk result (λ judgment. IsDefinedAsJudged (scoped_tree scoped.now) judgment) }
    ensures refusal { IfErr result (λ refusal. IsJudgeRefusal (scoped_tree scoped.now) refusal) }
{
    let survey = Survey::of(scoped);
    if let Some(at) = survey.outside {
        return Err(JudgeRefusal::Outside { at });
    }
    let names = &survey.names;
    if names.count > MOST_NAMES {
        return Err(JudgeRefusal::TooMany);
    }
    let found = Vec::new(alloc);
    let mut edges = Edges { names, found };
    walk(&mut edges, scoped)?;
    // For the proof: what is enough by the edges of the references is enough for the program.
    enough_is_enough();
    Ok(settle(alloc, &edges.found, names.count)?)
}

// Whether there is one potential for each name, the factor is that of so many names, and the number added isn't less than 2.
fn counts_hold(names: usize, potentials: &[u64], factor: u64, add: u64) -> bool
    ensures { IsTrue result ↔ ((length potentials.now ≡ names) × (factor ≡ factor_of names) × (2 ≤ add)) }
{
    potentials.len() == names && factor == names.max(1) as u64 && add >= 2
}

/// Whether the depth limit `factor * t + add` is enough for the value at each time t, by these potentials of the plain names.
pub fn enough(scoped: &Scoped, factor: u64, add: u64, potentials: &Numbers) -> bool
    requires { IsJudged (scoped_tree scoped.now) }
    ensures value { IsTrue result ↔ IsEnough (scoped_tree scoped.now) (scoped_binding scoped.now) factor add potentials.now }
    ensures depth { IsTrue result → IsDefinedAtDepth (scoped_tree scoped.now) factor add }
{
    let survey = Survey::of(scoped);
    let names = &survey.names;
    let potentials = potentials.items();
    let mut ask = Ask {
        names,
        potentials,
        factor,
        add,
    };
    // For the proof: what is enough by the edges of the references is enough for the program.
    enough_is_enough();
    counts_hold(names.count, potentials, factor, add) && walk(&mut ask, scoped).is_ok()
}
