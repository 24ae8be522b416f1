//! The values and the tests that a grid shows.
ghost use Rattle.std.specs.Prelude.{◌≡◌, ◌<◌, ◌++◌, IfOk, OnOk, length, take};
ghost use Rattle.std.specs.List.Sorted.{IsPermutation};
ghost use Rattle.lucid_show_outline.specs.Views.{view_of};
ghost use Rattle.lucid_show_drawing.specs.Orders.{AllThere, AreAsked, StandTogether};
ghost use Rattle.lucid_show_drawing.specs.Shown.{IsAsked, asks_nothing, test_entries, told_whole};

use crate::looked::box_at;
use crate::spot::{Spot, spot_at};
use lucid_cert_rules::{Cell, Entry, asked_at};
use lucid_show_outline::Source;
use std::alloc::AllocError;

/// A value that is asked for, or a test: where it stands, the judgment that asks or is the test, and its box.
#[derive(Clone, Copy)]
pub struct Asked {
    pub spot: Spot,
    pub number: u64,
    pub cell: Cell,
}

// What the judgment of a number asks for, or the test that it is.
fn asked_for(source: &Source<'_>, number: u64) -> Asked
    requires { number < length (view_of source.now).judgments }
    ensures is { IsAsked (view_of source.now) result }
    ensures number { result.number ≡ number }
{
    let cell = box_at(source, number);
    let Some(spot) = spot_at(source, number) else {
        unreachable!();
    };
    Asked { spot, number, cell }
}

// Whether the judgment of a number is there, and asks for nothing.
#[tactic(auto, unfolding(crate::specs::Shown::asks_nothing))]
fn asks_nothing(source: &Source<'_>, number: u64) -> bool
    ensures { result ≡ asks_nothing (view_of source.now) number }
{
    number < source.judgments().len() as u64
        && asked_at(source.table(), source.judgments(), number).is_none()
}

/// Adds an entry for each of these tests that asks for nothing.
pub(crate) fn add_tests(
    source: &Source<'_>,
    entries: &mut Vec<Entry>,
    tests: &[u64],
) -> Result<(), AllocError>
    ensures { OnOk result (entries.new.items ≡ entries.old.items ++ test_entries (view_of source.now) tests.now) }
{
    for test in tests {
        if asks_nothing(source, *test) {
            entries.push(Entry {
                asked: *test,
                depth: 0,
                above: false,
            })?;
        }
    }
    Ok(())
}

/// What entries tell whole.
pub(crate) fn told_whole(source: &Source<'_>, entries: &[Entry]) -> Result<Vec<Asked>, AllocError>
    requires { AllThere (view_of source.now) entries.now }
    ensures { IfOk result (λ all. AreAsked (view_of source.now) (told_whole entries.now) all.items) }
{
    let mut all = Vec::new(source.alloc());
    for entry in entries {
        if !entry.above {
            all.push(asked_for(source, entry.asked))?;
        }
    }
    Ok(all)
}

/// How much entries tell whole.
pub(crate) fn whole_count(entries: &[Entry]) -> usize
    ensures { result ≡ length (told_whole entries.now) }
{
    entries.iter().filter(|entry| !entry.above).count()
}

/// The first of these, at most so many, in the order of their spots.
pub(crate) fn arranged(mut all: Vec<Asked>, most: usize) -> Result<Vec<Asked>, AllocError>
    ensures same { IfOk result (λ shown. IsPermutation (take most all.items) shown.items) }
    ensures together { IfOk result (λ shown. StandTogether shown.items) }
{
    all.truncate(most);
    all.sort_by_key(|asked| asked.spot)?;
    Ok(all)
}
