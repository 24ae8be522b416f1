//! How a program is run.

use lucid_retire::Retire;
use lucid_schedule::Pick;
use lucid_value::Name;
use lucid_words::Words;
use std::alloc::Global;

/// What a run drops, and what it steps next.
#[derive(Drop)]
pub struct Choices<R: Retire, S: Pick> {
    pub policy: R,
    pub pick: S,
}

/// The terms of a run: the words that ask for it, and what is chosen for it.
#[derive(Drop)]
pub struct Terms<'a, R: Retire, S: Pick> {
    pub alloc: Global,
    pub words: &'a Words,
    /// The columns that are run side by side; where there are none, the program itself is run.
    pub columns: Option<&'a [Name]>,
    pub choices: Choices<R, S>,
}

/// The inputs of a program: their names, and the numbers of the places that were reached for them.
#[derive(Drop)]
pub struct Reached<'a> {
    pub names: &'a [Name],
    pub numbers: Vec<u32>,
}
