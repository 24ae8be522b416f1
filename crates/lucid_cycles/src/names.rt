//! The plain names of a program, by the places of their definitions, and the first place of what isn't judged.
ghost use Rattle.std.specs.Prelude.{◌≡◌};
ghost use Rattle.lucid_scope.specs.Scoped.{scoped_tree};
ghost use Rattle.lucid_cycles.specs.Graph.{number};
ghost use Rattle.lucid_cycles.specs.Walks.{with_name, listed_names};
ghost use Rattle.lucid_cycles.specs.Readers.{IsSurvey, Surveys, surveys-goes};

use crate::walk::{Mark, Reader, walk};
use lucid_scope::Scoped;
use std::convert::Infallible;

/// The most plain names that a judged program has.
pub(crate) const MOST_NAMES: usize = 2000;

/// The places of the definitions that were met, and how many they are; past the room the count is one more than it.
#[derive(Drop)]
pub(crate) struct Names {
    pub(crate) places: [u32; MOST_NAMES],
    pub(crate) count: usize,
}

/// The names that were met, and the least place of what isn't judged.
#[derive(Drop)]
pub(crate) struct Survey {
    pub(crate) names: Names,
    pub(crate) outside: Option<u32>,
}

impl Names {
    fn add(&mut self, at: u32)
        ensures { self.new ≡ with_name self.old at }
    {
        if self.count < MOST_NAMES {
            self.places[self.count] = at;
            self.count += 1;
        } else {
            self.count = MOST_NAMES + 1;
        }
    }

    /// The number of the name that is defined at the place: how many are defined at lesser places.
    pub(crate) fn number(&self, def: u32) -> u32
        ensures { result ≡ number (listed_names self.now) def }
    {
        let names = self.places.iter().take(self.count);
        names.filter(|x| **x < def).count() as u32
    }
}

impl Survey {
    /// What is met in a program.
    pub(crate) fn of(scoped: &Scoped) -> Survey
        ensures { IsSurvey (scoped_tree scoped.now) result }
    {
        let places = [0; MOST_NAMES];
        let names = Names { places, count: 0 };
        let outside = None;
        let mut survey = Survey { names, outside };
        match walk(&mut survey, scoped) {
            Ok(()) => survey,
            Err(never) => match never {},
        }
    }
}

impl Reader for Survey {
    type Stop = Infallible;

    ghost reads = { Surveys };

    ghost goes = { surveys-goes };

    fn read(&mut self, mark: Mark<'_>) -> Result<(), Infallible> {
        match mark {
            Mark::Name { at, .. } => self.names.add(at),
            Mark::Part { at, judged: false } => match self.outside {
                Some(x) if x <= at => {}
                _ => self.outside = Some(at),
            },
            _ => {}
        }
        Ok(())
    }
}
