//! Edges of the graph of references, the list of them, and whether they have what is asked of potentials.
ghost use Rattle.std.specs.Prelude.{◌≡◌, ◌↔◌, IsTrue};
ghost use Rattle.lucid_cycles.specs.Graph.{number, numbered};
ghost use Rattle.lucid_cycles.specs.Potentials.{potential};
ghost use Rattle.lucid_cycles.specs.Walks.{listed_names, asked};
ghost use Rattle.lucid_cycles.specs.Readers.{Collects, collects-goes, Answers, answers-goes};

use crate::names::Names;
use crate::rounds::{along, potential};
use crate::walk::{Mark, Reader};
use std::alloc::AllocError;

/// A reference of a plain name, from the name in whose right side it stands, or from the program where it stands in none, with its delay.
/// Names are told by the places of their definitions, or by their numbers.
#[derive(Clone, Copy, Debug)]
pub struct Edge {
    pub from: Option<u32>,
    pub to: u32,
    pub delay: i64,
}

/// The edges that were met, these names by their numbers.
#[derive(Drop)]
pub(crate) struct Edges<'a> {
    pub(crate) names: &'a Names,
    pub(crate) found: Vec<Edge>,
}

fn number_edge(names: &Names, mut edge: Edge) -> Edge
    ensures { result ≡ numbered (listed_names names.now) edge }
{
    edge.from = edge.from.map(|def| names.number(def));
    edge.to = names.number(edge.to);
    edge
}

impl Reader for Edges<'_> {
    type Stop = AllocError;

    ghost reads = { Collects };

    ghost goes = { collects-goes };

    fn read(&mut self, mark: Mark<'_>) -> Result<(), AllocError> {
        if let Mark::Edge(edge) = mark {
            self.found.push(number_edge(self.names, edge))?;
        }
        Ok(())
    }
}

/// What is asked of each edge: the names by their numbers, their potentials, the factor, and the number added for the program.
#[derive(Drop)]
pub(crate) struct Ask<'a> {
    pub(crate) names: &'a Names,
    pub(crate) potentials: &'a [u64],
    pub(crate) factor: u64,
    pub(crate) add: u64,
}

impl Ask<'_> {
    // The potential of the name that is defined at the place.
    fn potential_of(&self, def: u32) -> u64
        ensures { result ≡ potential self.now.potentials.now (number (listed_names self.now.names.now) def) }
    {
        potential(self.potentials, self.names.number(def))
    }

    fn holds(&self, edge: &Edge) -> bool
        ensures { IsTrue result ↔ asked self.now edge.now }
    {
        let end = i128::from(self.potential_of(edge.to));
        match edge.from {
            Some(def) => end + 1 <= along(self.potential_of(def), self.factor, edge.delay),
            None => end + 2 <= along(self.add, self.factor, edge.delay),
        }
    }
}

// It stops at an edge that hasn't what is asked.
impl Reader for Ask<'_> {
    type Stop = ();

    ghost reads = { Answers };

    ghost goes = { answers-goes };

    fn read(&mut self, mark: Mark<'_>) -> Result<(), ()> {
        match mark {
            Mark::Edge(edge) => self.holds(&edge).then_some(()).ok_or(()),
            _ => Ok(()),
        }
    }
}
