//! Kept positions of searches.
//!
//! A search walks along a stream and counts the true values that it passes. Where it stood once, a later search of the same
//! node at the same tag can begin. A position is a key with a number; what the two are is the caller's affair.
#![tactic(auto)]

ghost use Rattle.std.specs.Prelude.{◌≡◌, ℕ, ◌≤◌, [], None, IfSome, IfNone, OnOk, OnErr};
ghost use Rattle.lucid_search.specs.Numbered.{number_in, SetsOne};
ghost use Rattle.lucid_search.specs.Noted.{number_at, number_of_site, nothing_noted, IsBest, NotesSite, SameSites, NotesOrMisses};

use indexmap::IndexMap;
use lucid_tags::{KeyHasher, Tag};
use notes::Notes;
use std::alloc::{AllocError, Global};
use std::hash::BuildHasherDefault;
use std::marker::Model;

mod notes;

// A node in a context, at a space.
#[derive(Clone, Copy, PartialEq, Eq, Hash, Debug)]
pub(crate) struct Site {
    pub(crate) node: u32,
    pub(crate) tag: Tag,
}

/// Noted positions, seen as a finite map from a node, a tag and a key to a number, and the number of notes that were missed for
/// want of memory.
pub struct Positions {
    alloc: Global,
    sites: IndexMap<Site, Notes, BuildHasherDefault<KeyHasher>>,
    missed: u64,
}

// Not derived: a derived one is proved again wherever one is dropped.
impl Drop for Positions {
    fn drop(self) {
        let Positions {
            alloc,
            sites,
            missed,
        } = self;
    }
}

impl Model for Positions {
    ghost use Rattle.lucid_search.specs.Noted.{Noted};
    ghost use Rattle.lucid_search.specs.NotedCode.{noted_code};

    ghost Value = { Noted };

    ghost coded = { noted_code };

    ghost view = { λ p. record { sites = p.sites.entries; missed = p.missed } };
}

// Notes a number at a site and a key.
fn add_note(
    alloc: Global,
    sites: &mut IndexMap<Site, Notes, BuildHasherDefault<KeyHasher>>,
    site: Site,
    key: u64,
    number: u64,
) -> Result<(), AllocError>
    ensures ok { OnOk result (NotesSite sites.old.entries sites.new.entries site key number) }
    ensures err { OnErr result (SameSites sites.old.entries sites.new.entries) }
{
    if let Some(notes) = sites.get_mut(&site) {
        notes.set(key, number)?;
        return Ok(());
    }
    let mut notes = Notes::make(alloc);
    notes.set(key, number)?;
    sites.insert(site, notes)?;
    Ok(())
}

impl Positions {
    /// No position is noted, and none was missed. It takes no memory.
    pub fn make(alloc: Global) -> Positions
        ensures { result ≡ nothing_noted }
    {
        Positions {
            alloc,
            sites: IndexMap::with_hasher(alloc, BuildHasherDefault::new()),
            missed: 0,
        }
    }

    /// The pair of a key and its number with the greatest noted key that is at most `key`. It takes no memory.
    pub fn best(&self, node: u32, tag: Tag, key: u64) -> Option<(u64, u64)>
        ensures best { IfSome result (IsBest self.now node tag key) }
        ensures none { IfNone result ((q : ℕ) → q ≤ key → number_at self.now node tag q ≡ None) }
    {
        match self.sites.get(&Site { node, tag }) {
            Some(notes) => notes.best(key),
            None => None,
        }
    }

    /// Notes a number at a key, in place of the number that was noted there. For want of memory nothing is noted, which costs a
    /// later search only work: the note counts as missed.
    pub fn note(&mut self, node: u32, tag: Tag, key: u64, number: u64)
        ensures { NotesOrMisses self.old self.new node tag key number }
    {
        match add_note(self.alloc, &mut self.sites, Site { node, tag }, key, number) {
            Ok(()) => (),
            Err(_) => self.missed = self.missed.saturating_add(1),
        }
    }

    /// How many notes were missed. It stays at the greatest u64.
    pub fn missed(&self) -> u64
        ensures { result ≡ self.now.missed }
    {
        self.missed
    }

    /// Forgets all positions.
    pub fn clear(&mut self)
        ensures { self.new ≡ record self.old { sites = [] } }
    {
        // A map clears all its memory, however few its entries.
        if !self.sites.is_empty() {
            self.sites.clear();
        }
    }
}
