// Places in memory.
ghost use Rattle.std.specs.Prelude.{◌≡◌, ◌⊎◌, ◌↔◌, ◌+◌, ◌<◌, ◌≤◌, ℕ, [], length, Contains, MatchOption, IsSomeAnd, IsTrue, Some};
ghost use Rattle.std.specs.Bool.{OnTrue, OnFalse};
ghost use Rattle.std.specs.List.{slice_get};
ghost use Rattle.lucid_ports.specs.Files.{bytes_named};
ghost use Rattle.lucid_ports.specs.Memory.{fail_at, Spends};
ghost use Rattle.lucid_ports.specs.MemoryView.{ConsumesMemory, ReachesMemory, ShowsMemory, memory_failures, memory_world};

use crate::files::{MemoryFile, find_file, position_in, rest_of};
use crate::late::late_after;
use crate::mark::Mark;
use crate::{Places, PortFault};
use std::alloc::Global;

/// A failure to come: of the next call that would look at the byte at that position of that place, where the position
/// of the end counts too. It is then spent.
#[derive(Clone, Copy, Debug, PartialEq, Eq)]
pub struct FailAt {
    pub place: u32,
    pub position: u64,
}

impl FailAt {
    fn stands_at(self, place: u32, position: u64) -> bool
        ensures { IsTrue result ↔ (self ≡ fail_at place position) }
    {
        self.place == place && self.position == position
    }

    // How many of the bytes shown from a position on stand before this failure.
    fn cut(self, place: u32, position: u64, shown: usize) -> usize
        ensures bound { result ≤ shown }
        ensures before { self.place ≡ place → position ≤ self.position → position + result ≤ self.position }
        ensures cases { (result ≡ shown) ⊎ (self ≡ fail_at place (position + result)) }
    {
        if self.place != place || self.position < position {
            return shown;
        }
        let before = self.position - position;
        if before < shown as u64 {
            before as usize
        } else {
            shown
        }
    }
}

/// Places over files in memory, which tell their bytes and fail where they are told to.
pub struct MemoryPlaces {
    files: Vec<MemoryFile>,
    failures: Vec<FailAt>,
    names: Vec<String>,
    places: Vec<MemoryPlace>,
    faults: u64,
    late: u64,
}

// Not derived: a derived one is proved again wherever one is dropped.
impl Drop for MemoryPlaces {
    fn drop(self) {
        let MemoryPlaces {
            files,
            failures,
            names,
            places,
            faults,
            late,
        } = self;
    }
}

#[derive(Clone, Copy)]
struct MemoryPlace {
    file: usize,
    mark: Mark,
}

impl MemoryPlaces {
    /// No place is reached. A name holds the bytes of the first file of that name, and each failure is still to come.
    pub fn make(alloc: Global, files: Vec<MemoryFile>, failures: Vec<FailAt>) -> MemoryPlaces
        ensures names { (memory_world result).holds ≡ bytes_named files.items }
        ensures unasked { (memory_world result).asked ≡ [] }
        ensures none { (memory_world result).reached ≡ 0 }
        ensures faults { (memory_world result).faults ≡ 0 }
        ensures late { (memory_world result).late ≡ 0 }
        ensures failures { memory_failures result ≡ failures.items }
    {
        MemoryPlaces {
            files,
            failures,
            names: Vec::new(alloc),
            places: Vec::new(alloc),
            faults: 0,
            late: 0,
        }
    }

    /// The number of bytes consumed at a place.
    pub fn consumed(&self, place: u32) -> u64
        requires { place < (memory_world self.now).reached }
        ensures { IsSomeAnd ((memory_world self.now).place place).contents (λ c. result ≡ length c.consumed) }
    {
        self.position(place) as u64
    }

    fn position(&self, place: u32) -> usize
        requires { place < (memory_world self.now).reached }
        ensures { IsSomeAnd ((memory_world self.now).place place).contents (λ c. result ≡ length c.consumed) }
    {
        let place = self.places[place as usize];
        position_in(&self.files, place.file, place.mark.position())
    }
}

impl Places for MemoryPlaces {
    ghost world = { memory_world };

    ghost reach_gives = { ReachesMemory };

    ghost fill_gives = { ShowsMemory };

    ghost consume_gives = { ConsumesMemory };

    fn reach(&mut self, alloc: Global, name: &str) -> Result<u32, PortFault> {
        self.late = late_after(self.faults, self.late);
        self.names.push(String::from_str(alloc, name)?)?;
        let Some(file) = find_file(&self.files, name) else {
            self.faults = self.faults.saturating_add(1);
            return Err(PortFault::Failed);
        };
        let number = self.places.len() as u32;
        self.places.push(MemoryPlace {
            file,
            mark: Mark::start(),
        })?;
        Ok(number)
    }

    fn fill(&mut self, place: u32) -> Result<&[u8], PortFault> {
        self.late = late_after(self.faults, self.late);
        let number = place as usize;
        let position = self.position(place);
        if spend_failure(&mut self.failures, place, position) {
            self.faults = self.faults.saturating_add(1);
            return Err(PortFault::Failed);
        }
        let MemoryPlace { file, mark } = self.places[number];
        let from = mark.position();
        let left = rest_of(&self.files, file, from).len();
        let shown = shown_before(&self.failures, place, position, left);
        self.places[number] = MemoryPlace {
            file,
            mark: Mark::showing(from, shown),
        };
        Ok(&rest_of(&self.files, file, from)[..shown])
    }

    fn consume(&mut self, place: u32, n: usize) {
        self.late = late_after(self.faults, self.late);
        let number = place as usize;
        let MemoryPlace { file, mark } = self.places[number];
        self.places[number] = MemoryPlace {
            file,
            mark: mark.after(n),
        };
    }
}

// Whether a failure stands at a position of a place. It is then spent.
fn spend_failure(failures: &mut Vec<FailAt>, place: u32, position: usize) -> bool
    ensures spent { OnTrue result (Spends (fail_at place position) failures.old.items failures.new.items) }
    ensures none { OnFalse result (Contains failures.old.items (fail_at place position) → ⊥) }
    ensures kept { OnFalse result (failures.new.items ≡ failures.old.items) }
{
    match find_failure(failures, place, position) {
        Some(k) => {
            failures.remove(k);
            true
        }
        None => false,
    }
}

// The number of a failure that stands at a position of a place.
fn find_failure(failures: &[FailAt], place: u32, position: usize) -> Option<usize>
    ensures { MatchOption result (Contains failures.now (fail_at place position) → ⊥)
        (λ k. slice_get failures.now k ≡ Some (fail_at place position)) }
{
    let position = position as u64;
    for (k, failure) in failures.iter().enumerate() {
        if failure.stands_at(place, position) {
            return Some(k);
        }
    }
    None
}

// How many of the bytes that are left from a position on stand before the next failure.
fn shown_before(failures: &[FailAt], place: u32, position: usize, left: usize) -> usize
    ensures bound { result ≤ left }
    ensures before { (p : ℕ) → position ≤ p → Contains failures.now (fail_at place p) → position + result ≤ p }
    ensures whole { (result ≡ left) ⊎ Contains failures.now (fail_at place (position + result)) }
{
    let mut shown = left;
    for failure in failures {
        shown = failure.cut(place, position as u64, shown);
    }
    shown
}
