// Places without end.
ghost use Rattle.std.specs.Prelude.{◌≡◌, ◌<◌, [], length};
ghost use Rattle.lucid_ports.specs.EndlessView.{ConsumesEndless, ReachesEndless, ShowsEndless, endless_files, endless_piece, endless_world};

use crate::files::{MemoryFile, find_file};
use crate::mark::Mark;
use crate::sources::Sources;
use crate::{Places, PortFault};
use std::alloc::Global;

/// Places over files in memory, where every other name gives one piece again and again, without end. They tell nothing
/// of contents and never fail.
#[derive(Drop)]
pub struct Endless {
    sources: Sources,
    names: Vec<String>,
    places: Vec<EndlessPlace>,
}

#[derive(Clone, Copy)]
struct EndlessPlace {
    file: Option<usize>,
    mark: Mark,
}

impl Endless {
    /// No place is reached.
    pub fn make(alloc: Global, files: Vec<MemoryFile>, piece: Vec<u8>) -> Endless
        requires { 0 < length piece.items }
        ensures files { endless_files result ≡ files.items }
        ensures piece { endless_piece result ≡ piece.items }
        ensures unasked { (endless_world result).asked ≡ [] }
        ensures none { (endless_world result).reached ≡ 0 }
    {
        Endless {
            sources: Sources { files, piece },
            names: Vec::new(alloc),
            places: Vec::new(alloc),
        }
    }
}

impl Places for Endless {
    ghost world = { endless_world };

    ghost reach_gives = { ReachesEndless };

    ghost fill_gives = { ShowsEndless };

    ghost consume_gives = { ConsumesEndless };

    fn reach(&mut self, alloc: Global, name: &str) -> Result<u32, PortFault> {
        self.names.push(String::from_str(alloc, name)?)?;
        let number = self.places.len() as u32;
        let file = find_file(&self.sources.files, name);
        self.places.push(EndlessPlace {
            file,
            mark: Mark::start(),
        })?;
        Ok(number)
    }

    fn fill(&mut self, place: u32) -> Result<&[u8], PortFault> {
        let number = place as usize;
        let EndlessPlace { file, mark } = self.places[number];
        let from = self.sources.position_in(file, mark.position());
        let shown = self.sources.next_from(file, from).len();
        self.places[number] = EndlessPlace {
            file,
            mark: Mark::showing(from, shown),
        };
        Ok(self.sources.next_from(file, from))
    }

    fn consume(&mut self, place: u32, n: usize) {
        let number = place as usize;
        let EndlessPlace { file, mark } = self.places[number];
        self.places[number] = EndlessPlace {
            file,
            mark: mark.after(n),
        };
    }
}
