// The real places.
ghost use Rattle.std.specs.Prelude.{◌≡◌, [], IfSome, IfNone, IsErrOf, option_map};
ghost use Rattle.lucid_ports.specs.Faults.{faults_after};
ghost use Rattle.lucid_ports.specs.RealPlacesView.{AsksWhereNone, PlaceAsks, place_at, real_faults, real_late, real_names, real_outside, real_reached, real_world, source_of};
ghost use Rattle.lucid_ports.specs.Source.{source_contents, source_shown};
ghost use Rattle.lucid_ports.specs.World.{unread};

use crate::host::{Host, HostReader};
use crate::late::late_after;
use crate::real_place::RealPlace;
use crate::source::Source;
use crate::standard_input::StandardInput;
use crate::supply::{Outside, Preview, Supply};
use crate::window::Window;
use crate::{Places, PortFault};
use std::alloc::Global;
use std::io::Input;
use std::rt::Files;

/// The name that stands for standard input.
const STANDARD_INPUT: &str = "-";

/// Files by their paths, and standard input under the name `-`. They tell what their outside tells: of a runtime nothing of contents.
///
/// A file that can't be opened is a fault, and so is a failed read. Where standard input can seek, what was shown of it and not consumed is
/// given back when the places are dropped.
#[derive(Drop)]
pub struct RealPlaces<O, F: Supply, I: Preview> {
    outside: O,
    names: Vec<String>,
    places: Vec<RealPlace<F, I>>,
    faults: u64,
    late: u64,
}

impl<R: Files + Input> RealPlaces<
    Host<R>,
    HostReader<<R as Files>::File>,
    HostReader<<R as Input>::Reader>,
> {
    /// Over a runtime. No place is reached.
    pub fn make(alloc: Global, rt: R) -> Self
        ensures unasked { real_names result ≡ [] }
        ensures none { real_reached result ≡ 0 }
        ensures faults { real_faults result ≡ 0 }
        ensures late { real_late result ≡ 0 }
    {
        RealPlaces::over(alloc, Host::make(rt))
    }
}

impl<O: Outside> RealPlaces<O, <O as Outside>::File, <O as Outside>::Input> {
    /// Over what opens files and standard input. No place is reached.
    pub fn over(alloc: Global, outside: O) -> Self
        ensures names { (real_world O.holds O.File.contents O.Input.contents result).holds ≡ O.holds outside }
        ensures unasked { real_names result ≡ [] }
        ensures none { real_reached result ≡ 0 }
        ensures faults { real_faults result ≡ 0 }
        ensures late { real_late result ≡ 0 }
    {
        RealPlaces {
            outside,
            names: Vec::new(alloc),
            places: Vec::new(alloc),
            faults: 0,
            late: 0,
        }
    }
}

impl<O: Outside> Places for RealPlaces<O, <O as Outside>::File, <O as Outside>::Input> {
    ghost use Rattle.lucid_ports.specs.declared.fault.PortFault.{PortFault};

    ghost world = { real_world O.holds O.File.contents O.Input.contents };

    // A fault is one of what opens the name.
    ghost reach_gives = { λ old name result new. (real_faults new ≡ faults_after (real_faults old) result)
        × (IsErrOf result PortFault.Failed → O.refuses (real_outside old) name) };

    // A fault is one of the reader, which is asked where nothing is shown, and then once.
    ghost fill_gives = { λ old place result new. (real_faults new ≡ faults_after (real_faults old) result)
        × AsksWhereNone ((real_world O.holds O.File.contents O.Input.contents old).place place).shown
        (λ answer. PlaceAsks O.File.read_gives O.Input.read_gives O.Input.show_gives (place_at old place) answer (place_at new place))
        (source_of (place_at new place) ≡ source_of (place_at old place)) result };

    fn reach(&mut self, alloc: Global, name: &str) -> Result<u32, PortFault> {
        self.late = late_after(self.faults, self.late);
        self.names.push(String::from_str(alloc, name)?)?;
        let number = self.places.len() as u32;
        let Some(source) = open(&self.outside, name) else {
            self.faults = self.faults.saturating_add(1);
            return Err(PortFault::Failed);
        };
        let window = Window::make(alloc)?;
        self.places.push(RealPlace::make(source, window))?;
        Ok(number)
    }

    fn fill(&mut self, place: u32) -> Result<&[u8], PortFault> {
        self.late = late_after(self.faults, self.late);
        let number = place as usize;
        if self.places[number].fill().is_none() {
            self.faults = self.faults.saturating_add(1);
            return Err(PortFault::Failed);
        }
        Ok(self.places[number].as_slice())
    }

    fn consume(&mut self, place: u32, n: usize) {
        self.late = late_after(self.faults, self.late);
        self.places[place as usize].consume(n);
    }
}

// Opens the source of a name, of which nothing is read or shown.
fn open<O: Outside>(
    outside: &O,
    name: &str,
) -> Option<Source<<O as Outside>::File, <O as Outside>::Input>>
    ensures shown { IfSome result (λ source. source_shown O.File.contents O.Input.contents source [] ≡ []) }
    ensures opened { IfSome result (λ source. source_contents O.File.contents O.Input.contents source [] ≡ option_map unread (O.holds outside.now name.now)) }
    ensures refused { IfNone result (O.refuses outside.now name.now) }
{
    if name == STANDARD_INPUT {
        return Some(Source::Input(StandardInput::make(outside.input()?)));
    }
    Some(Source::File(outside.open(name)?))
}
