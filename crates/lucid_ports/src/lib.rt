//! The outside of the interpreter: places that are read by pieces, sinks that are written to, objects in memory that
//! stand for them in tests, and the real ones.
#![tactic(auto)]

mod endless;
mod fault;
mod files;
mod host;
mod late;
mod mark;
mod memory_outside;
mod memory_places;
mod memory_sink;
mod narrow;
mod output;
mod piece_limit;
mod places;
mod reading;
mod real_place;
mod real_places;
mod real_sink;
mod run;
mod sink;
mod source;
mod sources;
mod standard_input;
mod supply;
mod window;
mod writing;

pub use endless::Endless;
pub use fault::PortFault;
pub use files::MemoryFile;
pub use host::{Host, HostReader};
pub use late::late_after;
pub use memory_outside::{MemoryOutside, MemoryReader};
pub use memory_places::{FailAt, MemoryPlaces};
pub use memory_sink::MemorySink;
pub use narrow::Narrow;
pub use output::Output;
pub use places::Places;
pub use reading::read_at_most;
pub use real_places::RealPlaces;
pub use real_sink::RealSink;
pub use run::{MAX_ASKED, Options, RunFault, Summary};
pub use sink::Sink;
pub use supply::{Outside, Preview, Supply};
pub use writing::write_whole;
