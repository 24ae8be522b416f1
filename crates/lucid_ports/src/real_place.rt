// A real place: a source and the window before it.
ghost use Rattle.std.specs.Prelude.{◌≡◌, ◌≢◌, ◌+◌, ◌≤◌, [], drop, length, option_map, IfSome, IfNone, IsSome};
ghost use Rattle.std.specs.Io.{StartsWith};
ghost use Rattle.lucid_ports.specs.Source.{source_shown, source_contents, SourceAsks};
ghost use Rattle.lucid_ports.specs.Supply.{IsEnd};
ghost use Rattle.lucid_ports.specs.World.{advanced};

use crate::source::Source;
use crate::supply::{Preview, Supply};
use crate::window::Window;

#[derive(Drop)]
pub(crate) struct RealPlace<F: Supply, I: Preview> {
    pub(crate) source: Source<F, I>,
    pub(crate) window: Window,
    ghost tied: { source_shown F.contents I.contents source window.bytes ≡ window.bytes },
}

impl<F: Supply, I: Preview> RealPlace<F, I> {
    pub(crate) fn make(source: Source<F, I>, window: Window) -> RealPlace<F, I>
        requires { source_shown F.contents I.contents source window.bytes ≡ window.bytes }
        ensures source { result.source ≡ source }
        ensures window { result.window ≡ window }
    {
        RealPlace { source, window }
    }

    // Shows what is there, or else what one read gives; none where that fails.
    pub(crate) fn fill(&mut self) -> Option<()>
        ensures contents { source_contents F.contents I.contents self.new.source self.new.window.bytes
            ≡ source_contents F.contents I.contents self.old.source self.old.window.bytes }
        ensures end { IfSome result (λ _. self.new.window.bytes ≡ []
            → IsEnd (source_contents F.contents I.contents self.old.source self.old.window.bytes)) }
        ensures used { IfSome result (λ _. self.new.window.used ≡ 0) }
        ensures same { IfNone result (self.new.window ≡ self.old.window) }

        // The reader is asked where nothing is shown, and then once, and it fails where that fails.
        ensures once { self.old.window.bytes ≡ []
            → SourceAsks F.read_gives I.read_gives I.show_gives self.old.source (option_map (λ _. length self.new.window.bytes) result) self.new.source }
        ensures unasked { self.old.window.bytes ≢ [] → IsSome result × (self.new.source ≡ self.old.source) × (self.new.window.bytes ≡ self.old.window.bytes) }
    {
        if self.window.as_slice().is_empty() {
            return self.read();
        }
        self.window.renew();
        Some(())
    }

    // Shows what one read gives; none where that fails.
    fn read(&mut self) -> Option<()>
        requires { self.old.window.bytes ≡ [] }
        ensures contents { source_contents F.contents I.contents self.new.source self.new.window.bytes
            ≡ source_contents F.contents I.contents self.old.source self.old.window.bytes }
        ensures end { IfSome result (λ _. self.new.window.bytes ≡ []
            → IsEnd (source_contents F.contents I.contents self.old.source self.old.window.bytes)) }
        ensures used { IfSome result (λ _. self.new.window.used ≡ 0) }
        ensures same { IfNone result (self.new.window ≡ self.old.window) }
        ensures once { SourceAsks F.read_gives I.read_gives I.show_gives self.old.source (option_map (λ _. length self.new.window.bytes) result) self.new.source }
    {
        match &mut self.source {
            Source::File(file) => self.window.read(file),
            Source::Input(input) => input.read(&mut self.window),
        }
    }

    // What is shown.
    pub(crate) fn as_slice(&self) -> &[u8]
        ensures value { result.now ≡ self.now.window.bytes }
        ensures front { IfSome (source_contents F.contents I.contents self.now.source self.now.window.bytes) (λ c. StartsWith c.left result.now) }
    {
        self.window.as_slice()
    }

    pub(crate) fn consume(&mut self, count: usize)
        requires { count ≤ length self.old.window.bytes }
        ensures contents { source_contents F.contents I.contents self.new.source self.new.window.bytes
            ≡ option_map (advanced count) (source_contents F.contents I.contents self.old.source self.old.window.bytes) }
        ensures window { self.new.window ≡ record { bytes = drop count self.old.window.bytes; used = self.old.window.used + count } }
    {
        match &mut self.source {
            Source::File(_) => self.window.consume(count),
            Source::Input(input) => input.consume(&mut self.window, count),
        }
    }
}
