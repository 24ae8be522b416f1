// Standard input, of which what was not consumed is given back where it can seek.
ghost use Rattle.std.specs.Prelude.{◌≡◌, ◌+◌, ◌≤◌, [], drop, length, option_map, IfSome, IfNone};
ghost use Rattle.lucid_ports.specs.StandardInput.{shown_of, contents_of, AsksOnce};
ghost use Rattle.lucid_ports.specs.Supply.{IsEnd};
ghost use Rattle.lucid_ports.specs.World.{advanced};

use crate::supply::Preview;
use crate::window::Window;

// The kit's reader of an input that can seek shows a piece ahead, and when it is dropped seeks back over what was not consumed of it. Of any
// other it shows a byte at a time; such an input is read by pieces, which can't be given back.
#[derive(Drop)]
pub(crate) struct StandardInput<I> {
    reader: I,
    manner: Manner,
}

#[derive(Clone, Copy, Drop)]
enum Manner {
    // Nothing was read.
    Unknown,
    // The reader keeps what the window shows.
    Kept,
    // What the window shows was taken of the reader.
    Taken,
}

impl<I: Preview> StandardInput<I> {
    pub(crate) fn make(reader: I) -> StandardInput<I>
        ensures reader { result.reader ≡ reader }
        ensures manner { result.manner ≡ Manner.Unknown }
    {
        StandardInput {
            reader,
            manner: Manner::Unknown,
        }
    }

    // Shows what one more read gives; none where that fails.
    pub(crate) fn read(&mut self, window: &mut Window) -> Option<()>
        requires { window.old.bytes ≡ [] }
        ensures tied { shown_of self.new.manner window.new.bytes (I.contents self.new.reader) ≡ window.new.bytes }
        ensures contents { contents_of self.new.manner window.new.bytes (I.contents self.new.reader) ≡ I.contents self.old.reader }
        ensures end { IfSome result (λ _. window.new.bytes ≡ [] → IsEnd (I.contents self.old.reader)) }
        ensures used { IfSome result (λ _. window.new.used ≡ 0) }
        ensures same { IfNone result (window.new ≡ window.old) }
        ensures once { AsksOnce self.old.manner I.read_gives I.show_gives self.old.reader (option_map (λ _. length window.new.bytes) result) self.new.reader }
    {
        match self.manner {
            Manner::Taken => window.read(&mut self.reader),
            Manner::Kept => window.show(&mut self.reader),
            Manner::Unknown => self.begin(window),
        }
    }

    // Shows what the first read gives, and settles the manner by it; none where that fails.
    fn begin(&mut self, window: &mut Window) -> Option<()>
        requires manner { self.old.manner ≡ Manner.Unknown }
        requires none { window.old.bytes ≡ [] }
        ensures tied { shown_of self.new.manner window.new.bytes (I.contents self.new.reader) ≡ window.new.bytes }
        ensures contents { contents_of self.new.manner window.new.bytes (I.contents self.new.reader) ≡ I.contents self.old.reader }
        ensures end { IfSome result (λ _. window.new.bytes ≡ [] → IsEnd (I.contents self.old.reader)) }
        ensures used { IfSome result (λ _. window.new.used ≡ 0) }
        ensures same { IfNone result (window.new ≡ window.old) }
        ensures once { AsksOnce self.old.manner I.read_gives I.show_gives self.old.reader (option_map (λ _. length window.new.bytes) result) self.new.reader }
    {
        window.show(&mut self.reader)?;
        let shown = window.as_slice().len();
        if shown > 1 {
            self.manner = Manner::Kept;
        } else {
            self.manner = Manner::Taken;
            self.reader.skip(shown);
        }
        Some(())
    }

    // Consumes the first bytes that the window shows, of the reader too where it keeps them.
    pub(crate) fn consume(&mut self, window: &mut Window, count: usize)
        requires within { count ≤ length window.old.bytes }
        requires tied { shown_of self.old.manner window.old.bytes (I.contents self.old.reader) ≡ window.old.bytes }
        ensures tied { shown_of self.new.manner window.new.bytes (I.contents self.new.reader) ≡ window.new.bytes }
        ensures contents { contents_of self.new.manner window.new.bytes (I.contents self.new.reader)
            ≡ option_map (advanced count) (contents_of self.old.manner window.old.bytes (I.contents self.old.reader)) }
        ensures window { window.new ≡ record { bytes = drop count window.old.bytes; used = window.old.used + count } }
    {
        if let Manner::Kept = self.manner {
            self.reader.skip(count);
        }
        window.consume(count);
    }
}
