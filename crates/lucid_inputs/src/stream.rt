// One stream, read by pieces.
ghost use Rattle.std.specs.Prelude.{◌≡◌, ◌+◌, ◌<◌, ◌≤◌, ◌^◌, false, length, take, IfOk, IfSome, OnOk, OnErr, IfErr, IsErrOf, vec_len};
ghost use Rattle.lucid_value.specs.Lines.{IsOverlong};
ghost use Rattle.lucid_ports.specs.Faults.{AsksNoneLate, CountsNoFaultUnless, Rises};
ghost use Rattle.lucid_ports.specs.World.{KeepsOthers};
ghost use Rattle.lucid_inputs.specs.Faults.{OnTooLarge};
ghost use Rattle.lucid_inputs.specs.Streams.{FitsPlace, all_bytes, fresh_stream, line_ends};
ghost use Rattle.lucid_inputs.specs.Reading.{IsTooLarge, IsWithin, ReadsOn};
ghost use Rattle.lucid_inputs.specs.Steps.{Step, Takes, with_element, with_end};
ghost use Rattle.lucid_inputs.specs.View.{IsReady, stream_of};

use crate::InputFault;
use crate::lines::{Element, Line};
use lucid_ports::{Places, PortFault};
use memchr::memchr;
use std::alloc::{AllocError, Global};

// The elements read, the line that is partly read, and how many bytes of the place are consumed.
#[derive(Drop)]
pub(crate) struct InputStream {
    pub(crate) place: u32,
    pub(crate) elements: Vec<Element>,
    partial: Line,
    pub(crate) consumed: u64,
    pub(crate) ended: bool,
}

impl InputStream {
    pub(crate) fn make(alloc: Global, place: u32) -> InputStream
        ensures { stream_of result ≡ fresh_stream place }
    {
        InputStream {
            place,
            elements: Vec::new(alloc),
            partial: Line::empty(alloc),
            consumed: 0,
            ended: false,
        }
    }

    // Adds the element of the line that ends with `rest`.
    fn take_element(&mut self, alloc: Global, rest: &[u8]) -> Result<(), AllocError>
        requires { line_ends rest.now ≡ 0 }
        ensures ok { OnOk result (stream_of self.new ≡ with_element rest.now (stream_of self.old)) }
        ensures err { OnErr result (stream_of self.new ≡ stream_of self.old) }
    {
        // Once there is room nothing can fail behind the line's own reading.
        self.elements.reserve(1)?;
        let element = self.partial.finish(alloc, rest)?;
        self.elements.push(element).unwrap();
        Ok(())
    }

    // Takes the bytes through the first line end, or all where there is none, and gives their number.
    fn take_front(&mut self, alloc: Global, bytes: &[u8]) -> Result<usize, AllocError>
        requires { self.old.consumed + length bytes.now < 2 ^ 64 }
        ensures bound { IfOk result (λ n. n ≤ length bytes.now) }
        ensures some { IfOk result (λ n. 0 < length bytes.now → 0 < n) }
        ensures ok { IfOk result (λ n. Takes (take n bytes.now) (stream_of self.old) (stream_of self.new)) }
        ensures err { OnErr result (stream_of self.new ≡ stream_of self.old) }
    {
        match memchr(b'\n', bytes) {
            Some(end) => {
                self.take_element(alloc, &bytes[..end])?;
                self.consumed += end as u64 + 1;
                Ok(end + 1)
            }
            None => {
                self.partial.extend(bytes)?;
                self.consumed += bytes.len() as u64;
                Ok(bytes.len())
            }
        }
    }

    // Meets the end, where a line without line end is the last.
    fn meet_end(&mut self, alloc: Global) -> Result<(), AllocError>
        ensures ok { OnOk result (stream_of self.new ≡ with_end (stream_of self.old)) }
        ensures err { OnErr result (stream_of self.new ≡ stream_of self.old) }
    {
        if self.partial.is_empty() {
            self.ended = true;
            return Ok(());
        }
        self.take_element(alloc, &[])?;
        self.ended = true;
        Ok(())
    }

    // Reads one piece of the place.
    fn read_piece<P: Places>(
        &mut self,
        alloc: Global,
        places: &mut P,
        most: u64,
    ) -> Result<(), PortFault>
        requires reached { self.old.place < (P.world places.old).reached }
        requires more { self.old.consumed < most }
        ensures ok { OnOk result (Step (stream_of self.old) (stream_of self.new) ((P.world places.old).place self.old.place).contents ((P.world places.new).place self.old.place).contents) }
        ensures most { OnOk result (self.new.consumed ≤ most) }
        ensures err { OnErr result (stream_of self.new ≡ stream_of self.old) }
        ensures contents { OnErr result (((P.world places.new).place self.old.place).contents ≡ ((P.world places.old).place self.old.place).contents) }
        ensures reached { (P.world places.new).reached ≡ (P.world places.old).reached }
        ensures others { KeepsOthers self.old.place (P.world places.old) (P.world places.new) }
        ensures failed { IsErrOf result PortFault.Failed → Rises (P.world places.old).faults (P.world places.new).faults }
        ensures counts_no_fault { CountsNoFaultUnless (IsErrOf result PortFault.Failed) (P.world places.old).faults (P.world places.new).faults }
        ensures late { AsksNoneLate (P.world places.old) (P.world places.new) }
    {
        let place = self.place;
        let piece = places.fill(place)?;
        if piece.is_empty() {
            self.meet_end(alloc)?;
            return Ok(());
        }
        let room = (most - self.consumed) as usize;
        let shown = piece.len().min(room);
        let taken = self.take_front(alloc, &piece[..shown])?;
        places.consume(place, taken);
        Ok(())
    }

    // Reads on until the element of that index is read, the end is met or `most` bytes are consumed.
    pub(crate) fn read_on<P: Places>(
        &mut self,
        alloc: Global,
        places: &mut P,
        index: u64,
        most: u64,
    ) -> Result<(), PortFault>
        requires reached { self.old.place < (P.world places.old).reached }
        requires fits { FitsPlace (stream_of self.old) ((P.world places.old).place self.old.place) }
        requires within { IsWithin (stream_of self.old) most }
        ensures on { ReadsOn index (stream_of self.old) (stream_of self.new) (P.world places.old) (P.world places.new) }
        ensures within { IsWithin (stream_of self.new) most }
        ensures stops { OnOk result (vec_len self.new.elements ≤ index → self.new.ended ≡ false → self.new.consumed ≡ most) }
        ensures failed { IsErrOf result PortFault.Failed → Rises (P.world places.old).faults (P.world places.new).faults }
        ensures counts_no_fault { CountsNoFaultUnless (IsErrOf result PortFault.Failed) (P.world places.old).faults (P.world places.new).faults }
        ensures late { AsksNoneLate (P.world places.old) (P.world places.new) }
    {
        'pieces: while !self.ended && self.consumed < most && self.elements.len() as u64 <= index {
            self.read_piece(alloc, places, most)?;
        }
        Ok(())
    }

    // Reads the value of the element of that index. Where neither the element is read nor the end was met, it lies too far.
    fn ready(&mut self, alloc: Global, stream: u32, index: u64) -> Result<(), InputFault>
        ensures same { stream_of self.new ≡ stream_of self.old }
        ensures ready { OnOk result (IsReady self.new index) }
        ensures failed { IsErrOf result InputFault.ReadFault → ⊥ }
        ensures too_large { IfErr result (λ e. OnTooLarge e (λ s. (s ≡ stream) × (vec_len self.old.elements ≤ index) × (self.old.ended ≡ false))) }
    {
        let number = index as usize;
        if number < self.elements.len() {
            self.elements[number].read(alloc)?;
            return Ok(());
        }
        if self.ended {
            return Ok(());
        }
        Err(InputFault::TooLarge { stream })
    }

    // Reads on for the element of that index of this stream, and reads its value.
    pub(crate) fn demand<P: Places>(
        &mut self,
        alloc: Global,
        places: &mut P,
        stream: u32,
        index: u64,
        most: u64,
    ) -> Result<(), InputFault>
        requires reached { self.old.place < (P.world places.old).reached }
        requires fits { FitsPlace (stream_of self.old) ((P.world places.old).place self.old.place) }
        requires within { IsWithin (stream_of self.old) most }
        ensures on { ReadsOn index (stream_of self.old) (stream_of self.new) (P.world places.old) (P.world places.new) }
        ensures within { IsWithin (stream_of self.new) most }
        ensures ready { OnOk result (IsReady self.new index) }
        ensures failed { IsErrOf result InputFault.ReadFault → Rises (P.world places.old).faults (P.world places.new).faults }
        ensures counts_no_fault { CountsNoFaultUnless (IsErrOf result InputFault.ReadFault) (P.world places.old).faults (P.world places.new).faults }
        ensures late { AsksNoneLate (P.world places.old) (P.world places.new) }
        ensures too_large { IfErr result (λ e. OnTooLarge e (λ s. IsTooLarge stream index most (stream_of self.new) s ((P.world places.old).place self.old.place).contents)) }
        ensures not_too_large { OnOk result (IfSome ((P.world places.old).place self.old.place).contents (λ c. IsOverlong (all_bytes c) index most → ⊥)) }
    {
        self.read_on(alloc, places, index, most)?;
        self.ready(alloc, stream, index)
    }
}
