// Inputs whose elements are read on demand.
ghost use Rattle.std.specs.Prelude.{◌≡◌, ◌≢◌, ◌<◌, ℕ, Some, map, length, AllPairs, IfOk, IfErr, IfSome, IfNone, OnOk, IsErrOf, IsTrue};
ghost use Rattle.std.specs.List.{slice_get};
ghost use Rattle.lucid_inputs.specs.declared.stream.InputStream.{InputStream as Input};
ghost use Rattle.lucid_inputs.specs.Faults.{OnTooLarge, is_eod};
ghost use Rattle.lucid_inputs.specs.Reading.{GivesElement, IsTooLarge, IsWithin};
ghost use Rattle.lucid_inputs.specs.Streams.{FitsPlace, all_bytes, fresh_stream};
ghost use Rattle.lucid_inputs.specs.View.{place_of, stream_of};

use crate::InputFault;
use crate::lines::Element;
use crate::stream::InputStream;
use lucid_ports::Places;
use lucid_value::Value;
use std::alloc::{AllocError, Global};

/// Streams of elements, each read from a place by lines, as far as an element is asked for.
pub struct Inputs {
    alloc: Global,
    streams: Vec<InputStream>,
    most: u64,
    // What is lent past the last element of a stream.
    past_end: Value,
    ghost ends: { IsTrue (is_eod past_end) },
    ghost apart: { AllPairs (λ a b. a ≢ b) (map place_of streams.items) },
    ghost within: { (k : ℕ) (s : Input) → slice_get streams.items k ≡ Some s → IsWithin (stream_of s) most },
}

// Not derived: a derived one is proved again wherever one is dropped.
impl Drop for Inputs {
    fn drop(self) {
        let Inputs {
            alloc,
            streams,
            most,
            past_end,
        } = self;
    }
}

impl Inputs {
    ghost use Rattle.std.specs.Borrow.{sem};
    ghost use Rattle.lucid_value.specs.Elements.{element};
    ghost use Rattle.lucid_value.specs.Lines.{IsOverlong};
    ghost use Rattle.lucid_ports.specs.Faults.{AsksNoneLate, CountsNoFaultUnless, Rises};
    ghost use Rattle.lucid_inputs.specs.Inputs.{EndsAnswered, ReadsStream, HasReady, most_bytes, stream_at, streams};
    ghost use Rattle.lucid_value.specs.View.{plain};

    /// Streams of which nothing is read, one for each place. Of each no more than `most` bytes will be read.
    pub fn make(alloc: Global, places: Vec<u32>, most: u64) -> Result<Inputs, AllocError>
        requires { AllPairs (λ a b. a ≢ b) places.items }
        ensures streams { IfOk result (λ inputs. streams inputs ≡ map fresh_stream places.items) }
        ensures most { IfOk result (λ inputs. most_bytes inputs ≡ most) }
    {
        Ok(Inputs {
            alloc,
            streams: make_streams(alloc, &places)?,
            most,
            past_end: Value::Eod,
        })
    }

    /// The number of streams.
    pub fn count(&self) -> u64
        ensures { result ≡ length (streams self.now) }
    {
        self.streams.len() as u64
    }

    // Reads the stream on for an element, and reads its value.
    fn read_on<P: Places>(
        &mut self,
        places: &mut P,
        stream: u32,
        index: u64,
    ) -> Result<(), InputFault>
        requires stream { stream < length (streams self.old) }
        requires reached { (stream_at self.old stream).place < (P.world places.old).reached }
        requires fits { FitsPlace (stream_at self.old stream) ((P.world places.old).place (stream_at self.old stream).place) }
        ensures reads { ReadsStream self.old stream index self.new (P.world places.old) (P.world places.new) }
        ensures ready { OnOk result (HasReady self.new stream index) }
        ensures failed { IsErrOf result InputFault.ReadFault → Rises (P.world places.old).faults (P.world places.new).faults }
        ensures counts_no_fault { CountsNoFaultUnless (IsErrOf result InputFault.ReadFault) (P.world places.old).faults (P.world places.new).faults }
        ensures late { AsksNoneLate (P.world places.old) (P.world places.new) }
        ensures too_large { IfErr result (λ e. OnTooLarge e (λ s. IsTooLarge stream index (most_bytes self.old) (stream_at self.new stream) s
            ((P.world places.old).place (stream_at self.old stream).place).contents)) }
        ensures not_too_large { OnOk result (IfSome ((P.world places.old).place (stream_at self.old stream).place).contents
            (λ c. IsOverlong (all_bytes c) index (most_bytes self.old) → ⊥)) }
    {
        let alloc = self.alloc;
        let most = self.most;
        self.streams[stream as usize].demand(alloc, places, stream, index, most)
    }

    // The element of that index, which is read.
    fn value(&self, stream: u32, index: u64) -> &Value
        requires { HasReady self.now stream index }
        ensures { GivesElement (stream_at self.now stream) index (plain result.now) }
    {
        match self.streams[stream as usize].elements.get(index as usize) {
            Some(Element::Read(value)) => value,
            _ => &self.past_end,
        }
    }

    /// The element of that index, where it was read: past the last line it is the end of data, where the end was met. No place
    /// is touched.
    pub fn known(&self, stream: u32, index: u64) -> Option<&Value>
        requires { stream < length (streams self.now) }
        ensures element { IfSome result (λ v. GivesElement (stream_at self.now stream) index (plain v.now)) }
        ensures none { IfNone result (HasReady self.now stream index → ⊥) }
    {
        let stream = &self.streams[stream as usize];
        match stream.elements.get(index as usize) {
            Some(Element::Read(value)) => Some(value),
            Some(Element::Unread(_)) => None,
            None if stream.ended => Some(&self.past_end),
            None => None,
        }
    }

    /// The element of that index, counted from 0: past the last line it is the end of data.
    ///
    /// The stream is read on by lines, and no byte past the line end that is wanted is consumed. A refusal loses nothing.
    pub fn element<P: Places>(
        &mut self,
        places: &mut P,
        stream: u32,
        index: u64,
    ) -> Result<&Value, InputFault>
        requires stream { stream < length (streams self.old) }
        requires reached { (stream_at self.old stream).place < (P.world places.old).reached }
        requires fits { FitsPlace (stream_at self.old stream) ((P.world places.old).place (stream_at self.old stream).place) }
        ensures* after { sem 𝓛 (EndsAnswered self.entry stream index result (P.world places.old) (P.world places.new)) }
        ensures element { IfOk result (λ v. IfSome ((P.world places.old).place (stream_at self.old stream).place).contents (λ c. plain v.now ≡ element (all_bytes c) index)) }
        // It is too large exactly where the line lies past the bytes that may be read.
        ensures too_large { IfErr result (λ e. OnTooLarge e (λ s. (s ≡ stream) × IfSome ((P.world places.old).place (stream_at self.old stream).place).contents
            (λ c. IsOverlong (all_bytes c) index (most_bytes self.old)))) }
        ensures not_too_large { OnOk result (IfSome ((P.world places.old).place (stream_at self.old stream).place).contents
            (λ c. IsOverlong (all_bytes c) index (most_bytes self.old) → ⊥)) }

        ensures failed { IsErrOf result InputFault.ReadFault → Rises (P.world places.old).faults (P.world places.new).faults }
        ensures counts_no_fault { CountsNoFaultUnless (IsErrOf result InputFault.ReadFault) (P.world places.old).faults (P.world places.new).faults }
        ensures late { AsksNoneLate (P.world places.old) (P.world places.new) }
    {
        self.read_on(places, stream, index)?;
        Ok(self.value(stream, index))
    }
}

// Streams of which nothing is read.
fn make_streams(alloc: Global, places: &[u32]) -> Result<Vec<InputStream>, AllocError>
    ensures { IfOk result (λ made. map stream_of made.items ≡ map fresh_stream places.now) }
{
    let mut made = Vec::new(alloc);
    for place in places {
        made.push(InputStream::make(alloc, *place))?;
    }
    Ok(made)
}
