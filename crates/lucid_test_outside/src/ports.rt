// What no clause says: that the calls succeed with ample memory, and the real objects.
ghost use Rattle.std.specs.Prelude.{◌≡◌, ◌<◌, ◌≤◌, ◌++◌, IfOk, OnOk};
ghost use Rattle.lucid_ports.specs.MemoryView.{memory_world};
ghost use Rattle.lucid_ports.specs.RealSinkView.{sink_writer};

use crate::told::{first_false, must, none_wrong};
use lucid_ports::*;
use std::alloc::{AllocError, Global};
use std::io::{self, ErrorKind, Write};
use std::test::Fail;

// The file `a` with the bytes `7\n8\n`, and these failures to come.
fn two_lines(alloc: Global, failures: &[FailAt]) -> Result<MemoryPlaces, AllocError>
    ensures { IfOk result (λ places. (memory_world places).reached ≡ 0) }
{
    let file = MemoryFile {
        name: String::from_str(alloc, "a")?,
        bytes: Vec::from_slice(alloc, b"7\n8\n")?,
    };
    let mut files = Vec::new(alloc);
    files.push(file)?;
    Ok(MemoryPlaces::make(alloc, files, Vec::from_slice(alloc, failures)?))
}

// Whether a place has these bytes, of which at most so many are read.
pub(crate) fn reads<P: Places>(
    alloc: Global,
    places: &mut P,
    place: u32,
    most: usize,
    wanted: &[u8],
) -> Result<bool, PortFault>
    requires { place < (P.world places.old).reached }
    ensures { (P.world places.new).reached ≡ (P.world places.old).reached }
{
    Ok(read_at_most(alloc, places, place, most)?.as_slice() == wanted)
}

// Places are made by one function and looked at by another: what owns them pays for each `?`.
fn wrong_in_a_file(alloc: Global, places: &mut MemoryPlaces) -> Result<Option<usize>, Fail>
    requires { (memory_world places.old).reached ≡ 0 }
{
    let place = places.reach(alloc, "a")?;
    Ok(first_false(&[
        place == 0,
        reads(alloc, places, place, 3, b"7\n8")?,
        places.consumed(place) == 3,
        reads(alloc, places, place, 3, b"\n")?,
        places.reach(alloc, "b") == Err(PortFault::Failed),
    ]))
}

fn wrong_of_a_file(alloc: Global) -> Result<Option<usize>, Fail> {
    let mut places = two_lines(alloc, &[])?;
    wrong_in_a_file(alloc, &mut places)
}

// What a call answers, how much is consumed then, and how much is left.
fn failing_in(
    alloc: Global,
    places: &mut MemoryPlaces,
) -> Result<(Option<PortFault>, u64, u64), Fail>
    requires { (memory_world places.old).reached ≡ 0 }
{
    let place = places.reach(alloc, "a")?;
    let failed = read_at_most(alloc, places, place, 9).err();
    let consumed = places.consumed(place);
    let rest = read_at_most(alloc, places, place, 9)?;
    Ok((failed, consumed, rest.len() as u64))
}

// The same of a call that fails at a position.
fn failing(alloc: Global, position: u64) -> Result<(Option<PortFault>, u64, u64), Fail> {
    let mut places = two_lines(alloc, &[FailAt { place: 0, position }])?;
    failing_in(alloc, &mut places)
}

// Whether that fails, with all before the position consumed and all behind it left.
fn fails_so(alloc: Global, position: u64) -> Result<bool, Fail> {
    let (failed, consumed, rest) = failing(alloc, position)?;
    Ok(
        failed == Some(PortFault::Failed)
            && consumed == position
            && rest.saturating_add(position) == 4,
    )
}

// How much is shown of a file, and whether the rest is read.
fn shown_in<P: Places>(alloc: Global, places: &mut P) -> Result<(usize, bool), Fail>
    requires { (P.world places.old).reached ≡ 0 }
{
    let place = places.reach(alloc, "a")?;
    let shown = places.fill(place)?.len();
    if shown < 1 {
        return Err(Fail::new("nothing is shown"));
    }
    places.consume(place, 1);
    Ok((shown, reads(alloc, places, place, 9, b"\n8\n")?))
}

// The same where so many bytes are shown at a time.
fn narrow(alloc: Global, most: usize) -> Result<(usize, bool), Fail>
    requires { 1 ≤ most }
{
    let mut places = Narrow::make(two_lines(alloc, &[])?, most);
    shown_in(alloc, &mut places)
}

// The file `a` with the bytes `7\n`.
fn one_line(alloc: Global) -> Result<Vec<MemoryFile>, AllocError> {
    let file = MemoryFile {
        name: String::from_str(alloc, "a")?,
        bytes: Vec::from_slice(alloc, b"7\n")?,
    };
    let mut files = Vec::new(alloc);
    files.push(file)?;
    Ok(files)
}

fn wrong_in_pieces<P: Places>(alloc: Global, places: &mut P) -> Result<Option<usize>, Fail>
    requires { (P.world places.old).reached ≡ 0 }
{
    let file = places.reach(alloc, "a")?;
    let piece = places.reach(alloc, "b")?;
    Ok(first_false(&[
        reads(alloc, places, file, 9, b"7\n")?,
        reads(alloc, places, piece, 5, b"01201")?,
        places.fill(piece)? == b"2".as_slice(),
    ]))
}

// What is wrong of a piece that comes again and again.
fn wrong_of_a_piece(alloc: Global) -> Result<Option<usize>, Fail> {
    let mut places = Endless::make(alloc, one_line(alloc)?, vec![in alloc; 48, 49, 50]?);
    wrong_in_pieces(alloc, &mut places)
}

// Pieces that are written, and what is answered.
static WRITES: [(&[u8], Result<usize, PortFault>); 5] = [
    (b"abc", Ok(2)),
    (b"c", Err(PortFault::Failed)),
    (b"c", Ok(1)),
    (b"", Err(PortFault::Failed)),
    (b"", Ok(0)),
];

// The number of the first piece of which a sink answers otherwise.
fn wrong_answer(sink: &mut MemorySink) -> Option<usize> {
    for (number, (piece, answer)) in WRITES.iter().enumerate() {
        if sink.write(*piece) != *answer {
            return Some(number);
        }
    }
    None
}

// What is answered otherwise where the writes 1 and 3 fail, and whether all that wasn't refused is written.
fn listed_writes(alloc: Global) -> Result<(Option<usize>, bool), Fail> {
    let mut sink = MemorySink::make(alloc, 2, vec![in alloc; 1, 3]?);
    let wrong = wrong_answer(&mut sink);
    write_whole(&mut sink, b"defgh")?;
    Ok((wrong, sink.written() == b"abcdefgh".as_slice()))
}

#[test]
fn places_and_sinks_in_memory(rt: HostRuntime) -> Result<(), Fail> {
    let alloc = rt.alloc();
    none_wrong(wrong_of_a_file(alloc)?, "a file")?;
    none_wrong(wrong_of_a_piece(alloc)?, "a piece")?;
    for position in [0u64, 1, 3, 4] {
        must(fails_so(alloc, position)?, "a failure")?;
    }
    for most in [1usize, 2, 3, 7] {
        must(
            narrow(alloc, most)? == (most.min(4), true),
            "a narrow place",
        )?;
    }
    must(listed_writes(alloc)? == (None, true), "writes that fail")
}

// Whether so many zeros come of a place.
fn gives_zeros<P: Places>(
    alloc: Global,
    places: &mut P,
    place: u32,
    count: usize,
) -> Result<bool, PortFault>
    requires { place < (P.world places.old).reached }
    ensures { (P.world places.new).reached ≡ (P.world places.old).reached }
{
    let bytes = read_at_most(alloc, places, place, count)?;
    Ok(bytes.len() == count && bytes.iter().all(|byte| *byte == 0))
}

fn wrong_in_real_places<P: Places>(alloc: Global, places: &mut P) -> Result<Option<usize>, Fail>
    requires { (P.world places.old).reached ≡ 0 }
{
    let zeros = places.reach(alloc, "/dev/zero")?;
    let empty = places.reach(alloc, "/dev/null")?;
    let folder = places.reach(alloc, "/")?;
    Ok(first_false(&[
        gives_zeros(alloc, places, zeros, 100_000)?,
        places.fill(empty)?.is_empty(),
        places.fill(folder).err() == Some(PortFault::Failed),
        places.reach(alloc, "/dev/null/none") == Err(PortFault::Failed),
        places.reach(alloc, "-") == Ok(3),
    ]))
}

// What is wrong of real files.
fn wrong_of_real_places(rt: HostRuntime) -> Result<Option<usize>, Fail> {
    let alloc = rt.alloc();
    wrong_in_real_places(alloc, &mut RealPlaces::make(alloc, rt))
}

// What is answered of writes to the standard output, and to a full device.
fn real_writes(rt: HostRuntime) -> Result<[Result<usize, PortFault>; 2], Fail> {
    let mut sink = RealSink::make(rt.stdout());
    let mut full = RealSink::make(std::fs::create(&rt, "/dev/full")?);
    Ok([sink.write(b"written\n"), full.write(b"lost")])
}

#[test]
fn real_places_and_sinks(rt: HostRuntime) -> Result<(), Fail> {
    none_wrong(wrong_of_real_places(rt)?, "real places")?;
    must(
        real_writes(rt)? == [Ok(8), Err(PortFault::Failed)],
        "real writes",
    )
}

// A vector tells what it holds: all of a piece that is written whole.
fn write_told(sink: &mut RealSink<Vec<u8>>, piece: &[u8]) -> Result<(), PortFault>
    ensures { OnOk result ((sink_writer sink.new).items ≡ (sink_writer sink.old).items ++ piece.now) }
{
    write_whole(sink, piece)
}

// What is wrong of a vector that is written to.
fn wrong_of_a_vector(sink: &mut RealSink<Vec<u8>>) -> Option<usize> {
    first_false(&[
        write_told(sink, b"ab\n") == Ok(()),
        write_told(sink, b"c") == Ok(()),
        sink.writer().as_slice() == b"ab\nc".as_slice(),
    ])
}

// A vector that can't be flushed.
#[derive(Drop)]
struct Stuck {
    bytes: Vec<u8>,
}

impl Write for Stuck {
    ghost use Rattle.std.specs.Prelude.{Some};

    ghost contents = { λ s. Some s.bytes.items };

    fn write(&mut self, piece: &[u8]) -> io::Result<usize> {
        self.bytes.write(piece)
    }

    fn flush(&mut self) -> io::Result<()> {
        Err(io::Error::from(ErrorKind::BrokenPipe))
    }
}

impl Output for Stuck {
    ghost settled = { λ _ _ told. told };
}

// What is wrong of such a vector: a failed flush is a fault of the next write.
fn wrong_of_a_stuck(sink: &mut RealSink<Stuck>) -> Option<usize> {
    first_false(&[
        sink.write(b"ab") == Ok(2),
        sink.write(b"c") == Err(PortFault::Failed),
        sink.writer().bytes.as_slice() == b"ab".as_slice(),
    ])
}

#[test]
fn vectors_hold_what_is_written(rt: HostRuntime) -> Result<(), Fail> {
    let wrong = wrong_of_a_vector(&mut RealSink::make(Vec::new(rt.alloc())));
    let bytes = Vec::new(rt.alloc());
    let stuck = wrong_of_a_stuck(&mut RealSink::make(Stuck { bytes }));
    none_wrong(wrong, "a vector")?;
    none_wrong(stuck, "a failed flush")
}
