// Real places over a runtime that gives what is written down for it: the order of the bytes, ends, failures, and what is taken of standard input.
ghost use Rattle.std.specs.Prelude.{◌≡◌, ◌<◌, ◌≤◌, OnOk};

use crate::ports::reads;
use crate::scripted::{Scripted, Step};
use crate::told::{all_hold, must, none_wrong};
use lucid_ports::{MemoryFile, MemoryOutside, Places, PortFault, RealPlaces, read_at_most};
use std::alloc::{AllocError, Global};
use std::cell::Cell;
use std::test::Fail;

const BYTES: &[u8] = b"1\n22\n333\n4444\n";

// The bytes in one step, and in steps that part lines.
const WHOLE: &[Step] = &[Step::Bytes(BYTES)];

const PARTED: &[Step] = &[
    Step::Bytes(b"1\n2"),
    Step::Bytes(b"2\n333"),
    Step::Bytes(b"\n"),
    Step::Bytes(b"4444\n"),
];

// Whether all bytes of a place come, by two calls, and then its end twice.
fn is_read_whole<P: Places>(alloc: Global, places: &mut P, place: u32) -> Result<bool, PortFault>
    requires { place < (P.world places.old).reached }
    ensures { OnOk result ((P.world places.new).reached ≡ (P.world places.old).reached) }
{
    Ok(all_hold(&[
        reads(alloc, places, place, 4, b"1\n22")?,
        reads(alloc, places, place, 99, b"\n333\n4444\n")?,
        places.fill(place)?.is_empty(),
        places.fill(place)?.is_empty(),
    ]))
}

// Whether they come of the file `a` and of the standard input.
fn both_are_read<P: Places>(alloc: Global, places: &mut P) -> Result<bool, Fail>
    requires { (P.world places.old).reached ≡ 0 }
    ensures { OnOk result ((P.world places.new).reached ≡ 2) }
{
    let file = places.reach(alloc, "a")?;
    let input = places.reach(alloc, "-")?;
    let facts = [
        is_read_whole(alloc, places, file)?,
        is_read_whole(alloc, places, input)?,
    ];
    Ok(facts == [true, true])
}

// The same by steps.
fn come_in_order(alloc: Global, steps: &'static [Step], ahead: usize) -> Result<bool, Fail> {
    let taken = Cell::new(0);
    let script = Scripted {
        steps,
        ahead,
        taken: &taken,
    };
    both_are_read(alloc, &mut RealPlaces::make(alloc, script))
}

// Steps, and how many bytes are shown ahead, with a name for both.
static PIECES: [(&str, &[Step], usize); 5] = [
    ("whole, 1 ahead", WHOLE, 1),
    ("whole, 2 ahead", WHOLE, 2),
    ("whole, 99 ahead", WHOLE, 99),
    ("parted, 1 ahead", PARTED, 1),
    ("parted, 99 ahead", PARTED, 99),
];

const FAULT: &[Step] = &[Step::Bytes(b"1\n2"), Step::Fault, Step::Bytes(b"2\n")];

fn a_fault_loses_nothing<P: Places>(alloc: Global, places: &mut P, name: &str) -> Result<bool, Fail>
    requires { (P.world places.old).reached ≡ 0 }
{
    let place = places.reach(alloc, name)?;
    Ok(all_hold(&[
        reads(alloc, places, place, 3, b"1\n2")?,
        places.fill(place).err() == Some(PortFault::Failed),
        reads(alloc, places, place, 99, b"2\n")?,
    ]))
}

// Whether a fault in mid-stream loses nothing.
fn loses_nothing(alloc: Global, name: &str, ahead: usize) -> Result<bool, Fail> {
    let taken = Cell::new(0);
    let script = Scripted {
        steps: FAULT,
        ahead,
        taken: &taken,
    };
    a_fault_loses_nothing(alloc, &mut RealPlaces::make(alloc, script), name)
}

const TYPED: &[Step] = &[Step::Bytes(b"1\n"), Step::End, Step::Bytes(b"2\n")];

fn more_comes_after_an_end<P: Places>(alloc: Global, places: &mut P) -> Result<bool, Fail>
    requires { (P.world places.old).reached ≡ 0 }
{
    let place = places.reach(alloc, "-")?;
    Ok(all_hold(&[
        reads(alloc, places, place, 99, b"1\n")?,
        reads(alloc, places, place, 99, b"2\n")?,
    ]))
}

// Whether more comes after an end, as of a terminal, where an end was typed and then more.
fn goes_on(alloc: Global, ahead: usize) -> Result<bool, Fail> {
    let taken = Cell::new(0);
    let script = Scripted {
        steps: TYPED,
        ahead,
        taken: &taken,
    };
    more_comes_after_an_end(alloc, &mut RealPlaces::make(alloc, script))
}

#[test]
fn bytes_come_in_order_by_pieces_of_any_length(rt: HostRuntime) -> Result<(), Fail> {
    let alloc = rt.alloc();
    for (name, steps, ahead) in &PIECES {
        must(come_in_order(alloc, *steps, *ahead)?, name)?;
    }
    must(loses_nothing(alloc, "a", 1)?, "a fault, of a file")?;
    must(loses_nothing(alloc, "-", 1)?, "a fault, 1 ahead")?;
    must(loses_nothing(alloc, "-", 99)?, "a fault, 99 ahead")?;
    must(goes_on(alloc, 1)?, "an end, 1 ahead")?;
    must(goes_on(alloc, 99)?, "an end, 99 ahead")
}

// How many bytes are shown ahead, how many are read at most, and how many are taken then.
static TAKEN: [(usize, usize, usize); 6] = [
    (99, 0, 0),
    (99, 1, 1),
    (99, 6, 6),
    (2, 3, 3),
    (1, 1, 1),
    (1, 2, 14),
];

fn read_of_the_input<P: Places>(alloc: Global, places: &mut P, most: usize) -> Result<(), Fail>
    requires { (P.world places.old).reached ≡ 0 }
{
    let place = places.reach(alloc, "-")?;
    places.fill(place)?;
    read_at_most(alloc, places, place, most)?;
    Ok(())
}

// Reads so many bytes at most of the standard input, and lets go of it.
fn read_some(alloc: Global, ahead: usize, most: usize, taken: &Cell<usize>) -> Result<(), Fail> {
    let script = Scripted {
        steps: WHOLE,
        ahead,
        taken,
    };
    read_of_the_input(alloc, &mut RealPlaces::make(alloc, script), most)
}

// The number of the first row by which something else is taken.
fn wrong_taken(alloc: Global) -> Result<Option<usize>, Fail> {
    let taken = Cell::new(0);
    for (number, (ahead, most, count)) in TAKEN.iter().enumerate() {
        read_some(alloc, *ahead, *most, &taken)?;
        if taken.get() != *count {
            return Ok(Some(number));
        }
    }
    Ok(None)
}

// What is left to a reader that shows ahead is what was not consumed; of any other input the whole piece was taken.
#[test]
fn no_more_is_taken_of_an_input_that_shows_ahead_than_is_consumed(
    rt: HostRuntime,
) -> Result<(), Fail> {
    none_wrong(wrong_taken(rt.alloc())?, "taken")
}

// The files `a` and `-`.
fn two_files(alloc: Global) -> Result<Vec<MemoryFile>, AllocError> {
    let mut files = Vec::new(alloc);
    for name in ["a", "-"] {
        files.push(MemoryFile {
            name: String::from_str(alloc, name)?,
            bytes: Vec::from_slice(alloc, BYTES)?,
        })?;
    }
    Ok(files)
}

// Whether files in memory serve that show so many bytes at most.
fn memory_serves(alloc: Global, files: &[MemoryFile], most: usize) -> Result<bool, Fail>
    requires { 1 ≤ most }
{
    let mut places = RealPlaces::over(alloc, MemoryOutside::make(files, most));
    let read = both_are_read(alloc, &mut places)?;
    Ok(read && places.reach(alloc, "b") == Err(PortFault::Failed))
}

#[test]
fn files_in_memory_serve(rt: HostRuntime) -> Result<(), Fail> {
    let files = two_files(rt.alloc())?;
    must(memory_serves(rt.alloc(), &files, 1)?, "1 byte")?;
    must(memory_serves(rt.alloc(), &files, 2)?, "2 bytes")?;
    must(memory_serves(rt.alloc(), &files, 3)?, "3 bytes")?;
    must(memory_serves(rt.alloc(), &files, 100)?, "100 bytes")
}

// How much is shown of an empty file.
fn shown_of_nothing<P: Places>(alloc: Global, places: &mut P) -> Result<usize, PortFault>
    requires { (P.world places.old).reached ≡ 0 }
{
    let empty = places.reach(alloc, "/dev/null")?;
    Ok(places.fill(empty)?.len())
}

// The same by a runtime that is lent, and the first place of one that is owned.
fn real_runtime(rt: HostRuntime) -> Result<(usize, u32), Fail> {
    let alloc = rt.alloc();
    let shown = shown_of_nothing(alloc, &mut RealPlaces::make(alloc, &rt))?;
    Ok((shown, RealPlaces::make(alloc, rt).reach(alloc, "-")?))
}

#[test]
fn the_real_runtime_serves(rt: HostRuntime) -> Result<(), Fail> {
    must(real_runtime(rt)? == (0, 0), "the real runtime")
}
