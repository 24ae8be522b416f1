// What no clause says: that the calls succeed with ample memory, and that large inputs take bounded memory and little time.
ghost use Rattle.std.specs.Prelude.{◌≡◌, ◌<◌, ◌≤◌, length, IfOk};
ghost use Rattle.lucid_ports.specs.MemoryView.{memory_world};
ghost use Rattle.lucid_inputs.specs.Inputs.{AreAskable, IsAskable, streams};

use crate::told::must;
use lucid_inputs::*;
use lucid_ports::{Endless, FailAt, MemoryFile, MemoryPlaces, Narrow, Places, read_at_most};
use lucid_value::Value;
use std::alloc::{AllocError, Global};
use std::test::Fail;

// The bytes that the shipped program reads of an input at most.
const MOST: u64 = 268_435_456;

// What a call for an element answers.
#[derive(Clone, Copy, PartialEq, Eq)]
enum Seen {
    Int(i128),
    Fault,
    Eod,
    Other,
    Refused(InputFault),
}

fn answer_of(answer: Result<&Value, InputFault>) -> Seen {
    match answer {
        Ok(Value::Int(n)) => Seen::Int(*n),
        Ok(Value::Fault) => Seen::Fault,
        Ok(Value::Eod) => Seen::Eod,
        Ok(_) => Seen::Other,
        Err(fault) => Seen::Refused(fault),
    }
}

fn ask<P: Places>(inputs: &mut Inputs, places: &mut P, index: u64) -> Seen
    requires { IsAskable inputs.old 0 (P.world places.old) }
    ensures { IsAskable inputs.new 0 (P.world places.new) }
{
    answer_of(inputs.element(places, 0, index))
}

// One stream, read from the place `a`.
fn input_a<P: Places>(alloc: Global, places: &mut P, most: u64) -> Result<Inputs, Fail>
    requires { (P.world places.old).reached ≡ 0 }
    ensures { IfOk result (λ inputs. IsAskable inputs 0 (P.world places.new)) }
{
    fresh_fits();
    let place = places.reach(alloc, "a")?;
    let numbers = Vec::from_slice(alloc, &[place])?;
    let inputs = Inputs::make(alloc, numbers, most)?;
    Ok(inputs)
}

// The file `a`, and these failures to come.
fn file_a(alloc: Global, bytes: Vec<u8>, failures: &[FailAt]) -> Result<MemoryPlaces, AllocError>
    ensures { IfOk result (λ places. (memory_world places).reached ≡ 0) }
{
    let mut files = Vec::new(alloc);
    files.push(MemoryFile {
        name: String::from_str(alloc, "a")?,
        bytes,
    })?;
    Ok(MemoryPlaces::make(alloc, files, Vec::from_slice(alloc, failures)?))
}

// Zeros, a one and a line end.
fn long_number(alloc: Global, zeros: usize) -> Result<Vec<u8>, AllocError> {
    let mut bytes = vec![in alloc; b'0'; zeros]?;
    bytes.push(b'1')?;
    bytes.push(b'\n')?;
    Ok(bytes)
}

// What the file `12345` answers for an element where at most so many bytes are read, and how many are consumed.
fn limited(alloc: Global, most: u64, index: u64) -> Result<(Seen, u64), Fail> {
    let bytes = Vec::from_slice(alloc, b"12345\n")?;
    let mut places = file_a(alloc, bytes, &[])?;
    let mut inputs = input_a(alloc, &mut places, most)?;
    let answered = ask(&mut inputs, &mut places, index);
    Ok((answered, places.consumed(0)))
}

const TOO_LARGE: Seen = Seen::Refused(InputFault::TooLarge { stream: 0 });

// How many bytes are read at most, the number of an element, what is answered, and how many bytes are consumed.
static LIMITS: [(u64, u64, Seen, u64); 4] = [
    (4, 0, TOO_LARGE, 4),
    (6, 0, Seen::Int(12345), 6),
    (6, 1, TOO_LARGE, 6),
    (7, 1, Seen::Eod, 6),
];

// The first of the limits by which it goes otherwise.
fn wrong_limit(alloc: Global) -> Result<Option<u64>, Fail> {
    for (most, index, answer, consumed) in &LIMITS {
        if limited(alloc, *most, *index)? != (*answer, *consumed) {
            return Ok(Some(*most));
        }
    }
    Ok(None)
}

// What a line of zeros and a one answers.
fn of_zeros(alloc: Global, zeros: usize) -> Result<Seen, Fail> {
    let mut places = file_a(alloc, long_number(alloc, zeros)?, &[])?;
    let mut inputs = input_a(alloc, &mut places, 5_000_000)?;
    Ok(ask(&mut inputs, &mut places, 0))
}

// How much is consumed where the call at a position fails, and what is answered then for the elements 1, 1, 0 and 2.
fn failing(alloc: Global, position: u64) -> Result<(u64, [Seen; 4]), Fail> {
    let bytes = Vec::from_slice(alloc, b"7\n89")?;
    let mut places = file_a(alloc, bytes, &[FailAt { place: 0, position }])?;
    let mut inputs = input_a(alloc, &mut places, MOST)?;
    let failed = ask(&mut inputs, &mut places, 1);
    let consumed = places.consumed(0);
    let seen = [
        failed,
        ask(&mut inputs, &mut places, 1),
        ask(&mut inputs, &mut places, 0),
        ask(&mut inputs, &mut places, 2),
    ];
    Ok((consumed, seen))
}

// The first position at which a failure loses something.
fn wrong_position(alloc: Global) -> Result<Option<u64>, Fail> {
    let wanted = [
        Seen::Refused(InputFault::ReadFault),
        Seen::Int(89),
        Seen::Int(7),
        Seen::Eod,
    ];
    for position in [0u64, 1, 3, 4] {
        if failing(alloc, position)? != (position, wanted) {
            return Ok(Some(position));
        }
    }
    Ok(None)
}

#[test]
fn limits_and_failures(rt: HostRuntime) -> Result<(), Fail> {
    let alloc = rt.alloc();
    let zeros = of_zeros(alloc, 4_194_303)? == Seen::Int(1);
    must(zeros, "the longest line that is read")?;
    let more = of_zeros(alloc, 4_194_304)? == Seen::Fault;
    must(more, "a line that is too long")?;
    must(wrong_limit(alloc)?.is_none(), "limits")?;
    must(wrong_position(alloc)?.is_none(), "failures")
}

fn look_up(inputs: &Inputs, index: u64) -> Option<Seen>
    requires { 0 < length (streams inputs.now) }
{
    let value = inputs.known(0, index)?;
    Some(answer_of(Ok(value)))
}

// Of the lines 7 and 89 the second is asked for, and then what lies past it.
fn look_up_lines<P: Places>(inputs: &mut Inputs, places: &mut P) -> [Option<Seen>; 8]
    requires { IsAskable inputs.old 0 (P.world places.old) }
{
    [
        look_up(inputs, 0),
        Some(ask(inputs, places, 1)),
        look_up(inputs, 0),
        look_up(inputs, 1),
        look_up(inputs, 2),
        Some(ask(inputs, places, 2)),
        look_up(inputs, 2),
        look_up(inputs, 3),
    ]
}

fn known(alloc: Global) -> Result<[Option<Seen>; 8], Fail> {
    let bytes = Vec::from_slice(alloc, b"7\n89\n")?;
    let mut places = file_a(alloc, bytes, &[])?;
    let mut inputs = input_a(alloc, &mut places, MOST)?;
    Ok(look_up_lines(&mut inputs, &mut places))
}

// Whether an element is answered so, and this is left behind it, where so many bytes are shown at a time.
fn leaves(alloc: Global, most: usize, index: u64, answer: Seen, left: &[u8]) -> Result<bool, Fail>
    requires { 1 ≤ most }
{
    let bytes = Vec::from_slice(alloc, b"12\n\n-3 \nx y\n45")?;
    let mut places = Narrow::make(file_a(alloc, bytes, &[])?, most);
    let mut inputs = input_a(alloc, &mut places, MOST)?;
    let answered = ask(&mut inputs, &mut places, index);
    let rest = read_at_most(alloc, &mut places, 0, 100)?;
    Ok(answered == answer && rest.as_slice() == left)
}

// The number of an element, what is answered, and what is left.
static PIECES: [(u64, Seen, &[u8]); 6] = [
    (0, Seen::Int(12), b"\n-3 \nx y\n45"),
    (1, Seen::Fault, b"-3 \nx y\n45"),
    (2, Seen::Int(-3), b"x y\n45"),
    (3, Seen::Fault, b"45"),
    (4, Seen::Int(45), b""),
    (5, Seen::Eod, b""),
];

// The first element that is answered otherwise where so many bytes are shown at a time.
fn wrong_element(alloc: Global, most: usize) -> Result<Option<u64>, Fail>
    requires { 1 ≤ most }
{
    for (index, answer, left) in &PIECES {
        if !leaves(alloc, most, *index, *answer, *left)? {
            return Ok(Some(*index));
        }
    }
    Ok(None)
}

// What an input without end answers, and its next byte. Whole turns of the piece are consumed: it begins anew.
fn endless(alloc: Global) -> Result<(Seen, Option<u8>), Fail> {
    let mut piece = vec![in alloc; b'1'; 65_536]?;
    if let Some(first) = piece.get_mut(0) {
        *first = b'2';
    }
    if piece.is_empty() {
        return Err(Fail::new("an empty piece"));
    }
    let mut places = Endless::make(alloc, Vec::new(alloc), piece);
    let mut inputs = input_a(alloc, &mut places, MOST)?;
    let answer = ask(&mut inputs, &mut places, 0);
    Ok((answer, places.fill(0)?.first().copied()))
}

#[test]
fn what_is_read_and_known(rt: HostRuntime) -> Result<(), Fail> {
    let alloc = rt.alloc();
    let wanted = [
        None,
        Some(Seen::Int(89)),
        Some(Seen::Int(7)),
        Some(Seen::Int(89)),
        None,
        Some(Seen::Eod),
        Some(Seen::Eod),
        Some(Seen::Eod),
    ];
    must(known(alloc)? == wanted, "what is known")?;
    for (most, name) in [(1usize, "1"), (2, "2"), (7, "7"), (100, "100")] {
        must(wrong_element(alloc, most)?.is_none(), name)?;
    }
    must(
        endless(alloc)? == (TOO_LARGE, Some(b'2')),
        "an input without end",
    )
}

// Lines with a seven each.
fn lines_of_seven(alloc: Global, count: usize) -> Result<Vec<u8>, AllocError> {
    let mut bytes = Vec::new(alloc);
    for _ in 0..count {
        bytes.extend_from_slice(b"7\n")?;
    }
    Ok(bytes)
}

// How many elements from the first on are seven, of at most `count`.
fn sevens<P: Places>(inputs: &mut Inputs, places: &mut P, count: u64) -> u64
    requires { IsAskable inputs.old 0 (P.world places.old) }
    ensures { IsAskable inputs.new 0 (P.world places.new) }
{
    for index in 0..count {
        if ask(inputs, places, index) != Seen::Int(7) {
            return index;
        }
    }
    count
}

// How many of a million lines are seven, and what comes behind them.
fn million(alloc: Global) -> Result<(u64, Seen), Fail> {
    let mut places = file_a(alloc, lines_of_seven(alloc, 1_000_000)?, &[])?;
    let mut inputs = input_a(alloc, &mut places, MOST)?;
    let sevens = sevens(&mut inputs, &mut places, 2_000_000);
    Ok((sevens, ask(&mut inputs, &mut places, 1_000_000)))
}

#[test]
fn a_million_lines(rt: HostRuntime) -> Result<(), Fail> {
    must(
        million(rt.alloc())? == (1_000_000, Seen::Eod),
        "a million lines",
    )
}

// One of two streams, read from the places `a` and `b`.
#[derive(Clone, Copy)]
enum Side {
    A,
    B,
}

fn number(side: Side) -> u32
    ensures { result < 2 }
{
    match side {
        Side::A => 0,
        Side::B => 1,
    }
}

// An element that is asked for, what is answered, and how much of each place is consumed then.
#[derive(Clone, Copy)]
struct Turn {
    side: Side,
    index: u64,
    answer: Seen,
    consumed: (u64, u64),
}

fn asked(side: Side, index: u64, answer: Seen, consumed: (u64, u64)) -> Turn {
    Turn {
        side,
        index,
        answer,
        consumed,
    }
}

// The files `a`, of three whole lines, and `b`, whose last line has no line end.
fn two_files(alloc: Global) -> Result<MemoryPlaces, AllocError>
    ensures { IfOk result (λ places. (memory_world places).reached ≡ 0) }
{
    let mut files = Vec::new(alloc);
    files.push(MemoryFile {
        name: String::from_str(alloc, "a")?,
        bytes: Vec::from_slice(alloc, b"1\n22\n333\n")?,
    })?;
    files.push(MemoryFile {
        name: String::from_str(alloc, "b")?,
        bytes: Vec::from_slice(alloc, b"-4\nx y\n5")?,
    })?;
    Ok(MemoryPlaces::make(alloc, files, Vec::new(alloc)))
}

// Two streams, read from the places `a` and `b`.
fn input_both<P: Places>(alloc: Global, places: &mut P) -> Result<Inputs, Fail>
    requires { (P.world places.old).reached ≡ 0 }
    ensures askable { IfOk result (λ inputs. AreAskable inputs (P.world places.new)) }
    ensures count { IfOk result (λ inputs. length (streams inputs) ≡ 2) }
    ensures reached { IfOk result (λ _. (P.world places.new).reached ≡ 2) }
{
    fresh_fits();
    let a = places.reach(alloc, "a")?;
    let b = places.reach(alloc, "b")?;
    let numbers = Vec::from_slice(alloc, &[a, b])?;
    let inputs = Inputs::make(alloc, numbers, MOST)?;
    Ok(inputs)
}

fn ask_side<P: Places>(inputs: &mut Inputs, places: &mut P, side: Side, index: u64) -> Seen
    requires askable { AreAskable inputs.old (P.world places.old) }
    requires count { length (streams inputs.old) ≡ 2 }
    ensures askable { AreAskable inputs.new (P.world places.new) }
    ensures count { length (streams inputs.new) ≡ 2 }
    ensures reached { (P.world places.new).reached ≡ (P.world places.old).reached }
{
    asked_again();
    answer_of(inputs.element(places, number(side), index))
}

// The number of the first turn that goes otherwise.
fn first_wrong(inputs: &mut Inputs, places: &mut MemoryPlaces, turns: &[Turn]) -> Option<usize>
    requires askable { AreAskable inputs.old (memory_world places.old) }
    requires count { length (streams inputs.old) ≡ 2 }
    requires reached { (memory_world places.old).reached ≡ 2 }
{
    for (number, turn) in turns.iter().enumerate() {
        let answer = ask_side(inputs, places, turn.side, turn.index);
        if answer != turn.answer || (places.consumed(0), places.consumed(1)) != turn.consumed {
            return Some(number);
        }
    }
    None
}

// How many inputs there are, and the number of the first turn that goes otherwise.
fn in_turns(alloc: Global, turns: &[Turn]) -> Result<(u64, Option<usize>), Fail> {
    let mut places = two_files(alloc)?;
    let mut inputs = input_both(alloc, &mut places)?;
    let count = inputs.count();
    Ok((count, first_wrong(&mut inputs, &mut places, turns)))
}

#[test]
fn two_streams_in_turns(rt: HostRuntime) -> Result<(), Fail> {
    for (row, turns) in [
        (
            "line by line",
            [
                asked(Side::A, 0, Seen::Int(1), (2, 0)),
                asked(Side::B, 0, Seen::Int(-4), (2, 3)),
                asked(Side::A, 1, Seen::Int(22), (5, 3)),
                asked(Side::B, 1, Seen::Fault, (5, 7)),
                asked(Side::A, 2, Seen::Int(333), (9, 7)),
                asked(Side::B, 2, Seen::Int(5), (9, 8)),
            ],
        ),
        (
            "the second ahead",
            [
                asked(Side::B, 1, Seen::Fault, (0, 7)),
                asked(Side::A, 0, Seen::Int(1), (2, 7)),
                asked(Side::B, 3, Seen::Eod, (2, 8)),
                asked(Side::A, 2, Seen::Int(333), (9, 8)),
                asked(Side::B, 0, Seen::Int(-4), (9, 8)),
                asked(Side::A, 1, Seen::Int(22), (9, 8)),
            ],
        ),
        (
            "the first to its end",
            [
                asked(Side::A, 3, Seen::Eod, (9, 0)),
                asked(Side::B, 0, Seen::Int(-4), (9, 3)),
                asked(Side::A, 0, Seen::Int(1), (9, 3)),
                asked(Side::B, 2, Seen::Int(5), (9, 8)),
                asked(Side::A, 2, Seen::Int(333), (9, 8)),
                asked(Side::B, 1, Seen::Fault, (9, 8)),
            ],
        ),
    ] {
        must(in_turns(rt.alloc(), turns.as_slice())? == (2, None), row)?;
    }
    Ok(())
}
