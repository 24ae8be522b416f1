//! A row: what the command is asked, over which files, and all that it does.
ghost use Rattle.std.specs.Prelude.{◌≡◌, ◌≤◌, IfOk, OnOk};
ghost use Rattle.lucid_ports.specs.MemoryView.{memory_world};

use crate::told::word_list;
use lucid_ports::{FailAt, MemoryFile, MemoryPlaces, MemorySink, Places};
use lucid_report::Status;
use lucid_top::lucid;
use std::alloc::{AllocError, Global};
use std::test::Fail;

/// A row. The file `p` has the source.
#[derive(Clone, Copy)]
pub(crate) struct Row<'a> {
    /// By which it is told where it fails, beside its words and its source.
    pub(crate) name: &'a str,
    /// The words, parted by blanks.
    pub(crate) words: &'a str,
    pub(crate) source: &'a str,
    /// The files of the inputs by their names, and their bytes.
    pub(crate) inputs: &'a [(&'a str, &'a str)],
    /// The reads that fail.
    pub(crate) reads: &'a [FailAt],
    /// The writes that fail, each counted from 0.
    pub(crate) writes: &'a [u64],
    pub(crate) status: Status,
    pub(crate) out: &'a str,
    pub(crate) report: &'a str,
    /// The bytes consumed of each input that is reached, where the row says so.
    pub(crate) taken: Option<&'a [u64]>,
}

/// A way to run a row's program.
#[derive(Clone, Copy, Debug)]
pub(crate) enum Way {
    /// By its source.
    Source,
    /// By its flat form.
    Flat,
    /// By its source, with its subject as the only column where that is a name.
    Alone,
}

/// A run of `p` that is done.
pub(crate) const DONE: Row<'static> = Row {
    name: "",
    words: "p",
    source: "",
    inputs: &[],
    reads: &[],
    writes: &[],
    status: Status::Done,
    out: "",
    report: "",
    taken: None,
};

/// A source that is refused.
pub(crate) const REFUSED: Row<'static> = Row {
    status: Status::Refused,
    ..DONE
};

/// Row of words that are refused.
pub(crate) const USAGE: Row<'static> = Row {
    status: Status::Usage,
    report: "usage: lucid [--count N] [--depth N] [--policy keep|none|age|last] [--age K] [--room N] [--stats] [--print] [--columns LIST] [--cycles] [--why T] [--check FILE] [--flat] [--from-flat] PROGRAM [NAME=FILE]... | lucid --make N\n",
    ..DONE
};

/// A run that ends at a value that is too deep.
pub(crate) const TOO_DEEP: Row<'static> = Row {
    status: Status::TooDeep,
    ..DONE
};

/// What a call of the command answered, and the sinks to which it wrote and reported.
#[derive(Drop)]
pub(crate) struct Answer {
    pub(crate) status: Status,
    pub(crate) out: MemorySink,
    pub(crate) report: MemorySink,
}

impl Answer {
    /// Whether these are its status, what it wrote, and what it reported.
    pub(crate) fn tells(&self, status: Status, out: &str, report: &str) -> bool {
        self.status == status
            && self.out.written() == out.as_bytes()
            && self.report.written() == report.as_bytes()
    }
}

/// Calls the command. A write takes at most `most` bytes of its piece, and the listed ones fail.
pub(crate) fn call<P: Places>(
    alloc: Global,
    words: &str,
    places: &mut P,
    most: usize,
    writes: &[u64],
) -> Result<Answer, Fail>
    requires none { (P.world places.old).reached ≡ 0 }
    requires some { 1 ≤ most }
    ensures few { OnOk result ((P.world places.new).reached ≤ 1048578) }
{
    let list = word_list(alloc, words)?;
    let mut out = MemorySink::make(alloc, most, Vec::from_slice(alloc, writes)?);
    let mut report = MemorySink::make(alloc, 100, Vec::new(alloc));
    let status = lucid(alloc, &list, places, &mut out, &mut report);
    Ok(Answer {
        status,
        out,
        report,
    })
}

// A file of that name.
fn file(alloc: Global, name: &str, bytes: &[u8]) -> Result<MemoryFile, AllocError> {
    Ok(MemoryFile {
        name: String::from_str(alloc, name)?,
        bytes: Vec::from_slice(alloc, bytes)?,
    })
}

/// The file `p` with the source, and the files of the inputs; and the reads that fail.
pub(crate) fn places_of(
    alloc: Global,
    source: &[u8],
    inputs: &[(&str, &str)],
    reads: &[FailAt],
) -> Result<MemoryPlaces, AllocError>
    ensures { IfOk result (λ places. (memory_world places).reached ≡ 0) }
{
    let mut files = Vec::new(alloc);
    files.push(file(alloc, "p", source)?)?;
    for (name, bytes) in inputs {
        files.push(file(alloc, name, bytes.as_bytes())?)?;
    }
    Ok(MemoryPlaces::make(alloc, files, Vec::from_slice(alloc, reads)?))
}

/// The bytes consumed of each input that was reached, the source's place being the first.
pub(crate) fn taken(alloc: Global, places: &mut MemoryPlaces) -> Result<Vec<u64>, Fail>
    requires { (memory_world places.old).reached ≤ 1048578 }
{
    let mut taken = Vec::new(alloc);
    let reached = places.reach(alloc, "p")?;
    for place in 1..reached {
        taken.push(places.consumed(place))?;
    }
    Ok(taken)
}

// What the command answers that is asked for the flat form of a source.
fn flat_form(alloc: Global, source: &str) -> Result<Answer, Fail> {
    let mut places = places_of(alloc, source.as_bytes(), &[], &[])?;
    call(alloc, "--flat p", &mut places, 100, &[])
}

// Whether the command answered, wrote and reported what the row says.
fn is_as_told(answer: &Answer, row: &Row) -> bool {
    answer.tells(row.status, row.out, row.report)
}

// Whether what was consumed is what the row says, where it says so.
fn takes(alloc: Global, places: &mut MemoryPlaces, row: &Row) -> Result<bool, Fail>
    requires { (memory_world places.old).reached ≤ 1048578 }
{
    match row.taken {
        Some(wanted) => Ok(taken(alloc, places)?.as_slice() == wanted),
        None => Ok(true),
    }
}

// Whether the command that is asked by these words, of this text as `p`, does what the row says.
fn does_so(alloc: Global, words: &str, text: &[u8], row: &Row) -> Result<bool, Fail> {
    let mut places = places_of(alloc, text, row.inputs, row.reads)?;
    let answer = call(alloc, words, &mut places, 100, row.writes)?;
    Ok(is_as_told(&answer, row) && takes(alloc, &mut places, row)?)
}

// The call does what the row says.
fn passes(alloc: Global, row: &Row) -> Result<bool, Fail> {
    does_so(alloc, row.words, row.source.as_bytes(), row)
}

// The flat form of the row's program runs as the program does.
fn passes_flat(alloc: Global, row: &Row) -> Result<bool, Fail> {
    let flat = flat_form(alloc, row.source)?;
    let words = format!(in alloc; "--from-flat {}", row.words)?;
    let does = does_so(alloc, &words, flat.out.written(), row)?;
    Ok(does && flat.status == Status::Done)
}

// The name that is the subject of a source, where it begins with a name and `where`.
fn subject_of(source: &str) -> Option<&str> {
    let mut words = source.split_whitespace();
    let name = words.next()?;
    let is_name = name
        .as_bytes()
        .iter()
        .all(|byte| byte.is_ascii_alphanumeric());
    if is_name && words.next()? == "where" {
        Some(name)
    } else {
        None
    }
}

// The program does the same by its subject as the only column.
fn passes_alone(alloc: Global, row: &Row) -> Result<bool, Fail> {
    let Some(name) = subject_of(row.source) else {
        return Ok(true);
    };
    let words = format!(in alloc; "--columns {name} {}", row.words)?;
    does_so(alloc, &words, row.source.as_bytes(), row)
}

/// The row passes by a way.
pub(crate) fn passes_by(alloc: Global, row: &Row, way: Way) -> Result<(), Fail> {
    let passed = match way {
        Way::Source => passes(alloc, row)?,
        Way::Flat => passes_flat(alloc, row)?,
        Way::Alone => passes_alone(alloc, row)?,
    };
    if passed {
        return Ok(());
    }
    let (name, words, source) = (row.name, row.words, row.source);
    Err(Fail::new(format_args!("{name} {way:?} {words}: {source}")))
}

pub(crate) fn each_passes_by(alloc: Global, rows: &[Row], way: Way) -> Result<(), Fail> {
    for row in rows {
        passes_by(alloc, row, way)?;
    }
    Ok(())
}
