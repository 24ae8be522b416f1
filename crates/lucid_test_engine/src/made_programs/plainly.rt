//! What the evaluator by plain recursion gives of a program over two inputs.
ghost use Rattle.lucid_tree.specs.WellMade.{IsWellMade};

use crate::trials::{TOO_DEEP, value_text};
use lucid_scope::Scoped;
use lucid_test_programs::{Stream, approximation};
use lucid_tree::Tree;
use lucid_value::{Name, ReadRefusal, Value, read_value};
use std::alloc::Global;
use std::test::Fail;

/// The times and spaces that are demanded, in this order.
pub static POINTS: [(u32, u32); 5] = [(0, 0), (1, 0), (2, 0), (1, 1), (3, 0)];

// No input has more lines.
const ALL: usize = 8;

// How much greater the limit is that gives what a policy that holds values may give beyond the limit.
const MORE: u32 = 3;

/// The bytes of the inputs a and b. Each line ends.
#[derive(Clone, Copy)]
pub struct Files {
    pub a: &'static str,
    pub b: &'static str,
}

/// What the plain evaluator gives: the texts at the points by the approximations of the limit and of a greater one; and how many bytes of
/// each input the values at so many of the points, the first ones, need.
#[derive(Drop)]
pub struct Plainly {
    pub texts: Vec<String>,
    pub greater: Vec<String>,
    pub first: usize,
    pub needed: Vec<u64>,
}

// The element that a line is.
fn element_of(alloc: Global, line: &str) -> Result<Value, Fail> {
    match read_value(alloc, line.as_bytes()) {
        Ok(value) => Ok(value),
        Err(ReadRefusal::NotValue) => Ok(Value::Fault),
        Err(refusal) => Err(Fail::from(refusal)),
    }
}

// The elements of an input by its first lines, at most so many.
fn elements_of(alloc: Global, bytes: &str, most: usize) -> Result<Vec<Value>, Fail> {
    let mut elements = Vec::new(alloc);
    for line in bytes.lines().take(most) {
        elements.push(element_of(alloc, line)?)?;
    }
    Ok(elements)
}

// The text at a point by the approximation of a limit.
fn text_of(
    alloc: Global,
    streams: &[Stream],
    tree: &Tree,
    point: (u32, u32),
    limit: u32,
) -> Result<String, Fail>
    requires { IsWellMade tree.now }
{
    let (time, space) = point;
    let value = approximation(
        alloc,
        streams,
        tree,
        u64::from(time),
        u64::from(space),
        limit,
    )?;
    match value {
        Some(value) => value_text(alloc, &value),
        None => Ok(String::from_str(alloc, TOO_DEEP)?),
    }
}

// The texts at the first points by the approximation of a limit.
fn texts_of(
    alloc: Global,
    streams: &[Stream],
    tree: &Tree,
    points: usize,
    limit: u32,
) -> Result<Vec<String>, Fail>
    requires { IsWellMade tree.now }
{
    let mut texts = Vec::new(alloc);
    for point in POINTS.iter().take(points) {
        texts.push(text_of(alloc, streams, tree, *point, limit)?)?;
    }
    Ok(texts)
}

// The number of bytes of the first lines, at most so many.
fn bytes_of_lines(bytes: &str, most: usize) -> u64 {
    let mut count = 0_u64;
    for line in bytes.lines().take(most) {
        count = count.saturating_add(line.len() as u64).saturating_add(1);
    }
    count
}

// How many texts stand before the first that is the end of data or no value's. There are none where the source asks whether a value is the
// end of data or an error.
fn before_end(source: &str, texts: &[String]) -> usize {
    if source.contains("iseod") || source.contains("iserror") {
        return 0;
    }
    texts
        .iter()
        .take_while(|text| text.as_str() != TOO_DEEP && text.as_str() != "eod")
        .count()
}

impl Files {
    fn file(self, name: &Name) -> &'static str {
        if name.bytes() == b"a".as_slice() {
            self.a
        } else {
            self.b
        }
    }

    // An input, by its first lines.
    fn stream(self, alloc: Global, name: &[u8], most: usize) -> Result<Stream, Fail> {
        let name = Name::make(alloc, name)?;
        let elements = elements_of(alloc, self.file(&name), most)?;
        Ok(Stream { name, elements })
    }

    // The two inputs, by the first lines of each.
    fn streams(self, alloc: Global, a: usize, b: usize) -> Result<Vec<Stream>, Fail> {
        let mut streams = Vec::new(alloc);
        streams.push(self.stream(alloc, b"a", a)?)?;
        streams.push(self.stream(alloc, b"b", b)?)?;
        Ok(streams)
    }

    // The two inputs, of one of them the first lines alone.
    fn cut(self, alloc: Global, input: &Name, most: usize) -> Result<Vec<Stream>, Fail> {
        if input.bytes() == b"a".as_slice() {
            self.streams(alloc, most, ALL)
        } else {
            self.streams(alloc, ALL, most)
        }
    }

    // How many bytes of an input the values at the first points need: those of the lines without which one of them would be the end of
    // data.
    fn bytes_needed(
        self,
        alloc: Global,
        tree: &Tree,
        input: &Name,
        texts: &[String],
        limit: u32,
    ) -> Result<u64, Fail>
        requires { IsWellMade tree.now }
    {
        for lines in 0..=ALL {
            let streams = self.cut(alloc, input, lines)?;
            let cut = texts_of(alloc, &streams, tree, texts.len(), limit)?;
            if cut.as_slice() == texts {
                return Ok(bytes_of_lines(self.file(input), lines));
            }
        }
        Err(Fail::new("with all lines the texts are others"))
    }

    // How many bytes of each input the values at the first points need.
    fn needed(
        self,
        alloc: Global,
        scoped: &Scoped,
        texts: &[String],
        limit: u32,
    ) -> Result<Vec<u64>, Fail> {
        let mut needed = Vec::new(alloc);
        for input in scoped.inputs() {
            needed.push(self.bytes_needed(alloc, scoped.tree(), input, texts, limit)?)?;
        }
        Ok(needed)
    }

    // The texts at all points by the approximation of a limit.
    fn texts(self, alloc: Global, scoped: &Scoped, limit: u32) -> Result<Vec<String>, Fail> {
        let streams = self.streams(alloc, ALL, ALL)?;
        texts_of(alloc, &streams, scoped.tree(), POINTS.len(), limit)
    }

    /// What the plain evaluator gives of a source.
    pub fn plainly(
        self,
        alloc: Global,
        source: &str,
        scoped: &Scoped,
        limit: u32,
    ) -> Result<Plainly, Fail> {
        let texts = self.texts(alloc, scoped, limit)?;
        let greater = self.texts(alloc, scoped, limit.saturating_add(MORE))?;
        let first = before_end(source, &texts);
        let before = texts.get(..first).unwrap_or(&texts);
        let needed = self.needed(alloc, scoped, before, limit)?;
        Ok(Plainly {
            texts,
            greater,
            first,
            needed,
        })
    }
}
