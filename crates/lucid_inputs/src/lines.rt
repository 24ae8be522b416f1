// Lines and their elements.
ghost use Rattle.std.specs.Prelude.{◌≡◌, ◌≤◌, ◌==◌, [], IfOk, OnOk, OnErr, length, vec_len};
ghost use Rattle.lucid_value.specs.View.{plain};
ghost use Rattle.lucid_value.specs.Elements.{line_value_of};
ghost use Rattle.lucid_inputs.specs.Streams.{line_ends};
ghost use Rattle.lucid_inputs.specs.Steps.{line_with};

use lucid_value::{ReadRefusal, Value, one_element, read_value};
use std::alloc::{AllocError, Global};
use std::mem;

// A line of more bytes isn't read as a value: it is `error`.
const LONGEST_LINE: usize = 4_194_304;

// The bytes of a line without its line end. Of a longer line than is read the first byte past the limit is kept, and no more.
#[derive(Drop)]
pub(crate) struct Line {
    bytes: Vec<u8>,
    ghost open: { line_ends bytes.items ≡ 0 },
    ghost short: { length bytes.items ≤ 4194305 },
}

// An element read. The line stands for its value as long as there is no memory for that.
#[derive(Drop)]
pub(crate) enum Element {
    Read(Value),
    Unread(Line),
}

impl Line {
    ghost use Rattle.lucid_inputs.specs.View.{element_of};

    pub(crate) fn empty(alloc: Global) -> Line
        ensures { result.bytes.items ≡ [] }
    {
        Line {
            bytes: Vec::new(alloc),
        }
    }

    pub(crate) fn is_empty(&self) -> bool
        ensures { result ≡ (vec_len self.now.bytes == 0) }
    {
        self.bytes.is_empty()
    }

    // Puts more bytes behind it.
    pub(crate) fn extend(&mut self, more: &[u8]) -> Result<(), AllocError>
        requires { line_ends more.now ≡ 0 }
        ensures ok { OnOk result (self.new.bytes.items ≡ line_with self.old.bytes.items more.now) }
        ensures err { OnErr result (self.new.bytes.items ≡ self.old.bytes.items) }
    {
        let room = LONGEST_LINE + 1 - self.bytes.len();
        let kept = more.len().min(room);
        self.bytes.extend_from_slice(&more[..kept])?;
        Ok(())
    }

    // The value that it reads as.
    fn value(&self, alloc: Global) -> Result<Value, AllocError>
        ensures { IfOk result (λ v. plain v ≡ line_value_of self.now.bytes.items) }
    {
        line_value(alloc, &self.bytes)
    }

    // The element of the line that ends with `rest`. No line is then kept.
    pub(crate) fn finish(&mut self, alloc: Global, rest: &[u8]) -> Result<Element, AllocError>
        requires { line_ends rest.now ≡ 0 }
        ensures element { IfOk result (λ e. element_of e ≡ line_value_of (line_with self.old.bytes.items rest.now)) }
        ensures none { OnOk result (self.new.bytes.items ≡ []) }
        ensures err { OnErr result (self.new.bytes.items ≡ self.old.bytes.items) }
    {
        if self.bytes.is_empty()
            && let Ok(value) = line_value(alloc, rest)
        {
            return Ok(Element::Read(value));
        }
        self.extend(rest)?;
        let line = mem::replace(self, Line::empty(alloc));
        match line.value(alloc) {
            Ok(value) => Ok(Element::Read(value)),
            Err(_) => Ok(Element::Unread(line)),
        }
    }
}

impl Element {
    ghost use Rattle.lucid_inputs.specs.View.{element_of, IsRead};

    // Reads the value, if it wasn't read before.
    pub(crate) fn read(&mut self, alloc: Global) -> Result<(), AllocError>
        ensures same { element_of self.new ≡ element_of self.old }
        ensures read { OnOk result (IsRead self.new) }
    {
        if let Element::Unread(line) = self {
            let value = line.value(alloc)?;
            *self = Element::Read(value);
        }
        Ok(())
    }
}

// The value that a line reads as.
fn line_value(alloc: Global, line: &[u8]) -> Result<Value, AllocError>
    requires { line_ends line.now ≡ 0 }
    ensures { IfOk result (λ v. plain v ≡ line_value_of line.now) }
{
    // For the proof: the bytes have one element at each time.
    one_element();
    if line.len() > LONGEST_LINE {
        return Ok(Value::Fault);
    }
    match read_value(alloc, line) {
        Ok(value) => Ok(value),
        Err(ReadRefusal::NotValue) => Ok(Value::Fault),
        Err(ReadRefusal::NoMemory) => Err(AllocError),
    }
}
