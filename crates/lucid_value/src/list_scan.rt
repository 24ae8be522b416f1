//! The scan of the bytes of a list, with a stack of the lists that are open.
ghost use Rattle.std.specs.Prelude.{◌≡◌, ◌+◌, ◌≤◌, IfOk, IsTrue};
ghost use Rattle.lucid_value.specs.Plain.{no_items, may_be_held, weights, nestings};
ghost use Rattle.std.specs.Option.{option_map};
ghost use Rattle.lucid_value.specs.View.{plain};
ghost use Rattle.lucid_value.specs.Lists.{fits, in_front};
ghost use Rattle.lucid_value.specs.ListScan.{turned, put, put_some, begin, go_on, read_atom, read_text, open_list, close_list, end_list, step, start, state_of, is_done, opened, Went, Goes, IsScanned, is_atom_byte, atom_value, text_value};
ghost use Rattle.lucid_value.specs.Reading.{IsFront};

use crate::atoms::{read_atom, read_text};
use crate::bytes::is_blank;
use crate::{Link, List, MAX_NESTING, MAX_WEIGHT, Value};
use lucid_lists::Stack;
use std::alloc::{AllocError, Global};

/// What the scan stands at.
#[derive(Clone, Copy)]
enum Focus {
    /// An item may begin here: a blank or the `[%` stands in front.
    Ready,
    /// An item ends here.
    Full,
    /// A constant, a word or an integer is read.
    Atom,
    /// A string is read.
    Quoted,
    /// A `[` was read.
    Opening,
    /// A `%` was read.
    Closing,
    /// The outermost list is whole.
    Done,
}

/// What has been read, and what is open.
#[derive(Drop)]
struct Scan {
    focus: Focus,
    /// The bytes of the constant, the word, the integer or the string that is read.
    pending: Vec<u8>,
    /// The items of the innermost open list, the last one in front.
    items: List,
    /// The items of the lists around it.
    outer: Stack<List>,
}

/// A list at the front of bytes, and how many of them it takes.
#[derive(Drop)]
pub struct Front {
    pub list: List,
    pub len: usize,
}

fn may_be_held(value: &Value) -> bool
    ensures { result ≡ may_be_held (plain value.now) }
{
    match value {
        Value::Eod | Value::Fault => false,
        _ => true,
    }
}

// The list with the item in front is within the limits.
fn fits_in_front(item: &Value, list: &List) -> bool
    ensures { result ≡ fits (in_front (plain item.now) list.now) }
{
    item.weight() + list.weight() <= MAX_WEIGHT
        && (item.nesting() + 1).max(list.nesting()) <= MAX_NESTING
}

fn is_atom_byte(byte: u8) -> bool
    ensures { result ≡ is_atom_byte byte }
{
    byte.is_ascii_alphanumeric() || byte == b'-'
}

// The items the other way round.
fn turn(alloc: Global, list: &List) -> Result<List, AllocError>
    ensures { IfOk result (λ list_turned. list_turned ≡ turned list.now no_items) }
{
    list.keeps_rules();
    let mut made = List::empty(alloc);
    let mut rest = list;
    while let Link::More(cell) = &rest.top {
        rest.keeps_rules();
        made = List::with(alloc, cell.item.copy(alloc)?, made)?;
        rest = &cell.rest;
    }
    Ok(made)
}

impl Scan {
    fn new(alloc: Global) -> Scan
        ensures { state_of result ≡ start }
    {
        Scan {
            focus: Focus::Ready,
            pending: Vec::new(alloc),
            items: List::empty(alloc),
            outer: Stack::new(alloc),
        }
    }

    // The value becomes the next item, or the scan refuses it.
    #[tactic(auto, unfolding(crate::specs::ListScan::put))]
    fn put(&mut self, alloc: Global, value: Value) -> Result<bool, AllocError>
        ensures { Goes result (state_of self.new) (put (plain value) self.old.pending.items self.old.items self.old.outer) }
    {
        if !may_be_held(&value) || !fits_in_front(&value, &self.items) {
            return Ok(false);
        }
        let items = List::with(alloc, value, self.items.copy()?)?;
        self.items = items;
        self.focus = Focus::Full;
        Ok(true)
    }

    // The value that was read becomes the next item.
    fn put_read(&mut self, alloc: Global, read: Option<Value>) -> Result<bool, AllocError>
        ensures { Goes result (state_of self.new) (put_some (option_map plain read) self.old.pending.items self.old.items self.old.outer) }
    {
        match read {
            Some(value) => self.put(alloc, value),
            None => Ok(false),
        }
    }

    // A byte behind an item.
    fn go_on(&mut self, byte: u8) -> bool
        ensures { Went result (state_of self.new) (go_on byte self.old.pending.items self.old.items self.old.outer) }
    {
        if is_blank(byte) {
            self.focus = Focus::Ready;
            true
        } else if byte == b'%' {
            self.focus = Focus::Closing;
            true
        } else {
            false
        }
    }

    // A byte where an item may begin.
    fn begin(&mut self, byte: u8) -> Result<bool, AllocError>
        ensures { Goes result (state_of self.new) (begin byte self.old.pending.items self.old.items self.old.outer) }
    {
        if byte == b'[' {
            self.focus = Focus::Opening;
            return Ok(true);
        }
        if byte == b'`' {
            self.focus = Focus::Quoted;
            self.pending.clear();
            return Ok(true);
        }
        if is_atom_byte(byte) {
            self.focus = Focus::Atom;
            self.pending.clear();
            self.pending.push(byte)?;
            return Ok(true);
        }
        Ok(self.go_on(byte))
    }

    // A byte behind bytes of a constant, a word or an integer.
    fn read_atom(&mut self, alloc: Global, byte: u8) -> Result<bool, AllocError>
        requires { self.old.focus ≡ Focus.Atom }
        ensures { Goes result (state_of self.new) (read_atom byte self.old.pending.items self.old.items self.old.outer) }
    {
        if is_atom_byte(byte) {
            self.pending.push(byte)?;
            return Ok(true);
        }
        let read = read_atom(alloc, self.pending.as_slice())?;
        if !self.put_read(alloc, read)? {
            return Ok(false);
        }
        Ok(self.go_on(byte))
    }

    // A byte of a string, or the quote at its end.
    fn read_text(&mut self, alloc: Global, byte: u8) -> Result<bool, AllocError>
        requires { self.old.focus ≡ Focus.Quoted }
        ensures { Goes result (state_of self.new) (read_text byte self.old.pending.items self.old.items self.old.outer) }
    {
        if byte != b'\'' {
            self.pending.push(byte)?;
            return Ok(true);
        }
        let read = read_text(alloc, self.pending.as_slice())?;
        self.put_read(alloc, read)
    }

    // The second byte of `[%`.
    fn open_list(&mut self, alloc: Global, byte: u8) -> Result<bool, AllocError>
        ensures { Goes result (state_of self.new) (open_list byte self.old.pending.items self.old.items self.old.outer) }
    {
        if byte != b'%' || self.outer.len() >= MAX_NESTING as usize - 1 {
            return Ok(false);
        }
        self.outer.push(self.items.copy()?)?;
        self.items = List::empty(alloc);
        self.focus = Focus::Ready;
        Ok(true)
    }

    // The innermost list is whole.
    fn close_list(&mut self, alloc: Global) -> Result<bool, AllocError>
        ensures { Goes result (state_of self.new) (close_list self.old.pending.items self.old.items self.old.outer) }
    {
        let list = turn(alloc, &self.items)?;
        match self.outer.pop() {
            None => {
                self.items = list;
                self.focus = Focus::Done;
                Ok(true)
            }
            Some(items) => {
                self.items = items;
                self.put(alloc, Value::List(list))
            }
        }
    }

    // The outermost list is whole.
    fn is_done(&self) -> bool
        ensures { result ≡ is_done (state_of self.now) }
    {
        matches!(&self.focus, Focus::Done)
    }

    // One byte.
    fn step(&mut self, alloc: Global, byte: u8) -> Result<bool, AllocError>
        ensures { Goes result (state_of self.new) (step byte (state_of self.old)) }
    {
        match self.focus {
            Focus::Ready => self.begin(byte),
            Focus::Full => Ok(self.go_on(byte)),
            Focus::Atom => self.read_atom(alloc, byte),
            Focus::Quoted => self.read_text(alloc, byte),
            Focus::Opening => self.open_list(alloc, byte),
            Focus::Closing => {
                if byte != b']' {
                    return Ok(false);
                }
                self.close_list(alloc)
            }
            Focus::Done => Ok(false),
        }
    }
}

/// The list whose bytes stand in front of these, behind its `[%`.
#[tactic(auto, using(crate::proofs::Fronts::never_end))]
pub fn scan_list(alloc: Global, tail: &[u8]) -> Result<Option<Front>, AllocError>
    ensures { IfOk result (λ found. IsScanned found tail.now) }
{
    let mut scan = Scan::new(alloc);
    for (i, byte) in tail.iter().enumerate() {
        if !scan.step(alloc, *byte)? {
            return Ok(None);
        }
        if scan.is_done() {
            let Scan { items, .. } = scan;
            return Ok(Some(Front {
                list: items,
                len: i + 1,
            }));
        }
    }
    Ok(None)
}

/// How many bytes the list takes that stands in front of these, from its `[%` to its `%]`; `None` where none does.
#[tactic(auto, using(crate::proofs::Fronts::front_found))]
pub fn list_front(alloc: Global, bytes: &[u8]) -> Result<Option<usize>, AllocError>
    ensures { IfOk result (λ front. IsFront front bytes.now) }
{
    let Some(tail) = opened(bytes) else {
        return Ok(None);
    };
    match scan_list(alloc, tail)? {
        Some(front) => {
            front.list.keeps_rules();
            Ok(Some(front.len + 2))
        }
        None => Ok(None),
    }
}

/// The bytes behind a `[%` in front.
pub fn opened(bytes: &[u8]) -> Option<&[u8]>
    ensures { option_map (λ tail. tail.now) result ≡ opened bytes.now }
{
    match bytes {
        [first, second, tail @ ..] => {
            if *first == b'[' && *second == b'%' {
                Some(tail)
            } else {
                None
            }
        }
        _ => None,
    }
}
