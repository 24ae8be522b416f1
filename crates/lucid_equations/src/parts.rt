//! The parts of a node, by their numbers, and the forms over streams as nodes.
ghost use Rattle.std.specs.Prelude.{◌≡◌, ◌≤◌, ◌∷◌, [], take, length};
ghost use Rattle.lucid_equations.specs.Rows.{read, read_word, made, parts};

use crate::rows::Node;
use lucid_tree::Form;
use std::marker::Model;

/// The numbers of a node's parts, in order, at most three. It takes no memory.
#[derive(Drop)]
pub struct PartNumbers {
    numbers: [u32; 3],
    count: usize,
}

impl Model for PartNumbers {
    ghost use Rattle.std.specs.Prelude.{ℕ, List, ◌≤◌, take};

    ghost Value = { List ℕ };

    ghost view = { λ p. take p.count p.numbers };

    ghost invariant = { λ p. p.count ≤ 3 };
}

impl PartNumbers {
    fn none() -> PartNumbers
        ensures { result ≡ [] }
    {
        PartNumbers {
            numbers: [0; 3],
            count: 0,
        }
    }

    fn one(a: u32) -> PartNumbers
        ensures { result ≡ a ∷ [] }
    {
        PartNumbers {
            numbers: [a, 0, 0],
            count: 1,
        }
    }

    fn two(a: u32, b: u32) -> PartNumbers
        ensures { result ≡ a ∷ b ∷ [] }
    {
        PartNumbers {
            numbers: [a, b, 0],
            count: 2,
        }
    }

    fn front(numbers: [u32; 3], count: usize) -> PartNumbers
        requires { count ≤ 3 }
        ensures { result ≡ take count numbers }
    {
        PartNumbers { numbers, count }
    }

    /// The numbers, in order.
    pub fn as_slice(&self) -> &[u32]
        ensures { result.now ≡ self.now }
    {
        &self.numbers[..self.count]
    }
}

impl Node {
    /// The form over streams that the node is, with its parts, where it is one.
    pub fn read(&self) -> Option<(Form, PartNumbers)>
        ensures { result ≡ read self.now }
    {
        match *self {
            Node::If { test, yes, no } => Some((Form::If, PartNumbers::front([test, yes, no], 3))),
            Node::And { left, right } => Some((Form::And, PartNumbers::two(left, right))),
            Node::Or { left, right } => Some((Form::Or, PartNumbers::two(left, right))),
            Node::First { of } => Some((Form::First, PartNumbers::one(of))),
            Node::Next { of } => Some((Form::Next, PartNumbers::one(of))),
            Node::Fby { left, right } => Some((Form::Fby, PartNumbers::two(left, right))),
            Node::Whenever { left, right } => Some((Form::Whenever, PartNumbers::two(left, right))),
            Node::Asa { left, right } => Some((Form::Asa, PartNumbers::two(left, right))),
            Node::Upon { left, right } => Some((Form::Upon, PartNumbers::two(left, right))),
            Node::Attime { left, right } => Some((Form::Attime, PartNumbers::two(left, right))),
            Node::Initial { of } => Some((Form::Initial, PartNumbers::one(of))),
            Node::Succ { of } => Some((Form::Succ, PartNumbers::one(of))),
            Node::Sby { left, right } => Some((Form::Sby, PartNumbers::two(left, right))),
            Node::Atspace { left, right } => Some((Form::Atspace, PartNumbers::two(left, right))),
            _ => None,
        }
    }

    /// The node of a form over streams with these numbers: those of its parts in order. Those past them aren't read.
    pub fn of_form(form: Form, a: u32, b: u32, c: u32) -> Node
        ensures { result ≡ made form a b c }
    {
        match form {
            Form::If => Node::If {
                test: a,
                yes: b,
                no: c,
            },
            Form::And => Node::And { left: a, right: b },
            Form::Or => Node::Or { left: a, right: b },
            Form::First => Node::First { of: a },
            Form::Next => Node::Next { of: a },
            Form::Fby => Node::Fby { left: a, right: b },
            Form::Whenever => Node::Whenever { left: a, right: b },
            Form::Asa => Node::Asa { left: a, right: b },
            Form::Upon => Node::Upon { left: a, right: b },
            Form::Attime => Node::Attime { left: a, right: b },
            Form::Initial => Node::Initial { of: a },
            Form::Succ => Node::Succ { of: a },
            Form::Sby => Node::Sby { left: a, right: b },
            Form::Atspace => Node::Atspace { left: a, right: b },
        }
    }

    /// The word of the form over streams that the node is; no bytes where it isn't one.
    pub fn form_word(&self) -> &'static [u8]
        ensures { result.now ≡ read_word (read self.now) }
    {
        match self.read() {
            Some((form, _)) => form.spelling(),
            None => b"",
        }
    }

    /// The parts of the node. The subject of a frozen time is its one part; a constant, an input, a reference and a call have none.
    pub fn parts(&self) -> PartNumbers
        ensures { result ≡ parts self.now }
    {
        match *self {
            Node::Apply { op, args } => PartNumbers::front(args, op.arity()),
            Node::Freeze { subject } => PartNumbers::one(subject),
            _ => match self.read() {
                Some((_, parts)) => parts,
                None => PartNumbers::none(),
            },
        }
    }
}
