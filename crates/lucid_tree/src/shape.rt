//! What a node is: a form with its parts, a name, a call, or a block.
ghost use Rattle.std.specs.Prelude.{◌≡◌};
ghost use Rattle.lucid_tree.specs.Parts.{operands};
ghost use Rattle.lucid_tree.specs.Shape.{shape_tree, FitsShape};
ghost use Rattle.lucid_tree.specs.Size.{count};
ghost use Rattle.lucid_tree.specs.Tree.{no_trees, tree};
ghost use Rattle.lucid_tree.specs.View.{tree_of};

use crate::Form;
use crate::parts::Parts;
use crate::tree::{Defs, Kind, Tree, Trees};
use lucid_ops::Op;
use lucid_value::{Name, Value};

/// What a form is, apart from its parts.
#[derive(Clone, Copy)]
pub enum Head<'a> {
    /// A constant.
    Const(&'a Value),
    /// A data operator, with the number of its arguments.
    Apply { op: Op, arity: usize },
    /// A form over streams.
    Stream(Form),
}

/// What a node is, in the four cases of plain trees, with the place of its token. A walk that treats all forms alike has an arm for each of
/// these, and none for each form.
#[derive(Drop)]
pub enum Shape<'a> {
    Form {
        at: u32,
        head: Head<'a>,
        parts: Parts<'a>,
    },
    Name {
        at: u32,
        name: &'a Name,
    },
    Call {
        at: u32,
        name: &'a Name,
        args: &'a Trees,
    },
    Scope {
        at: u32,
        subject: &'a Tree,
        defs: &'a Defs,
    },
}

impl Kind {
    // What the node is that stands at a place.
    fn shape(&self, at: u32) -> Shape<'_>
        ensures { shape_tree result ≡ tree_of at self.now }
    {
        match self {
            Kind::Const(value) => none(at, Head::Const(value)),
            Kind::Name(name) => Shape::Name { at, name },
            Kind::Call { name, args } => Shape::Call { at, name, args },
            Kind::Apply { op, args } => apply(at, *op, args),
            Kind::If { test, yes, no } => three(at, Form::If, test, yes, no),
            Kind::And(a, b) => two(at, Form::And, a, b),
            Kind::Or(a, b) => two(at, Form::Or, a, b),
            Kind::First(a) => one(at, Form::First, a),
            Kind::Next(a) => one(at, Form::Next, a),
            Kind::Fby(a, b) => two(at, Form::Fby, a, b),
            Kind::Whenever(a, b) => two(at, Form::Whenever, a, b),
            Kind::Asa(a, b) => two(at, Form::Asa, a, b),
            Kind::Upon(a, b) => two(at, Form::Upon, a, b),
            Kind::Attime(a, b) => two(at, Form::Attime, a, b),
            Kind::Initial(a) => one(at, Form::Initial, a),
            Kind::Succ(a) => one(at, Form::Succ, a),
            Kind::Sby(a, b) => two(at, Form::Sby, a, b),
            Kind::Atspace(a, b) => two(at, Form::Atspace, a, b),
            Kind::Scope(block) => Shape::Scope {
                at,
                subject: &block.subject,
                defs: &block.defs,
            },
        }
    }
}

impl Tree {
    /// What the root of the tree is.
    pub fn shape(&self) -> Shape<'_>
        ensures tree { shape_tree result ≡ self.now }
        // A form has as many parts as its row looks at.
        ensures fits { FitsShape result }
    {
        self.kind.shape(self.at)
    }

    /// The parts of a form, or the arguments of a call. Names and blocks have none here.
    #[inline(never)]
    pub fn operands(&self) -> Parts<'_>
        ensures { result ≡ operands self.now }
    {
        match self.shape() {
            Shape::Form { parts, .. } => parts,
            Shape::Call { args, .. } => args.parts(),
            Shape::Name { .. } | Shape::Scope { .. } => Parts::slice(&[]),
        }
    }
}

// A form without parts.
fn none(at: u32, head: Head<'_>) -> Shape<'_>
    ensures { result ≡ Shape.Form at head.entry no_trees }
{
    let parts = Parts::slice(&[]);
    Shape::Form { at, head, parts }
}

// A form with one part.
fn one(at: u32, form: Form, a: &Tree) -> Shape<'_>
    ensures { result ≡ Shape.Form at (Head.Stream form) (tree a.now no_trees) }
{
    let head = Head::Stream(form);
    let parts = Parts::one(a);
    Shape::Form { at, head, parts }
}

// A form with two parts.
fn two<'a>(at: u32, form: Form, a: &'a Tree, b: &'a Tree) -> Shape<'a>
    ensures { result ≡ Shape.Form at (Head.Stream form) (tree a.now (tree b.now no_trees)) }
{
    let head = Head::Stream(form);
    let parts = Parts::two(a, b);
    Shape::Form { at, head, parts }
}

// A form with three parts.
fn three<'a>(at: u32, form: Form, a: &'a Tree, b: &'a Tree, c: &'a Tree) -> Shape<'a>
    ensures { result ≡ Shape.Form at (Head.Stream form) (tree a.now (tree b.now (tree c.now no_trees))) }
{
    let head = Head::Stream(form);
    let parts = Parts::three(a, b, c);
    Shape::Form { at, head, parts }
}

// A data operator with its arguments.
fn apply(at: u32, op: Op, args: &Trees) -> Shape<'_>
    ensures { result ≡ Shape.Form at (Head.Apply op (count args.now)) args.now }
{
    let head = Head::Apply {
        op,
        arity: args.items().len(),
    };
    let parts = args.parts();
    Shape::Form { at, head, parts }
}
