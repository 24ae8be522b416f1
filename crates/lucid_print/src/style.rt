//! How forms are written, and their levels. 0 binds loosest.
ghost use Rattle.std.specs.Prelude.{◌≡◌, ◌<◌};
ghost use Rattle.lucid_tree.specs.Shape.{head_of};
ghost use Rattle.lucid_print.specs.Styles.{grouped, before as before_style, operator, style, level, style_level};
ghost use Rattle.lucid_print.specs.Views.{infix_style, prefix_style, seen_style};

use lucid_ops::{Form, Side};
use lucid_parse::Operator;
use lucid_tree::{Head, Shape, Tree};
use lucid_value::Value;

/// The level of a form that binds tightest.
const TIGHTEST: u8 = 12;

/// An operator between two parts: its spelling, the level of its form, and the levels that its left and its right part have at
/// least.
#[derive(Clone, Copy)]
pub(crate) struct Infix {
    pub(crate) spelling: &'static [u8],
    pub(crate) level: u8,
    pub(crate) left: u8,
    pub(crate) right: u8,
}

impl Infix {
    /// One of this level, of which a row groups to the side.
    pub(crate) fn grouped(side: Side, level: u8, spelling: &'static [u8]) -> Infix
        requires { level < 255 }
        ensures { infix_style result ≡ grouped side level spelling.now }
    {
        Infix {
            spelling,
            level,
            left: side.left_level(level),
            right: side.right_level(level),
        }
    }
}

/// An operator before one part: its spelling, and the level of its form, which its part has at least.
#[derive(Clone, Copy)]
pub(crate) struct Prefix {
    pub(crate) spelling: &'static [u8],
    pub(crate) level: u8,
}

impl Prefix {
    /// One of this level.
    pub(crate) fn at(level: u8, spelling: &'static [u8]) -> Prefix
        ensures { prefix_style result ≡ before_style spelling.now level }
    {
        Prefix { spelling, level }
    }
}

/// How a form is written.
#[derive(Clone, Copy)]
pub(crate) enum Style<'a> {
    Constant(&'a Value),
    /// `if`.
    Conditional,
    Infix(Infix),
    Prefix(Prefix),
    /// Before its parts in parentheses.
    Called(&'static [u8]),
}

impl<'a> Style<'a> {
    /// The level of its form.
    fn level(self) -> u8
        ensures { result ≡ style_level (seen_style self.entry) }
    {
        match self {
            Style::Infix(operator) => operator.level,
            Style::Prefix(operator) => operator.level,
            Style::Constant(_) | Style::Conditional | Style::Called(_) => TIGHTEST,
        }
    }
}

// How the operator is written.
fn written(op: Operator) -> Style<'static>
    ensures { seen_style result ≡ operator op }
{
    let row = op.row();
    match row.form {
        Some(Form::Between) => Style::Infix(Infix::grouped(row.side, row.level, row.spelling)),
        Some(Form::Before) => Style::Prefix(Prefix::at(row.level, row.spelling)),
        Some(Form::Called) => Style::Called(row.spelling),
        None => Style::Conditional,
    }
}

/// How a form with this head is written: a constant, or by the operator that makes it.
pub(crate) fn style_of(head: Head<'_>) -> Style<'_>
    ensures { seen_style result ≡ style (head_of head.entry) }
{
    match head {
        Head::Const(value) => Style::Constant(value),
        Head::Apply { op, .. } => written(Operator::Data(op)),
        Head::Stream(form) => written(Operator::Stream(form)),
    }
}

/// The level of the tree's form.
pub(crate) fn level_of(tree: &Tree) -> u8
    ensures { result ≡ level tree.now }
{
    match tree.shape() {
        Shape::Form { head, .. } => style_of(head).level(),
        Shape::Name { .. } | Shape::Call { .. } => TIGHTEST,
        Shape::Scope { .. } => 0,
    }
}
