//! The node of a form over streams, made from its parts.
ghost use Rattle.std.specs.Prelude.{◌≡◌, ℕ, IfOk, length};
ghost use Rattle.lucid_tree.specs.Forms.{part_count};
ghost use Rattle.lucid_tree.specs.Lists.{trees_of};
ghost use Rattle.lucid_tree.specs.Tree.{form, stream, tree, no_trees};
ghost use Rattle.lucid_tree.specs.View.{tree_of};

use crate::Form;
use crate::tree::{Kind, Tree};
use std::alloc::{AllocError, Global};

// The node of a form with its one part.
fn one(which: Form, part: Box<Tree>) -> Kind
    requires { part_count which ≡ 1 }
    ensures { (at : ℕ) → tree_of at result ≡ form at (stream which) (tree part.value no_trees) }
{
    match which {
        Form::First => Kind::First(part),
        Form::Next => Kind::Next(part),
        Form::Initial => Kind::Initial(part),
        Form::Succ => Kind::Succ(part),
        _ => unreachable!(),
    }
}

// The node of a form with its two parts.
fn two(which: Form, left: Box<Tree>, right: Box<Tree>) -> Kind
    requires { part_count which ≡ 2 }
    ensures { (at : ℕ) → tree_of at result ≡ form at (stream which) (tree left.value (tree right.value no_trees)) }
{
    match which {
        Form::And => Kind::And(left, right),
        Form::Or => Kind::Or(left, right),
        Form::Fby => Kind::Fby(left, right),
        Form::Whenever => Kind::Whenever(left, right),
        Form::Asa => Kind::Asa(left, right),
        Form::Upon => Kind::Upon(left, right),
        Form::Attime => Kind::Attime(left, right),
        Form::Sby => Kind::Sby(left, right),
        Form::Atspace => Kind::Atspace(left, right),
        _ => unreachable!(),
    }
}

// The node of a form with its three parts.
fn three(which: Form, test: Box<Tree>, yes: Box<Tree>, no: Box<Tree>) -> Kind
    requires { part_count which ≡ 3 }
    ensures { (at : ℕ) → tree_of at result ≡ form at (stream which) (tree test.value (tree yes.value (tree no.value no_trees))) }
{
    match which {
        Form::If => Kind::If { test, yes, no },
        _ => unreachable!(),
    }
}

impl Kind {
    /// The node of a form over streams with these parts, as many as it has. It fails for want of memory alone.
    #[tactic(auto, using(crate::proofs::Made::no_fourth))]
    pub fn of_form(alloc: Global, which: Form, parts: Vec<Tree>) -> Result<Kind, AllocError>
        requires { length parts.items ≡ part_count which }
        ensures { IfOk result (λ made. (at : ℕ) → tree_of at made ≡ form at (stream which) (trees_of parts.items)) }
    {
        let mut parts = parts.into_iter();
        let Some(first) = parts.next() else {
            unreachable!()
        };
        let first = Box::new(alloc, first)?;
        let Some(second) = parts.next() else {
            return Ok(one(which, first));
        };
        let second = Box::new(alloc, second)?;
        let Some(third) = parts.next() else {
            return Ok(two(which, first, second));
        };
        let third = Box::new(alloc, third)?;
        Ok(three(which, first, second, third))
    }
}
