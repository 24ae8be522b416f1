//! The form of an operator over its parts.
ghost use Rattle.std.specs.Prelude.{◌≡◌, IfOk, length};
ghost use Rattle.lucid_tree.specs.Tree.{form};
ghost use Rattle.lucid_tree.specs.Lists.{trees_of};
ghost use Rattle.lucid_ops.specs.Arity.{arity};
ghost use Rattle.lucid_parse.specs.declared.operator.Operator.TheVariants.{Data};
ghost use Rattle.lucid_parse.specs.Operators.{row_of, head};

use crate::operator::Operator;
use lucid_ops::Op;
use lucid_tree::{Kind, Tree, Trees};
use std::alloc::{AllocError, Global};

// A data operator over its arguments.
#[tactic(auto, using(lucid_tree::proofs::Counts::count_listed))]
fn data_form(at: u32, op: Op, parts: Vec<Tree>) -> Tree
    requires { length parts.items ≡ arity op }
    ensures { result ≡ form at (head (Data op)) (trees_of parts.items) }
{
    let args = Trees::from_vec(parts);
    let kind = Kind::Apply { op, args };
    Tree { at, kind }
}

impl Operator {
    /// Its form over as many parts as it has.
    pub fn form(self, alloc: Global, at: u32, parts: Vec<Tree>) -> Result<Tree, AllocError>
        requires { length parts.items ≡ (row_of self).arity }
        ensures { IfOk result (λ made. made ≡ form at (head self) (trees_of parts.items)) }
    {
        match self {
            Operator::Data(op) => Ok(data_form(at, op, parts)),
            Operator::Stream(which) => {
                let kind = Kind::of_form(alloc, which, parts)?;
                Ok(Tree { at, kind })
            }
        }
    }
}
