//! Laws of the operators' rows. They do nothing when they are called.
ghost use Rattle.lucid_parse.specs.Operators.{Operator, row_of, IsRow};

/// The row of each operator fits how it stands to its parts, and groups as its level does.
#[tactic(auto, using(crate::proofs::OperatorRows::row_stands))]
pub fn operators_have_rows()
    ensures rows { (operator : Operator) → IsRow (row_of operator) }
{}
