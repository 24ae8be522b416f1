//! Laws of the operators, over the definitions alone. They do nothing when they are called.
ghost use Rattle.std.specs.Prelude.{IsTrue};
ghost use Rattle.lucid_ops.specs.Narrow.{NarrowIntegersKeepTheirResults};
ghost use Rattle.lucid_ops.specs.Rows.{standard_rows, rises, operator_row, IsRowOf, IsFoundByItsRow};
ghost use Rattle.lucid_ops.specs.declared.op.Op.{Op};

/// Narrow integers keep their results: an operator that gives no error where only the integers from -2^63 to 2^63 - 1 have a
/// place gives the same over the integers of 128 bits.
#[tactic(auto, using(crate::proofs::NarrowResults::narrow_results))]
pub fn narrow_integers_keep_their_results()
    ensures { NarrowIntegersKeepTheirResults }
{}

/// The rows of the language rise by form and spelling, and each operator has its row among them, which fits its form and groups as its
/// level does. An operator is found by its form and its spelling alone.
#[tactic(auto, using(crate::proofs::OperatorRows::row_stands))]
pub fn standard_rows_are_a_table()
    ensures in_order { IsTrue (rises standard_rows) }
    ensures whole { (op : Op) → IsRowOf op (operator_row op) }
    ensures found { (op : Op) → IsFoundByItsRow op }
{}
