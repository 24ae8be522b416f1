//! The laws of columns. Each is the contract of a function that does nothing.
ghost use Rattle.lucid_columns.specs.Laws.{ColumnsAreSpaces, ColumnsHaveNoFault};

/// A program with its columns side by side over space has at each column's space what the program with that name as its subject has at space
/// 0, at every limit, and it consults the same.
pub fn columns_are_spaces()
    ensures { ColumnsAreSpaces }
{}

/// A program with its columns side by side has no fault of names where the program has none.
pub fn columns_have_no_fault()
    ensures { ColumnsHaveNoFault }
{}
