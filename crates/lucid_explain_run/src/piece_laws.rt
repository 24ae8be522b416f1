//! The law of pieces, as the contract of a function that does nothing.
ghost use Rattle.lucid_explain_run.specs.PieceLaws.{PiecesAreOfTheirNodes};

/// The piece that is told of a node is the one that the node is in the table of the source's tree.
pub fn pieces_are_of_their_nodes()
    ensures { PiecesAreOfTheirNodes }
{}
