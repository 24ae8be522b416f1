//! The words for what pieces are.
ghost use Rattle.std.specs.Prelude.{◌≡◌};
ghost use Rattle.lucid_tree.specs.Shape.{head_of};
ghost use Rattle.lucid_explain_run.specs.Pieces.{head_word, piece_word};

use lucid_tree::{Head, Shape, Tree};

// What a form is.
fn head_word(head: Head<'_>) -> &'static [u8]
    ensures { result.now ≡ head_word (head_of head.entry) }
{
    match head {
        Head::Const(_) => b"constant",
        Head::Apply { op, .. } => op.row().spelling,
        Head::Stream(form) => form.spelling(),
    }
}

/// What a piece is.
pub(crate) fn piece_word(piece: &Tree) -> &'static [u8]
    ensures { result.now ≡ piece_word piece.now }
{
    match piece.shape() {
        Shape::Form { head, .. } => head_word(head),
        Shape::Name { .. } => b"name",
        Shape::Call { .. } => b"call",
        Shape::Scope { .. } => b"where",
    }
}
