//! The node of a form.
ghost use Rattle.std.specs.Prelude.{◌≡◌};
ghost use Rattle.lucid_tree.specs.Shape.{head_of};
ghost use Rattle.lucid_compile.specs.Forms.{node_of};

use lucid_equations::Node;
use lucid_tree::Head;

/// The node of a form with these numbers: those of its parts in order, with 0 past them, or of a constant its own first.
pub(crate) fn form_node(head: Head<'_>, a: u32, b: u32, c: u32) -> Node
    ensures { result ≡ node_of (head_of head.entry) a b c }
{
    match head {
        Head::Const(_) => Node::Const { constant: a },
        Head::Apply { op, .. } => {
            let args = [a, b, c];
            Node::Apply { op, args }
        }
        Head::Stream(form) => Node::of_form(form, a, b, c),
    }
}
