//! The words of nodes in the flat form: how a node is appended to a text, and read from its words.
ghost use Rattle.std.specs.Prelude.{◌≡◌, ◌∷◌, ◌++◌, [], None, OnOk, map, decimal, length};
ghost use Rattle.std.specs.List.{find};
ghost use Rattle.std.specs.Option.{option_copied};
ghost use Rattle.lucid_flat.specs.FlatText.{form_word, nodes_by, node_numbers, node_words};
ghost use Rattle.lucid_flat.specs.FlatTables.{NodeFits};
ghost use Rattle.lucid_texts.specs.Words.{words_left, spaced};
ghost use Rattle.lucid_flat.specs.Forms.{has_form, form_node, apply_node, node_of};

use crate::ops::{op_of, op_word};
use crate::put::put_numbers;
use crate::words::{Three, exactly, next_three};
use lucid_equations::Node;
use lucid_texts::{next_word, put_word};
use lucid_tree::Form;
use std::alloc::AllocError;

// The word of a node's form.
fn form_word(node: Node) -> &'static [u8]
    ensures { result.now ≡ form_word node }
{
    match node {
        Node::Const { .. } => b"const",
        Node::Input { .. } => b"input",
        Node::Apply { .. } => b"apply",
        Node::Freeze { .. } => b"freeze",
        Node::Refer { .. } => b"refer",
        Node::Call { .. } => b"call",
        _ => node.form_word(),
    }
}

// A node of each kind but a form's and a data operator's, with these numbers.
fn others_with(a: u32, b: u32, c: u32) -> [Node; 5]
    ensures { result ≡ nodes_by None a b c }
{
    [
        Node::Const { constant: a },
        Node::Input { stream: a },
        Node::Freeze { subject: a },
        Node::Refer { name: a, level: b },
        Node::Call {
            name: a,
            place: b,
            level: c,
        },
    ]
}

// How many numbers a node has.
fn count_of_numbers(node: Node) -> usize
    ensures { result ≡ length (node_numbers node) }
{
    match node {
        Node::Const { .. } | Node::Input { .. } => 1,
        Node::Refer { .. } => 2,
        Node::Apply { .. } | Node::Call { .. } => 3,
        _ => node.parts().as_slice().len(),
    }
}

fn has_form(word: &[u8], count: usize, node: Node) -> bool
    ensures { result ≡ has_form word.now count node }
{
    form_word(node) == word && count_of_numbers(node) == count
}

// The first of some nodes whose form has this word and so many numbers.
fn node_among(word: &[u8], count: usize, nodes: &[Node]) -> Option<Node>
    ensures { result ≡ find (has_form word.now count) nodes.now }
{
    nodes
        .iter()
        .copied()
        .find(|node| has_form(word, count, *node))
}

// The node of a form's word and its numbers.
#[tactic(auto, unfolding(crate::specs::Forms::form_node))]
fn form_node(word: &[u8], numbers: Three) -> Option<Node>
    ensures { result ≡ form_node word.now numbers }
{
    let (a, b, c) = (numbers.first, numbers.second, numbers.third);
    match Form::of_word(word) {
        Some(form) => node_among(word, numbers.count, &[Node::of_form(form, a, b, c)]),
        None => node_among(word, numbers.count, &others_with(a, b, c)),
    }
}

// The node of a data operator with the three numbers that are left behind its word.
#[tactic(auto, unfolding(crate::specs::Forms::apply_node))]
fn read_apply(rest: Option<&[u8]>) -> Option<Node>
    ensures { result ≡ apply_node (words_left (option_copied rest.entry)) }
{
    let (word, rest) = next_word(rest)?;
    let op = op_of(word)?;
    let numbers = exactly(3, rest)?;
    Some(Node::Apply {
        op,
        args: [numbers.first, numbers.second, numbers.third],
    })
}

/// The node that the words left are, if they are one's.
#[tactic(auto, unfolding(crate::specs::Forms::node_of))]
pub(crate) fn read_node(rest: Option<&[u8]>) -> Option<Node>
    ensures { result ≡ node_of (words_left (option_copied rest.entry)) }
{
    let (word, rest) = next_word(rest)?;
    if word == b"apply".as_slice() {
        return read_apply(rest);
    }
    let numbers = next_three(rest)?;
    form_node(word, numbers)
}

// Appends a node's numbers.
fn put_node_numbers(to: &mut Vec<u8>, node: Node) -> Result<(), AllocError>
    ensures words { OnOk result (to.new.items ≡ to.old.items ++ spaced (map decimal (node_numbers node))) }
    ensures fits { OnOk result (NodeFits node) }
{
    match node {
        Node::Const { constant: number } | Node::Input { stream: number } => {
            put_numbers(to, &[number])
        }
        Node::Apply { args, .. } => put_numbers(to, &args),
        Node::Refer { name, level } => put_numbers(to, &[name, level]),
        Node::Call { name, place, level } => put_numbers(to, &[name, place, level]),
        _ => put_numbers(to, node.parts().as_slice()),
    }
}

/// Appends the words of a node.
pub(crate) fn put_node(to: &mut Vec<u8>, node: Node) -> Result<(), AllocError>
    ensures words { OnOk result (to.new.items ≡ to.old.items ++ spaced (node_words node)) }
    ensures fits { OnOk result (NodeFits node) }
{
    put_word(to, form_word(node))?;
    if let Node::Apply { op, .. } = node {
        put_word(to, op_word(op))?;
    }
    put_node_numbers(to, node)
}
