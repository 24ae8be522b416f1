//! Writes the canonical source of a tree. What is still to be written lies on a stack of its own, so that the depth of a tree takes none of
//! the machine's.
ghost use Rattle.std.specs.Prelude.{◌≡◌, ◌<◌, ◌∷◌, ◌++◌, [], ℕ, ◌+◌, ◌≤◌, length, MatchOption, OnOk, OnErr, codes};
ghost use Rattle.lucid_value.specs.View.{plain};
ghost use Rattle.lucid_scan.specs.Refusals.{most_source_bytes};
ghost use Rattle.lucid_tree.specs.Tree.{PlainTree, no_trees, tree};
ghost use Rattle.lucid_tree.specs.WellMade.{IsWellMade};
ghost use Rattle.lucid_print.specs.Canonical.{constant_text, placed, parted, parted_more, texts, form_text, source, parts as as_parts, definitions, canonical};
ghost use Rattle.lucid_print.specs.Styles.{conditional};
ghost use Rattle.lucid_print.specs.Views.{infix_style, prefix_style, seen_style, part_of};
ghost use Rattle.lucid_print.specs.Pieces.{text_of, left, steps_of, steps_left, sign, work, work_in, work_of_defs, Unfolds};
ghost use Rattle.lucid_print.specs.Again.{IsParsed, IsReadAs};

use crate::laws::canonical_is_read_again;
use crate::style::{Infix, Prefix, Style, level_of, style_of};
use lucid_lists::Stack;
use lucid_tree::{DefKind, Definitions, Names, Parts, Shape, Tree};
use lucid_value::Value;
use std::alloc::{AllocError, Global};

/// What is still to be written.
#[derive(Drop)]
pub(crate) enum Piece<'a> {
    Bytes(&'a [u8]),
    Constant(&'a Value),
    /// The names of parameters.
    Names(&'a Names),
    /// A tree in a place that wants this level.
    Placed(&'a Tree, u8),
    /// Arguments, each after a comma.
    More(Parts<'a>),
    Definitions(Definitions<'a>),
}

fn put_bytes(bytes: &[u8], to: &mut Vec<u8>) -> Result<(), AllocError>
    ensures { OnOk result (to.new.items ≡ to.old.items ++ bytes.now) }
{
    to.extend_from_slice(bytes)
}

// Writes a constant. A word stands in quotes, and the empty list is `[]`.
fn put_constant(alloc: Global, value: &Value, to: &mut Vec<u8>) -> Result<(), AllocError>
    ensures { OnOk result (to.new.items ≡ to.old.items ++ constant_text (plain value.now)) }
{
    match value {
        Value::Word(word) => {
            put_bytes(b"\"", to)?;
            put_bytes(word.bytes(), to)?;
            put_bytes(b"\"", to)
        }
        Value::List(list) => {
            if list.len() == 0 {
                put_bytes(b"[]", to)
            } else {
                value.show(alloc, to)
            }
        }
        _ => value.show(alloc, to),
    }
}

// Writes the names of parameters, parted by commas.
fn put_names(names: &Names, to: &mut Vec<u8>) -> Result<(), AllocError>
    ensures { OnOk result (to.new.items ≡ to.old.items ++ parted names.now) }
{
    let mut before: &[u8] = b"";
    for name in names.items() {
        put_bytes(before, to)?;
        put_bytes(name.bytes(), to)?;
        before = b", ";
    }
    Ok(())
}

// The one part, the two, or the three, where there are so many.
fn one(parts: Parts<'_>) -> Option<&Tree>
    ensures { MatchOption result ((x : PlainTree) → parts.entry ≡ tree x no_trees → ⊥) (λ x. parts.entry ≡ tree x.now no_trees) }
{
    let mut parts = parts;
    let first = parts.next()?;
    match parts.next() {
        None => Some(first),
        Some(_) => None,
    }
}

fn two(parts: Parts<'_>) -> Option<(&Tree, &Tree)>
    ensures { MatchOption result ((x y : PlainTree) → parts.entry ≡ tree x (tree y no_trees) → ⊥) (λ p. parts.entry ≡ tree p.0.now (tree p.1.now no_trees)) }
{
    let mut parts = parts;
    let first = parts.next()?;
    let second = one(parts)?;
    Some((first, second))
}

fn three(parts: Parts<'_>) -> Option<(&Tree, &Tree, &Tree)>
    ensures { MatchOption result ((x y z : PlainTree) → parts.entry ≡ tree x (tree y (tree z no_trees)) → ⊥) (λ p. parts.entry ≡ tree p.0.now (tree p.1.now (tree p.2.now no_trees))) }
{
    let mut parts = parts;
    let first = parts.next()?;
    let (second, third) = two(parts)?;
    Some((first, second, third))
}

// The text of a tree.
#[tactic(auto, unfolding(crate::specs::Canonical::source))]
fn open_tree<'a>(pieces: &mut Stack<Piece<'a>>, tree: &'a Tree) -> Result<(), AllocError>
    ensures { OnOk result (Unfolds pieces.old pieces.new (source tree.now) (work tree.now)) }
{
    match tree.shape() {
        Shape::Name { name, .. } => pieces.push(Piece::Bytes(name.bytes())),
        Shape::Form { head, parts, .. } => open_form(pieces, style_of(head), parts),
        Shape::Call { name, args, .. } => {
            open_arguments(pieces, args.parts())?;
            pieces.push(Piece::Bytes(name.bytes()))
        }
        Shape::Scope { subject, defs, .. } => {
            pieces.push(Piece::Bytes(b"end"))?;
            pieces.push(Piece::Definitions(defs.definitions()))?;
            pieces.push(Piece::Bytes(b" where "))?;
            pieces.push(Piece::Placed(subject, 0))
        }
    }
}

// A form of these parts. An operator of another number of parts than its own is in no tree that is well made.
fn open_form<'a>(
    pieces: &mut Stack<Piece<'a>>,
    style: Style<'a>,
    parts: Parts<'a>,
) -> Result<(), AllocError>
    ensures { OnOk result (Unfolds pieces.old pieces.new (form_text (seen_style style.entry) (as_parts parts.entry)) (work_in parts.entry + 3)) }
{
    match style {
        Style::Constant(value) => pieces.push(Piece::Constant(value)),
        Style::Conditional => match three(parts) {
            Some((test, yes, no)) => open_conditional(pieces, test, yes, no),
            None => Ok(()),
        },
        Style::Infix(operator) => match two(parts) {
            Some((left, right)) => open_between(pieces, operator, left, right),
            None => Ok(()),
        },
        Style::Prefix(operator) => match one(parts) {
            Some(part) => open_before(pieces, operator, part),
            None => Ok(()),
        },
        Style::Called(spelling) => {
            open_arguments(pieces, parts)?;
            pieces.push(Piece::Bytes(spelling))
        }
    }
}

fn open_conditional<'a>(
    pieces: &mut Stack<Piece<'a>>,
    test: &'a Tree,
    yes: &'a Tree,
    no: &'a Tree,
) -> Result<(), AllocError>
    ensures { OnOk result (Unfolds pieces.old pieces.new (form_text conditional (part_of test.now ∷ part_of yes.now ∷ part_of no.now ∷ [])) (work test.now + work yes.now + work no.now + 13)) }
{
    pieces.push(Piece::Bytes(b" fi"))?;
    pieces.push(Piece::Placed(no, 0))?;
    pieces.push(Piece::Bytes(b" else "))?;
    pieces.push(Piece::Placed(yes, 0))?;
    pieces.push(Piece::Bytes(b" then "))?;
    pieces.push(Piece::Placed(test, 0))?;
    pieces.push(Piece::Bytes(b"if "))
}

// A tree in a place that wants this level.
fn open_placed<'a>(
    pieces: &mut Stack<Piece<'a>>,
    tree: &'a Tree,
    wanted: u8,
) -> Result<(), AllocError>
    ensures { OnOk result (Unfolds pieces.old pieces.new (placed wanted (part_of tree.now)) (work tree.now + 2)) }
{
    if level_of(tree) >= wanted {
        return open_tree(pieces, tree);
    }
    pieces.push(Piece::Bytes(b")"))?;
    open_tree(pieces, tree)?;
    pieces.push(Piece::Bytes(b"("))
}

fn open_between<'a>(
    pieces: &mut Stack<Piece<'a>>,
    operator: Infix,
    left: &'a Tree,
    right: &'a Tree,
) -> Result<(), AllocError>
    ensures { OnOk result (Unfolds pieces.old pieces.new (form_text (infix_style operator) (part_of left.now ∷ part_of right.now ∷ [])) (work left.now + work right.now + 9)) }
{
    pieces.push(Piece::Placed(right, operator.right))?;
    pieces.push(Piece::Bytes(b" "))?;
    pieces.push(Piece::Bytes(operator.spelling))?;
    pieces.push(Piece::Bytes(b" "))?;
    pieces.push(Piece::Placed(left, operator.left))
}

fn open_before<'a>(
    pieces: &mut Stack<Piece<'a>>,
    prefix: Prefix,
    part: &'a Tree,
) -> Result<(), AllocError>
    ensures { OnOk result (Unfolds pieces.old pieces.new (form_text (prefix_style prefix) (part_of part.now ∷ [])) (work part.now + 5)) }
{
    pieces.push(Piece::Placed(part, prefix.level))?;
    pieces.push(Piece::Bytes(b" "))?;
    pieces.push(Piece::Bytes(prefix.spelling))
}

// Arguments in parentheses, parted by commas.
fn open_arguments<'a>(pieces: &mut Stack<Piece<'a>>, mut args: Parts<'a>) -> Result<(), AllocError>
    ensures { OnOk result (Unfolds pieces.old pieces.new (codes "(" ++ parted (texts (as_parts args.entry)) ++ codes ")") (work_in args.entry + 2)) }
{
    match args.next() {
        Some(first) => {
            pieces.push(Piece::Bytes(b")"))?;
            pieces.push(Piece::More(args))?;
            pieces.push(Piece::Placed(first, 0))?;
            pieces.push(Piece::Bytes(b"("))
        }
        None => pieces.push(Piece::Bytes(b"()")),
    }
}

// Arguments, each after a comma.
fn open_more<'a>(pieces: &mut Stack<Piece<'a>>, mut args: Parts<'a>) -> Result<(), AllocError>
    ensures { OnOk result (Unfolds pieces.old pieces.new (parted_more (texts (as_parts args.entry))) (work_in args.entry)) }
{
    match args.next() {
        Some(arg) => {
            pieces.push(Piece::More(args))?;
            pieces.push(Piece::Placed(arg, 0))?;
            pieces.push(Piece::Bytes(b", "))
        }
        None => Ok(()),
    }
}

fn open_definitions<'a>(
    pieces: &mut Stack<Piece<'a>>,
    mut defs: Definitions<'a>,
) -> Result<(), AllocError>
    ensures { OnOk result (Unfolds pieces.old pieces.new (definitions defs.entry) (work_of_defs defs.entry)) }
{
    match defs.next() {
        Some(def) => {
            pieces.push(Piece::Definitions(defs))?;
            pieces.push(Piece::Bytes(b"; "))?;
            pieces.push(Piece::Placed(def.right(), 0))?;
            open_sign(pieces, &def.kind)?;
            pieces.push(Piece::Bytes(def.name.bytes()))
        }
        None => Ok(()),
    }
}

// What stands between a definition's name and its right side.
fn open_sign<'a>(pieces: &mut Stack<Piece<'a>>, kind: &'a DefKind) -> Result<(), AllocError>
    ensures { OnOk result (Unfolds pieces.old pieces.new (sign kind.now) 3) }
{
    match kind {
        DefKind::Plain { .. } => pieces.push(Piece::Bytes(b" = ")),
        DefKind::Function { parameters, .. } => {
            pieces.push(Piece::Bytes(b") = "))?;
            pieces.push(Piece::Names(parameters))?;
            pieces.push(Piece::Bytes(b"("))
        }
        DefKind::Current { .. } => pieces.push(Piece::Bytes(b" is current ")),
    }
}

// Writes a piece, or puts on the stack what it is made of.
fn put_piece<'a>(
    alloc: Global,
    pieces: &mut Stack<Piece<'a>>,
    piece: Piece<'a>,
    to: &mut Vec<u8>,
) -> Result<(), AllocError>
    ensures text { OnOk result (to.new.items ++ left pieces.new ≡ to.old.items ++ (text_of piece.entry ++ left pieces.old)) }
    ensures steps { OnOk result (steps_left pieces.new < steps_of piece.entry + steps_left pieces.old) }
{
    match piece {
        Piece::Bytes(bytes) => put_bytes(bytes, to),
        Piece::Constant(value) => put_constant(alloc, value, to),
        Piece::Names(names) => put_names(names, to),
        Piece::Placed(tree, wanted) => open_placed(pieces, tree, wanted),
        Piece::More(args) => open_more(pieces, args),
        Piece::Definitions(defs) => open_definitions(pieces, defs),
    }
}

/// Appends the text of a tree, without the end of its line: of a part of a program too. The time is linear in the text.
pub fn put_tree(alloc: Global, tree: &Tree, to: &mut Vec<u8>) -> Result<(), AllocError>
    ensures { OnOk result (to.new.items ≡ to.old.items ++ source tree.now) }
{
    let mut pieces = Stack::new(alloc);
    open_tree(&mut pieces, tree)?;
    while let Some(piece) = pieces.pop() {
        put_piece(alloc, &mut pieces, piece, to)?;
    }
    Ok(())
}

/// Appends the canonical source of the tree: one line, with the least parentheses.
///
/// Scanning and parsing the canonical source of a tree that was parsed gives that tree again, up to places, unless it is too long
/// to be read. The time is linear in the text.
pub fn print_tree(alloc: Global, tree: &Tree, to: &mut Vec<u8>) -> Result<(), AllocError>
    requires { IsWellMade tree.now }
    ensures text { OnOk result (to.new.items ≡ to.old.items ++ canonical tree.now) }
    ensures unchanged { OnErr result (to.new.items ≡ to.old.items) }
    ensures again { IsParsed tree.now → length (canonical tree.now) ≤ most_source_bytes → IsReadAs (canonical tree.now) tree.now }
{
    // For the proof: a canonical text is read again as its tree.
    canonical_is_read_again();
    let mut text = Vec::new(alloc);
    put_tree(alloc, tree, &mut text)?;
    put_bytes(b"\n", &mut text)?;
    to.extend_from_slice(&text)
}
