//! What is said of a judgment that doesn't follow.
ghost use Rattle.std.specs.Prelude.{◌≡◌, ◌≤◌, ◌++◌, length, IfOk, OnOk};
ghost use Rattle.std.specs.Option.{option_copied};
ghost use Rattle.lucid_scope.specs.Scoped.{scoped_tree};
ghost use Rattle.lucid_compile.specs.Origins.{places_of, origins_of};
ghost use Rattle.lucid_explain_source.specs.Accepted.{IsProgram};
ghost use Rattle.lucid_scan.specs.Refusals.{most_source_bytes};
ghost use Rattle.lucid_explain_run.specs.Pieces.{piece_of};
ghost use Rattle.lucid_explain_run.specs.Judgments.{IsRow, numbers_text, told_text, piece_text, found_text, TellsJudgment};

use crate::find::{own_place, part_at};
use crate::rows::{Row, row_of};
use crate::words::piece_word;
use lucid_compile::{Origins, find_origins};
use lucid_explain_places::{put_number, put_place};
use lucid_explain_source::scoped_of;
use lucid_scope::Scoped;
use lucid_tree::Tree;
use std::alloc::{AllocError, Global};

// The judgment of a number of a certificate, from 0, of the source in a file of this name.
#[derive(Clone, Copy)]
struct Judged<'a> {
    file: &'a [u8],
    source: &'a [u8],
    certificate: &'a [u8],
    number: u64,
}

// Appends the judgment's line and node.
fn put_numbers(text: &mut Vec<u8>, row: Row) -> Result<(), AllocError>
    ensures { OnOk result (text.new.items ≡ text.old.items ++ numbers_text row.node row.line) }
{
    put_number(text, b"Line ", row.line)?;
    put_number(
        text,
        b" of the certificate has this judgment, of node ",
        u64::from(row.node),
    )
}

// Appends the judgment's line and node, and what stands there.
fn put_told(text: &mut Vec<u8>, row: Row, word: &[u8]) -> Result<(), AllocError>
    ensures { OnOk result (text.new.items ≡ text.old.items ++ told_text row.node row.line word.now) }
{
    put_numbers(text, row)?;
    text.extend_from_slice(b", which stands here: ")?;
    text.extend_from_slice(word)?;
    text.extend_from_slice(b".\n")
}

// Appends a piece, by its place, with what it is.
fn put_piece(
    text: &mut Vec<u8>,
    file: &[u8],
    source: &[u8],
    row: Row,
    piece: &Tree,
) -> Result<(), AllocError>
    requires { length source.now ≤ most_source_bytes }
    ensures { OnOk result (text.new.items ≡ text.old.items ++ piece_text file.now source.now row.node row.line piece.now) }
{
    let at = source.len().min(own_place(piece) as usize);
    put_place(text, file, source, at)?;
    put_told(text, row, piece_word(piece))
}

// Appends the piece, where there is one.
fn put_found(
    text: &mut Vec<u8>,
    file: &[u8],
    source: &[u8],
    row: Row,
    piece: Option<&Tree>,
) -> Result<(), AllocError>
    requires { length source.now ≤ most_source_bytes }
    ensures { OnOk result (text.new.items ≡ text.old.items ++ found_text file.now source.now row.node row.line (option_copied piece.entry)) }
{
    match piece {
        Some(piece) => put_piece(text, file, source, row, piece),
        None => Ok(()),
    }
}

/// The piece of a tree from which the node of a number comes, by where the nodes of its table come from.
pub fn piece_of<'a>(tree: &'a Tree, origins: &Origins, node: u32) -> Option<&'a Tree>
    requires { places_of origins.now ≡ origins_of tree.now }
    ensures { option_copied result ≡ piece_of tree.now node }
{
    match origins.nodes.get(node as usize) {
        Some(at) => part_at(tree, *at),
        None => None,
    }
}

// The same by what the names of the source belong to.
fn find_piece(alloc: Global, scoped: &Scoped, node: u32) -> Result<Option<&Tree>, AllocError>
    ensures { IfOk result (λ piece. option_copied piece ≡ piece_of (scoped_tree scoped.now) node) }
{
    let origins = find_origins(alloc, scoped)?;
    Ok(piece_of(scoped.tree(), &origins, node))
}

// What is said by what the names of the source belong to.
fn text_of_scoped(
    alloc: Global,
    judged: &Judged<'_>,
    row: Row,
    scoped: &Scoped,
) -> Result<Vec<u8>, AllocError>
    requires short { length judged.now.source.now ≤ most_source_bytes }
    requires program { IsProgram judged.now.source.now (scoped_tree scoped.now) }
    requires row { IsRow judged.now.certificate.now judged.now.number row.node row.line }
    ensures { IfOk result (λ text. TellsJudgment judged.now.file.now judged.now.source.now judged.now.certificate.now judged.now.number text.items) }
{
    let piece = find_piece(alloc, scoped, row.node)?;
    let mut text = Vec::new(alloc);
    put_found(&mut text, judged.file, judged.source, row, piece)?;
    Ok(text)
}

// What is said of a judgment of this node, in this line.
fn text_of_row(alloc: Global, judged: &Judged<'_>, row: Row) -> Result<Vec<u8>, AllocError>
    requires { IsRow judged.now.certificate.now judged.now.number row.node row.line }
    ensures { IfOk result (λ text. TellsJudgment judged.now.file.now judged.now.source.now judged.now.certificate.now judged.now.number text.items) }
{
    match scoped_of(alloc, judged.source)? {
        Some(scoped) => text_of_scoped(alloc, judged, row, &scoped),
        None => Ok(Vec::new(alloc)),
    }
}

/// What is said of the judgment of this number of a certificate, from 0, that doesn't follow: its line, its node, and the piece of the source from
/// which the node comes. Nothing where the certificate hasn't the judgment, of a source that is refused, and where its table hasn't the node.
pub fn explain_judgment(
    alloc: Global,
    file: &[u8],
    source: &[u8],
    certificate: &[u8],
    number: u64,
) -> Result<Vec<u8>, AllocError>
    ensures { IfOk result (λ text. TellsJudgment file.now source.now certificate.now number text.items) }
{
    let judged = Judged {
        file,
        source,
        certificate,
        number,
    };
    match row_of(alloc, certificate, number)? {
        Some(row) => text_of_row(alloc, &judged, row),
        None => Ok(Vec::new(alloc)),
    }
}
