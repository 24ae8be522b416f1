//! Which lines are told.
ghost use Rattle.std.specs.Prelude.{◌≡◌, IfOk};
ghost use Rattle.std.specs.Option.{option_copied};
ghost use Rattle.lucid_show_outline.specs.Views.{view_of};
ghost use Rattle.lucid_show_outline.specs.Chosen.{is_one_of, is_of, has_piece_of, chosen};

use crate::source::Source;
use lucid_cert_rules::{Entry, JudgmentRow};
use lucid_tree::{Shape, Tree};
use lucid_value::Name;
use std::alloc::AllocError;

// Whether it is one of these.
#[tactic(auto, unfolding(crate::specs::Chosen::is_one_of))]
fn is_one_of(names: &[Name], name: &Name) -> bool
    ensures { result ≡ is_one_of names.now name.now }
{
    for other in names {
        if other.bytes() == name.bytes() {
            return true;
        }
    }
    false
}

// Whether a piece is of one of these names, or calls it.
#[tactic(auto, unfolding(crate::specs::Chosen::is_of))]
fn is_of(names: &[Name], piece: &Tree) -> bool
    ensures { result ≡ is_of names.now piece.now }
{
    match piece.shape() {
        Shape::Name { name, .. } => is_one_of(names, name),
        Shape::Call { name, .. } => is_one_of(names, name),
        Shape::Form { .. } => false,
        Shape::Scope { .. } => false,
    }
}

// The same of a piece that may not be there.
#[tactic(auto, unfolding(crate::specs::Chosen::has_piece_of))]
fn has_piece_of(names: &[Name], piece: Option<&Tree>) -> bool
    ensures { result ≡ has_piece_of names.now (option_copied piece.entry) }
{
    match piece {
        Some(piece) => is_of(names, piece),
        None => false,
    }
}

impl<'a> Source<'a> {
    ghost use Rattle.std.specs.Borrow.{Bor};
    ghost use Rattle.std.specs.Option.{option_map};
    ghost use Rattle.lucid_cert_rules.specs.Certificates.{plain_judgment};
    ghost use Rattle.lucid_cert_rules.specs.declared.rows.JudgmentRow.{JudgmentRow as Judgment};
    ghost use Rattle.lucid_show_outline.specs.Chosen.{asks_for, is_told};

    // Whether a judgment asks for one of the names.
    #[tactic(auto, unfolding(crate::specs::Chosen::asks_for))]
    fn asks_for(&self, row: Option<&JudgmentRow>) -> bool
        ensures { result ≡ asks_for (view_of self.now) (option_map (λ (j : Bor Judgment). plain_judgment j.now) row.entry) }
    {
        match row {
            Some(row) => has_piece_of(self.names, self.piece(row.node)),
            None => false,
        }
    }

    // Whether what the judgment of a number asks for is told.
    #[tactic(auto, unfolding(crate::specs::Chosen::is_told))]
    fn is_told(&self, number: u64) -> bool
        ensures { result ≡ is_told (view_of self.now) number }
    {
        self.names.is_empty() || self.asks_for(self.judgment(number))
    }
}

/// The entries that are told: those of the names that are chosen, or all where none are.
#[tactic(auto, using(crate::proofs::Loops::chosen_more))]
pub fn chosen(source: &Source<'_>, entries: &[Entry]) -> Result<Vec<Entry>, AllocError>
    ensures { IfOk result (λ told. told.items ≡ chosen (view_of source.now) entries.now) }
{
    let mut told = Vec::new(source.alloc);
    for entry in entries {
        if source.is_told(entry.asked) {
            told.push(*entry)?;
        }
    }
    Ok(told)
}
