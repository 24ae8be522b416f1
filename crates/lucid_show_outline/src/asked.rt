//! What is asked for, by its name at its point.
ghost use Rattle.std.specs.Prelude.{◌≡◌, ◌++◌, OnOk, slice_get};
ghost use Rattle.lucid_show_outline.specs.Asked.{node_text, piece_text, space_text, row_word, context_word};

use crate::source::Source;
use crate::value::put_digits;
use lucid_cert_rules::{ContextRow, JudgmentRow};
use lucid_print::put_tree;
use lucid_tree::{Shape, Tree};
use std::alloc::AllocError;

// Appends the text of a node that no piece is found for.
#[tactic(auto, unfolding(crate::specs::Asked::node_text))]
fn put_number(to: &mut Vec<u8>, node: u32) -> Result<(), AllocError>
    ensures { OnOk result (to.new.items ≡ to.old.items ++ node_text node) }
{
    to.extend_from_slice(b"node ")?;
    put_digits(to, u64::from(node))
}

/// Appends a space, where it isn't 0.
#[tactic(auto, unfolding(crate::specs::Asked::space_text))]
pub fn put_space(to: &mut Vec<u8>, space: u64) -> Result<(), AllocError>
    ensures { OnOk result (to.new.items ≡ to.old.items ++ space_text space) }
{
    if space == 0 {
        return Ok(());
    }
    to.extend_from_slice(b" space ")?;
    put_digits(to, space)
}

// The word for a context by its row.
#[tactic(auto, unfolding(crate::specs::Asked::row_word))]
fn row_word(row: &ContextRow) -> &'static [u8]
    ensures { result.now ≡ row_word row.now }
{
    match row {
        ContextRow::Call { .. } => b"call ",
        ContextRow::Frozen { .. } => b"block ",
    }
}

// The word for the context whose row stands there.
#[tactic(auto, unfolding(crate::specs::Asked::context_word))]
fn context_word(contexts: &[ContextRow], index: usize) -> &'static [u8]
    ensures { result.now ≡ context_word (slice_get contexts.now index) }
{
    match contexts.get(index) {
        Some(row) => row_word(row),
        None => b"context ",
    }
}

impl<'a> Source<'a> {
    ghost use Rattle.std.specs.Option.{option_copied};
    ghost use Rattle.lucid_cert_rules.specs.Certificates.{plain_judgment};
    ghost use Rattle.lucid_show_outline.specs.Views.{view_of};
    ghost use Rattle.lucid_show_outline.specs.Asked.{name_text, asked_text, context_text};

    // Appends the text of a name or a call.
    #[tactic(auto, unfolding(crate::specs::Asked::piece_text))]
    fn put_piece(&self, to: &mut Vec<u8>, node: u32, piece: &Tree) -> Result<(), AllocError>
        ensures { OnOk result (to.new.items ≡ to.old.items ++ piece_text node piece.now) }
    {
        match piece.shape() {
            Shape::Name { name, .. } => to.extend_from_slice(name.bytes()),
            Shape::Call { .. } => put_tree(self.alloc, piece, to),
            Shape::Form { .. } => put_number(to, node),
            Shape::Scope { .. } => put_number(to, node),
        }
    }

    // Appends the name or the call that a node stands for.
    #[tactic(auto, unfolding(crate::specs::Asked::name_text))]
    fn put_name(&self, to: &mut Vec<u8>, node: u32) -> Result<(), AllocError>
        ensures { OnOk result (to.new.items ≡ to.old.items ++ name_text node (slice_get (view_of self.now).pieces node)) }
    {
        match self.piece(node) {
            Some(piece) => self.put_piece(to, node, piece),
            None => put_number(to, node),
        }
    }

    /// Appends the name or the call of a judgment, with the time, and the space where it isn't 0.
    #[tactic(auto, unfolding(crate::specs::Asked::asked_text))]
    pub fn put_asked(&self, to: &mut Vec<u8>, row: &JudgmentRow) -> Result<(), AllocError>
        ensures { OnOk result (to.new.items ≡ to.old.items ++ asked_text (view_of self.now).pieces (plain_judgment row.now)) }
    {
        self.put_name(to, row.node)?;
        to.extend_from_slice(b" at ")?;
        put_digits(to, row.time)?;
        put_space(to, row.space)
    }

    /// Appends a context, by its number.
    #[tactic(auto, unfolding(crate::specs::Asked::context_text))]
    pub fn put_context(&self, to: &mut Vec<u8>, number: u32) -> Result<(), AllocError>
        ensures { OnOk result (to.new.items ≡ to.old.items ++ context_text (view_of self.now).contexts number) }
    {
        if number == 0 {
            return to.extend_from_slice(b"program");
        }
        to.extend_from_slice(context_word(self.contexts, (number - 1) as usize))?;
        put_digits(to, u64::from(number))
    }
}
