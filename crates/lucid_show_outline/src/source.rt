//! What texts are made of.
ghost use Rattle.std.specs.Prelude.{◌≡◌, IfOk};
ghost use Rattle.std.specs.Borrow.{Bor};
ghost use Rattle.lucid_cert_rules.specs.declared.rows.JudgmentRow.{JudgmentRow as Judgment};

use crate::pieces::find_pieces;
use lucid_cert_rules::{ContextRow, JudgmentRow, Why};
use lucid_equations::{Node, Table};
use lucid_tree::Tree;
use lucid_value::Name;
use std::alloc::{AllocError, Global};

/// A program's table, the pieces of its tree that have nodes, by the numbers of these, a certificate, and the names whose values are told.
#[derive(Drop)]
pub struct Source<'a> {
    pub(crate) alloc: Global,
    pub(crate) table: &'a Table,
    pub(crate) pieces: Vec<&'a Tree>,
    pub(crate) contexts: &'a [ContextRow],
    pub(crate) judgments: &'a [JudgmentRow],
    pub(crate) names: &'a [Name],
}

impl<'a> Source<'a> {
    ghost use Rattle.std.specs.Prelude.{◌-◌, length, map, slice_get};
    ghost use Rattle.std.specs.Option.{option_copied, option_map};
    ghost use Rattle.lucid_equations.specs.Rows.{row_at};
    ghost use Rattle.lucid_cert_rules.specs.Certificates.{plain_judgment};
    ghost use Rattle.lucid_show_outline.specs.Views.{view, view_of, used};

    /// The source of texts of a certificate, by the table and the tree of its program. The texts tell the values of these names alone, and of all
    /// where there are none.
    pub fn make(
        alloc: Global,
        table: &'a Table,
        tree: &'a Tree,
        why: &'a Why,
        names: &'a [Name],
    ) -> Result<Source<'a>, AllocError>
        ensures { IfOk result (λ source. view_of source ≡ view table.entry.now tree.entry.now why.entry.now names.entry.now) }
    {
        let mut pieces = Vec::new(alloc);
        find_pieces(&mut pieces, tree)?;
        let contexts = why.contexts.items();
        let judgments = why.judgments.items();
        Ok(Source {
            alloc,
            table,
            pieces,
            contexts,
            judgments,
            names,
        })
    }

    /// Where its texts are made.
    pub fn alloc(&self) -> Global {
        self.alloc
    }

    /// The program's table.
    pub fn table(&self) -> &'a Table
        ensures { result.now ≡ (view_of self.now).table }
    {
        self.table
    }

    /// The rows of contexts.
    pub fn contexts(&self) -> &'a [ContextRow]
        ensures { result.now ≡ (view_of self.now).contexts }
    {
        self.contexts
    }

    /// The judgments, those that others use first.
    pub fn judgments(&self) -> &'a [JudgmentRow]
        ensures { map plain_judgment result.now ≡ (view_of self.now).judgments }
    {
        self.judgments
    }

    /// The node of a number.
    pub fn node(&self, number: u32) -> Option<Node>
        ensures { result ≡ row_at (view_of self.now).table number }
    {
        let row = self.table.nodes.items().get(number as usize)?;
        Some(row.node)
    }

    /// The piece of a node's number.
    #[tactic(auto, using(crate::proofs::Loops::lent_at))]
    pub fn piece(&self, number: u32) -> Option<&'a Tree>
        ensures { option_copied result ≡ slice_get (view_of self.now).pieces number }
    {
        self.pieces.get(number as usize).copied()
    }

    /// The judgment of a number.
    pub fn judgment(&self, number: u64) -> Option<&'a JudgmentRow>
        ensures { option_map (λ (row : Bor Judgment). plain_judgment row.now) result ≡ slice_get (view_of self.now).judgments number }
    {
        self.judgments.get(number as usize)
    }

    /// The judgment that is the use of this number.
    #[tactic(auto, unfolding(crate::specs::Views::used))]
    pub fn used(&self, uses: &[u64], number: usize) -> Option<&'a JudgmentRow>
        ensures { option_map (λ (row : Bor Judgment). plain_judgment row.now) result ≡ used (view_of self.now) uses.now number }
    {
        self.judgment(*uses.get(number)?)
    }

    /// The number of the last judgment.
    pub fn last(&self) -> u64
        ensures { result ≡ length (view_of self.now).judgments - 1 }
    {
        self.judgments.len().saturating_sub(1) as u64
    }
}
