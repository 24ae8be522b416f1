//! What the value of a judgment was computed from, as a text.
ghost use Rattle.std.specs.Prelude.{◌≡◌, map, IfOk};
ghost use Rattle.std.specs.Borrow.{Bor};
ghost use Rattle.lucid_cert_rules.specs.declared.rows.JudgmentRow.{JudgmentRow as Judgment};
ghost use Rattle.lucid_show_outline.specs.Equations.{by_judgment, by_node, done, equation, told_uses, plain_part, plain_parts};

use crate::does::Does;
use crate::part::Part;
use crate::source::Source;
use lucid_cert_rules::JudgmentRow;
use lucid_equations::Node;
use std::alloc::AllocError;

impl<'a> Source<'a> {
    ghost use Rattle.std.specs.Option.{option_map};
    ghost use Rattle.lucid_cert_rules.specs.Certificates.{plain_judgment};
    ghost use Rattle.lucid_show_outline.specs.Views.{view_of};

    // The equations of some judgments.
    #[cycle(equation)]
    fn equations(&self, numbers: &[u64], levels: u64) -> Result<Vec<Part>, AllocError>
        ensures { IfOk result (λ parts. plain_parts parts.items ≡ map (equation levels (view_of self.now)) numbers.now) }
    {
        let mut parts = Vec::new(self.alloc);
        for number in numbers {
            parts.push(self.equation(*number, levels)?)?;
        }
        Ok(parts)
    }

    // The equation of a judgment whose node does this.
    #[cycle(equation)]
    fn equation_by(&self, does: Does, row: &JudgmentRow, levels: u64) -> Result<Part, AllocError>
        ensures { IfOk result (λ part. plain_part part
            ≡ done (view_of self.now) does (plain_judgment row.now) (map (equation levels (view_of self.now)) (told_uses does row.now.uses))) }
    {
        let parts = self.equations(does.told_uses(row.uses.items()), levels)?;
        self.done(does, row, &parts)
    }

    // The equation of a judgment of this node.
    #[cycle(equation)]
    #[tactic(auto, unfolding(crate::specs::Equations::by_node))]
    fn equation_at(
        &self,
        node: Option<Node>,
        row: &JudgmentRow,
        levels: u64,
    ) -> Result<Part, AllocError>
        ensures { IfOk result (λ part. plain_part part ≡ by_node (view_of self.now) (plain_judgment row.now) (map (equation levels (view_of self.now))) node) }
    {
        match node {
            Some(node) => self.equation_by(Does::of(node), row, levels),
            None => self.unknown(),
        }
    }

    // The equation of a judgment, where there is one.
    #[cycle(equation)]
    #[tactic(auto, unfolding(crate::specs::Equations::by_judgment))]
    fn equation_of(&self, row: Option<&JudgmentRow>, levels: u64) -> Result<Part, AllocError>
        ensures { IfOk result (λ part. plain_part part ≡ by_judgment (view_of self.now) (map (equation levels (view_of self.now)))
            (option_map (λ (j : Bor Judgment). plain_judgment j.now) row.entry)) }
    {
        match row {
            Some(row) => self.equation_at(self.node(row.node), row, levels),
            None => self.unknown(),
        }
    }

    /// What the value of a judgment was computed from: its equation, with names and calls at their times, so many levels deep. As many as judgments
    /// before it suffice, where each uses earlier ones alone.
    #[cycle(equation)]
    #[tactic(auto, using(crate::proofs::Levels::none_left, crate::proofs::Levels::some_left))]
    pub(crate) fn equation(&self, number: u64, levels: u64) -> Result<Part, AllocError>
        ensures { IfOk result (λ part. plain_part part ≡ equation levels (view_of self.now) number) }
    {
        if levels == 0 {
            self.unknown()
        } else {
            self.equation_of(self.judgment(number), levels - 1)
        }
    }
}
