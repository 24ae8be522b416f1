//! The tests of searches.
ghost use Rattle.std.specs.Prelude.{◌≡◌, ◌≤◌, length};
ghost use Rattle.lucid_cert_rules.specs.Certificates.{plain_judgment};

use crate::does::Does;
use crate::forms::tests_of;
use crate::source::Source;
use lucid_cert_rules::JudgmentRow;
use lucid_equations::Node;

impl<'a> Source<'a> {
    ghost use Rattle.lucid_show_outline.specs.Views.{view_of};
    ghost use Rattle.lucid_show_outline.specs.Searches.{tests_by, tests_for, tests};

    // The tests of a judgment whose node does this.
    #[tactic(auto, unfolding(crate::specs::Searches::tests_by))]
    fn tests_by<'r>(&self, row: &'r JudgmentRow, does: Does) -> &'r [u64]
        ensures value { result.now ≡ tests_by (view_of self.now) (plain_judgment row.now) does }
        ensures within { length result.now ≤ length row.now.uses }
    {
        match does {
            Does::Searches(test) => {
                let uses = row.uses.items();
                tests_of(self.is_found(test, uses), uses)
            }
            _ => &[],
        }
    }

    // The same of a node that may not be there.
    #[tactic(auto, unfolding(crate::specs::Searches::tests_for))]
    fn tests_for<'r>(&self, row: &'r JudgmentRow, node: Option<Node>) -> &'r [u64]
        ensures value { result.now ≡ tests_for (view_of self.now) (plain_judgment row.now) node }
        ensures within { length result.now ≤ length row.now.uses }
    {
        match node {
            Some(node) => self.tests_by(row, Does::of(node)),
            None => &[],
        }
    }

    /// The tests of the search of a judgment, by their numbers: the first of its uses. What is no search has none.
    pub fn tests<'r>(&self, row: &'r JudgmentRow) -> &'r [u64]
        ensures value { result.now ≡ tests (view_of self.now) (plain_judgment row.now) }
        ensures within { length result.now ≤ length row.now.uses }
    {
        self.tests_for(row, self.node(row.node))
    }
}
