//! The text of a judgment by those of the judgments that it uses.
ghost use Rattle.std.specs.Prelude.{◌≡◌, ◌≤◌, ◌++◌, length, IfOk, OnOk};
ghost use Rattle.lucid_value.specs.View.{plain};
ghost use Rattle.lucid_show_outline.specs.Values.{value_shown, constant_shown};
ghost use Rattle.lucid_show_outline.specs.Equations.{plain_part, plain_parts, tight, tests_of, found_of};

use crate::does::Does;
use crate::operators::{put_applied, put_operand};
use crate::part::Part;
use crate::source::Source;
use crate::value::{put_constant, put_digits, put_value};
use lucid_cert_rules::JudgmentRow;
use lucid_ops::{Op, OpRow};
use lucid_print::put_tree;
use lucid_value::Value;
use std::alloc::AllocError;

/// The uses that are tests: all, or all but the last, which is found.
#[tactic(auto, unfolding(crate::specs::Equations::tests_of))]
pub(crate) fn tests_of(found: bool, uses: &[u64]) -> &[u64]
    ensures value { result.now ≡ tests_of found uses.now }
    ensures within { length result.now ≤ length uses.now }
{
    if found {
        &uses[..uses.len().saturating_sub(1)]
    } else {
        uses
    }
}

// The parts, where they are of what is found.
#[tactic(auto, unfolding(crate::specs::Equations::found_of))]
fn found_of(found: bool, parts: &[Part]) -> &[Part]
    ensures { plain_parts result.now ≡ found_of found (plain_parts parts.now) }
{
    if found { parts } else { &parts[..0] }
}

impl<'a> Source<'a> {
    ghost use Rattle.std.specs.Prelude.{◌-◌, slice_get};
    ghost use Rattle.lucid_ops.specs.Row.{plain_row};
    ghost use Rattle.lucid_cert_rules.specs.Certificates.{plain_judgment};
    ghost use Rattle.lucid_show_outline.specs.Views.{view_of, used};
    ghost use Rattle.lucid_show_outline.specs.Asked.{asked_text};
    ghost use Rattle.lucid_show_outline.specs.Equations.{unknown, applied, applied_by, passed, entered_text, frozen, shown_if, result_text, chosen_by, chosen, tested_text, tested_part, is_found, searched, searched_by, done};

    /// What is told where nothing is known.
    pub(crate) fn unknown(&self) -> Result<Part, AllocError>
        ensures { IfOk result (λ part. plain_part part ≡ unknown) }
    {
        Ok(Part::tight(Vec::from_slice(self.alloc, b"..")?))
    }

    // The text of a value.
    fn value_part(&self, value: &Value) -> Result<Part, AllocError>
        ensures { IfOk result (λ part. plain_part part ≡ tight (value_shown (plain value.now))) }
    {
        let mut text = Vec::new(self.alloc);
        put_value(self.alloc, &mut text, value)?;
        Ok(Part::tight(text))
    }

    // The text of a constant.
    fn constant_part(&self, value: &Value) -> Result<Part, AllocError>
        ensures { IfOk result (λ part. plain_part part ≡ tight (constant_shown (plain value.now))) }
    {
        let mut text = Vec::new(self.alloc);
        put_constant(self.alloc, &mut text, value)?;
        Ok(Part::tight(text))
    }

    // The text of what asks.
    fn asked_part(&self, row: &JudgmentRow) -> Result<Part, AllocError>
        ensures { IfOk result (λ part. plain_part part ≡ tight (asked_text (view_of self.now).pieces (plain_judgment row.now))) }
    {
        let mut text = Vec::new(self.alloc);
        self.put_asked(&mut text, row)?;
        Ok(Part::tight(text))
    }

    // The operator of a row with these operands.
    #[tactic(auto, unfolding(crate::specs::Equations::applied_by))]
    fn applied_by(&self, row: OpRow, operands: &[Part]) -> Result<Part, AllocError>
        requires { row.level ≤ 12 }
        ensures { IfOk result (λ part. plain_part part ≡ applied_by (plain_row row) (plain_parts operands.now)) }
    {
        let mut text = Vec::new(self.alloc);
        put_applied(&mut text, row, operands)?;
        Ok(Part {
            text,
            level: row.level,
        })
    }

    // An operator with these operands.
    fn applied(&self, op: Op, operands: &[Part]) -> Result<Part, AllocError>
        ensures { IfOk result (λ part. plain_part part ≡ applied op (plain_parts operands.now)) }
    {
        self.applied_by(op.row(), operands)
    }

    // The part of a number, which is passed on; or the value, where there is none.
    #[tactic(auto, unfolding(crate::specs::Equations::passed))]
    fn passed(&self, value: &Value, parts: &[Part], number: usize) -> Result<Part, AllocError>
        ensures { IfOk result (λ part. plain_part part ≡ passed (plain value.now) (slice_get (plain_parts parts.now) number)) }
    {
        match parts.get(number) {
            Some(part) => part.copy(self.alloc),
            None => self.value_part(value),
        }
    }

    // Appends the context and the time that are entered.
    #[tactic(auto, unfolding(crate::specs::Equations::entered_text))]
    fn put_entered(&self, to: &mut Vec<u8>, uses: &[u64]) -> Result<(), AllocError>
        ensures { OnOk result (to.new.items ≡ to.old.items ++ entered_text (view_of self.now) (used (view_of self.now) uses.now 0)) }
    {
        match self.used(uses, 0) {
            Some(row) => {
                self.put_context(to, row.context)?;
                to.extend_from_slice(b" at time ")?;
                put_digits(to, row.time)?;
                to.extend_from_slice(b": ")
            }
            None => Ok(()),
        }
    }

    // The one part, in the context that is entered.
    #[tactic(auto, unfolding(crate::specs::Equations::frozen))]
    fn frozen(&self, uses: &[u64], parts: &[Part]) -> Result<Part, AllocError>
        ensures { IfOk result (λ part. plain_part part ≡ frozen (view_of self.now) uses.now (plain_parts parts.now)) }
    {
        let mut text = Vec::new(self.alloc);
        self.put_entered(&mut text, uses)?;
        put_operand(&mut text, parts, 0, 0)?;
        Ok(Part::sentence(text))
    }

    // Appends the value of the first use.
    #[tactic(auto, unfolding(crate::specs::Equations::shown_if))]
    fn put_told(&self, to: &mut Vec<u8>, uses: &[u64]) -> Result<(), AllocError>
        ensures { OnOk result (to.new.items ≡ to.old.items ++ shown_if (used (view_of self.now) uses.now 0)) }
    {
        match self.used(uses, 0) {
            Some(row) => put_value(self.alloc, to, &row.value),
            None => Ok(()),
        }
    }

    // Appends what comes of a test: the part of this number, or the value, where there is none.
    #[tactic(auto, unfolding(crate::specs::Equations::result_text))]
    fn put_result(
        &self,
        to: &mut Vec<u8>,
        value: &Value,
        parts: &[Part],
        number: usize,
    ) -> Result<(), AllocError>
        ensures { OnOk result (to.new.items ≡ to.old.items ++ result_text (plain value.now) (slice_get (plain_parts parts.now) number)) }
    {
        match parts.get(number) {
            Some(part) => to.extend_from_slice(&part.text),
            None => put_value(self.alloc, to, value),
        }
    }

    // A test with its value, and what comes of it. A test that is told as its value, as a constant is, isn't told.
    #[tactic(auto, unfolding(crate::specs::Equations::chosen_by, crate::specs::Equations::decided_text))]
    fn chosen_by(
        &self,
        test: &[u8],
        told: &[u8],
        value: &Value,
        parts: &[Part],
    ) -> Result<Part, AllocError>
        ensures { IfOk result (λ part. plain_part part ≡ chosen_by test.now told.now (plain value.now) (slice_get (plain_parts parts.now) 1)) }
    {
        if test == told {
            return self.passed(value, parts, 1);
        }
        let mut text = Vec::from_slice(self.alloc, test)?;
        text.extend_from_slice(b" is ")?;
        text.extend_from_slice(told)?;
        text.extend_from_slice(b", so ")?;
        self.put_result(&mut text, value, parts, 1)?;
        Ok(Part::sentence(text))
    }

    // The part that decides, and the part that is chosen.
    #[tactic(auto, unfolding(crate::specs::Equations::chosen))]
    fn chosen(&self, row: &JudgmentRow, parts: &[Part]) -> Result<Part, AllocError>
        ensures { IfOk result (λ part. plain_part part ≡ chosen (view_of self.now) (plain_judgment row.now) (plain_parts parts.now)) }
    {
        let mut test = Vec::new(self.alloc);
        put_operand(&mut test, parts, 0, 0)?;
        let mut told = Vec::new(self.alloc);
        self.put_told(&mut told, row.uses.items())?;
        self.chosen_by(&test, &told, &row.value, parts)
    }

    /// Whether the last of the uses isn't of the part that is tested.
    #[tactic(auto, unfolding(crate::specs::Equations::is_found))]
    pub(crate) fn is_found(&self, test: u32, uses: &[u64]) -> bool
        ensures { result ≡ is_found test (used (view_of self.now) uses.now (length uses.now - 1)) }
    {
        match self.used(uses, uses.len().saturating_sub(1)) {
            Some(row) => row.node != test,
            None => false,
        }
    }

    /// Appends the text of a test, by the number of its node.
    #[tactic(auto, unfolding(crate::specs::Equations::tested_text))]
    pub fn put_tested(&self, to: &mut Vec<u8>, test: u32) -> Result<(), AllocError>
        ensures { OnOk result (to.new.items ≡ to.old.items ++ tested_text (slice_get (view_of self.now).pieces test)) }
    {
        match self.piece(test) {
            Some(piece) => put_tree(self.alloc, piece, to),
            None => to.extend_from_slice(b"the test"),
        }
    }

    // Tests of a part, and what comes of them.
    #[tactic(auto, unfolding(crate::specs::Equations::tested_part, crate::specs::Equations::decided_text))]
    fn tested(
        &self,
        test: u32,
        tests: &[u64],
        value: &Value,
        chosen: &[Part],
    ) -> Result<Part, AllocError>
        ensures { IfOk result (λ part. plain_part part ≡ tested_part (view_of self.now) test tests.now (plain value.now) (plain_parts chosen.now)) }
    {
        let mut text = Vec::new(self.alloc);
        self.put_tested(&mut text, test)?;
        text.extend_from_slice(b" is ")?;
        self.put_tests(&mut text, tests)?;
        text.extend_from_slice(b", so ")?;
        self.put_result(&mut text, value, chosen, 0)?;
        Ok(Part::sentence(text))
    }

    // The tests of a search, and what it finds, where it does.
    #[tactic(auto, unfolding(crate::specs::Equations::searched_by))]
    fn searched_by(
        &self,
        test: u32,
        found: bool,
        row: &JudgmentRow,
        parts: &[Part],
    ) -> Result<Part, AllocError>
        ensures { IfOk result (λ part. plain_part part ≡ searched_by (view_of self.now) test found (plain_judgment row.now) (plain_parts parts.now)) }
    {
        let tests = tests_of(found, row.uses.items());
        if tests.is_empty() {
            self.passed(&row.value, parts, 0)
        } else {
            self.tested(test, tests, &row.value, found_of(found, parts))
        }
    }

    // The same, where the last use tells whether it finds.
    fn searched(&self, test: u32, row: &JudgmentRow, parts: &[Part]) -> Result<Part, AllocError>
        ensures { IfOk result (λ part. plain_part part ≡ searched (view_of self.now) test (plain_judgment row.now) (plain_parts parts.now)) }
    {
        let found = self.is_found(test, row.uses.items());
        self.searched_by(test, found, row, parts)
    }

    /// What a judgment does, by the parts of those that it uses.
    #[tactic(auto, unfolding(crate::specs::Equations::done))]
    pub(crate) fn done(
        &self,
        does: Does,
        row: &JudgmentRow,
        parts: &[Part],
    ) -> Result<Part, AllocError>
        ensures { IfOk result (λ part. plain_part part ≡ done (view_of self.now) does (plain_judgment row.now) (plain_parts parts.now)) }
    {
        match does {
            Does::Asks => self.asked_part(row),
            Does::Constant => self.constant_part(&row.value),
            Does::Applies(op) => self.applied(op, parts),
            Does::Passes => self.passed(&row.value, parts, 0),
            Does::Freezes => self.frozen(row.uses.items(), parts),
            Does::Chooses => self.chosen(row, parts),
            Does::Searches(test) => self.searched(test, row, parts),
        }
    }
}
