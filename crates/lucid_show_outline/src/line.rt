//! The lines of an outline.
ghost use Rattle.std.specs.Prelude.{◌≡◌, ◌++◌, slice_get, OnOk};
ghost use Rattle.std.specs.Borrow.{Bor};
ghost use Rattle.lucid_cert_rules.specs.declared.rows.JudgmentRow.{JudgmentRow as Judgment};
ghost use Rattle.lucid_show_outline.specs.Lines.{blanks, indent, calls, is_call};

use crate::source::Source;
use crate::value::{put_digits, put_value};
use lucid_cert_rules::{Cell, Entry, JudgmentRow, asked_at};
use lucid_equations::Node;
use std::alloc::AllocError;

// How many levels a line is moved to the right at most, two blanks for each; a deeper line tells its depth.
const MOST_INDENT: u64 = 40;

// Appends so many blanks.
#[tactic(auto, unfolding(crate::specs::Lines::blanks))]
fn put_blanks(to: &mut Vec<u8>, count: u64) -> Result<(), AllocError>
    ensures { OnOk result (to.new.items ≡ to.old.items ++ blanks count) }
{
    for _blank in 0..count {
        to.push(b' ')?;
    }
    Ok(())
}

// Appends what stands in front of a line of this depth.
#[tactic(auto, unfolding(crate::specs::Lines::indent))]
fn put_indent(to: &mut Vec<u8>, depth: u64) -> Result<(), AllocError>
    ensures { OnOk result (to.new.items ≡ to.old.items ++ indent depth) }
{
    if depth <= MOST_INDENT {
        return put_blanks(to, 2 * depth);
    }
    put_blanks(to, 80)?;
    put_digits(to, depth)?;
    to.extend_from_slice(b": ")
}

// Whether the node is a call.
#[tactic(auto, unfolding(crate::specs::Lines::calls))]
fn calls(node: Node) -> bool
    ensures { result ≡ calls node }
{
    match node {
        Node::Call { .. } => true,
        _ => false,
    }
}

// Whether there is a node, which is a call.
#[tactic(auto, unfolding(crate::specs::Lines::is_call))]
fn is_call(node: Option<Node>) -> bool
    ensures { result ≡ is_call node }
{
    match node {
        Some(node) => calls(node),
        None => false,
    }
}

impl<'a> Source<'a> {
    ghost use Rattle.std.specs.Option.{option_map};
    ghost use Rattle.lucid_cert_rules.specs.Certificates.{plain_judgment};
    ghost use Rattle.lucid_show_outline.specs.Views.{view_of};
    ghost use Rattle.lucid_show_outline.specs.Lines.{equation_text, input_text, element_text, cell_text, inside_text, target_text, entered_as, came_text, head_text, told_text, line_for, line_by, line_text, output_by, heading, output_text};

    // Appends the equation of a judgment.
    #[tactic(auto, unfolding(crate::specs::Lines::equation_text))]
    fn put_equation(&self, to: &mut Vec<u8>, number: u64) -> Result<(), AllocError>
        ensures { OnOk result (to.new.items ≡ to.old.items ++ equation_text (view_of self.now) number) }
    {
        let Some(levels) = number.checked_add(1) else {
            return Err(AllocError);
        };
        let part = self.equation(number, levels)?;
        to.extend_from_slice(b"   = ")?;
        to.extend_from_slice(&part.text)
    }

    // Appends the name of an input.
    #[tactic(auto, unfolding(crate::specs::Lines::input_text))]
    fn put_input(&self, to: &mut Vec<u8>, stream: u32) -> Result<(), AllocError>
        ensures { OnOk result (to.new.items ≡ to.old.items ++ input_text (slice_get (view_of self.now).table.inputs stream)) }
    {
        match self.table.inputs.items().get(stream as usize) {
            Some(name) => {
                to.extend_from_slice(b" of ")?;
                to.extend_from_slice(name.bytes())
            }
            None => Ok(()),
        }
    }

    // Appends where an element stands: its line, from 1, and its input.
    #[tactic(auto, unfolding(crate::specs::Lines::element_text))]
    fn put_element(&self, to: &mut Vec<u8>, stream: u32, time: u64) -> Result<(), AllocError>
        ensures { OnOk result (to.new.items ≡ to.old.items ++ element_text (view_of self.now) stream time) }
    {
        let Some(line) = time.checked_add(1) else {
            return Err(AllocError);
        };
        to.extend_from_slice(b"   (line ")?;
        put_digits(to, line)?;
        self.put_input(to, stream)?;
        to.extend_from_slice(b")")
    }

    /// Appends how the value of a cell came.
    #[tactic(auto, unfolding(crate::specs::Lines::cell_text))]
    pub fn put_cell(&self, to: &mut Vec<u8>, cell: Cell) -> Result<(), AllocError>
        ensures { OnOk result (to.new.items ≡ to.old.items ++ cell_text (view_of self.now) cell) }
    {
        match cell {
            Cell::Named { judgment } => self.put_equation(to, judgment),
            Cell::Element { stream, time } => self.put_element(to, stream, time),
        }
    }

    // Appends in which context a judgment asks.
    #[tactic(auto, unfolding(crate::specs::Lines::inside_text))]
    fn put_inside(&self, to: &mut Vec<u8>, row: &JudgmentRow) -> Result<(), AllocError>
        ensures { OnOk result (to.new.items ≡ to.old.items ++ inside_text (view_of self.now) (plain_judgment row.now)) }
    {
        if row.context == 0 {
            return Ok(());
        }
        to.extend_from_slice(b" in ")?;
        self.put_context(to, row.context)
    }

    // Appends the context of a judgment that a call goes on with.
    #[tactic(auto, unfolding(crate::specs::Lines::target_text))]
    fn put_target(&self, to: &mut Vec<u8>, number: u64) -> Result<(), AllocError>
        ensures { OnOk result (to.new.items ≡ to.old.items ++ target_text (view_of self.now) (slice_get (view_of self.now).judgments number)) }
    {
        match self.judgment(number) {
            Some(row) => {
                to.extend_from_slice(b" as ")?;
                self.put_context(to, row.context)
            }
            None => Ok(()),
        }
    }

    // Appends the context that a judgment enters, where it is of a call.
    #[tactic(auto, unfolding(crate::specs::Lines::entered_as))]
    fn put_entered_as(&self, to: &mut Vec<u8>, call: bool, cell: Cell) -> Result<(), AllocError>
        ensures { OnOk result (to.new.items ≡ to.old.items ++ entered_as (view_of self.now) call cell) }
    {
        match cell {
            Cell::Named { judgment } => {
                if call {
                    self.put_target(to, judgment)
                } else {
                    Ok(())
                }
            }
            Cell::Element { .. } => Ok(()),
        }
    }

    // Appends how the value of a cell came, or that it stands above.
    #[tactic(auto, unfolding(crate::specs::Lines::came_text))]
    fn put_came(&self, to: &mut Vec<u8>, above: bool, cell: Cell) -> Result<(), AllocError>
        ensures { OnOk result (to.new.items ≡ to.old.items ++ came_text (view_of self.now) above cell) }
    {
        if above {
            to.extend_from_slice(b"   (above)")
        } else {
            self.put_cell(to, cell)
        }
    }

    // Appends what asks for a cell, and where.
    #[tactic(auto, unfolding(crate::specs::Lines::head_text))]
    fn put_head(&self, to: &mut Vec<u8>, row: &JudgmentRow, cell: Cell) -> Result<(), AllocError>
        ensures { OnOk result (to.new.items ≡ to.old.items ++ head_text (view_of self.now) (plain_judgment row.now) cell) }
    {
        self.put_asked(to, row)?;
        self.put_inside(to, row)?;
        self.put_entered_as(to, is_call(self.node(row.node)), cell)
    }

    // Appends the line of what asks for a cell.
    #[tactic(auto, unfolding(crate::specs::Lines::told_text))]
    fn put_told_line(
        &self,
        to: &mut Vec<u8>,
        entry: &Entry,
        row: &JudgmentRow,
        cell: Cell,
    ) -> Result<(), AllocError>
        ensures { OnOk result (to.new.items ≡ to.old.items ++ told_text (view_of self.now) entry.now (plain_judgment row.now) cell) }
    {
        put_indent(to, entry.depth)?;
        self.put_head(to, row, cell)?;
        to.extend_from_slice(b" is ")?;
        put_value(self.alloc, to, &row.value)?;
        self.put_came(to, entry.above, cell)?;
        to.extend_from_slice(b"\n")
    }

    // Appends the line of a judgment that asks, where it does.
    #[tactic(auto, unfolding(crate::specs::Lines::line_for))]
    fn put_line_for(
        &self,
        to: &mut Vec<u8>,
        entry: &Entry,
        cell: Option<Cell>,
        row: &JudgmentRow,
    ) -> Result<(), AllocError>
        ensures { OnOk result (to.new.items ≡ to.old.items ++ line_for (view_of self.now) entry.now cell (plain_judgment row.now)) }
    {
        match cell {
            Some(cell) => self.put_told_line(to, entry, row, cell),
            None => Ok(()),
        }
    }

    // The same of a judgment that may not be there.
    #[tactic(auto, unfolding(crate::specs::Lines::line_by))]
    fn put_line_by(
        &self,
        to: &mut Vec<u8>,
        entry: &Entry,
        cell: Option<Cell>,
        row: Option<&JudgmentRow>,
    ) -> Result<(), AllocError>
        ensures { OnOk result (to.new.items ≡ to.old.items
            ++ line_by (view_of self.now) entry.now cell (option_map (λ (j : Bor Judgment). plain_judgment j.now) row.entry)) }
    {
        match row {
            Some(row) => self.put_line_for(to, entry, cell, row),
            None => Ok(()),
        }
    }

    /// Appends a line of an outline.
    #[tactic(auto, unfolding(crate::specs::Lines::line_text))]
    pub(crate) fn put_line(&self, to: &mut Vec<u8>, entry: &Entry) -> Result<(), AllocError>
        ensures { OnOk result (to.new.items ≡ to.old.items ++ line_text (view_of self.now) entry.now) }
    {
        let cell = asked_at(self.table, self.judgments, entry.asked);
        self.put_line_by(to, entry, cell, self.judgment(entry.asked))
    }

    // Appends what the output is, where there is one.
    #[tactic(auto, unfolding(crate::specs::Lines::output_by))]
    fn put_output_by(
        &self,
        to: &mut Vec<u8>,
        number: u64,
        row: Option<&JudgmentRow>,
    ) -> Result<(), AllocError>
        ensures { OnOk result (to.new.items ≡ to.old.items
            ++ output_by (view_of self.now) number (option_map (λ (j : Bor Judgment). plain_judgment j.now) row.entry)) }
    {
        let Some(row) = row else {
            return Ok(());
        };
        to.extend_from_slice(b"output at ")?;
        put_digits(to, row.time)?;
        to.extend_from_slice(b" is ")?;
        put_value(self.alloc, to, &row.value)?;
        self.put_equation(to, number)
    }

    /// Appends what the output is, which is the judgment of a number.
    pub fn put_heading(&self, to: &mut Vec<u8>, number: u64) -> Result<(), AllocError>
        ensures { OnOk result (to.new.items ≡ to.old.items ++ heading (view_of self.now) number) }
    {
        self.put_output_by(to, number, self.judgment(number))
    }

    /// Appends the line of the output.
    pub(crate) fn put_output(&self, to: &mut Vec<u8>, number: u64) -> Result<(), AllocError>
        ensures { OnOk result (to.new.items ≡ to.old.items ++ output_text (view_of self.now) number) }
    {
        self.put_heading(to, number)?;
        to.extend_from_slice(b"\n")
    }
}
