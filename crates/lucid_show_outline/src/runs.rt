//! The tests of a search.
ghost use Rattle.std.specs.Prelude.{◌≡◌, ◌∷◌, ◌++◌, List, IfOk, OnOk};
ghost use Rattle.lucid_value.specs.View.{plain};
ghost use Rattle.lucid_value.specs.Equality.{same_value};
ghost use Rattle.lucid_cert_rules.specs.Certificates.{PlainJudgment, plain_judgment};
ghost use Rattle.lucid_show_outline.specs.Tests.{last_text, runs_from, runs_text};
ghost use Rattle.lucid_show_outline.specs.Runs.{lent_judgments, plain_run};

use crate::source::Source;
use crate::value::{put_digits, put_value};
use lucid_cert_rules::JudgmentRow;
use lucid_value::Value;
use std::alloc::{AllocError, Global};

// Tests of one value from one time to another.
#[derive(Clone, Copy)]
struct Run<'a> {
    value: &'a Value,
    first: u64,
    last: u64,
}

// Whether the two values are one.
fn is_same(left: &Value, right: &Value) -> bool
    ensures { result ≡ same_value (plain left.now) (plain right.now) }
{
    left.same(right)
}

// Appends the last time of a run, where it isn't the first.
#[tactic(auto, unfolding(crate::specs::Tests::last_text))]
fn put_last(to: &mut Vec<u8>, first: u64, last: u64) -> Result<(), AllocError>
    ensures { OnOk result (to.new.items ≡ to.old.items ++ last_text first last) }
{
    if first == last {
        return Ok(());
    }
    to.extend_from_slice(b" to ")?;
    put_digits(to, last)
}

impl<'a> Run<'a> {
    ghost use Rattle.lucid_show_outline.specs.Tests.{run_of, goes_on, longer, run_text};

    // The run of one test.
    fn of(row: &'a JudgmentRow) -> Run<'a>
        ensures { plain_run result ≡ run_of (plain_judgment row.entry.now) }
    {
        Run {
            value: &row.value,
            first: row.time,
            last: row.time,
        }
    }

    // Whether the test goes on with the run.
    #[tactic(auto, unfolding(crate::specs::Tests::goes_on))]
    fn goes_on(&self, row: &JudgmentRow) -> bool
        ensures { result ≡ goes_on (plain_run self.now) (plain_judgment row.now) }
    {
        row.time.saturating_sub(self.last) == 1 && is_same(&row.value, self.value)
    }

    // The run with one more test.
    fn longer(&self, row: &JudgmentRow) -> Run<'a>
        ensures { plain_run result ≡ longer (plain_run self.now) (plain_judgment row.now) }
    {
        Run {
            value: self.value,
            first: self.first,
            last: row.time,
        }
    }

    // Appends the run.
    #[tactic(auto, unfolding(crate::specs::Tests::run_text))]
    fn put(&self, alloc: Global, to: &mut Vec<u8>) -> Result<(), AllocError>
        ensures { OnOk result (to.new.items ≡ to.old.items ++ run_text (plain_run self.now)) }
    {
        put_value(alloc, to, self.value)?;
        to.extend_from_slice(b" at ")?;
        put_digits(to, self.first)?;
        put_last(to, self.first, self.last)
    }

    // Goes on with a test: the run is longer, or it is told, and that of the test begins.
    fn next(
        &self,
        alloc: Global,
        to: &mut Vec<u8>,
        row: &'a JudgmentRow,
    ) -> Result<Run<'a>, AllocError>
        ensures { IfOk result (λ run. (rest : List PlainJudgment)
            → to.new.items ++ runs_from (plain_run run) rest ≡ to.old.items ++ runs_from (plain_run self.now) (plain_judgment row.entry.now ∷ rest)) }
    {
        if self.goes_on(row) {
            Ok(self.longer(row))
        } else {
            self.put(alloc, to)?;
            to.extend_from_slice(b", ")?;
            Ok(Run::of(row))
        }
    }
}

// Appends the runs from a run on.
fn put_runs<'a>(
    alloc: Global,
    to: &mut Vec<u8>,
    first: Run<'a>,
    more: &[&'a JudgmentRow],
) -> Result<(), AllocError>
    ensures { OnOk result (to.new.items ≡ to.old.items ++ runs_from (plain_run first.entry) (lent_judgments more.now)) }
{
    let mut run = first;
    for row in more {
        run = run.next(alloc, to, row)?;
    }
    run.put(alloc, to)
}

// Appends the runs of tests.
#[tactic(auto, unfolding(crate::specs::Tests::runs_text))]
fn put_all(alloc: Global, to: &mut Vec<u8>, rows: &[&JudgmentRow]) -> Result<(), AllocError>
    ensures { OnOk result (to.new.items ≡ to.old.items ++ runs_text (lent_judgments rows.now)) }
{
    match rows.split_first() {
        Some((first, more)) => put_runs(alloc, to, Run::of(first), more),
        None => Ok(()),
    }
}

impl<'a> Source<'a> {
    ghost use Rattle.std.specs.Prelude.{slice_get};
    ghost use Rattle.std.specs.Option.{option_to_list};
    ghost use Rattle.lucid_show_outline.specs.Views.{view_of};
    ghost use Rattle.lucid_show_outline.specs.Tests.{judgments_at};

    // Adds the judgment of a number, where it is there.
    fn add_row(&self, rows: &mut Vec<&'a JudgmentRow>, number: u64) -> Result<(), AllocError>
        ensures { OnOk result (lent_judgments rows.new.items ≡ lent_judgments rows.old.items ++ option_to_list (slice_get (view_of self.now).judgments number)) }
    {
        if let Some(row) = self.judgment(number) {
            rows.push(row)?;
        }
        Ok(())
    }

    // The judgments of these numbers, as far as they are there.
    fn rows(&self, numbers: &[u64]) -> Result<Vec<&'a JudgmentRow>, AllocError>
        ensures { IfOk result (λ rows. lent_judgments rows.items ≡ judgments_at (view_of self.now).judgments numbers.now) }
    {
        let mut rows = Vec::new(self.alloc);
        for number in numbers {
            self.add_row(&mut rows, *number)?;
        }
        Ok(rows)
    }

    /// Appends the values of the tests of a search, those that follow each other and are equal together.
    pub(crate) fn put_tests(&self, to: &mut Vec<u8>, tests: &[u64]) -> Result<(), AllocError>
        ensures { OnOk result (to.new.items ≡ to.old.items ++ runs_text (judgments_at (view_of self.now).judgments tests.now)) }
    {
        let rows = self.rows(tests)?;
        put_all(self.alloc, to, &rows)
    }
}
