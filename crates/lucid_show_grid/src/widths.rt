//! How wide the labels and the values of a panel are.
ghost use Rattle.std.specs.Prelude.{◌≡◌, ◌≤◌, length, decimal, map};
ghost use Rattle.lucid_show_grid.specs.Grids.{plain_line, plain_mark, plain_panel};
ghost use Rattle.lucid_show_grid.specs.Widths.{longest, labels, values_of, values, columns_of};

use crate::grid::{Line, Mark, Panel};
use itoa::Buffer;

/// The columns of each label of a panel, and those of each value.
#[derive(Clone, Copy)]
pub(crate) struct Columns {
    pub(crate) labels: usize,
    pub(crate) values: usize,
}

// No room is made for what is longer.
const WIDEST: usize = 100;

// The blanks in front of a value.
const BETWEEN: usize = 2;

// The length of the longest label, and this at least.
#[tactic(auto, using(crate::proofs::Loops::labels_more))]
fn longest_label(lines: &[Line], least: usize) -> usize
    ensures { result ≡ longest least (labels (map plain_line lines.now)) }
{
    let mut longest = least;
    for line in lines {
        longest = longest.max(line.label.len());
    }
    longest
}

#[tactic(auto, using(crate::proofs::Loops::marks_more))]
fn longest_mark(marks: &[Mark], least: usize) -> usize
    ensures { result ≡ longest least (values_of (map plain_mark marks.now)) }
{
    let mut longest = least;
    for mark in marks {
        longest = longest.max(mark.value.len());
    }
    longest
}

#[tactic(auto, using(crate::proofs::Loops::values_more))]
fn longest_value(lines: &[Line], least: usize) -> usize
    ensures { result ≡ longest least (values (map plain_line lines.now)) }
{
    let mut longest = least;
    for line in lines {
        longest = longest_mark(&line.marks, longest);
    }
    longest
}

// How many digits a number has.
fn digits(number: u64) -> usize
    ensures { result ≡ length (decimal number) }
{
    Buffer::new().format(number).len()
}

#[tactic(auto, using(crate::proofs::Loops::times_more))]
fn longest_time(times: &[u64], least: usize) -> usize
    ensures { result ≡ longest least (map decimal times.now) }
{
    let mut longest = least;
    for time in times {
        longest = longest.max(digits(*time));
    }
    longest
}

/// The columns of a panel.
#[tactic(auto, unfolding(crate::specs::Widths::columns_of))]
pub(crate) fn columns_of(panel: &Panel) -> Columns
    ensures value { result ≡ columns_of (plain_panel panel.now) }
    ensures some { 2 ≤ result.values }
{
    let labels = longest_label(&panel.lines, 4).min(WIDEST) + BETWEEN;
    let times = longest_time(&panel.times, 3);
    let values = longest_value(&panel.lines, times).min(WIDEST) + BETWEEN;
    Columns { labels, values }
}
