//! Where what is asked for stands in a grid.
ghost use Rattle.std.specs.Prelude.{◌≡◌, slice_get};
ghost use Rattle.std.specs.Option.{option_copied};
ghost use Rattle.lucid_cert_rules.specs.Certificates.{plain_judgment};
ghost use Rattle.lucid_equations.specs.Rows.{name_at};
ghost use Rattle.lucid_show_outline.specs.Views.{view_of, used};
ghost use Rattle.lucid_show_drawing.specs.Spots.{base_of, base_at, context_of, frames, without, outer, time_of, test_spot, spot_by, spot_of, spot_for, spot_at};

use lucid_cert_rules::{ContextRow, JudgmentRow};
use lucid_equations::{Entry, Node};
use lucid_show_outline::Source;

/// A line of a panel: an input, or a name, a function or a test at a space. A test is told by the number of its node.
#[derive(Clone, Copy, PartialEq, Eq, PartialOrd, Ord)]
pub enum Row {
    Input { stream: u32 },
    Name { name: u32, space: u64 },
    Test { node: u32, space: u64 },
}

/// Where a value stands: in the panel of a context, in a line of that, and at a time. Of a current name, which has one value for all times, the
/// time is 0.
#[derive(Clone, Copy, PartialEq, Eq, PartialOrd, Ord)]
pub struct Spot {
    pub context: u32,
    pub row: Row,
    pub time: u64,
}

// The number of the context that a row adds a frame to.
#[tactic(auto, unfolding(crate::specs::Spots::base_of))]
fn base_of(row: Option<&ContextRow>) -> u32
    ensures { result ≡ base_of (option_copied row.entry) }
{
    match row {
        Some(ContextRow::Call { base, .. }) => *base,
        Some(ContextRow::Frozen { base, .. }) => *base,
        None => 0,
    }
}

// The number of the context without the innermost frame.
#[tactic(auto, unfolding(crate::specs::Spots::base_at))]
fn base_at(contexts: &[ContextRow], number: u32) -> u32
    ensures { result ≡ base_at contexts.now number }
{
    if number == 0 {
        return 0;
    }
    base_of(contexts.get((number - 1) as usize))
}

// How many frames a context has, so many at most.
fn frames(contexts: &[ContextRow], number: u32, most: u32) -> u32
    ensures { result ≡ frames most contexts.now number }
{
    let mut at = number;
    for count in 0..most {
        if at == 0 {
            return count;
        }
        at = base_at(contexts, at);
    }
    most
}

// The context without so many of the innermost frames.
fn without(contexts: &[ContextRow], count: u32, number: u32) -> u32
    ensures { result ≡ without count contexts.now number }
{
    let mut at = number;
    for _frame in 0..count {
        at = base_at(contexts, at);
    }
    at
}

// The context of the outermost frames, so many.
#[tactic(auto, unfolding(crate::specs::Spots::outer))]
fn outer(contexts: &[ContextRow], level: u32, number: u32) -> u32
    ensures { result ≡ outer contexts.now level number }
{
    let more = frames(contexts, number, number).saturating_sub(level);
    without(contexts, more, number)
}

// A current name has one value for all times.
#[tactic(auto, unfolding(crate::specs::Spots::time_of))]
fn time_of(entry: Option<Entry>, time: u64) -> u64
    ensures { result ≡ time_of entry time }
{
    match entry {
        Some(Entry::Current { .. }) => 0,
        Some(_) => time,
        None => time,
    }
}

/// What a name is.
pub(crate) fn entry(source: &Source<'_>, name: u32) -> Option<Entry>
    ensures { result ≡ name_at (view_of source.now).table name }
{
    let row = source.table().names.items().get(name as usize)?;
    Some(row.kind)
}

// The context of the judgment with which a call goes on.
#[tactic(auto, unfolding(crate::specs::Spots::context_of))]
fn entered(source: &Source<'_>, row: &JudgmentRow) -> u32
    ensures { result ≡ context_of (used (view_of source.now) (plain_judgment row.now).uses 0) }
{
    match source.used(row.uses.items(), 0) {
        Some(body) => body.context,
        None => 0,
    }
}

// Where a test stands that asks for nothing.
fn test_spot(row: &JudgmentRow) -> Spot
    ensures { result ≡ test_spot (plain_judgment row.now) }
{
    let (node, space, time) = (row.node, row.space, row.time);
    Spot {
        context: row.context,
        row: Row::Test { node, space },
        time,
    }
}

// Where the value stands for which a judgment of this node asks, or the test that it is.
#[tactic(auto, unfolding(crate::specs::Spots::spot_by))]
fn spot_by(source: &Source<'_>, row: &JudgmentRow, node: Node) -> Spot
    ensures { result ≡ spot_by (view_of source.now) (plain_judgment row.now) node }
{
    let space = row.space;
    match node {
        Node::Input { stream } => Spot {
            context: 0,
            row: Row::Input { stream },
            time: row.time,
        },
        Node::Refer { name, level } => Spot {
            context: outer(source.contexts(), level, row.context),
            row: Row::Name { name, space },
            time: time_of(entry(source, name), row.time),
        },
        Node::Call { name, .. } => Spot {
            context: entered(source, row),
            row: Row::Name { name, space },
            time: row.time,
        },
        _ => test_spot(row),
    }
}

// The same of a judgment whose node may not be there.
#[tactic(auto, unfolding(crate::specs::Spots::spot_of))]
fn spot_of(source: &Source<'_>, row: &JudgmentRow, node: Option<Node>) -> Spot
    ensures { result ≡ spot_of (view_of source.now) (plain_judgment row.now) node }
{
    match node {
        Some(node) => spot_by(source, row, node),
        None => test_spot(row),
    }
}

// The same, where its node is found.
#[tactic(auto, unfolding(crate::specs::Spots::spot_for))]
fn spot_for(source: &Source<'_>, row: &JudgmentRow) -> Spot
    ensures { result ≡ spot_for (view_of source.now) (plain_judgment row.now) }
{
    spot_of(source, row, source.node(row.node))
}

/// Where the value stands for which the judgment of a number asks, or the test that it is.
#[tactic(auto, unfolding(crate::specs::Spots::spot_at))]
pub(crate) fn spot_at(source: &Source<'_>, number: u64) -> Option<Spot>
    ensures { result ≡ spot_at (view_of source.now) number }
{
    Some(spot_for(source, source.judgment(number)?))
}
