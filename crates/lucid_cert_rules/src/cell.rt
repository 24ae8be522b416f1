//! What is asked for by a name or a call.
ghost use Rattle.std.specs.Prelude.{◌≡◌, map};
ghost use Rattle.lucid_equations.specs.Rows.{row_at};
ghost use Rattle.lucid_cert_rules.specs.Certificates.{plain_judgment};
ghost use Rattle.lucid_cert_rules.specs.Cells.{by_uses, cell_of, asked_at};

use crate::JudgmentRow;
use lucid_equations::{Node, Table};

/// What a name or a call asks for.
#[derive(Clone, Copy, PartialEq, Eq, Hash)]
pub enum Cell {
    /// The value where a reference or a call goes on, by the number of its judgment.
    Named { judgment: u64 },
    /// The element of an input at a time.
    Element { stream: u32, time: u64 },
}

// The node of a number.
fn node_at(table: &Table, number: u32) -> Option<Node>
    ensures { result ≡ row_at table.now number }
{
    let row = table.nodes.items().get(number as usize)?;
    Some(row.node)
}

// Where a reference or a call goes on.
fn goes_on(row: &JudgmentRow) -> Option<Cell>
    ensures { result ≡ by_uses row.now.uses }
{
    let judgment = *row.uses.items().first()?;
    Some(Cell::Named { judgment })
}

// What a judgment asks for.
fn cell_of(table: &Table, row: &JudgmentRow) -> Option<Cell>
    ensures { result ≡ cell_of table.now (plain_judgment row.now) }
{
    match node_at(table, row.node)? {
        Node::Input { stream } => Some(Cell::Element {
            stream,
            time: row.time,
        }),
        Node::Refer { .. } | Node::Call { .. } => goes_on(row),
        _ => None,
    }
}

/// What the judgment of a number asks for, where it is one of a name or a call.
pub fn asked_at(table: &Table, judgments: &[JudgmentRow], number: u64) -> Option<Cell>
    ensures { result ≡ asked_at table.now (map plain_judgment judgments.now) number }
{
    cell_of(table, judgments.get(number as usize)?)
}
