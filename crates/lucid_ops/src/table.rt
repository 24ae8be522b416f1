//! A table in which a row is found by its form and its spelling.
ghost use Rattle.std.specs.Prelude.{◌≡◌, ◌≤◌, ◌↔◌, IsTrue, IsSome, IfSome, map};
ghost use Rattle.std.specs.List.{find};
ghost use Rattle.std.specs.Option.{option_map};
ghost use Rattle.std.specs.Ordering.{is_lt};
ghost use Rattle.lucid_ops.specs.Rows.{rises, row_order, has};

use crate::op::{Form, OpRow};
use std::marker::Model;

// The most rows of a table.
const MAX_ROWS: usize = 256;

/// At most 256 rows, each of which stands before the next: by its form, and where the forms are the same by the bytes of
/// its spelling. So no two have the same form and the same spelling. It is seen as the list of its rows.
#[derive(Drop)]
pub struct Table<R: TableRow, const N: usize> {
    rows: [R; N],
}

impl<R: TableRow, const N: usize> Model for Table<R, N> {
    ghost use Rattle.std.specs.Prelude.{List, IsTrue, map, ◌≤◌};
    ghost use Rattle.lucid_ops.specs.Rows.{rises};

    ghost Value = { List R };

    ghost view = { λ t. t.rows };

    ghost invariant = { λ t. IsTrue (rises (map R.seen_row t.rows)) × (N ≤ 256) };
}

/// A table of N operators, seen as the list of its rows.
pub type OpTable<const N: usize> = Table<OpRow, N>;

/// A row that is found by its form and its spelling.
pub trait TableRow: Copy {
    ghost use Rattle.lucid_ops.specs.Row.{Row};

    // The row in its plain form.
    ghost seen_row: { Self → Row };

    /// The form of its operator.
    fn form(&self) -> Form
        ensures { result ≡ (seen_row self.now).form };

    /// The bytes that stand for its operator in a source.
    fn spelling(&self) -> &[u8]
        ensures { result.now ≡ (seen_row self.now).spelling };
}

// The row stands before the next one.
fn precedes<R: TableRow>(row: &R, next: &R) -> bool
    ensures { result ≡ is_lt (row_order (R.seen_row row.now) (R.seen_row next.now)) }
{
    row.form()
        .cmp(&next.form())
        .then_with(|| row.spelling().cmp(&next.spelling()))
        .is_lt()
}

// Each row stands before the next one.
#[tactic(auto, using(crate::proofs::RowsInOrder::rises_short))]
fn rise<R: TableRow>(rows: &[R]) -> bool
    ensures { result ≡ rises (map R.seen_row rows.now) }
{
    let mut rest = rows;
    while let [row, next, ..] = rest {
        if !precedes(row, next) {
            return false;
        }
        rest = &rest[1..];
    }
    true
}

// The row has this form and this spelling.
fn stands_for<R: TableRow>(row: &R, form: Form, spelling: &[u8]) -> bool
    ensures { result ≡ has form spelling.now (R.seen_row row.now) }
{
    row.form() == form && row.spelling() == spelling
}

impl<R: TableRow, const N: usize> Table<R, N> {
    // The table of rows that are known to be in order.
    pub(crate) fn of(rows: [R; N]) -> Table<R, N>
        requires order { IsTrue (rises (map R.seen_row rows)) }
        requires few { N ≤ 256 }
        ensures { result ≡ rows }
    {
        Table { rows }
    }

    /// The table of these rows, or nothing where there are more than 256 of them or one does not stand before the next:
    /// by its form, and where the forms are the same by the bytes of its spelling.
    pub fn make(rows: [R; N]) -> Option<Table<R, N>>
        ensures accepted { IsSome result ↔ (IsTrue (rises (map R.seen_row rows)) × (N ≤ 256)) }
        ensures made { IfSome result (λ table. table ≡ rows) }
    {
        if N > MAX_ROWS || !rise(rows.as_slice()) {
            return None;
        }
        Some(Table { rows })
    }

    /// The row with this form and this spelling, if there is one. No two rows have both.
    pub fn find(&self, form: Form, spelling: &[u8]) -> Option<R>
        ensures found { result ≡ find (λ r. has form spelling.now (R.seen_row r)) self.now }
        ensures in_plain_form { option_map R.seen_row result ≡ find (has form spelling.now) (map R.seen_row self.now) }
    {
        self.rows
            .iter()
            .find(|row| stands_for(*row, form, spelling))
            .copied()
    }
}
