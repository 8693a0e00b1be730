//! Where rows are not in order, and what is wrong with a row.
ghost use Rattle.std.specs.Prelude.{◌≡◌, ◌+◌, ◌<◌, ◌≤◌, ◌↔◌, ℕ, IsTrue, length, IfSome, MatchOption};
ghost use Rattle.bridge_movement.specs.Shape.{IsShape};
ghost use Rattle.bridge_movement.specs.Fair.{IsDue, IsComplete};
ghost use Rattle.bridge_movement.specs.Refused.{IsFirstMisplaced, IsFaultless, IsFaultOf, refused_row};
ghost use Rattle.bridge_movement.specs.Refused.{IsFirstFault, IsFaultlessAt};
ghost use Rattle.bridge_movement.specs.declared.shape.TheConstants.{MOST_ROWS};

use crate::refused::MovementRefused;
use crate::row::Row;
use crate::shape::Shape;

/// Whether the row is the one due at the index, from 0.
fn is_due(shape: Shape, index: usize, row: Row) -> bool
    requires { IsShape shape }
    ensures { IsTrue result ↔ IsDue shape index row }
{
    let tables = usize::from(shape.tables);
    index < shape.row_count()
        && usize::from(row.round) == index / tables + 1
        && usize::from(row.table) == index % tables + 1
}

/// The least index, from 0, at which the row due doesn't stand, or `None` where the rows are complete and in order.
pub(crate) fn first_misplaced(shape: Shape, rows: &[Row]) -> Option<usize>
    requires { IsShape shape }
    ensures first { MatchOption result (IsComplete shape rows.now) (IsFirstMisplaced shape rows.now) }
    ensures most { MatchOption result (length rows.now ≤ MOST_ROWS) (λ index. index ≤ MOST_ROWS) }
{
    for (index, row) in rows.iter().enumerate() {
        if !is_due(shape, index, *row) {
            return Some(index);
        }
    }
    if rows.len() < shape.row_count() {
        Some(rows.len())
    } else {
        None
    }
}

/// The fault of the row that comes after the earlier ones, of that number, from 1.
fn fault_of(shape: Shape, earlier: &[Row], row: Row, number: u16) -> Option<MovementRefused>
    ensures fault { MatchOption result (IsFaultless shape earlier.now row) (IsFaultOf shape earlier.now row) }
    ensures number { IfSome result (λ refused. refused_row refused ≡ number) }
{
    if row.ns > shape.pairs || row.ew > shape.pairs {
        Some(MovementRefused::BadPair(number))
    } else if row.ns == row.ew && row.ns != 0 {
        Some(MovementRefused::SamePair(number))
    } else if row.set == 0 || row.set > shape.sets {
        Some(MovementRefused::BadSet(number))
    } else if earlier.iter().any(|a| a.seats_pair_twice(row)) {
        Some(MovementRefused::PairTwice(number))
    } else if earlier.iter().any(|a| a.plays_set_again(row)) {
        Some(MovementRefused::SetAgain(number))
    } else {
        None
    }
}

/// The fault of the first row that has one.
pub(crate) fn first_fault(shape: Shape, rows: &[Row]) -> Option<MovementRefused>
    requires { length rows.now ≤ MOST_ROWS }
    ensures { MatchOption result
        ((k : ℕ) → k < length rows.now → IsFaultlessAt shape rows.now k)
        (λ refused. (k : ℕ) × (refused_row refused ≡ k + 1) × IsFirstFault shape rows.now k refused) }
{
    for (k, row) in rows.iter().enumerate() {
        if let Some(refused) = fault_of(shape, &rows[..k], *row, k as u16 + 1) {
            return Some(refused);
        }
    }
    None
}
