//! The row that a pair plays in a round.
ghost use Rattle.std.specs.Prelude.{◌≡◌};
ghost use Rattle.evening_plan.specs.Seat.{has_seat, seat_row};

use bridge_movement::Row;

/// Whether the row is live, of the round, and has the pair.
fn has_seat(round: u8, pair: u8, row: Row) -> bool
    ensures { result ≡ has_seat round pair row }
{
    row.round == round && row.is_live() && (row.ns == pair || row.ew == pair)
}

/// The row that the pair plays in the round; `None` where it sits out.
pub fn seat_row(round: u8, pair: u8, rows: &[Row]) -> Option<Row>
    ensures { result ≡ seat_row round pair rows.now }
{
    for row in rows {
        if has_seat(round, pair, *row) {
            return Some(*row);
        }
    }
    None
}
