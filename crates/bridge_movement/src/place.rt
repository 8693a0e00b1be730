//! Where a pair plays in a round.
ghost use Rattle.std.specs.Prelude.{◌≡◌, MatchOption, IfSome, IfNone};
ghost use Rattle.bridge_movement.specs.Seating.{IsSeat, HasSeat, PlaysAt, SitsOut, seat_of, IsFirstSeat};

use crate::row::Row;
use bridge_cards::Side;

/// Where a pair plays in a round.
#[derive(Clone, Copy, Debug, PartialEq, Eq, Hash)]
pub struct Place {
    /// The table, from 1.
    pub table: u8,
    /// The side on which the pair sits.
    pub side: Side,
    /// The set of boards that is played, from 1.
    pub set: u8,
}

/// Where the row puts the pair, if it is live, is of the round and has the pair.
fn place_at(row: Row, round: u8, pair: u8) -> Option<Place>
    ensures value { result ≡ seat_of round pair row }
    ensures seat { MatchOption result (¬ HasSeat round pair row) (λ place. IsSeat round pair place row) }
{
    if row.round != round || !row.is_live() {
        return None;
    }
    let side = if row.ns == pair {
        Side::NorthSouth
    } else if row.ew == pair {
        Side::EastWest
    } else {
        return None;
    };
    Some(Place {
        table: row.table,
        side,
        set: row.set,
    })
}

/// Where the rows put the pair in the round.
pub(crate) fn place_in(rows: &[Row], round: u8, pair: u8) -> Option<Place>
    ensures first { IsFirstSeat rows.now round pair result }
    ensures plays { IfSome result (PlaysAt rows.now round pair) }
    ensures sits_out { IfNone result (SitsOut rows.now round pair) }
{
    rows.iter().find_map(|row| place_at(*row, round, pair))
}
