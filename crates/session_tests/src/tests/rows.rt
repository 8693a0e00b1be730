//! Rows of a movement, and the plays in them.
use bridge_cards::Seat;
use bridge_config::Config;
use bridge_movement::Row;
use bridge_session::PlayId;

/// Whether two pairs play the row.
pub fn is_played(row: Row) -> bool {
    row.ns != 0 && row.ew != 0
}

/// The row of a round that two pairs play, one of them this one.
pub fn row_of_pair(config: &Config, round: usize, pair: u8) -> Option<Row> {
    for row in config.fields().movement.rows() {
        let is_of_pair = row.ns == pair || row.ew == pair;
        if usize::from(row.round) == round && is_played(*row) && is_of_pair {
            return Some(*row);
        }
    }
    None
}

/// The row of a round and table, if two pairs play there.
pub fn row_at(config: &Config, round: usize, table: u8) -> Option<Row> {
    for row in config.fields().movement.rows() {
        if usize::from(row.round) == round && row.table == table && is_played(*row) {
            return Some(*row);
        }
    }
    None
}

/// The row of a play, if two pairs play there.
pub fn row_of_play(config: &Config, play: PlayId) -> Option<Row> {
    let round = usize::from(play.round.number());
    row_at(config, round, play.table.number())
}

/// Whether it is the play of that index in the row.
pub fn is_play(play: PlayId, row: Row, index: u8) -> bool {
    play.round.number() == row.round
        && play.table.number() == row.table
        && play.index.number() == index
}

/// Where a pair's player sits: the first North or East, the second South or West.
pub fn seat(row: Row, pair: u8, first: bool) -> Seat {
    match (row.ns == pair, first) {
        (true, true) => Seat::North,
        (true, false) => Seat::South,
        (false, true) => Seat::East,
        (false, false) => Seat::West,
    }
}
