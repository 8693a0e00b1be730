//! Who acts by a key, and where a player sits.

use bridge_cards::Seat;

/// A player of the session.
#[derive(Clone, Copy)]
pub struct Player {
    /// The pair's number.
    pub pair: u8,
    /// Whether it is the pair's first player.
    pub first: bool,
}

/// Where a player sits in a round.
#[derive(Clone, Copy)]
pub struct Seating {
    /// The index of the table's row among the rows of the movement, from 0.
    pub row: usize,
    /// The table's number.
    pub table: u8,
    /// The seat.
    pub seat: Seat,
    /// The set of boards that the table plays.
    pub set: u8,
}
