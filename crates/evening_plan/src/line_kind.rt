//! What the lines of a configuration state.

/// What a line of a configuration states.
#[derive(Clone, Copy, Debug, PartialEq, Eq)]
pub enum LineKind {
    /// The name of the event.
    Event,
    /// The name of where it is played.
    Site,
    /// The date.
    Date,
    /// How scores are compared.
    Scoring,
    /// The number of boards in a set.
    Boards,
    /// A Mitchell movement.
    Mitchell,
    /// The shape of a movement whose rows follow.
    Movement,
    /// A row of a movement.
    Row,
    /// The director's key.
    Director,
    /// The pair of that number, from 1.
    Pair(u32),
    /// Nothing: the last pair's line was the last.
    End,
}

/// How many lines of rows and of pairs follow the sixth line.
#[derive(Clone, Copy)]
pub struct Sizes {
    /// The number of rows.
    pub rows: u32,
    /// The number of pairs.
    pub pairs: u32,
}
