//! How large a movement is.
ghost use Rattle.std.specs.Prelude.{◌↔◌, ◌≡◌, ◌≤◌, IsTrue};
ghost use Rattle.bridge_movement.specs.Shape.{IsShape, index_of_row, row_count, rows_before};

/// The most tables of a movement.
pub const MOST_TABLES: u8 = 12;

/// The most rounds of a movement.
pub const MOST_ROUNDS: u8 = 12;

/// The most sets of boards of a movement.
pub const MOST_SETS: u8 = 12;

/// The most pairs of a movement.
pub const MOST_PAIRS: usize = 24;

/// The most rows of a movement: 12 rounds of 12 tables.
pub const MOST_ROWS: usize = 144;

/// How large a movement is.
#[derive(Clone, Copy, Debug, PartialEq, Eq, Hash)]
pub struct Shape {
    /// The number of tables, 2 to 12.
    pub tables: u8,
    /// The number of rounds, 1 to 12.
    pub rounds: u8,
    /// The number of sets of boards, 1 to 12.
    pub sets: u8,
    /// The number of pairs, 2 to 24.
    pub pairs: u8,
    /// The last pair of the first field, 1 to `pairs`: pairs above it are the second field.
    pub split: u8,
}

impl Shape {
    /// Whether each number is within its limits.
    pub fn is_within_limits(self) -> bool
        ensures { IsTrue result ↔ IsShape self }
    {
        (2..=MOST_TABLES).contains(&self.tables)
            && (1..=MOST_ROUNDS).contains(&self.rounds)
            && (1..=MOST_SETS).contains(&self.sets)
            && (2..=MOST_PAIRS as u8).contains(&self.pairs)
            && (1..=self.pairs).contains(&self.split)
    }

    /// The number of rows that a movement of this shape has: one for each table in each round.
    pub fn row_count(self) -> usize
        requires { IsShape self }
        ensures count { result ≡ row_count self }
        ensures most { result ≤ MOST_ROWS }
    {
        usize::from(self.rounds) * usize::from(self.tables)
    }

    /// How many rows of a movement of this shape come before those of a round, from 1.
    pub fn rows_before(self, round: u8) -> usize
        ensures { result ≡ rows_before self round }
    {
        usize::from(round.saturating_sub(1)) * usize::from(self.tables)
    }

    /// The index of the row of a round and a table, both from 1, among the rows of a movement of this shape.
    pub fn index_of_row(self, round: u8, table: u8) -> usize
        ensures { result ≡ index_of_row self round table }
    {
        self.rows_before(round) + usize::from(table.saturating_sub(1))
    }
}
