//! One table in one round.
ghost use Rattle.std.specs.Prelude.{◌≡◌, ◌↔◌, IsTrue};
ghost use Rattle.bridge_movement.specs.Row.{IsLive, is_live, SitsIn, ShareAPair, SeatPairTwice, PlaySetAgain};

/// Who meets at one table in one round, and which boards they play.
#[derive(Clone, Copy, Debug, Default, PartialEq, Eq, Hash)]
pub struct Row {
    /// The round, from 1.
    pub round: u8,
    /// The table, from 1.
    pub table: u8,
    /// The pair that sits North and South, from 1, or 0 for nobody.
    pub ns: u8,
    /// The pair that sits East and West, from 1, or 0 for nobody.
    pub ew: u8,
    /// The set of boards, from 1.
    pub set: u8,
}

impl Row {
    /// Whether both sides have a pair. Only such a row is played: a pair without opponents sits out.
    pub fn is_live(self) -> bool
        ensures live { IsTrue result ↔ IsLive self }
        ensures test { result ≡ is_live self }
    {
        self.ns != 0 && self.ew != 0
    }

    /// Whether the pair stands in the row, on either side.
    fn seats(self, pair: u8) -> bool
        ensures { IsTrue result ↔ SitsIn self pair }
    {
        self.ns == pair || self.ew == pair
    }

    /// Whether a pair stands in both rows.
    fn shares_pair(self, other: Row) -> bool
        ensures { IsTrue result ↔ ShareAPair self other }
    {
        (self.ns != 0 && other.seats(self.ns)) || (self.ew != 0 && other.seats(self.ew))
    }

    /// Whether the two rows put a pair at two places in one round.
    pub(crate) fn seats_pair_twice(self, other: Row) -> bool
        ensures { IsTrue result ↔ SeatPairTwice self other }
    {
        self.round == other.round && self.shares_pair(other)
    }

    /// Whether a pair plays one set of boards in both rows.
    pub(crate) fn plays_set_again(self, other: Row) -> bool
        ensures { IsTrue result ↔ PlaySetAgain self other }
    {
        self.is_live() && other.is_live() && self.set == other.set && self.shares_pair(other)
    }
}
