//! The tricks that each declarer takes in each denomination.
ghost use Rattle.std.specs.Prelude.{◌≡◌, ◌≤◌};
ghost use Rattle.bridge_par.specs.Tricks.{tricks_by, tricks_with, tricks_in, AreTricks, IsTrickTable};

use bridge_auction::Denomination;
use bridge_cards::Seat;

/// The tricks that each seat takes as declarer, 0 to 13.
#[derive(Clone, Copy, Debug, Default, PartialEq, Eq)]
pub struct DeclarerTricks {
    /// North's.
    pub north: u8,
    /// East's.
    pub east: u8,
    /// South's.
    pub south: u8,
    /// West's.
    pub west: u8,
}

/// The tricks that each declarer takes in each denomination.
#[derive(Clone, Copy, Debug, Default, PartialEq, Eq)]
pub struct TrickTable {
    /// With clubs as trumps.
    pub clubs: DeclarerTricks,
    /// With diamonds.
    pub diamonds: DeclarerTricks,
    /// With hearts.
    pub hearts: DeclarerTricks,
    /// With spades.
    pub spades: DeclarerTricks,
    /// With no trumps.
    pub no_trump: DeclarerTricks,
}

impl DeclarerTricks {
    /// Those of that seat.
    pub fn of(&self, seat: Seat) -> u8
        ensures tricks { result ≡ tricks_by self.now seat }
        ensures few { AreTricks self.now → result ≤ 13 }
    {
        match seat {
            Seat::North => self.north,
            Seat::East => self.east,
            Seat::South => self.south,
            Seat::West => self.west,
        }
    }
}

impl TrickTable {
    /// Those of the declarers in that denomination.
    pub fn with(&self, denomination: Denomination) -> DeclarerTricks
        ensures tricks { result ≡ tricks_with self.now denomination }
        ensures few { IsTrickTable self.now → AreTricks result }
    {
        match denomination {
            Denomination::Clubs => self.clubs,
            Denomination::Diamonds => self.diamonds,
            Denomination::Hearts => self.hearts,
            Denomination::Spades => self.spades,
            Denomination::NoTrump => self.no_trump,
        }
    }

    /// Those of that declarer in that denomination.
    pub fn of(&self, denomination: Denomination, seat: Seat) -> u8
        ensures tricks { result ≡ tricks_in self.now denomination seat }
        ensures few { IsTrickTable self.now → result ≤ 13 }
    {
        self.with(denomination).of(seat)
    }
}
