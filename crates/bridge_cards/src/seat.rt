//! Seats and sides of the table.
ghost use Rattle.std.specs.Prelude.{◌≡◌, ◌≢◌, ◌<◌, ◌≤◌, ◌∷◌, [], length, IfSome, IfNone};
ghost use Rattle.bridge_cards.specs.Seat.{seat_number, clockwise_from, side_of, other_side, seat_letter};
ghost use Rattle.bridge_cards.specs.declared.seat.Seat.{Seat};

use std::fmt;

/// A player's place at the table, clockwise from North.
#[derive(Clone, Copy, Debug, PartialEq, Eq, Hash)]
pub enum Seat {
    /// South's partner.
    North,
    /// North's left-hand opponent.
    East,
    /// North's partner.
    South,
    /// North's right-hand opponent.
    West,
}

/// The two partners who play together.
#[derive(Clone, Copy, Debug, PartialEq, Eq, Hash)]
pub enum Side {
    /// North and South.
    NorthSouth,
    /// East and West.
    EastWest,
}

impl Seat {
    /// The four seats, clockwise from North.
    pub const ALL: [Seat; 4] = [Seat::North, Seat::East, Seat::South, Seat::West];

    /// The seat's number: 0 for North, then clockwise to 3 for West.
    pub fn number(self) -> u8
        ensures number { result ≡ seat_number self }
        ensures range { result < 4 }
    {
        match self {
            Seat::North => 0,
            Seat::East => 1,
            Seat::South => 2,
            Seat::West => 3,
        }
    }

    /// The seat that many places clockwise from this one.
    pub fn clockwise(self, places: usize) -> Seat
        ensures { result ≡ clockwise_from self places }
    {
        match (usize::from(self.number()) + places % 4) % 4 {
            0 => Seat::North,
            1 => Seat::East,
            2 => Seat::South,
            _ => Seat::West,
        }
    }

    /// The left-hand opponent, who plays next.
    pub fn left(self) -> Seat
        ensures { result ≡ clockwise_from self 1 }
    {
        self.clockwise(1)
    }

    /// The player opposite.
    pub fn partner(self) -> Seat
        ensures { result ≡ clockwise_from self 2 }
    {
        self.clockwise(2)
    }

    /// The side that the seat plays for.
    pub fn side(self) -> Side
        ensures { result ≡ side_of self }
    {
        match self {
            Seat::North | Seat::South => Side::NorthSouth,
            Seat::East | Seat::West => Side::EastWest,
        }
    }

    /// The seat's letter: `N`, `E`, `S` or `W`.
    pub fn letter(self) -> u8
        ensures letter { result ≡ seat_letter self }
        ensures ascii { result < 128 }
    {
        match self {
            Seat::North => b'N',
            Seat::East => b'E',
            Seat::South => b'S',
            Seat::West => b'W',
        }
    }

    /// The seat of that letter, or `None` where it is no seat's.
    pub fn from_letter(letter: u8) -> Option<Seat>
        ensures seat { IfSome result (λ seat. seat_letter seat ≡ letter) }
        ensures none { IfNone result ((seat : Seat) → seat_letter seat ≢ letter) }
    {
        match letter {
            b'N' => Some(Seat::North),
            b'E' => Some(Seat::East),
            b'S' => Some(Seat::South),
            b'W' => Some(Seat::West),
            _ => None,
        }
    }
}

impl Side {
    /// The two sides, North's first.
    pub const ALL: [Side; 2] = [Side::NorthSouth, Side::EastWest];

    /// The opponents' side.
    pub fn other(self) -> Side
        ensures { result ≡ other_side self }
    {
        match self {
            Side::NorthSouth => Side::EastWest,
            Side::EastWest => Side::NorthSouth,
        }
    }
}

/// The seat's letter as a text.
pub fn seat_text(seat: Seat) -> &'static str
    ensures text { result.now ≡ seat_letter seat ∷ [] }
    ensures short { length result.now ≤ 1 }
{
    match seat {
        Seat::North => "N",
        Seat::East => "E",
        Seat::South => "S",
        Seat::West => "W",
    }
}

/// The seat's letter.
impl fmt::Display for Seat {
    ghost use Rattle.std.specs.Prelude.{Some, [], ◌∷◌};
    ghost use Rattle.bridge_cards.specs.Seat.{seat_letter};

    ghost output = { λ seat. Some (seat_letter seat ∷ []) };

    fn fmt<W: fmt::Write>(&self, f: &mut fmt::Formatter<W>) -> fmt::Result {
        f.write_char(char::from(self.letter()))
    }
}

/// `NS` or `EW`.
impl fmt::Display for Side {
    ghost use Rattle.std.specs.Prelude.{Some};
    ghost use Rattle.bridge_cards.specs.Seat.{side_text};

    ghost output = { λ side. Some (side_text side) };

    fn fmt<W: fmt::Write>(&self, f: &mut fmt::Formatter<W>) -> fmt::Result {
        f.write_str(match self {
            Side::NorthSouth => "NS",
            Side::EastWest => "EW",
        })
    }
}
