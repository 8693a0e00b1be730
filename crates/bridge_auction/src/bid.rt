//! Bids and their denominations, in order (Law 18).
ghost use Rattle.std.specs.Prelude.{◌≡◌, ◌<◌};
ghost use Rattle.bridge_auction.specs.Bid.{denomination_number, denomination_suit, denomination_at, bid_number, bid_at, IsBid};

use crate::level::Level;
use crate::spelling::denomination_text;
use bridge_cards::{OutOfRange, Suit};
use std::fmt;

/// What a bid names as trump, from the lowest to the highest (Law 18E).
#[derive(Clone, Copy, Debug, PartialEq, Eq, PartialOrd, Ord, Hash)]
pub enum Denomination {
    /// The lowest, a minor suit.
    Clubs,
    /// The higher minor suit.
    Diamonds,
    /// The lower major suit.
    Hearts,
    /// The higher major suit.
    Spades,
    /// The highest: no suit is trump.
    NoTrump,
}

/// A bid: a number of tricks above six, and a denomination (Law 18A). Bids are in order by level, then by denomination.
#[derive(Clone, Copy, Debug, PartialEq, Eq, PartialOrd, Ord, Hash)]
pub struct Bid {
    /// The tricks above six, 1 to 7.
    pub level: Level,
    /// The trump suit, or no trump.
    pub denomination: Denomination,
}

impl Denomination {
    /// The five denominations, ascending.
    pub const ALL: [Denomination; 5] = [
        Denomination::Clubs,
        Denomination::Diamonds,
        Denomination::Hearts,
        Denomination::Spades,
        Denomination::NoTrump,
    ];

    /// The denomination's index in their order: 0 for clubs to 4 for no trump (Law 18E).
    pub fn number(self) -> u8
        ensures number { result ≡ denomination_number self }
        ensures range { result < 5 }
    {
        match self {
            Denomination::Clubs => 0,
            Denomination::Diamonds => 1,
            Denomination::Hearts => 2,
            Denomination::Spades => 3,
            Denomination::NoTrump => 4,
        }
    }

    /// The trump suit; `None` for no trump.
    pub fn suit(self) -> Option<Suit>
        ensures { result ≡ denomination_suit self }
    {
        match self {
            Denomination::Clubs => Some(Suit::Clubs),
            Denomination::Diamonds => Some(Suit::Diamonds),
            Denomination::Hearts => Some(Suit::Hearts),
            Denomination::Spades => Some(Suit::Spades),
            Denomination::NoTrump => None,
        }
    }
}

impl Bid {
    /// How many bids there are.
    pub const COUNT: u8 = 35;

    /// The bid's index in their order: 0 for one club to 34 for seven no trump.
    /// A bid is higher than another exactly where its number is (Law 18B).
    pub fn number(self) -> u8
        ensures number { result ≡ bid_number self }
        ensures range { result < 35 }
        ensures bid { IsBid self }
    {
        5 * (self.level.number() - 1) + self.denomination.number()
    }

    /// The bid at that index in their order, or `None` from 35 on.
    pub fn from_number(number: u8) -> Option<Bid>
        ensures value { result ≡ bid_at number }
    {
        let level = Level::new(number / 5 + 1)?;
        let denomination = denomination_at(number % 5);
        Some(Bid {
            level,
            denomination,
        })
    }
}

/// The denomination at that index in their order.
fn denomination_at(number: u8) -> Denomination
    requires { number < 5 }
    ensures { result ≡ denomination_at number }
{
    match number {
        0 => Denomination::Clubs,
        1 => Denomination::Diamonds,
        2 => Denomination::Hearts,
        3 => Denomination::Spades,
        _ => Denomination::NoTrump,
    }
}

/// The denomination's letters.
impl fmt::Display for Denomination {
    ghost use Rattle.std.specs.Prelude.{Some};
    ghost use Rattle.bridge_auction.specs.Spelling.{denomination_text};

    ghost output = { λ denomination. Some (denomination_text denomination) };

    fn fmt<W: fmt::Write>(&self, f: &mut fmt::Formatter<W>) -> fmt::Result {
        f.write_str(denomination_text(*self))
    }
}

/// The bid's text, as `1C` or `7NT`.
impl fmt::Display for Bid {
    ghost use Rattle.std.specs.Prelude.{Some};
    ghost use Rattle.bridge_auction.specs.Spelling.{bid_text};

    ghost output = { λ bid. Some (bid_text bid) };

    fn fmt<W: fmt::Write>(&self, f: &mut fmt::Formatter<W>) -> fmt::Result {
        f.write_char(char::from(b'0' + self.level.number()))?;
        f.write_str(denomination_text(self.denomination))
    }
}

/// As `from_number`, with the number where it is out of range.
impl TryFrom<u8> for Bid {
    type Error = OutOfRange;

    ghost use Rattle.std.specs.Prelude.{◌≡◌, Some, None, MatchResult};
    ghost use Rattle.bridge_auction.specs.Bid.{bid_at};

    ghost try_from_gives = { λ number made. MatchResult made (λ bid. bid_at number ≡ Some bid) (λ _. bid_at number ≡ None) };

    fn try_from(number: u8) -> Result<Bid, OutOfRange> {
        Bid::from_number(number).ok_or(OutOfRange(number))
    }
}
