//! The levels of bids.
ghost use Rattle.std.specs.Prelude.{◌≡◌, ◌↔◌, IsSome, IfSome};
ghost use Rattle.bridge_auction.specs.Level.{IsLevel};

use bridge_cards::OutOfRange;
use std::fmt;
use std::marker::Model;

/// The level of a bid: the number of tricks above six that it promises, 1 to 7 (Law 18A).
#[derive(Clone, Copy, Debug, PartialEq, Eq, PartialOrd, Ord, Hash)]
pub struct Level {
    /// The odd tricks that it names, 1 to 7.
    tricks: u8,
}

impl Model for Level {
    ghost use Rattle.std.specs.Prelude.{ℕ};
    ghost use Rattle.bridge_auction.specs.Level.{IsLevel};

    ghost Value = { ℕ };

    ghost view = { λ l. l.tricks };

    ghost invariant = { λ l. IsLevel l.tricks };

    ghost inverse = { λ n. record { tricks = n } };
}

impl Level {
    /// The level of that number, or `None` where it is not from 1 to 7.
    pub fn new(number: u8) -> Option<Level>
        ensures valid { IsSome result ↔ IsLevel number }
        ensures value { IfSome result (λ level. level ≡ number) }
    {
        if (1..=7).contains(&number) {
            Some(Level { tricks: number })
        } else {
            None
        }
    }

    /// The level as a number, 1 to 7.
    pub fn number(self) -> u8
        ensures number { result ≡ self }
        ensures range { IsLevel result }
    {
        self.tricks
    }
}

/// The level's digit.
impl fmt::Display for Level {
    ghost use Rattle.std.specs.Prelude.{Some};
    ghost use Rattle.bridge_auction.specs.Spelling.{level_text};

    ghost output = { λ level. Some (level_text level) };

    fn fmt<W: fmt::Write>(&self, f: &mut fmt::Formatter<W>) -> fmt::Result {
        f.write_char(char::from(b'0' + self.tricks))
    }
}

/// As `new`, with the number where it is out of range.
impl TryFrom<u8> for Level {
    type Error = OutOfRange;

    ghost use Rattle.std.specs.Prelude.{◌≡◌, ◌↔◌, IsOk, IfOk};
    ghost use Rattle.bridge_auction.specs.Level.{IsLevel};

    ghost try_from_gives = { λ n r. (IsOk r ↔ IsLevel n) × IfOk r (λ value. value ≡ n) };

    fn try_from(number: u8) -> Result<Level, OutOfRange> {
        Level::new(number).ok_or(OutOfRange(number))
    }
}
