//! The suits (Law 1).
ghost use Rattle.std.specs.Prelude.{◌≡◌, ◌≢◌, ◌<◌, IfSome, IfNone};
ghost use Rattle.bridge_cards.specs.Suit.{suit_number, suit_letter};
ghost use Rattle.bridge_cards.specs.declared.suit.Suit.{Suit};

use std::fmt;

/// A suit, from the lowest to the highest (Law 1).
#[derive(Clone, Copy, Debug, PartialEq, Eq, PartialOrd, Ord, Hash)]
pub enum Suit {
    /// The lowest suit, a minor.
    Clubs,
    /// The higher minor.
    Diamonds,
    /// The lower major.
    Hearts,
    /// The highest suit, a major.
    Spades,
}

impl Suit {
    /// The four suits, ascending.
    pub const ALL: [Suit; 4] = [Suit::Clubs, Suit::Diamonds, Suit::Hearts, Suit::Spades];

    /// The suit's number: 0 for clubs to 3 for spades, so that a higher suit has a higher number.
    pub fn number(self) -> u8
        ensures number { result ≡ suit_number self }
        ensures range { result < 4 }
    {
        match self {
            Suit::Clubs => 0,
            Suit::Diamonds => 1,
            Suit::Hearts => 2,
            Suit::Spades => 3,
        }
    }

    /// The suit's letter: `C`, `D`, `H` or `S`.
    pub fn letter(self) -> u8
        ensures letter { result ≡ suit_letter self }
        ensures ascii { result < 128 }
    {
        match self {
            Suit::Clubs => b'C',
            Suit::Diamonds => b'D',
            Suit::Hearts => b'H',
            Suit::Spades => b'S',
        }
    }

    /// The suit of that letter, or `None` where it is no suit's.
    pub fn from_letter(letter: u8) -> Option<Suit>
        ensures suit { IfSome result (λ suit. suit_letter suit ≡ letter) }
        ensures none { IfNone result ((suit : Suit) → suit_letter suit ≢ letter) }
    {
        match letter {
            b'C' => Some(Suit::Clubs),
            b'D' => Some(Suit::Diamonds),
            b'H' => Some(Suit::Hearts),
            b'S' => Some(Suit::Spades),
            _ => None,
        }
    }
}

/// The suit's letter.
impl fmt::Display for Suit {
    ghost use Rattle.std.specs.Prelude.{Some, [], ◌∷◌};
    ghost use Rattle.bridge_cards.specs.Suit.{suit_letter};

    ghost output = { λ suit. Some (suit_letter suit ∷ []) };

    fn fmt<W: fmt::Write>(&self, f: &mut fmt::Formatter<W>) -> fmt::Result {
        f.write_char(char::from(self.letter()))
    }
}
