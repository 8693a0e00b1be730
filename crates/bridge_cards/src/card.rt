//! The cards of the deck (Law 1).
ghost use Rattle.std.specs.Prelude.{◌≡◌, ◌≢◌, ◌↔◌, ℕ, IsSome, IfSome, IfNone};
ghost use Rattle.bridge_cards.specs.Rank.{IsRank};
ghost use Rattle.bridge_cards.specs.Card.{IsCard, card_of, card_suit, card_rank, card_text};

use crate::out_of_range::OutOfRange;
use crate::rank::Rank;
use crate::suit::Suit;
use std::fmt;
use std::marker::Model;
use std::str::FromStr;
use thiserror::Error;

/// How many cards the deck has (Law 1).
pub const DECK: usize = 52;

/// How many cards a suit has, one of each rank (Law 1).
pub const SUIT_CARDS: u8 = 13;

/// A card of the deck (Law 1). Cards are in order by suit, then by rank; the default is the lowest,
/// the 2 of clubs.
#[derive(Clone, Copy, Debug, Default, PartialEq, Eq, PartialOrd, Ord, Hash)]
pub struct Card {
    /// 0 to 51.
    number: u8,
}

impl Model for Card {
    ghost use Rattle.std.specs.Prelude.{ℕ};
    ghost use Rattle.bridge_cards.specs.Card.{IsCard};

    ghost Value = { ℕ };

    ghost view = { λ c. c.number };

    ghost invariant = { λ c. IsCard c.number };

    ghost inverse = { λ n. record { number = n } };
}

impl Card {
    /// How many cards the deck has.
    pub const COUNT: u8 = 52;

    /// The card of that number, or `None` where it is not from 0 to 51.
    pub fn new(number: u8) -> Option<Card>
        ensures valid { IsSome result ↔ IsCard number }
        ensures value { IfSome result (λ card. card ≡ number) }
    {
        if number < Card::COUNT {
            Some(Card { number })
        } else {
            None
        }
    }

    /// The card of that suit and rank.
    pub fn of(suit: Suit, rank: Rank) -> Card
        ensures { result ≡ card_of suit rank }
    {
        Card {
            number: SUIT_CARDS * suit.number() + (rank.number() - 2),
        }
    }

    /// The card's number, 0 to 51: 13 times its suit's number, and its rank's less 2.
    pub fn number(self) -> u8
        ensures number { result ≡ self }
        ensures range { IsCard result }
    {
        self.number
    }

    /// The card's suit.
    pub fn suit(self) -> Suit
        ensures { result ≡ card_suit self }
    {
        match self.number / SUIT_CARDS {
            0 => Suit::Clubs,
            1 => Suit::Diamonds,
            2 => Suit::Hearts,
            _ => Suit::Spades,
        }
    }

    /// The card's rank.
    pub fn rank(self) -> Rank
        ensures rank { result ≡ card_rank self }
        ensures range { IsRank result }
    {
        Rank::of_index(self.number % SUIT_CARDS)
    }

    /// The card's text, as `SK` or `HT`: its suit's letter, and its rank's.
    pub fn text(self) -> [u8; 2]
        ensures { result ≡ card_text self }
    {
        [self.suit().letter(), self.rank().letter()]
    }
}

/// The card of that text, as `SK` or `HT`, or `None` where it is no card's.
pub fn read_card(text: &[u8]) -> Option<Card>
    ensures card { IfSome result (λ card. IsCard card × (text.now ≡ card_text card)) }
    ensures none { IfNone result ((card : ℕ) → IsCard card → text.now ≢ card_text card) }
{
    let [suit, rank] = text else {
        return None;
    };
    Some(Card::of(Suit::from_letter(*suit)?, Rank::from_letter(*rank)?))
}

/// A text that is no card's.
#[derive(Clone, Copy, Debug, PartialEq, Eq, Hash, Error)]
#[error("the text is no card")]
pub struct BadCard;

/// As `read_card`.
impl FromStr for Card {
    type Err = BadCard;

    ghost use Rattle.std.specs.Prelude.{◌≡◌, ◌≢◌, ℕ, MatchResult};
    ghost use Rattle.bridge_cards.specs.Card.{IsCard, card_text};

    ghost from_str_gives = { λ text read. MatchResult read
        (λ card. IsCard card × (text ≡ card_text card)) (λ _. (card : ℕ) → IsCard card → text ≢ card_text card) };

    fn from_str(text: &str) -> Result<Card, BadCard> {
        read_card(text.as_bytes()).ok_or(BadCard)
    }
}

/// The card's text: its suit's letter, and its rank's.
impl fmt::Display for Card {
    ghost use Rattle.std.specs.Prelude.{Some};
    ghost use Rattle.bridge_cards.specs.Card.{card_text};

    ghost output = { λ card. Some (card_text card) };

    fn fmt<W: fmt::Write>(&self, f: &mut fmt::Formatter<W>) -> fmt::Result {
        f.write_char(char::from(self.suit().letter()))?;
        f.write_char(char::from(self.rank().letter()))
    }
}

/// As `new`, with the number where it is out of range.
impl TryFrom<u8> for Card {
    type Error = OutOfRange;

    ghost use Rattle.std.specs.Prelude.{◌≡◌, ◌↔◌, IsOk, IfOk};
    ghost use Rattle.bridge_cards.specs.Card.{IsCard};

    ghost try_from_gives = { λ n r. (IsOk r ↔ IsCard n) × IfOk r (λ value. value ≡ n) };

    fn try_from(number: u8) -> Result<Card, OutOfRange> {
        Card::new(number).ok_or(OutOfRange(number))
    }
}
