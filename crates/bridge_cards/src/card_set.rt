//! Sets of cards.
ghost use Rattle.std.specs.Prelude.{◌≡◌, ℕ, ◌==◌, ◌&&◌, ◌||◌, ◌<◌, ◌≤◌, ◌↔◌, not, false, IsSome, IsNone, IfSome, IsTrue, MatchBool};
ghost use Rattle.bridge_cards.specs.Card.{IsCard};
ghost use Rattle.bridge_cards.specs.CardSet.{IsCardSet, has_card, card_count, cards_of, is_of_suit};

use crate::card::{Card, DECK, SUIT_CARDS};
use crate::suit::Suit;
use arrayvec::{ArrayVec, IntoIter};
use std::marker::Model;
use std::ops::{BitAnd, BitOr};

/// A set of cards of the deck; by default it has none.
#[derive(Clone, Copy, Debug, Default, PartialEq, Eq, Hash)]
pub struct CardSet {
    /// Bit n says whether the card of number n is there; bits 52 to 63 are 0.
    bits: u64,
}

impl Model for CardSet {
    ghost use Rattle.std.specs.Prelude.{ℕ};
    ghost use Rattle.bridge_cards.specs.CardSet.{IsCardSet};

    ghost Value = { ℕ };

    ghost view = { λ s. s.bits };

    ghost invariant = { λ s. IsCardSet s.bits };

    ghost inverse = { λ n. record { bits = n } };
}

impl CardSet {
    /// The set without a card.
    pub fn new() -> CardSet
        ensures zero { result ≡ 0 }
        ensures cards { (card : ℕ) → has_card result card ≡ false }
    {
        CardSet { bits: 0 }
    }

    /// The set in which bit n says whether it has the card of number n; `None` where one of the
    /// bits 52 to 63 is set.
    pub fn from_bits(bits: u64) -> Option<CardSet>
        ensures valid { IsSome result ↔ IsCardSet bits }
        ensures value { IfSome result (λ cards. cards ≡ bits) }
    {
        if bits < 1 << Card::COUNT {
            Some(CardSet { bits })
        } else {
            None
        }
    }

    /// The number in which bit n says whether the set has the card of number n.
    pub fn bits(self) -> u64
        ensures value { result ≡ self }
        ensures range { IsCardSet result }
    {
        self.bits
    }

    /// Whether the set has the card.
    pub fn has(self, card: Card) -> bool
        ensures { result ≡ has_card self card }
    {
        (self.bits >> card.number()) & 1 == 1
    }

    /// The set with the card too.
    pub fn with(self, card: Card) -> CardSet
        ensures { (other : ℕ) → has_card result other ≡ (has_card self other || other == card) }
    {
        CardSet {
            bits: self.bits | (1 << card.number()),
        }
    }

    /// The set without the card.
    pub fn without(self, card: Card) -> CardSet
        ensures { (other : ℕ) → has_card result other ≡ (has_card self other && not (other == card)) }
    {
        CardSet {
            bits: self.bits & !(1 << card.number()),
        }
    }

    /// The cards that either set has.
    pub fn union(self, other: CardSet) -> CardSet
        ensures cards { (card : ℕ) → has_card result card ≡ (has_card self card || has_card other card) }
        ensures deck { IsCardSet result }
    {
        CardSet {
            bits: self.bits | other.bits,
        }
    }

    /// The cards that both sets have.
    pub fn intersection(self, other: CardSet) -> CardSet
        ensures { (card : ℕ) → has_card result card ≡ (has_card self card && has_card other card) }
    {
        CardSet {
            bits: self.bits & other.bits,
        }
    }

    /// The set's cards that the other set has not.
    pub fn difference(self, other: CardSet) -> CardSet
        ensures { (card : ℕ) → has_card result card ≡ (has_card self card && not (has_card other card)) }
    {
        CardSet {
            bits: self.bits & !other.bits,
        }
    }

    /// The set's cards of that suit.
    pub fn of_suit(self, suit: Suit) -> CardSet
        ensures { (card : ℕ) → has_card result card ≡ (has_card self card && is_of_suit suit card) }
    {
        CardSet {
            bits: self.bits & (0x1fff << (SUIT_CARDS * suit.number())),
        }
    }

    /// Whether the set has no card.
    pub fn is_empty(self) -> bool
        ensures zero { IsTrue result ↔ (self ≡ 0) }
        ensures cards { MatchBool result ((card : ℕ) → has_card self card ≡ false) ((card : ℕ) × IsTrue (has_card self card)) }
    {
        self.bits == 0
    }

    /// How many cards the set has.
    pub fn len(self) -> usize
        ensures count { result ≡ card_count self }
        ensures range { result ≤ DECK }

        // Each card of the set is one of the deck.
        ensures deck { IsCardSet self }
    {
        self.bits.count_ones() as usize
    }

    /// The set's lowest card, or `None` where it has none.
    pub fn lowest(self) -> Option<Card>
        ensures card { IfSome result (λ card. IsCard card × IsTrue (has_card self card)) }
        ensures lowest { IfSome result
            (λ card. (other : ℕ) → other < card → has_card self other ≡ false) }
        ensures none { IsNone result ↔ (self ≡ 0) }
    {
        Card::new(self.bits.trailing_zeros() as u8)
    }

    /// The set's highest card, or `None` where it has none.
    pub fn highest(self) -> Option<Card>
        ensures card { IfSome result (λ card. IsCard card × IsTrue (has_card self card)) }
        ensures highest { IfSome result
            (λ card. (other : ℕ) → card < other → has_card self other ≡ false) }
        ensures none { IsNone result ↔ (self ≡ 0) }
    {
        if self.bits == 0 {
            return None;
        }
        Card::new(self.bits.ilog2() as u8)
    }

    /// The set's cards in order.
    pub fn cards(self) -> ArrayVec<Card, DECK>
        ensures { result.items ≡ cards_of self }
    {
        let mut cards = ArrayVec::new();
        let mut rest = self;
        while let Some(card) = rest.lowest() {
            rest = rest.without(card);
            cards.push(card);
        }
        cards
    }
}

/// The union: the cards that either set has.
impl BitOr for CardSet {
    type Output = CardSet;

    ghost use Rattle.std.specs.Prelude.{ℕ, ◌≡◌, ◌||◌};
    ghost use Rattle.bridge_cards.specs.CardSet.{has_card};

    ghost bitor_gives = { λ one other both. (card : ℕ) → has_card both card ≡ (has_card one card || has_card other card) };

    fn bitor(self, other: CardSet) -> CardSet {
        self.union(other)
    }
}

/// The intersection: the cards that both sets have.
impl BitAnd for CardSet {
    type Output = CardSet;

    ghost use Rattle.std.specs.Prelude.{ℕ, ◌≡◌, ◌&&◌};
    ghost use Rattle.bridge_cards.specs.CardSet.{has_card};

    ghost bitand_gives = { λ one other common. (card : ℕ) → has_card common card ≡ (has_card one card && has_card other card) };

    fn bitand(self, other: CardSet) -> CardSet {
        self.intersection(other)
    }
}

/// The set's cards in order.
impl IntoIterator for CardSet {
    type Item = Card;

    type IntoIter = IntoIter<Card, DECK>;

    ghost use Rattle.std.specs.Prelude.{◌≡◌};
    ghost use Rattle.bridge_cards.specs.CardSet.{cards_of};

    ghost into_iter_gives = { λ set cards. cards ≡ cards_of set };

    fn into_iter(self) -> IntoIter<Card, DECK> {
        self.cards().into_iter()
    }
}
