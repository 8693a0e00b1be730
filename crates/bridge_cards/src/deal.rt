//! The four hands of a board.
ghost use Rattle.std.specs.Prelude.{◌≡◌, ◌==◌, ℕ, is_ok, MatchBool, All};
ghost use Rattle.std.specs.List.{list_all};
ghost use Rattle.bridge_cards.specs.CardSet.{card_count};
ghost use Rattle.bridge_cards.specs.Deal.{hand_at, NoneTwice, SomeTwice, IsHand, SomeNotThirteen, IsDeal, is_each_once, is_dealt_out};
ghost use Rattle.bridge_cards.specs.BadDeal.{JudgesHands};

use crate::card_set::CardSet;
use crate::seat::Seat;
use std::marker::Model;
use thiserror::Error;

/// How many cards a hand has (Law 1).
pub const HAND_CARDS: usize = 13;

/// The four hands of a board (Law 1): the deck, 13 cards to each seat.
#[derive(Clone, Copy, Debug, PartialEq, Eq, Hash)]
pub struct Deal {
    /// North's hand, and the others clockwise.
    hands: [CardSet; 4],
}

impl Model for Deal {
    ghost use Rattle.std.specs.Prelude.{ℕ, List};
    ghost use Rattle.bridge_cards.specs.Deal.{IsDeal};

    ghost Value = { List ℕ };

    ghost view = { λ d. d.hands };

    ghost invariant = { λ d. IsDeal d.hands };

    ghost inverse = { λ hands. record { hands = hands } };
}

/// Why four hands, or a text, are no deal.
#[derive(Clone, Copy, Debug, PartialEq, Eq, Hash, Error)]
pub enum BadDeal {
    /// The text is not in the form of a deal text.
    #[error("the text is not in the form of a deal")]
    Form,
    /// A card is in two hands.
    #[error("a card is in two hands")]
    Twice,
    /// A hand has more or fewer than 13 cards.
    #[error("a hand does not have 13 cards")]
    NotThirteen,
}

impl Deal {
    /// The deal of these hands, North's first and then clockwise. `Twice` where a card is in two of
    /// them, and otherwise `NotThirteen` where one has another number of cards than 13.
    pub fn from_hands(hands: [CardSet; 4]) -> Result<Deal, BadDeal>
        ensures judged { JudgesHands hands result }
        ensures test { is_ok result ≡ is_dealt_out hands }
    {
        if !are_disjoint(&hands) {
            return Err(BadDeal::Twice);
        }
        if !have_thirteen_each(&hands) {
            return Err(BadDeal::NotThirteen);
        }
        Ok(Deal { hands })
    }

    /// The hand of that seat: 13 cards, none of them in another's hand.
    pub fn hand(&self, seat: Seat) -> CardSet
        ensures hand { result ≡ hand_at self.now seat }
        ensures deal { IsDeal self.now }
        ensures thirteen { IsHand result }
    {
        self.hands[usize::from(seat.number())]
    }

    /// The four hands, North's first and then clockwise.
    pub fn hands(&self) -> [CardSet; 4]
        ensures hands { result ≡ self.now }
        ensures deal { IsDeal self.now }
    {
        self.hands
    }
}

/// Whether no card is in two of the hands.
pub fn are_disjoint(hands: &[CardSet]) -> bool
    ensures cases { MatchBool result (NoneTwice hands.now) (SomeTwice hands.now) }
    ensures test { result ≡ is_each_once hands.now }
{
    let mut dealt = CardSet::new();
    for hand in hands {
        if !dealt.intersection(*hand).is_empty() {
            return false;
        }
        dealt = dealt.union(*hand);
    }
    true
}

/// Whether each of the hands has 13 cards.
fn have_thirteen_each(hands: &[CardSet]) -> bool
    ensures cases { MatchBool result (All IsHand hands.now) (SomeNotThirteen hands.now) }
    ensures test { result ≡ list_all (λ hand. card_count hand == 13) hands.now }
{
    hands.iter().all(|hand| hand.len() == HAND_CARDS)
}
