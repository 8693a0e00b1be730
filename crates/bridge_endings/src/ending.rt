//! What is left of a play between two tricks.
ghost use Rattle.std.specs.Prelude.{◌≡◌, ◌↔◌, ◌<◌, ◌≤◌, IfOk, MatchBool};
ghost use Rattle.bridge_cards.specs.Deal.{SomeTwice};
ghost use Rattle.bridge_endings.specs.Ending.{tricks_in, AllEqual, SomeUnequal, IsEnding};

use bridge_cards::deal::are_disjoint;
use bridge_cards::{CardSet, Seat, Suit};
use std::marker::Model;
use thiserror::Error;

/// Four hands with as many cards each, at most six, the trump suit if there is one, and the seat to lead.
#[derive(Clone, Copy, Debug, PartialEq, Eq)]
pub struct Ending {
    hands: [CardSet; 4],
    trump: Option<Suit>,
    leader: Seat,
}

impl Model for Ending {
    ghost use Rattle.bridge_endings.specs.EndingValue.{EndingValue};

    ghost Value = { EndingValue };

    ghost use Rattle.bridge_endings.specs.Ending.{IsEnding};

    ghost view = { λ e. record { hands = e.hands; trump = e.trump; leader = e.leader } };

    ghost invariant = { λ e. IsEnding e.hands };

    ghost inverse = { λ p. record { hands = p.hands; trump = p.trump; leader = p.leader } };
}

/// Why four hands are no ending.
#[derive(Clone, Copy, Debug, PartialEq, Eq, Error)]
pub enum EndingRefused {
    /// A hand has more or fewer cards than another.
    #[error("Unequal")]
    Unequal,
    /// Each hand has more than six cards.
    #[error("TooLong")]
    TooLong,
    /// A card is in two hands.
    #[error("Overlap")]
    Overlap,
}

impl Ending {
    /// The most cards that each hand may have.
    pub const MOST_TRICKS: u8 = 6;

    /// The ending of these hands, North's first and then clockwise. `Unequal` where they have not as many cards each,
    /// otherwise `TooLong` where each has more than six, and otherwise `Overlap` where a card is in two of them.
    pub fn new(
        hands: [CardSet; 4],
        trump: Option<Suit>,
        leader: Seat,
    ) -> Result<Ending, EndingRefused>
        ensures ending { IfOk result (λ ending. ending ≡ record { hands = hands; trump = trump; leader = leader }) }
        ensures valid { IfOk result (λ ending. IsEnding ending.hands) }
        ensures unequal { (result ≡ Err EndingRefused.Unequal) ↔ SomeUnequal hands }
        ensures too_long { (result ≡ Err EndingRefused.TooLong) ↔ (AllEqual hands × (6 < tricks_in hands)) }
        ensures overlap { (result ≡ Err EndingRefused.Overlap) ↔ (AllEqual hands × (tricks_in hands ≤ 6) × SomeTwice hands) }
    {
        if !are_equal(&hands) {
            return Err(EndingRefused::Unequal);
        }
        if hands[0].len() > usize::from(Ending::MOST_TRICKS) {
            return Err(EndingRefused::TooLong);
        }
        if !are_disjoint(&hands) {
            return Err(EndingRefused::Overlap);
        }
        Ok(Ending {
            hands,
            trump,
            leader,
        })
    }

    /// The hands, North's first and then clockwise.
    pub fn hands(&self) -> [CardSet; 4]
        ensures hands { result ≡ self.now.hands }
        ensures ending { IsEnding self.now.hands }
    {
        self.hands
    }

    /// The trump suit, if there is one.
    pub fn trump(&self) -> Option<Suit>
        ensures { result ≡ self.now.trump }
    {
        self.trump
    }

    /// The seat to lead.
    pub fn leader(&self) -> Seat
        ensures { result ≡ self.now.leader }
    {
        self.leader
    }

    /// How many tricks are left, 0 to 6.
    pub fn tricks(&self) -> u8
        ensures tricks { result ≡ tricks_in self.now.hands }
        ensures few { result ≤ 6 }
    {
        self.hands[0].len() as u8
    }
}

/// Whether each of the hands has as many cards as the first.
fn are_equal(hands: &[CardSet; 4]) -> bool
    ensures { MatchBool result (AllEqual hands.now) (SomeUnequal hands.now) }
{
    let count = hands[0].len();
    hands.iter().all(|hand| hand.len() == count)
}
