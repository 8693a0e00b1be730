//! Cards with which the leader's side is sure of the trick.
ghost use Rattle.std.specs.Prelude.{◌≡◌, ℕ, true, false, Some, IfSome, IfNone, IsTrue};
ghost use Rattle.bridge_cards.specs.CardSet.{has_card, is_of_suit};
ghost use Rattle.bridge_cards.specs.Trick.{is_trump};
ghost use Rattle.bridge_cards.specs.Seat.{side_of};
ghost use Rattle.bridge_endings.specs.Agree.{IsDealtOut};
ghost use Rattle.bridge_endings.specs.Left.{left_to};
ghost use Rattle.bridge_endings.specs.Sure.{EachHasSome, IsSure, IsHighest, settled_by_one};

use crate::search::{Search, held};
use bridge_cards::{Card, CardSet, Seat, Side, Suit};

impl Search {
    /// The trump suit, if one of the cards is a trump.
    pub fn trump_among(&self, cards: CardSet) -> Option<Suit>
        ensures some { IfSome result (λ suit. self.now.trump ≡ Some suit) }
        ensures none { IfNone result ((card : ℕ) → has_card cards card ≡ true → is_trump self.now.trump card ≡ false) }
    {
        let trump = self.trump?;
        if cards.of_suit(trump).is_empty() {
            None
        } else {
            Some(trump)
        }
    }

    /// A card with which the leader's side wins the trick whatever the others play, if one is seen at once: the highest left
    /// of a suit that the leader has, in either of the side's hands, where it is a trump or no hand but the leader's has one.
    pub fn sure_card(&self, hands: &[CardSet; 4], left: CardSet, leader: Seat) -> Option<Card>
        requires { IsDealtOut (left_to hands.now left) }
        ensures { IfSome result (λ card. (led : ℕ) × IsSure self.now.trump (left_to hands.now left) leader card led) }
    {
        if !others_have_cards(hands, left, leader) {
            return None;
        }
        let hand = held(hands, left, leader);
        let partner = held(hands, left, leader.partner());
        match self.trump_among(left.difference(hand)) {
            Some(trump) => highest_of_suit(hand, partner, left, trump),
            None => highest_of_any_suit(hand, partner, left),
        }
    }
}

/// Whether each hand but the leader's has a card left.
fn others_have_cards(hands: &[CardSet; 4], left: CardSet, leader: Seat) -> bool
    ensures { IsTrue result → EachHasSome (left_to hands.now left) leader }
{
    for index in 1..4_usize {
        if held(hands, left, leader.clockwise(index)).is_empty() {
            return false;
        }
    }
    true
}

/// How many tricks North and South need, where one trick more for the seat's side settles whether they reach them.
pub fn settled_by_one(seat: Seat, tricks: u8) -> u8
    ensures { result ≡ settled_by_one (side_of seat) tricks }
{
    match seat.side() {
        Side::NorthSouth => 1,
        Side::EastWest => tricks,
    }
}

/// The highest card left of the suit, if the hand or its partner has it and the hand has a card of the suit.
fn highest_of_suit(hand: CardSet, partner: CardSet, left: CardSet, suit: Suit) -> Option<Card>
    ensures highest { IfSome result (IsHighest hand partner left) }
    ensures suit { IfSome result (λ card. is_of_suit suit card ≡ true) }
{
    let card = left.of_suit(suit).highest()?;
    if hand.has(card) || partner.has(card) && !hand.of_suit(suit).is_empty() {
        Some(card)
    } else {
        None
    }
}

/// The same of the first suit that has such a card.
fn highest_of_any_suit(hand: CardSet, partner: CardSet, left: CardSet) -> Option<Card>
    ensures { IfSome result (IsHighest hand partner left) }
{
    for suit in Suit::ALL {
        if let Some(card) = highest_of_suit(hand, partner, left, suit) {
            return Some(card);
        }
    }
    None
}
