//! Hands closed up: once a card is gone, those of its suit below it move up by one. Hands whose cards come in the same order
//! then become the same, whichever cards are gone, and the worth stays.
ghost use Rattle.std.specs.Prelude.{◌≡◌, ℕ, nat_le, suc, false};
ghost use Rattle.bridge_cards.specs.declared.seat.Seat.{Seat};
ghost use Rattle.bridge_cards.specs.CardSet.{has_card};
ghost use Rattle.bridge_endings.specs.Worth.{dealt};
ghost use Rattle.bridge_endings.specs.Left.{left_to};
ghost use Rattle.bridge_endings.specs.Closed.{is_held, is_below, moved_up, closed, opened};

use crate::search::suit_of;
use crate::trick::above;
use bridge_cards::{Card, CardSet, Suit};

/// The hands with those of their cards that are left.
pub fn cards_left(hands: &[CardSet; 4], left: CardSet) -> [CardSet; 4]
    ensures { dealt result ≡ left_to hands.now left }
{
    let [north, east, south, west] = hands;
    [
        north.intersection(left),
        east.intersection(left),
        south.intersection(left),
        west.intersection(left),
    ]
}

/// The cards of all four hands.
pub fn all_cards(hands: &[CardSet; 4]) -> CardSet
    ensures held { (card : ℕ) → has_card result card ≡ is_held (dealt hands.now) card }
    ensures all { left_to hands.now result ≡ dealt hands.now }
{
    let [north, east, south, west] = hands;
    north.union(*east).union(*south).union(*west)
}

/// Those of the cards that are gone that have a card left below them in their suit.
pub fn gaps(gone: CardSet, left: CardSet) -> CardSet {
    let mut gaps = CardSet::new();
    for suit in Suit::ALL {
        if let Some(lowest) = left.of_suit(suit).lowest() {
            gaps = gaps.union(above(gone.of_suit(suit), lowest));
        }
    }
    gaps
}

/// The hands, with their cards below the gap moved up by one.
pub fn closed_hands(hands: &[CardSet; 4], gap: Card) -> [CardSet; 4]
    ensures { (seat : Seat) (card : ℕ) → dealt result seat card ≡ closed gap (dealt hands.now seat) card }
{
    let [north, east, south, west] = hands;
    [
        closed(*north, gap),
        closed(*east, gap),
        closed(*south, gap),
        closed(*west, gap),
    ]
}

/// The same of one hand.
fn closed(hand: CardSet, gap: Card) -> CardSet
    ensures { (card : ℕ) → has_card result card ≡ closed gap (has_card hand) card }
{
    let below = below(gap);
    let moved = up_by_one(hand.intersection(below));
    hand.difference(below).union(moved)
}

/// What counts where the gap is open, if that counts once it is closed: a card also where the next above it does.
pub fn opened(counts: CardSet, gap: Card) -> CardSet
    ensures { (card : ℕ) → has_card result card ≡ opened gap (has_card counts) card }
{
    counts.union(down_by_one(counts).intersection(below(gap)))
}

/// The cards of the suit of a card below it.
fn below(card: Card) -> CardSet
    ensures { (other : ℕ) → has_card result other ≡ is_below card other }
{
    up_to(card).of_suit(suit_of(card)).without(card)
}

/// The cards of the deck up to that one.
pub fn up_to(card: Card) -> CardSet
    ensures { (other : ℕ) → has_card result other ≡ nat_le other card }
{
    let bits = (1_u64 << (card.number() + 1)) - 1;
    match CardSet::from_bits(bits) {
        Some(cards) => cards,
        None => CardSet::new(),
    }
}

/// The cards, each moved up by one; the last of the deck is not among them.
fn up_by_one(cards: CardSet) -> CardSet
    requires { has_card cards 51 ≡ false }
    ensures { (card : ℕ) → has_card result card ≡ moved_up (has_card cards) card }
{
    match CardSet::from_bits(cards.bits() << 1) {
        Some(moved) => moved,
        None => cards,
    }
}

/// The cards, each moved down by one.
fn down_by_one(cards: CardSet) -> CardSet
    ensures { (card : ℕ) → has_card result card ≡ has_card cards (suc card) }
{
    match CardSet::from_bits(cards.bits() >> 1) {
        Some(moved) => moved,
        None => cards,
    }
}
