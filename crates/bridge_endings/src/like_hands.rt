//! Hands that are alike down to the cards that count.
ghost use Rattle.std.specs.Prelude.{◌≡◌, ◌<◌, ◌≤◌, IsTrue};
ghost use Rattle.bridge_cards.specs.declared.seat.Seat.{Seat};
ghost use Rattle.bridge_cards.specs.Deal.{hand_at};
ghost use Rattle.bridge_endings.specs.Left.{suit_length, lengths_in, all_lengths, HoldAlike};

use bridge_cards::{CardSet, Suit};

/// Whether each hand has the same of the cards that count as the other.
pub fn hold_alike(hands: &[CardSet; 4], others: &[CardSet; 4], counts: CardSet) -> bool
    ensures { IsTrue result → (seat : Seat) → HoldAlike counts (hand_at hands.now seat) (hand_at others.now seat) }
{
    for seat in 0..4_usize {
        if !holds_alike(hands[seat], others[seat], counts) {
            return false;
        }
    }
    true
}

/// The same of one hand.
fn holds_alike(hand: CardSet, other: CardSet, counts: CardSet) -> bool
    ensures { IsTrue result → HoldAlike counts hand other }
{
    hand.intersection(counts) == other.intersection(counts)
}

/// How many cards of each suit each hand has, in one number.
pub fn lengths_of(hands: &[CardSet; 4]) -> u64
    ensures { result ≡ all_lengths hands.now }
{
    let [north, east, south, west] = hands;
    let side = lengths_in(*north) * 65_536 + lengths_in(*east);
    let other = lengths_in(*south) * 65_536 + lengths_in(*west);
    side * 4_294_967_296 + other
}

/// The same of one hand.
fn lengths_in(hand: CardSet) -> u64
    ensures lengths { result ≡ lengths_in hand }
    ensures few { result < 65536 }
{
    let minor = length_in(hand, Suit::Clubs) * 16 + length_in(hand, Suit::Diamonds);
    let major = length_in(hand, Suit::Hearts) * 16 + length_in(hand, Suit::Spades);
    minor * 256 + major
}

/// How many cards of the suit the hand has.
fn length_in(hand: CardSet, suit: Suit) -> u64
    ensures length { result ≡ suit_length hand suit }
    ensures few { result ≤ 13 }
{
    hand.of_suit(suit).len() as u64
}
