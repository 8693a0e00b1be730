//! Which card wins a trick (Law 44).
ghost use Rattle.std.specs.Prelude.{◌≡◌, ◌<◌, true, length, position, slice_index};
ghost use Rattle.bridge_cards.specs.Card.{IsCard, same_suit};
ghost use Rattle.bridge_cards.specs.Trick.{is_trump, beats, is_or_beats, wins, winning_index};

use crate::card::Card;
use crate::suit::Suit;

/// Whether the cards are of one suit.
pub fn same_suit(c: Card, d: Card) -> bool
    ensures same { result ≡ same_suit c d }

    // Each is a card of the deck.
    ensures known { IsCard c × IsCard d }
{
    c.suit() == d.suit()
}

/// Whether the card is a trump.
fn is_trump(trump: Option<Suit>, card: Card) -> bool
    ensures { result ≡ is_trump trump card }
{
    trump == Some(card.suit())
}

/// Whether card c beats d in a trick to which `led` was led: both are of one suit and c is higher, or c is a trump and d
/// is none, or c is of the suit led and d is neither of it nor a trump (Law 44).
pub fn beats(trump: Option<Suit>, led: Card, c: Card, d: Card) -> bool
    ensures { result ≡ beats trump led c d }
{
    (same_suit(c, d) && d < c)
        || (is_trump(trump, c) && !is_trump(trump, d))
        || (same_suit(c, led) && !same_suit(d, led) && !is_trump(trump, d))
}

/// Whether the card is d, or beats it.
fn is_or_beats(trump: Option<Suit>, led: Card, c: Card, d: Card) -> bool
    ensures { result ≡ is_or_beats trump led c d }
{
    c == d || beats(trump, led, c, d)
}

/// Whether the card beats the others of the trick.
fn wins(trump: Option<Suit>, trick: &[Card], card: Card) -> bool
    requires { 0 < length trick.now }
    ensures { result ≡ wins trump trick.now card }
{
    let led = trick[0];
    trick
        .iter()
        .all(|other| is_or_beats(trump, led, card, *other))
}

/// The index in the trick of the card that beats the others.
fn winner(trump: Option<Suit>, trick: &[Card]) -> Option<usize>
    requires { 0 < length trick.now }
    ensures { result ≡ position (wins trump trick.now) trick.now }
{
    trick.iter().position(|card| wins(trump, trick, *card))
}

/// The index in the trick of its winner, 0 for the card led: the card there beats each other card of the trick (Law 44).
pub fn winning_index(trump: Option<Suit>, trick: &[Card]) -> usize
    requires { 0 < length trick.now }
    ensures index { result ≡ winning_index trump trick.now }
    ensures within { result < length trick.now }
    ensures wins { wins trump trick.now (slice_index trick.now result) ≡ true }
{
    winner(trump, trick).unwrap_or(0)
}
