//! The deal of a board by a shuffle of the deck (Law 6).
ghost use Rattle.std.specs.Prelude.{◌≡◌, ℕ, ◌==◌, IsPermutation};
ghost use Rattle.std.specs.List.{list_any};
ghost use Rattle.bridge_cards.specs.CardSet.{has_card, deck};
ghost use Rattle.bridge_cards.specs.Deal.{IsDeal};
ghost use Rattle.bridge_cards.specs.Shuffle.{shuffled_deck, IsDealtFrom};

use crate::board::BoardNumber;
use crate::card::{Card, DECK};
use crate::card_set::CardSet;
use crate::deal::{Deal, HAND_CARDS};
use rand::seq::SliceRandom;
use rand_chacha::ChaCha20Rng;
use rand_core::SeedableRng;
use std::array;

/// The deal of that board under the seed (Law 6). The deck in order is shuffled by `rand` over
/// ChaCha20, with the seed as its key and the board's number as its stream; North gets the first 13
/// cards, and then each seat clockwise the next 13.
pub fn deal_board(seed: &[u8; 32], board: BoardNumber) -> Deal
    ensures dealt { IsDealtFrom (shuffled_deck seed.now board) result }
    ensures deal { IsDeal result }
{
    deal_out(&shuffled_deck(seed, board))
}

/// The deal of the deck in that order.
fn deal_out(order: &[Card; DECK]) -> Deal
    requires { IsPermutation deck order.now }
    ensures dealt { IsDealtFrom order.now result }
    ensures deal { IsDeal result }
{
    let cards = order.as_slice();
    let hands = [
        set_of(&cards[..HAND_CARDS]),
        set_of(&cards[HAND_CARDS..2 * HAND_CARDS]),
        set_of(&cards[2 * HAND_CARDS..3 * HAND_CARDS]),
        set_of(&cards[3 * HAND_CARDS..]),
    ];
    // The hands of a whole deck are disjoint, and each has 13 cards.
    Deal::from_hands(hands).unwrap()
}

/// The deck as it is dealt on that board.
fn shuffled_deck(seed: &[u8; 32], board: BoardNumber) -> [Card; DECK]
    ensures order { result ≡ shuffled_deck seed.now board }
    ensures cards { IsPermutation deck result }
{
    let mut generator = ChaCha20Rng::from_seed(*seed);
    generator.set_stream(u64::from(board.number()));
    let mut deck = ordered_deck();
    deck.shuffle(&mut generator);
    deck
}

/// The deck in order, from the 2 of clubs to the ace of spades.
fn ordered_deck() -> [Card; DECK]
    ensures { result ≡ deck }
{
    array::from_fn(|index| Card::new(index as u8).unwrap())
}

/// The set of these cards.
fn set_of(cards: &[Card]) -> CardSet
    ensures { (card : ℕ) → has_card result card ≡ list_any (λ dealt. card == dealt) cards.now }
{
    let mut set = CardSet::new();
    for card in cards {
        set = set.with(*card);
    }
    set
}
