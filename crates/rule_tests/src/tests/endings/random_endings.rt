//! All endings of a few cards and random ones, beside a plain search.
ghost use Rattle.std.specs.Prelude.{◌<◌};

use super::twin::{Played, worth};
use crate::tests::expect_eq;
use bridge_cards::{Card, CardSet, Seat, Suit};
use bridge_endings::{Ending, solve};
use std::process::Abort;

/// The next of a fixed sequence of numbers.
pub fn next(state: &mut u32) -> u32 {
    *state = state.wrapping_mul(1_664_525).wrapping_add(1_013_904_223);
    *state >> 16
}

/// Four ways to have trumps.
static TRUMPS: [Option<Suit>; 4] = [
    None,
    Some(Suit::Clubs),
    Some(Suit::Hearts),
    Some(Suit::Spades),
];

/// The solver's answer is the twin's.
fn agrees_with_the_twin(rt: &impl Abort, hands: [CardSet; 4], trump: Option<Suit>, leader: Seat) {
    if let Ok(ending) = Ending::new(hands, trump, leader) {
        let cards_left = 4 * ending.tricks();
        let due = worth(cards_left, hands, Played::new(trump, leader));
        expect_eq(rt, solve(&ending, None), due, (hands, trump, leader));
    }
}

/// The hands in which card i of the deck is with the seat that digit i of the number names; with digit 4 it is out.
fn dealt_by(deck: &[u8], base: u32, number: u32) -> [CardSet; 4]
    requires { 0 < base }
{
    let mut hands = [CardSet::new(); 4];
    let mut rest = number;
    for card in deck {
        let seat = (rest % base) as usize;
        rest /= base;
        if let Some(card) = Card::new(*card) {
            if seat < 4 {
                hands[seat] = hands[seat].with(card);
            }
        }
    }
    hands
}

/// Whether each hand has so many cards.
fn have(hands: &[CardSet; 4], count: usize) -> bool {
    for hand in hands.as_slice() {
        if hand.len() != count {
            return false;
        }
    }
    true
}

#[test]
fn all_endings_of_one_card_of_six(rt: HostRuntime) {
    // Three clubs, two hearts and a spade.
    for number in 0..5_u32.pow(6) {
        let hands = dealt_by(&[0, 1, 5, 26, 30, 51], 5, number);
        if have(&hands, 1) {
            for trump in TRUMPS {
                for leader in Seat::ALL {
                    agrees_with_the_twin(&rt, hands, trump, leader);
                }
            }
        }
    }
}

#[test]
fn all_endings_of_two_cards_of_eight(rt: HostRuntime) {
    // Three clubs, a diamond, two hearts and two spades.
    for number in 0..4_u32.pow(8) {
        let hands = dealt_by(&[0, 1, 5, 20, 26, 30, 39, 51], 4, number);
        if have(&hands, 2) {
            let trump = TRUMPS[(number % 4) as usize];
            agrees_with_the_twin(
                &rt,
                hands,
                trump,
                Seat::North.clockwise((number / 7) as usize),
            );
        }
    }
}

/// Hands of three cards each.
fn random_hands(state: &mut u32) -> [CardSet; 4] {
    let mut hands = [CardSet::new(); 4];
    let mut dealt = CardSet::new();
    for turn in 0..12 {
        let first = next(state) % 52;
        for offset in 0..52 {
            if let Some(card) = Card::new(((first + offset) % 52) as u8) {
                if !dealt.has(card) {
                    dealt = dealt.with(card);
                    hands[turn % 4] = hands[turn % 4].with(card);
                    break;
                }
            }
        }
    }
    hands
}

#[test]
fn random_endings_of_three_cards(rt: HostRuntime) {
    let mut state = 1;
    for number in 0..200 {
        let hands = random_hands(&mut state);
        agrees_with_the_twin(
            &rt,
            hands,
            TRUMPS[number % 4],
            Seat::North.clockwise(number / 5),
        );
    }
}
