//! Worked endings, with a cache and without, and hands that are none.
use super::{ending_of, hands_of};
use crate::tests::expect_eq;
use bridge_cards::{Seat, Suit};
use bridge_endings::{Cache, Ending, EndingRefused, solve};
use std::alloc::AllocError;

const FINESSE_LOSES: &[u8] = b"N:AQ... KJ... 54... 32...";

const FINESSE_WINS: &[u8] = b"N:AQ... 32... 54... KJ...";

const ONE_CARD: &[u8] = b"N:A... 2... .2.. .3..";

const SIX_CARDS: &[u8] = b"N:AKQJT9... .AKQJT9.. ..AKQJT9. ...AKQJT9";

/// Hands, trump, who leads, and the tricks of North and South.
static WORTHS: [(&[u8], Option<Suit>, Seat, u8); 8] = [
    (FINESSE_LOSES, None, Seat::South, 1),
    (FINESSE_WINS, None, Seat::South, 2),
    (FINESSE_LOSES, None, Seat::South, 1),
    (ONE_CARD, None, Seat::South, 0),
    (ONE_CARD, Some(Suit::Hearts), Seat::South, 0),
    (ONE_CARD, Some(Suit::Spades), Seat::South, 1),
    (b"N:... ... ... ...", None, Seat::South, 0),
    (SIX_CARDS, None, Seat::East, 0),
];

// The endings take turns in a cache that keeps one of them.
#[test]
fn worths_are_those_of_the_rows(rt: HostRuntime) -> Result<(), AllocError> {
    let mut cache = Cache::new(rt.alloc(), 1)?;
    for (text, trump, leader, worth) in WORTHS.as_slice() {
        let ending = ending_of(&rt, text, *trump, *leader);
        expect_eq(&rt, solve(&ending, None), *worth, *text);
        expect_eq(&rt, solve(&ending, Some(&mut cache)), *worth, *text);
    }
    Ok(())
}

#[test]
fn a_kept_ending_is_answered_without_a_card(rt: HostRuntime) -> Result<(), AllocError> {
    let mut cache = Cache::new(rt.alloc(), 16)?;
    expect_eq(&rt, cache.tried(), 0, "a new cache");
    let ending = ending_of(&rt, FINESSE_LOSES, None, Seat::South);
    expect_eq(&rt, solve(&ending, Some(&mut cache)), 1, "searched");
    let tried = cache.tried();
    expect_eq(&rt, tried > 0, true, "cards are tried");
    expect_eq(&rt, solve(&ending, Some(&mut cache)), 1, "kept");
    expect_eq(&rt, cache.tried(), tried, "no card is tried");
    Ok(())
}

#[test]
fn hands_of_seven_cards_are_no_ending(rt: HostRuntime) {
    let hands = hands_of(&rt, b"N:AKQJT98... .AKQJT98.. ..AKQJT98. ...AKQJT98");
    let answer = Ending::new(hands, None, Seat::North);
    expect_eq(&rt, answer, Err(EndingRefused::TooLong), "seven cards each");
}
