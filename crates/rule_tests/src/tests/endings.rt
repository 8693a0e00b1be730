//! The worth of endings by worked rows, and by a plain twin over many of them.
mod costs;
mod deals;
mod random_endings;
mod rows;
mod twin;

use bridge_cards::{CardSet, Seat, Suit, read_hands};
use bridge_endings::Ending;
use std::process::Abort;

/// The hands of that text.
pub fn hands_of(rt: &impl Abort, text: &[u8]) -> [CardSet; 4] {
    read_hands(text).expect(rt, "four hands")
}

/// The ending of that text.
pub fn ending_of(rt: &impl Abort, text: &[u8], trump: Option<Suit>, leader: Seat) -> Ending {
    let ending = Ending::new(hands_of(rt, text), trump, leader);
    ending.ok().expect(rt, "an ending")
}
