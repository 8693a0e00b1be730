//! The rules on worked rows and beside independent readings, a module for each crate.
mod auction;
mod cards;
mod config;
mod endings;
mod movement;
mod play;
mod score;
mod text;
mod values;

use bridge_cards::{Deal, read_deal};
use std::fmt::Debug;
use std::process::Abort;

/// Fails with the row where a value is not the one that is due.
pub fn expect_eq<T: PartialEq + Debug + Drop>(
    rt: &impl Abort,
    found: T,
    due: T,
    row: impl Debug + Drop,
) {
    assert_eq!(rt; found, due, "{row:?}");
}

/// The deal of that text.
pub fn deal_of(rt: &impl Abort, text: &[u8]) -> Deal {
    read_deal(text).ok().expect(rt, "a deal")
}
