//! Peers of which the bytes are known, and addresses that guess.
mod guesses;
mod guest_book;
mod turns;

use std::fmt::Debug;
use std::process::Abort;

/// Fails with the row where a value is not the one that is due.
pub fn expect_eq<T: PartialEq + Debug + Drop>(
    rt: &impl Abort,
    found: T,
    due: T,
    row: impl Debug + Drop,
) {
    assert_eq!(rt; found, due, "{row:?}");
}
