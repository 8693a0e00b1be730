//! Results, pars and tricks that were worked out by hand.
mod makeable;
mod par;
mod results;

use std::fmt::Debug;
use std::process::Abort;

/// Fails with the row where a value is not the one that is due.
pub fn expect_eq<T: PartialEq + Debug + Drop>(
    rt: &impl Abort,
    found: T,
    due: T,
    row: impl Debug + Drop,
) {
    assert_eq!(rt; found, due, "{row:?}");
}

/// Whether a text has that part.
pub fn holds(text: &[u8], part: &str) -> bool {
    !part.is_empty() && times(text, part) > 0
}

/// How often a text has that part.
pub fn times(text: &[u8], part: &str) -> usize {
    let mut found: usize = 0;
    for index in 0..text.len() {
        if text[index..].starts_with(part.as_bytes()) {
            found = found.saturating_add(1);
        }
    }
    found
}

/// Fails where a text lacks one of these parts.
pub fn expect_parts(rt: &impl Abort, text: &[u8], parts: &[&str]) {
    for part in parts {
        expect_eq(rt, holds(text, part), true, *part);
    }
}
