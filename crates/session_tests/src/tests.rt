//! A plain twin beside random sessions, the bytes of parts and actions, and the disks that hold sessions. Worked sessions,
//! with the answer to each action, their rankings and their results, stand in examples/sessions.
mod action_bytes;
mod disk;
mod holder;
mod mended;
mod old_disk;
mod parts;
mod random_actions;
mod random_sessions;
mod restored;
mod rows;
mod script;
mod stack;
mod story;
mod twin;

use std::fmt::Debug;
use std::process::Abort;

/// Fails with the row where a value is not the one that is due.
pub fn expect_eq<T: PartialEq + Debug + Drop>(
    rt: &impl Abort,
    found: T,
    due: T,
    row: impl Debug + Drop,
) {
    assert_eq!(rt; found, due, "{row:?}");
}
