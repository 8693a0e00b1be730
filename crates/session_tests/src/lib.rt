//! Tests of a session by its public calls alone: a plain twin beside random sessions, the bytes of its parts, of its actions
//! and of its disk, and what opening makes of a disk of the first format.
#![tactic(auto)]

#[cfg(test)]
mod tests;
