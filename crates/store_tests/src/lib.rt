//! Tests of disks and of the store by their public calls alone. Over a counter: worked power cuts, disks that a test wrote,
//! and a fault at each call of a checkpoint and at the last calls of formatting.
#![tactic(auto)]

#[cfg(test)]
mod tests;
