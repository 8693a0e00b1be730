//! Tests of the web loop by public calls alone: how a turn ends, and how long an address waits that guesses keys.
#![tactic(auto)]

#[cfg(test)]
mod tests;
