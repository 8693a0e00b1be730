//! Tests of results, of par, and of what deals could make, by public calls alone.
#![tactic(auto)]

#[cfg(test)]
mod tests;
