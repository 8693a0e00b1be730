//! Tests of the rules by their crates' public calls alone: worked rows of the Laws, independent readings of them beside the
//! code, and what no clause says of texts.
#![tactic(auto)]

#[cfg(test)]
mod tests;
