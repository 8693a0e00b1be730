//! Tests of what makes an evening, by public calls alone: drafts of lists of names, plans, and slips; and of the pages
//! that they are laid out on.
#![tactic(auto)]

#[cfg(test)]
mod tests;
