//! The play over whole random plays. Worked plays stand in examples/sessions.
mod agreed_claim;
mod deals;
mod random_plays;
