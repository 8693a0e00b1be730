//! The ranking of a session: which plays are compared, what each pair gains in them against the other scores of a board, or
//! is awarded, and the lines of a field's pairs (Laws 12C2, 78).
#![tactic(auto)]

pub mod even;
pub mod field;
pub mod gain;
pub mod game;
pub mod one_ranking;
mod scored;

pub use even::equal_scores_gain_the_same;
pub use field::Field;
pub use gain::{average_for, has_field, lines_of, side_in};
pub use game::{Game, PlayResult, games_of};
pub use one_ranking::a_field_has_one_ranking;
