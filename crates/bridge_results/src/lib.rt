//! The results of a session, as a club pins them up: the traveller of each board with what each side gained, how often each
//! score was made, and the score card of each pair (Laws 12C2, 77, 78). Nothing here takes memory.
//!
//! ```rust
//! let results = Results::new(&session);
//! let lines = results.traveller(board);
//! let card = results.score_card(pair);
//! ```
#![tactic(auto)]

pub mod analysis;
pub mod card;
pub mod compare;
pub mod frequency;
mod gain;
pub mod html;
pub mod makeable;
pub mod pages;
pub mod play;
pub mod results;
pub mod session_plays;
pub mod sums;
pub mod tables;
pub mod traveller;

pub use analysis::{Analysis, PlayCosts};
pub use card::{CardLine, MOST_CARD_LINES, ScoreCard};
pub use compare::Comparison;
pub use frequency::{Frequencies, Frequency, frequencies};
pub use html::{plays_are_shown_as_recorded, shown_id};
pub use makeable::Makeable;
pub use pages::{write_results, write_results_with};
pub use play::TablePlay;
pub use results::Results;
pub use sums::{a_score_card_adds_up_to_the_ranking, frequencies_count_the_scores};
pub use tables::{write_plays_table, write_rankings_table};
pub use traveller::{BoardLine, Traveller};
