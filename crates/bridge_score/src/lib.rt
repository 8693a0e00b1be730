//! The score of a board, and how the scores of a duplicate session are compared (Laws 77 and 78 of the Laws of Duplicate
//! Bridge 2017). Nothing here takes memory.
//!
//! ```rust
//! let points = score(&contract, vulnerable(board, contract.declarer.side()), tricks);
//! let earned = matchpoints(&[450, 420, 420, -50], 0);
//! let ranking = rank(Scoring::MatchPoints, &lines);
//! ```
#![tactic(auto)]

pub mod comparison;
pub mod imp_scale;
pub mod laws;
pub mod percent;
pub mod ranking;
pub mod scoring_table;

pub use bridge_cards::Scoring;
pub use comparison::{cross_imps, imps_against, matchpoints};
pub use imp_scale::imps;
pub use laws::{cross_imps_shared, matchpoints_shared};
pub use percent::{percent_hundredths, share_percent};
pub use ranking::{Line, MOST_LINES, Ranked, is_better, rank};
pub use scoring_table::score;
