//! The results of a session in Portable Bridge Notation 2.1, for other programs: a game for each board with the results of all
//! tables, what could be made, and in the first game the rankings. Nothing here takes memory.
//!
//! ```rust
//! write_results_games(&session, &boards, &mut writer)?;
//! ```
#![tactic(auto)]

pub mod cells;
mod games;
pub mod optimum;
pub mod scores;
pub mod tags;
pub mod totals;

pub use games::write_results_games;
