//! The results of several sections as one field in Portable Bridge Notation 2.1, for other programs: a game for each board with the
//! results of all tables of all sections, what could be made, and in the first game the rankings over all. Nothing here takes memory.
//!
//! ```rust
//! write_event_games(&results, &boards, &mut writer)?;
//! ```
#![tactic(auto)]

mod cells;
mod games;
mod played;
mod scores;
mod totals;

pub use games::write_event_games;
