//! A session of duplicate bridge for pairs: what players and the director do, which of it is accepted, and what each of
//! them may see (the Laws of Duplicate Bridge 2017).
//!
//! ```rust
//! let mut session = Session::new(alloc, config)?;
//! session.step(&Action::NextRound { key, round })?;
//! ```
#![tactic(auto)]

mod containing;
pub mod entry;
pub mod kept;
mod opening;
pub mod session;
pub mod stored;

pub use bridge_ranking::{Field, equal_scores_gain_the_same};
pub use bridge_table::check_director;
pub use containing::sessions_keep_what_they_have;
pub use entry::Entry;
pub use session::{Ranking, Session};
pub use session_bytes::{read_action, write_action};
pub use session_rules::{
    Action, Average, BoardIndex, MadeCount, Outcome, PlayId, Refused, RoundNumber, Ruling,
    TableNumber, Trick, TrickCount, View, hidden_cards_are_not_shown, records_are_of_own_actions,
    sessions_are_valid, tables_are_judged_apart,
};
pub use stored::sessions_can_be_stored;
