//! What the pages are told that no line of the protocol asks for: a player's place, all tables, and the results.
//!
//! ```rust
//! let mut text = ReplyText::new();
//! push_place(&mut text, store.state(), b"11");
//! ```
#![tactic(auto)]

mod lines;
mod names;
mod place;
mod progress;
mod results;
mod tables;
mod wrong_key;

pub use place::{places_show_no_hidden_card, push_place};
pub use results::told_results;
pub use tables::push_tables;
pub use wrong_key::{is_wrong_key, wrong_keys_are_told};
