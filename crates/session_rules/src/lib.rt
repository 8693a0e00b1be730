//! The rules of a session of duplicate bridge for pairs, as definitions: what players and the director do, which of it is
//! accepted and what it changes, what a player is shown, and which sessions are valid (the Laws of Duplicate Bridge 2017).
//! What follows from them, whatever is done, is stated as laws: tables are judged apart, no hidden card is shown, and every
//! session is valid.
#![tactic(auto)]

pub mod act;
pub mod action;
pub mod apart;
pub mod average;
pub mod correction;
pub mod deed;
pub mod numbers;
pub mod one_view;
pub mod outcome;
pub mod refused;
pub mod ruling;
pub mod seating;
pub mod stage;
pub mod valid;
pub mod view;

pub use act::Act;
pub use action::{Action, PlayId};
pub use apart::{hidden_cards_are_not_shown, records_are_of_own_actions, tables_are_judged_apart};
pub use average::Average;
pub use correction::Correction;
pub use deed::Deed;
pub use numbers::{BoardIndex, MadeCount, RoundNumber, TableNumber, TrickCount};
pub use one_view::a_key_has_one_view;
pub use outcome::Outcome;
pub use refused::Refused;
pub use ruling::Ruling;
pub use seating::{Player, Seating};
pub use stage::Stage;
pub use valid::sessions_are_valid;
pub use view::{Trick, View};
