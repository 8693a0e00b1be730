//! The tables of a session: who sits where, the records of a table's plays, what is done in them, and what a player there is
//! shown.
#![tactic(auto)]

pub mod back;
pub mod record;
mod refusals;
pub mod seating;
pub mod stage;
pub mod table;
pub mod view;

pub use back::back_among;
pub use record::Record;
pub use seating::{
    acting_player, check_asker, check_director, is_closed, is_nobodys, is_of_set, row_of, seat_by,
};
pub use stage::stage_among;
pub use table::{act_among, deal_on, has_begun, has_open, has_ruling, record_at, rule_among};
pub use view::view_among;
