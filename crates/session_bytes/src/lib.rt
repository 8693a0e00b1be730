//! The bytes of a session: those of an action, and those of the parts that a session is kept as. What is read is exactly
//! what is written: no other bytes are an action or a part.
#![tactic(auto)]

mod action_bytes;
mod action_range;
mod action_read;
mod assigned_bytes;
mod config_bytes;
mod deal_read;
pub mod head;
pub mod heading;
mod part_bytes;
mod record_bytes;
pub mod record_fields;
mod record_read;
mod tables_read;

pub use action_bytes::write_action;
pub use action_range::ranges_of_action;
pub use action_read::read_action;
pub use config_bytes::{write_configuration, write_deal, write_movement, write_pair};
pub use head::{Head, read_head};
pub use record_bytes::{write_empty, write_record};
pub use tables_read::{read_deals, read_tables};
