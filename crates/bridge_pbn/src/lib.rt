//! The results of a session in Portable Bridge Notation 2.1. Nothing here takes memory.
//!
//! ```rust
//! write_pbn(&session, &mut writer)?;
//! ```
#![tactic(auto)]

mod auction_section;
mod game;
pub mod names;
mod play_section;
mod tags;
mod text;
mod write;

pub use write::write_pbn;
