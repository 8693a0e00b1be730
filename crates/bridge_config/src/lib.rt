//! The configuration of a session: its text, its limits, and what it states. Nothing here takes memory.
//!
//! ```rust
//! let config = read_config(text)?;
//! let movement = &config.fields().movement;
//! ```
#![tactic(auto)]

pub mod config;
pub mod fields;
mod limits;
mod line;
mod names;
mod reading;
pub mod refused;

pub use config::Config;
pub use fields::{ConfigFields, DATE_BYTES, Key, NAME_BYTES, PairFields};
pub use limits::{read_date, read_name};
pub use names::{NAMES_BYTES, NamesText, pair_names, player_name};
pub use reading::read_config;
pub use refused::{ConfigFault, ConfigRefused};
