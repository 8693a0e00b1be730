//! Slips to cut out, for an evening: one for the director and one for each player, with its name, its pair, where it begins,
//! its key, and where the pages are. Nothing here takes memory.
//!
//! ```rust
//! let sheet = SlipSheet { format: Format::Html, address: Some("http://192.168.1.20:4000") };
//! write_slips(&config, None, &sheet, &mut writer)?;
//! ```
#![tactic(auto)]

mod key;
mod player;
mod sheet;
mod slip;
mod slips;
mod style;

pub use sheet::{ADDRESS_BYTES, SlipSheet};
pub use slips::write_slips;
