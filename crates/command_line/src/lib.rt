//! The command line of the program `bridge_club`: what the words after its name ask for.
//!
//! ```rust
//! let words = ["serve", "club.disk", "4000", "12"];
//! let command = read_words(rt.alloc(), words.as_slice());
//! ```
#![tactic(auto)]

mod arguments;
mod command;
mod declaration;
mod declared;
mod disks;
mod evening_arguments;
mod evening_declaration;
mod evening_read;
mod export_read;
mod read;
mod results_read;
mod unasked;

pub use command::{
    Command, DiskNames, DraftWords, EveningWords, EventAsked, ExportAsked, MOST_DISKS, PageAsked,
    SlipWords, WebHost, WebWords, WordsFault,
};
pub use read::read_words;
