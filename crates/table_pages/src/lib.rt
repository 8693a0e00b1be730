//! Tables in a browser: the pages, and the lines that they post, answered over the session of a store.
//!
//! ```rust
//! let names = HostNames::of_this_computer(rt.alloc(), 4000)?;
//! let mut pages = TablePages::new(rt.alloc(), names, texts, store, cache, Desk::new(600, "club.disk"), ServerClock::new(&rt));
//! show_minutes(&rt, rt.alloc(), RandomState::new(&rt)?, &listener, &mut pages, 180)?;
//! ```
#![tactic(auto)]

mod answering;
mod host_names;
mod laws;
mod line_server;
mod page_texts;
mod pages;
mod people;
mod refused;
mod seconds;
mod showing;
mod waiting;

pub use answering::{answer_lines, kept_on};
pub use host_names::HostNames;
pub use laws::waits_tell_of_their_own_table;
pub use line_server::{LineServer, Replies};
pub use page_texts::PageTexts;
pub use pages::TablePages;
pub use seconds::{Seconds, ServerClock};
pub use showing::{limits, show_minutes};
