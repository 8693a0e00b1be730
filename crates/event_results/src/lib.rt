//! The results of several sections as one field: the traveller of each board over all sections, and the rankings, as a page and as
//! tables of comma-separated values (Laws 12C2, 77, 78). Sections are numbered from 1.
//!
//! ```rust
//! let results = EventResults::new(alloc, &sections)?;
//! let lines = results.traveller(board);
//! let ranking = results.ranking(Field::First);
//! ```
#![tactic(auto)]

pub mod columns;
mod compare;
pub mod laws;
mod pages;
mod play;
mod plays;
mod rankings;
mod results;
mod tables;
mod traveller;

pub use laws::{a_traveller_has_all_plays_in_order, one_section_has_its_own_traveller};
pub use pages::write_event_results;
pub use play::SectionPlay;
pub use results::EventResults;
pub use tables::{write_event_plays, write_event_rankings};
