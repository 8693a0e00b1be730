//! Several sessions as one field: sections that play the same boards, whose scores are compared with one another, with a ranking
//! of each section and of all (Laws 12C2, 78). Sections are numbered from 1.
//!
//! ```rust
//! field_of(&sections)?;
//! let event = Event::new(alloc, &sections)?;
//! let ranking = event.ranking(alloc, Field::First)?;
//! ```
#![tactic(auto)]

pub mod dealt;
pub mod event;
pub mod field;
pub mod gain;
pub mod laws;
pub mod letters;
mod line;
pub mod ranking;
mod rows;
pub mod sheet;
pub mod wide;

pub use dealt::first_deal;
pub use event::{Event, scoring_of};
pub use field::{Difference, SectionsRefused, field_of};
pub use laws::one_section_is_ranked_as_ever;
pub use letters::section_letters;
pub use ranking::{SectionLine, SectionRanked};
pub use sheet::{Among, write_ranking};
