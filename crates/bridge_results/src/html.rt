//! The results of a session as one HTML page, with links between its parts, and each table's auction and play.
mod board;
mod boards;
pub mod card;
mod card_rows;
mod cards;
pub(crate) mod cells;
pub mod columns;
mod course;
mod front;
mod laws;
mod lines;
mod links;
mod often;
mod page;
mod ranking;
mod recorded;
mod summary;
mod tricks;

pub use laws::plays_are_shown_as_recorded;
pub use page::write_html;
pub use recorded::shown_id;
