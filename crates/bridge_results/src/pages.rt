//! The results of a session as a page, in plain text of at most 100 columns or in HTML.
pub mod board;
pub mod cells;
pub mod columns;
mod diagram;
pub mod event;
pub(crate) mod frequencies;
pub mod makeable;
pub mod page;
pub(crate) mod pair_card;
pub(crate) mod par;
pub(crate) mod ranking;
pub mod sheets;
pub(crate) mod shown;

pub use page::{write_results, write_results_with};
