//! The results of several sections as a page, in plain text of at most 100 columns or in HTML.
mod board;
mod boards;
mod deal;
mod head;
mod page;
mod sheets;

pub use page::write_event_results;
