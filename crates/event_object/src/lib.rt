//! The results of several sections as one field as one object of JSON, for other programs: the event, the sections with their pairs,
//! the rankings over all, and each board with the plays of all sections.
//!
//! ```rust
//! let text = event_object_text(alloc, &results)?;
//! ```
#![tactic(auto)]

mod boards;
mod object;
mod plays;
mod rankings;
mod sections;

pub use object::event_object_text;
