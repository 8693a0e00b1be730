//! The results of a session as one object of JSON, for other programs: the event, the rankings, and each board with its plays,
//! their auctions and cards.
//!
//! ```rust
//! let text = object_text(alloc, &session)?;
//! ```
#![tactic(auto)]

pub mod boards;
pub mod builder;
mod course;
pub mod object;
pub mod plays;
pub mod rankings;
pub mod values;

pub use object::object_text;
