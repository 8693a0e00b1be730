//! What is found of a session once it is over: what could be made on each board that was dealt, and what the cards of each play
//! cost, both by minimax over all four hands. A board takes seconds.
//!
//! ```rust
//! let found = analysis_of(alloc, &session, Plays::Found, &mut Progress::silent())?;
//! ```
#![tactic(auto)]

pub mod boards;
pub mod costs;
pub mod event_boards;
pub mod found;

pub use boards::{Boards, boards_of};
pub use costs::costs_of;
pub use event_boards::event_boards_of;
pub use found::{Found, Plays, analysis_of};
