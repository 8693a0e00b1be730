//! What the pages are told of boards that are over: to a player those that his pair has finished, each with its hands, its
//! auction, its cards and what came of it.
//!
//! ```rust
//! let text = told_boards(store.state(), alloc, false, b"11");
//! ```
#![tactic(auto)]

mod asked;
mod beside;
mod boards;
mod director;
mod known_play;
mod laws;
mod own_plays;
mod play_lines;
mod result_line;
mod rulings;
mod text;

pub use asked::{Asked, has_wrong_key};
pub use boards::{opened_by, told_boards};
pub use laws::{
    boards_are_told_of_finished_plays, only_finished_plays_are_told,
    players_are_told_of_finished_plays_alone, rulings_told_stand,
};
