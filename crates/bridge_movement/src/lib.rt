//! Movements of a duplicate bridge session for pairs: which pairs meet in which round, at which table, with which set
//! of boards (Laws 3 to 5 and 8 of the Laws of Duplicate Bridge 2017). Nothing here takes memory.
//!
//! ```rust
//! let movement = Movement::mitchell(5);
//! let place = movement.place(1, 6);
//! ```
#![tactic(auto)]

mod boards;
mod checks;
mod half_table;
mod howell;
mod mitchell;
pub mod movement;
pub mod named;
pub mod place;
pub mod refused;
pub mod row;
pub mod shape;

pub use boards::{boards_before, last_board};
pub use movement::Movement;
pub use named::NamedMovement;
pub use place::Place;
pub use refused::MovementRefused;
pub use row::Row;
pub use shape::{MOST_PAIRS, MOST_ROUNDS, MOST_ROWS, MOST_SETS, MOST_TABLES, Shape};
