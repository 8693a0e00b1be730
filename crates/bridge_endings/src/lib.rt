//! The last tricks of a deal, solved: how many of them North and South win where each of the four sees all the cards.
//!
//! ```rust
//! let ending = Ending::new(read_hands(b"N:AQ... 32... 54... KJ...").ok_or("hands")?, None, Seat::South)?;
//! let tricks = solve(&ending, None); // South leads through West's king: 2
//! let mut cache = Cache::new(alloc, 4_096)?;
//! let again = solve(&ending, Some(&mut cache)); // the same, and from now on without a search
//! ```
#![tactic(auto)]

mod answer;
mod asked;
mod bounds;
pub mod cache;
pub mod card_cost;
mod closed;
mod costs;
pub mod deal_solver;
pub mod ending;
mod entry;
mod found;
mod heads;
mod known;
mod leads;
mod like_hands;
mod moment;
mod move_order;
mod reaching;
mod search;
mod sign;
pub mod solver;
mod sure_card;
mod table;
mod top_cards;
mod top_trumps;
mod trick;

pub use cache::Cache;
pub use card_cost::CardCost;
pub use deal_solver::DealSolver;
pub use ending::{Ending, EndingRefused};
pub use solver::solve;
