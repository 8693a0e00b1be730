//! What each deal of a text could make: the tricks of each declarer in each denomination where all four see all the cards, and
//! par.
//!
//! ```rust
//! let deals = read_deals(alloc, text)?;
//! let mut work = Solving::of(deals.len(), Progress::silent());
//! write_makeable(alloc, &deals, &mut work, &mut writer)?;
//! ```
#![tactic(auto)]

pub mod board_deal;
pub mod fault_line;
pub mod file;
pub mod games;
mod heading;
mod line;
mod line_item;
pub mod makeable;
pub mod progress;
pub mod read;
pub mod refused;
pub mod solved;
pub mod tags;
pub mod text;
pub mod write;

pub use board_deal::BoardDeal;
pub use fault_line::makeable_line;
pub use file::{MakeableFault, MakeableForm, makeable_of_reader, run_makeable};
pub use games::write_games;
pub use progress::{Part, Progress};
pub use read::read_deals;
pub use refused::{DealsFault, DealsRefused};
pub use solved::Solving;
pub use write::{WriteFault, write_makeable};
