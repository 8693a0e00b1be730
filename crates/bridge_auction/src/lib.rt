//! The auction of one board: its calls, which of them are legal, and the contract that they make (Laws 17 to 22).
//!
//! ```rust
//! let mut auction = Auction::new(dealer(board));
//! auction.try_call(Call::Pass)?;
//! let declarer = auction.contract().map(|contract| contract.declarer);
//! ```
#![tactic(auto)]

pub mod auction;
pub mod bid;
pub mod call;
pub mod contract;
pub mod level;
pub mod longest;
pub mod refused;
mod rules;
pub mod spelling;

pub use auction::Auction;
pub use bid::{Bid, Denomination};
pub use call::{BadCall, Call};
pub use contract::{Contract, Doubling};
pub use level::Level;
pub use longest::{MOST_CALLS, longest_auction};
pub use refused::CallRefused;
pub use spelling::{denomination_text, doubling_text, print_bid, read_call};
