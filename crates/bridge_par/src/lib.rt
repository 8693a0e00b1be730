//! Par: the score that both sides reach on a deal where they know how many tricks each declarer takes, and call as well as they
//! can (Law 77). Nothing here takes memory.
//!
//! ```rust
//! let par = par(&table, dealer(board), vulnerability_of(board));
//! let points = par.score; // of North and South
//! let contract = par.contracts.first();
//! ```
#![tactic(auto)]

mod best_bids;
pub mod par_contract;
pub mod par_result;
pub mod tricks;
mod worth;

pub use par_contract::ParContract;
pub use par_result::{MOST_CONTRACTS, ParResult, par};
pub use tricks::{DeclarerTricks, TrickTable};
