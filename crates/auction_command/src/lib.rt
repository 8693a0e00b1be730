//! The auction command: lines of calls in, replies and the contract out.
//!
//! ```rust
//! run_auction(board, &mut rt.stdin(), &mut rt.stdout())?;
//! ```
#![tactic(auto)]

mod auction_lines;
mod run;

pub use run::run_auction;
