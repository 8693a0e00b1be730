//! The play of one board: which cards are legal, who wins each trick, and claims (Laws 41 to 45 and 68).
//!
//! ```rust
//! let mut play = Play::new(&deal, contract);
//! play.try_card(play.actor(), card)?;
//! let won = play.tricks(Side::NorthSouth);
//! ```
#![tactic(auto)]

mod card_play;
pub mod claim;
pub mod claim_count;
mod dummy;
pub mod play;
pub mod refused;
mod trick;

pub use claim::Claim;
pub use claim_count::ClaimCount;
pub use play::{Play, TRICKS};
pub use refused::{CardRefused, ClaimRefused, ConsentRefused};
