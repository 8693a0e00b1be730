//! What is known of a play.
use bridge_auction::Auction;
use bridge_play::Play;
use session_rules::Outcome;

/// What is known of a play.
#[derive(Clone, Copy)]
pub struct Entry<'a> {
    /// The calls made.
    pub auction: &'a Auction,
    /// There is none before a contract.
    pub play: Option<&'a Play>,
    /// How it ended, if it has.
    pub outcome: Outcome,
}
