//! How far the current play of a table is, for a player there.
use bridge_auction::Contract;

/// How far the current play of a table is, for a player there.
#[derive(Clone, Copy, Debug, PartialEq, Eq)]
pub struct Stage {
    /// The contract, once the auction has made one.
    pub contract: Option<Contract>,
    /// Whether a claim stands to which the player has to agree, or which he has to refuse (Law 68).
    pub answer_due: bool,
}
