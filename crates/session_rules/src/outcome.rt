//! How a play ended.
use crate::average::Average;
use bridge_auction::Contract;

/// What came of a play.
#[derive(Clone, Copy, Debug, PartialEq, Eq)]
pub enum Outcome {
    /// It is not finished.
    Unfinished,
    /// Nobody bid (Law 22).
    PassedOut,
    /// Declarer won that many tricks, or has them by a ruling.
    Played { contract: Contract, tricks: u8 },
    /// The director took it out.
    Voided,
    /// The director awarded each side an average, whatever was played (Law 12C2).
    Adjusted { ns: Average, ew: Average },
    /// The director assigned the score of that contract with that many tricks for declarer, whatever was played (Law 12C1).
    Assigned { contract: Contract, tricks: u8 },
}
