//! A ruling that stands on a play.
use crate::average::Average;
use crate::numbers::TrickCount;
use bridge_auction::Contract;

/// The director's ruling on a play.
#[derive(Clone, Copy, Debug, PartialEq, Eq)]
pub enum Ruling {
    /// Declarer has that many tricks.
    Tricks(TrickCount),
    /// The play does not count.
    Void,
    /// The play is not scored, and each side has an average in its place (Law 12C2).
    Adjusted {
        ns: Average,
        ew: Average,
    },
    /// The play is scored as that contract with that many tricks for declarer, whatever was played (Law 12C1).
    Assigned {
        contract: Contract,
        tricks: TrickCount,
    },
}
