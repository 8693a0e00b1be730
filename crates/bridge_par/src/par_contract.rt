//! A contract that reaches par.
use bridge_auction::{Bid, Contract, Doubling};
use bridge_cards::Seat;

/// A contract that reaches par. It is never redoubled.
#[derive(Clone, Copy, Debug, PartialEq, Eq)]
pub struct ParContract {
    /// The contract.
    pub contract: Contract,
}

/// One club by North, so that a list of contracts has a value for the indexes that it does not use.
impl Default for ParContract {
    fn default() -> Self {
        ParContract {
            contract: Contract {
                bid: Bid::from_number(0).unwrap(),
                doubling: Doubling::Undoubled,
                declarer: Seat::North,
            },
        }
    }
}
