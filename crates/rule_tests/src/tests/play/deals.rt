//! Deals for tests of the play.
use bridge_auction::{Bid, Contract, Denomination, Doubling, Level};
use bridge_cards::Seat;
use std::process::Abort;

/// Each hand has four cards in a row of one suit, and three of each other.
pub const CARDS_IN_A_ROW: &[u8] =
    b"N:AKQJ.T98.765.432 T98.765.432.AKQJ 765.432.AKQJ.T98 432.AKQJ.T98.765";

/// South has no diamond, and North one club.
pub const DIAMOND_VOID: &[u8] =
    b"N:QT76.KQ843.Q86.A K2.72.J432.T6532 J843.AJT9..KQ874 A95.65.AKT975.J9";

/// West has six spades and one club.
pub const LONG_SPADES: &[u8] =
    b"N:873.AKJ9.T4.8754 2.853.K853.AJT63 AQJ.T76.Q976.K92 KT9654.Q42.AJ2.Q";

/// The contract at that level in that denomination by that declarer, undoubled.
pub fn contract_of(
    rt: &impl Abort,
    level: u8,
    denomination: Denomination,
    declarer: Seat,
) -> Contract {
    let level = Level::new(level).expect(rt, "a level");
    Contract {
        bid: Bid {
            level,
            denomination,
        },
        doubling: Doubling::Undoubled,
        declarer,
    }
}
