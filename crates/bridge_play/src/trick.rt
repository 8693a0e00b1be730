//! Who leads to each trick, and how many were won.
ghost use Rattle.std.specs.Prelude.{◌≡◌, ◌-◌, ◌/◌, ◌<◌, ◌≤◌, length};
ghost use Rattle.bridge_play.specs.Trick.{whole_tricks, leader_of, tricks_won};

use bridge_auction::Contract;
use bridge_cards::trick::winning_index;
use bridge_cards::{Card, Seat, Side};

/// Who leads to a trick, the tricks counted from 0: declarer's left-hand opponent to the first, and the winner of each
/// trick to the next (Law 44).
pub(crate) fn leader(contract: &Contract, cards: &[Card], trick: usize) -> Seat
    requires { trick ≤ whole_tricks cards.now }
    ensures { result ≡ leader_of contract.now cards.now trick }
{
    let mut leader = contract.declarer.clockwise(1);
    for earlier in 0..trick {
        let (_, rest) = cards.split_at(4 * earlier);
        let (played, _) = rest.split_at(4);
        leader = leader.clockwise(winning_index(contract.bid.denomination.suit(), played));
    }
    leader
}

/// Who leads to the trick after those cards: after a whole trick its winner, and otherwise the seat that led to the trick of
/// the last card (Law 44).
pub fn next_leader(contract: &Contract, cards: &[Card], leader: Seat) -> Seat
    requires some { 0 < length cards.now }
    requires led { leader ≡ leader_of contract.now cards.now ((length cards.now - 1) / 4) }
    ensures { result ≡ leader_of contract.now cards.now (whole_tricks cards.now) }
{
    if cards.len() % 4 != 0 {
        return leader;
    }
    let (_, trick) = cards.split_at(cards.len() - 4);
    leader.clockwise(winning_index(contract.bid.denomination.suit(), trick))
}

/// How many of the whole tricks North and South won, of which they won so many before the last card; after a whole trick
/// that seat leads.
pub fn next_won(contract: &Contract, cards: &[Card], leader: Seat, won: u8) -> u8
    requires some { 0 < length cards.now }
    requires few { length cards.now ≤ 52 }
    requires led { leader ≡ leader_of contract.now cards.now (whole_tricks cards.now) }
    requires won { won ≡ tricks_won contract.now cards.now Side.NorthSouth ((length cards.now - 1) / 4) }
    ensures { result ≡ tricks_won contract.now cards.now Side.NorthSouth (whole_tricks cards.now) }
{
    if cards.len() % 4 == 0 && leader.side() == Side::NorthSouth {
        won + 1
    } else {
        won
    }
}
