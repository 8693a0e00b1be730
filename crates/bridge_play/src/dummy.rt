//! Dummy, and who plays its cards (Law 45).
ghost use Rattle.std.specs.Prelude.{◌≡◌};
ghost use Rattle.bridge_play.specs.Dummy.{actor_of, dummy_of};

use bridge_auction::Contract;
use bridge_cards::Seat;

/// Declarer's partner.
pub fn dummy(contract: &Contract) -> Seat
    ensures { result ≡ dummy_of contract.now }
{
    contract.declarer.clockwise(2)
}

/// Who plays the cards of a hand: declarer plays dummy's.
pub fn actor(contract: &Contract, hand: Seat) -> Seat
    ensures { result ≡ actor_of contract.now hand }
{
    if hand == dummy(contract) {
        contract.declarer
    } else {
        hand
    }
}
