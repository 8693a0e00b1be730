//! What the calls so far say of the next call, and of the contract.
ghost use Rattle.std.specs.Prelude.{◌≡◌, ◌<◌, length, IfSome, OnOk};
ghost use Rattle.std.specs.List.{list_all};
ghost use Rattle.bridge_auction.specs.Bid.{bid_number, IsBid};
ghost use Rattle.bridge_auction.specs.Call.{is_pass, is_bid, IsCall};
ghost use Rattle.bridge_auction.specs.Legal.{is_ended, last_index, last_but_passes, opponents_call, is_below};
ghost use Rattle.bridge_auction.specs.Answer.{answer_to};
ghost use Rattle.bridge_auction.specs.Contract.{first_to_name, names, doubling_of};

use crate::bid::{Bid, Denomination};
use crate::call::Call;
use crate::contract::Doubling;
use crate::refused::CallRefused;
use bridge_cards::{Seat, Side};

/// Whether each of these calls is a pass.
fn are_passes(calls: &[Call]) -> bool
    ensures { result ≡ list_all is_pass calls.now }
{
    calls.iter().all(|call| call.is_pass())
}

/// Whether the auction is over.
pub fn ended(calls: &[Call]) -> bool
    ensures { result ≡ is_ended calls.now }
{
    calls.len() >= 4 && are_passes(&calls[calls.len() - 3..])
}

/// The index of the last call that is no pass.
pub fn last_but_passes(calls: &[Call]) -> Option<usize>
    ensures index { result ≡ last_but_passes calls.now }
    ensures within { IfSome result (λ index. index < length calls.now) }
{
    calls.iter().rposition(|call| !call.is_pass())
}

/// The index of the last bid.
pub fn last_bid(calls: &[Call]) -> Option<usize>
    ensures { result ≡ last_index is_bid calls.now }
{
    calls.iter().rposition(|call| call.is_bid())
}

/// The last call that is no pass, if an opponent of the player who calls next made it.
pub fn opponents_call(calls: &[Call]) -> Option<Call>
    ensures { result ≡ opponents_call calls.now }
{
    match last_but_passes(calls) {
        Some(last) if (calls.len() - last) % 2 == 1 => calls.get(last).copied(),
        _ => None,
    }
}

/// Whether the call is no bid, or one of a lower number.
fn is_below(number: u8, call: Call) -> bool
    ensures { result ≡ is_below number call }
{
    match call {
        Call::Bid(other) => other.number() < number,
        Call::Pass | Call::Double | Call::Redouble => true,
    }
}

/// Whether the bid is higher than every bid of these calls.
fn is_sufficient(calls: &[Call], bid: Bid) -> bool
    ensures higher { result ≡ list_all (is_below (bid_number bid)) calls.now }
    ensures known { IsBid bid }
{
    let number = bid.number();
    calls.iter().all(|call| is_below(number, *call))
}

/// The answer to a call after these.
pub fn answer(calls: &[Call], call: Call) -> Result<(), CallRefused>
    ensures answer { result ≡ answer_to calls.now call }
    ensures known { OnOk result (IsCall call) }
{
    if ended(calls) {
        return Err(CallRefused::Ended);
    }
    match call {
        Call::Pass => Ok(()),
        Call::Bid(bid) if is_sufficient(calls, bid) => Ok(()),
        Call::Bid(_) => Err(CallRefused::InsufficientBid),
        Call::Double if matches!(opponents_call(calls), Some(Call::Bid(_))) => Ok(()),
        Call::Double => Err(CallRefused::InadmissibleDouble),
        Call::Redouble if opponents_call(calls) == Some(Call::Double) => Ok(()),
        Call::Redouble => Err(CallRefused::InadmissibleRedouble),
    }
}

/// The index of the first call by a player of that side that bids that denomination.
pub fn first_to_name(
    dealer: Seat,
    calls: &[Call],
    side: Side,
    denomination: Denomination,
) -> Option<usize>
    ensures { result ≡ first_to_name dealer calls.now side denomination }
{
    calls.iter().enumerate().position(|(index, call)| dealer.clockwise(index).side() == side
        && names(denomination, *call))
}

/// Whether the call is a bid of that denomination.
fn names(denomination: Denomination, call: Call) -> bool
    ensures { result ≡ names denomination call }
{
    match call {
        Call::Bid(bid) => bid.denomination == denomination,
        Call::Pass | Call::Double | Call::Redouble => false,
    }
}

/// The doubling after these calls, by the last of them that is no pass.
pub fn doubling(calls: &[Call]) -> Doubling
    ensures { result ≡ doubling_of calls.now }
{
    match last_but_passes(calls).and_then(|index| calls.get(index).copied()) {
        Some(Call::Double) => Doubling::Doubled,
        Some(Call::Redouble) => Doubling::Redoubled,
        _ => Doubling::Undoubled,
    }
}
