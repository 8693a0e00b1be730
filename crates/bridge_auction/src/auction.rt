//! The auction of one board.
ghost use Rattle.std.specs.Prelude.{◌≡◌, ◌≤◌, ◌∷◌, ◌++◌, [], ◌↔◌, ◌-◌, length, slice_get, IsOk, OnOk, OnErr, IsSome, IfSome};
ghost use Rattle.bridge_cards.specs.Seat.{clockwise_from};
ghost use Rattle.bridge_auction.specs.Legal.{is_ended, IsLegal};
ghost use Rattle.bridge_auction.specs.Answer.{answer_to};
ghost use Rattle.bridge_auction.specs.Contract.{contract_of};
ghost use Rattle.bridge_auction.specs.Auction.{bidding, with_call, without_last_call};

use crate::call::Call;
use crate::contract::Contract;
use crate::longest::MOST_CALLS;
use crate::refused::CallRefused;
use crate::rules;
use arrayvec::ArrayVec;
use bridge_cards::Seat;
use std::marker::Model;

/// The auction of one board: its dealer, and a legal list of calls.
#[derive(Debug, Drop, PartialEq, Eq)]
pub struct Auction {
    /// The dealer.
    dealer: Seat,
    /// The calls, a legal list.
    calls: ArrayVec<Call, MOST_CALLS>,
}

impl Model for Auction {
    ghost use Rattle.std.specs.Prelude.{ℕ};
    ghost use Rattle.bridge_auction.specs.Auction.{AuctionValue};
    ghost use Rattle.bridge_auction.specs.Legal.{IsLegal};

    ghost Value = { AuctionValue };

    ghost view = { λ a. record { dealer = a.dealer; calls = a.calls.items } };

    ghost invariant = { λ a. IsLegal a.calls.items };

    ghost inverse = { λ a. record { dealer = a.dealer; calls = record { items = a.calls } } };
}

impl Auction {
    /// An auction without calls.
    pub fn new(dealer: Seat) -> Auction
        ensures dealer { result.dealer ≡ dealer }
        ensures calls { result.calls ≡ [] }
    {
        Auction {
            dealer,
            calls: ArrayVec::new(),
        }
    }

    /// The auction of these calls, or `None` where they are no legal list.
    pub fn from_calls(dealer: Seat, calls: &[Call]) -> Option<Auction>
        ensures legal { IsSome result ↔ IsLegal calls.now }
        ensures auction { IfSome result (λ auction. auction ≡ bidding dealer calls.now) }
    {
        let mut auction = Auction::new(dealer);
        for call in calls {
            auction.try_call(*call).ok()?;
        }
        Some(auction)
    }

    /// Adds a call to the auction where the list with it is legal, and otherwise says why not.
    pub fn try_call(&mut self, call: Call) -> Result<(), CallRefused>
        ensures answer { result ≡ answer_to self.old.calls call }
        ensures legal { IsOk result ↔ IsLegal (self.old.calls ++ call ∷ []) }
        ensures taken { OnOk result (self.new ≡ with_call self.old call) }
        ensures refused { OnErr result (self.new ≡ self.old) }
    {
        let made = call;
        let answer = rules::answer(self.calls.as_slice(), call);
        if answer.is_ok() {
            self.calls.push(made);
        }
        answer
    }

    /// Takes back the last call and gives it, or `None` where there is none.
    pub fn take_back(&mut self) -> Option<Call>
        ensures last { result ≡ slice_get self.old.calls (length self.old.calls - 1) }
        ensures rest { self.new ≡ without_last_call self.old }
    {
        self.calls.pop()
    }

    /// Who dealt the board, and calls first.
    pub fn dealer(&self) -> Seat
        ensures { result ≡ self.now.dealer }
    {
        self.dealer
    }

    /// Whose turn it is to call: the dealer's, then clockwise. It goes on so after the end.
    pub fn turn(&self) -> Seat
        ensures { result ≡ clockwise_from self.now.dealer (length self.now.calls) }
    {
        Seat::clockwise(self.dealer, self.calls.len())
    }

    /// Whether the auction is over (Law 22).
    pub fn is_ended(&self) -> bool
        ensures { result ≡ is_ended self.now.calls }
    {
        rules::ended(self.calls.as_slice())
    }

    /// The calls so far, a legal list.
    pub fn calls(&self) -> &[Call]
        ensures calls { result.now ≡ self.now.calls }
        ensures legal { IsLegal result.now }
        ensures few { length result.now ≤ MOST_CALLS }
    {
        self.calls.as_slice()
    }

    /// The contract: `None` while the auction is open, and where nobody bid (Law 22).
    pub fn contract(&self) -> Option<Contract>
        ensures { result ≡ contract_of self.now.dealer self.now.calls }
    {
        let calls = self.calls.as_slice();
        if !rules::ended(calls) {
            return None;
        }
        let last = rules::last_bid(calls)?;
        match calls.get(last) {
            Some(Call::Bid(bid)) => {
                let side = self.dealer.clockwise(last).side();
                let first = rules::first_to_name(self.dealer, calls, side, bid.denomination);
                Some(Contract {
                    bid: *bid,
                    doubling: rules::doubling(calls),
                    declarer: self.dealer.clockwise(first.unwrap_or(last)),
                })
            }
            _ => None,
        }
    }
}
