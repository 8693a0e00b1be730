//! A plain twin of the auction: a referee who walks once through the calls and keeps the last bid, by whom it was made,
//! its doubling, the passes since, and who bid each denomination first.
use crate::tests::expect_eq;
use arrayvec::ArrayVec;
use bridge_auction::{Auction, Bid, Call, Contract, Denomination, Doubling, Level};
use bridge_cards::{Seat, Side};
use std::process::Abort;

/// Who bid each denomination first, by side: North and South, then East and West.
#[derive(Drop)]
struct FirstBids {
    seats: [[Option<Seat>; 5]; 2],
}

impl FirstBids {
    /// The first player of the seat's side to bid the denomination, who is this one where there was none before.
    fn declarer(&mut self, seat: Seat, denomination: Denomination) -> Seat {
        let side = match seat.side() {
            Side::NorthSouth => 0,
            Side::EastWest => 1,
        };
        let index = usize::from(denomination.number());
        let first = self.seats[side][index].unwrap_or(seat);
        self.seats[side][index] = Some(first);
        first
    }
}

#[derive(Drop)]
struct Referee {
    calls: usize,
    passes: usize,
    contract: Option<Contract>,
    firsts: FirstBids,
}

impl Referee {
    fn is_ended(&self) -> bool {
        self.calls >= 4 && self.passes >= 3
    }

    /// The contract of an auction that is ended.
    fn made(&self) -> Option<Contract> {
        if self.is_ended() { self.contract } else { None }
    }

    /// Whether the seat may make the call in an auction that is open (Laws 18 and 19).
    fn admits(&self, seat: Seat, call: Call) -> bool {
        let Some(last) = self.contract else {
            return matches!(call, Call::Pass | Call::Bid(_));
        };
        let is_own = last.declarer.side() == seat.side();
        match call {
            Call::Pass => true,
            Call::Bid(bid) => bid.number() > last.bid.number(),
            Call::Double => last.doubling == Doubling::Undoubled && !is_own,
            Call::Redouble => last.doubling == Doubling::Doubled && is_own,
        }
    }

    /// Takes the call of the player in turn, if it is one that he may make. The result says so.
    fn hears(&mut self, call: &Call) -> bool {
        let seat = Seat::North.clockwise(self.calls);
        let is_legal = !self.is_ended() && self.admits(seat, *call);
        if is_legal {
            self.takes(seat, *call);
        }
        is_legal
    }

    fn takes(&mut self, seat: Seat, call: Call) {
        self.calls = self.calls.wrapping_add(1);
        self.passes = match call {
            Call::Pass => self.passes.wrapping_add(1),
            _ => 0,
        };
        self.contract = match (call, self.contract) {
            (Call::Bid(bid), _) => Some(Contract {
                bid,
                doubling: Doubling::Undoubled,
                declarer: self.firsts.declarer(seat, bid.denomination),
            }),
            (Call::Double, Some(last)) => Some(doubled(last, Doubling::Doubled)),
            (Call::Redouble, Some(last)) => Some(doubled(last, Doubling::Redoubled)),
            (_, last) => last,
        };
    }
}

/// The contract with another doubling.
fn doubled(contract: Contract, doubling: Doubling) -> Contract {
    Contract {
        bid: contract.bid,
        doubling,
        declarer: contract.declarer,
    }
}

/// The auction takes exactly the calls that the referee admits, and ends with the same contract.
pub fn agrees(rt: &impl Abort, calls: &[Call]) {
    let mut auction = Auction::new(Seat::North);
    let firsts = FirstBids {
        seats: [[None; 5]; 2],
    };
    let mut referee = Referee {
        calls: 0,
        passes: 0,
        contract: None,
        firsts,
    };
    for call in calls {
        let is_legal = referee.hears(call);
        expect_eq(rt, auction.try_call(*call).is_ok(), is_legal, calls);
        expect_eq(rt, auction.is_ended(), referee.is_ended(), calls);
        expect_eq(rt, auction.contract(), referee.made(), calls);
    }
}

/// The list of five calls that a number stands for, in base 5.
fn list_of(alphabet: &[Call; 5], number: u32) -> ArrayVec<Call, 5> {
    let mut calls = ArrayVec::new();
    let mut rest = number;
    for _ in 0..5 {
        let _ = calls.try_push(alphabet[(rest % 5) as usize]);
        rest /= 5;
    }
    calls
}

/// The bid of that level and denomination.
fn bid(rt: &impl Abort, level: u8, denomination: Denomination) -> Call {
    Call::Bid(Bid {
        level: Level::new(level).expect(rt, "a level"),
        denomination,
    })
}

#[test]
fn every_short_list(rt: HostRuntime) {
    let spade = bid(&rt, 1, Denomination::Spades);
    let two_clubs = bid(&rt, 2, Denomination::Clubs);
    let alphabet = [Call::Pass, Call::Double, Call::Redouble, spade, two_clubs];
    for number in 0..3125 {
        agrees(&rt, list_of(&alphabet, number).as_slice());
    }
}
