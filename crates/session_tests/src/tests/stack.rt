//! What was done in one play and not taken back, as a stack: what is taken back comes off it.
use arrayvec::ArrayVec;
use bridge_auction::{Auction, Call, Contract};
use bridge_cards::{BoardNumber, Card, Deal, Seat, dealer};
use bridge_play::{Claim, Play};
use bridge_session::Action;

/// More than the calls, the cards and the claim of any play here.
const MOST: usize = 128;

#[derive(Clone, Copy, Default)]
enum Done {
    #[default]
    Nothing,
    Call(Call),
    Card(Card),
    Claim(Claim),
}

/// What was done, the latest on top, and how many claims were ever made.
#[derive(Drop)]
pub struct Stack {
    done: ArrayVec<Done, MOST>,
    claims: u8,
}

/// The claim, to which that seat has agreed too.
fn agreed_by(claim: Claim, seat: Seat) -> Claim {
    let [north, east, south, west] = claim.agreed;
    Claim {
        claimer: claim.claimer,
        tricks: claim.tricks,
        agreed: [
            north || seat == Seat::North,
            east || seat == Seat::East,
            south || seat == Seat::South,
            west || seat == Seat::West,
        ],
    }
}

impl Stack {
    pub fn new() -> Stack {
        Stack {
            done: ArrayVec::new(),
            claims: 0,
        }
    }

    /// Lays what a player did on top: an agreement changes the claim that is there, and a refusal takes it off.
    pub fn push(&mut self, action: &Action, seat: Seat) {
        let done = match *action {
            Action::Call { call, .. } => Done::Call(call),
            Action::Card { card, .. } => Done::Card(card),
            Action::Claim { tricks, .. } => {
                self.claims = self.claims.saturating_add(1);
                Done::Claim(Claim {
                    claimer: seat,
                    tricks: tricks.number(),
                    agreed: [false; 4],
                })
            }
            Action::Agree { .. } => match self.done.pop() {
                Some(Done::Claim(claim)) => Done::Claim(agreed_by(claim, seat)),
                _ => return,
            },
            _ => return self.pop(),
        };
        let _ = self.done.try_push(done);
    }

    /// Takes the latest thing off.
    pub fn pop(&mut self) {
        let _ = self.done.pop();
    }

    /// The auction of the calls, from the bottom up.
    pub fn auction(&self, board: BoardNumber) -> Option<Auction> {
        let mut calls = ArrayVec::<Call, MOST>::new();
        for done in self.done.as_slice() {
            if let Done::Call(call) = *done {
                let _ = calls.try_push(call);
            }
        }
        Auction::from_calls(dealer(board), calls.as_slice())
    }

    /// The play of the cards and the claim in the contract.
    pub fn play(&self, deal: &Deal, contract: Contract) -> Option<Play> {
        let mut cards = ArrayVec::<Card, MOST>::new();
        let mut claim = None;
        for done in self.done.as_slice() {
            match *done {
                Done::Nothing | Done::Call(_) => {}
                Done::Card(card) => {
                    let _ = cards.try_push(card);
                }
                Done::Claim(made) => claim = Some(made),
            }
        }
        Play::from_parts(deal, contract, cards.as_slice(), self.claims, claim)
    }
}
