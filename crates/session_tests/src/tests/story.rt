//! What was done in one play, and the answer to what a player does next.
use super::stack::Stack;
use bridge_auction::{Auction, Call, CallRefused, Contract};
use bridge_cards::{BoardNumber, Card, Deal, Seat, dealer};
use bridge_play::Play;
use bridge_session::{Action, Average, Outcome, Refused};

#[derive(Drop)]
pub struct Story {
    stack: Stack,
    pub board: BoardNumber,
    pub deal: Option<Deal>,
    pub auction: Auction,
    pub play: Option<Play>,
    pub ruled_tricks: Option<u8>,
    pub is_void: bool,
    pub averages: Option<(Average, Average)>,
    pub assigned: Option<(Contract, u8)>,
}

impl Story {
    pub fn new(board: BoardNumber) -> Story {
        Story {
            stack: Stack::new(),
            board,
            deal: None,
            auction: Auction::new(dealer(board)),
            play: None,
            ruled_tricks: None,
            is_void: false,
            averages: None,
            assigned: None,
        }
    }

    /// Adds an action that was taken: a deal, or what the player in that seat did.
    pub fn tell(&mut self, action: &Action, seat: Option<Seat>) {
        match *action {
            Action::Deal { board, hands, .. } if board == self.board => self.deal =
                Deal::from_hands(hands).ok(),
            Action::Undeal { board, .. } if board == self.board => self.deal = None,
            _ => {
                if let Some(seat) = seat {
                    self.stack.push(action, seat);
                }
            }
        }
    }

    /// Adds a ruling, of which the latest holds.
    pub fn rule(&mut self, action: &Action) {
        self.is_void = matches!(action, Action::Void { .. });
        self.averages = match action {
            Action::Adjust { ns, ew, .. } => Some((*ns, *ew)),
            _ => None,
        };
        self.assigned = match action {
            Action::Assign {
                contract,
                tricks,
                ..
            } => Some((*contract, tricks.number())),
            _ => None,
        };
        self.ruled_tricks = match action {
            Action::Tricks { tricks, .. } => Some(tricks.number()),
            _ => None,
        };
    }

    /// Whether a ruling stands.
    pub fn is_ruled(&self) -> bool {
        self.is_ruled_out() || self.ruled_tricks.is_some()
    }

    /// Whether the play is void or adjusted, or has an assigned score.
    pub fn is_ruled_out(&self) -> bool {
        self.is_void || self.averages.is_some() || self.assigned.is_some()
    }

    /// Takes back the latest thing done.
    pub fn back(&mut self) {
        self.stack.pop();
    }

    /// Reads the auction and the play off what was done.
    pub fn settle(&mut self) {
        if let Some(auction) = self.stack.auction(self.board) {
            self.auction = auction;
        }
        self.play = match (self.auction.contract(), &self.deal) {
            (Some(contract), Some(deal)) => self.stack.play(deal, contract),
            _ => None,
        };
    }

    /// Whether the play is finished: passed out, all played, or claimed.
    pub fn is_over(&self) -> bool {
        match &self.play {
            Some(play) => play.is_over(),
            None => self.auction.is_ended(),
        }
    }

    /// What came of the play.
    pub fn outcome(&self) -> Outcome {
        if self.is_void {
            return Outcome::Voided;
        }
        if let Some((ns, ew)) = self.averages {
            return Outcome::Adjusted { ns, ew };
        }
        if let Some((contract, tricks)) = self.assigned {
            return Outcome::Assigned { contract, tricks };
        }
        let tricks = match (self.ruled_tricks, &self.play) {
            (Some(tricks), _) => tricks,
            (None, Some(play)) => play.tricks(play.contract().declarer.side()),
            (None, None) => 0,
        };
        match &self.play {
            Some(play) if self.is_over() => Outcome::Played {
                contract: *play.contract(),
                tricks,
            },
            None if self.is_over() => Outcome::PassedOut,
            _ => Outcome::Unfinished,
        }
    }

    /// The answer to what the player in that seat does, whose cards and calls may then be tried.
    pub fn answer(&mut self, seat: Seat, action: &Action) -> Result<(), Refused> {
        if let Action::Call { at, call, .. } = action {
            return call_answer(&mut self.auction, seat, at.number(), *call);
        }
        let Some(play) = &mut self.play else {
            return Err(Refused::WrongPhase);
        };
        match *action {
            Action::Card { at, card, .. } => card_answer(play, seat, at.number(), card),
            Action::Claim { at, tricks, .. } => {
                claim_answer(play, seat, at.number(), tricks.number())
            }
            Action::Agree { at, .. } | Action::Refuse { at, .. } => {
                consent_answer(play, seat, at.number())
            }
            _ => Ok(()),
        }
    }
}

fn call_answer(auction: &mut Auction, seat: Seat, at: u16, call: Call) -> Result<(), Refused> {
    if auction.is_ended() {
        return Err(Refused::WrongPhase);
    }
    if auction.calls().len() != usize::from(at) {
        return Err(Refused::Stale);
    }
    if auction.turn() != seat {
        return Err(Refused::NotYourTurn);
    }
    match auction.try_call(call) {
        Ok(()) => Ok(()),
        Err(CallRefused::InsufficientBid) => Err(Refused::InsufficientBid),
        Err(CallRefused::InadmissibleDouble) => Err(Refused::InadmissibleDouble),
        Err(CallRefused::InadmissibleRedouble) => Err(Refused::InadmissibleRedouble),
        Err(CallRefused::Ended) => Err(Refused::WrongPhase),
    }
}

fn card_answer(play: &mut Play, seat: Seat, at: u16, card: Card) -> Result<(), Refused> {
    if play.cards().len() != usize::from(at) {
        return Err(Refused::Stale);
    }
    if play.claim().is_some() {
        return Err(Refused::ClaimStands);
    }
    if play.actor() != seat {
        return Err(Refused::NotYourTurn);
    }
    if !play.remaining(play.turn()).has(card) {
        return Err(Refused::NotHeld);
    }
    match play.try_card(seat, card) {
        Ok(()) => Ok(()),
        Err(_) => Err(Refused::MustFollow),
    }
}

fn claim_answer(play: &Play, seat: Seat, at: u16, tricks: u8) -> Result<(), Refused> {
    let played = play.cards().len();
    if u16::from(play.claims()) != at {
        Err(Refused::Stale)
    } else if play.claim().is_some() {
        Err(Refused::ClaimStands)
    } else if seat == play.contract().declarer.partner() {
        Err(Refused::NotYourTurn)
    } else if played % 4 != 0 {
        Err(Refused::MidTrick)
    } else if usize::from(tricks) > 13usize.saturating_sub(played / 4) {
        Err(Refused::TooManyTricks)
    } else if play.claims() >= 99 {
        Err(Refused::ClaimsSpent)
    } else {
        Ok(())
    }
}

fn consent_answer(play: &Play, seat: Seat, at: u16) -> Result<(), Refused> {
    if u16::from(play.claims()) != at {
        return Err(Refused::Stale);
    }
    let claim = play.claim().ok_or(Refused::NoClaim)?;
    let declarer = play.contract().declarer;
    let asked = if claim.claimer == declarer {
        seat != declarer && seat != declarer.partner()
    } else {
        seat == declarer
    };
    let agreed = claim.agreed.get(usize::from(seat.number())).copied();
    if !asked || agreed.unwrap_or(false) {
        return Err(Refused::NotAsked);
    }
    Ok(())
}
