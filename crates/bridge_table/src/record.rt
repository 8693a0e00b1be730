//! The record of one play.
ghost use Rattle.std.specs.Prelude.{◌≡◌, OnOk, OnErr, Some};
ghost use Rattle.bridge_auction.specs.Call.{IsCall};
ghost use Rattle.session_rules.specs.Record.{is_done, is_ruled_out};
ghost use Rattle.session_rules.specs.Deed.{call_answer, deed_answer, answer_if_play};
ghost use Rattle.session_rules.specs.Correction.{ruling_by};
ghost use Rattle.session_rules.specs.DirectorStep.{is_begun_on, is_ruled_on};
ghost use Rattle.session_rules.specs.Outcome.{outcome_of_course, outcome_by, HasFewTricks};
ghost use Rattle.session_rules.specs.declared.outcome.Outcome.TheVariants.{Assigned};
ghost use Rattle.session_rules.specs.declared.ruling.Ruling.TheVariants as ruling;
ghost use Rattle.session_rules.specs.Valid.{IsDeed};
ghost use Rattle.session_rules.specs.StateRange.{IsCorrectionInRange};
ghost use Rattle.bridge_table.specs.Kept.{plain_of, new_record, course_kept, is_kept_open, after_deed, after_play, kept_ruling_answer};
ghost use Rattle.session_rules.specs.declared.deed.Deed.TheVariants as deed;

use crate::refusals::{call_result, card_result, claim_result, consent_result};
use bridge_auction::{Auction, Call, Contract};
use bridge_cards::{BoardNumber, Card, Deal, Scoring, Seat, dealer};
use bridge_play::{ClaimCount, Play};
use session_rules::{Correction, Deed, MadeCount, Outcome, Refused, Ruling, TrickCount};

/// The play of one board by one table: its calls, its cards and claims once there is a contract, and the ruling on it.
#[derive(Drop)]
pub struct Record {
    /// The board.
    pub board: BoardNumber,
    /// Its calls.
    pub auction: Auction,
    /// How many claims were made in contracts of which a call was taken back.
    pub claims: ClaimCount,
    /// Its cards and claims, once there is a contract.
    pub play: Option<Play>,
    /// The latest ruling, unless it was taken back.
    pub ruling: Option<Ruling>,
}

/// What came of a play to which the director assigned the score of that contract with that many tricks.
fn assigned(contract: Contract, tricks: TrickCount) -> Outcome
    ensures outcome { result ≡ Assigned contract tricks }
    ensures few { HasFewTricks result }
{
    Outcome::Assigned {
        contract,
        tricks: tricks.number(),
    }
}

impl Record {
    /// Nothing has happened in the play of the board.
    pub fn new(board: BoardNumber) -> Record
        ensures { result ≡ new_record board }
    {
        Record {
            board,
            auction: Auction::new(dealer(board)),
            claims: ClaimCount::default(),
            play: None,
            ruling: None,
        }
    }

    /// Whether the play is finished: over, or passed out.
    pub fn is_finished(&self) -> bool
        ensures { result ≡ is_done self.now.auction.calls (course_kept self.now) }
    {
        match &self.play {
            Some(play) => play.is_over(),
            None => self.auction.is_ended(),
        }
    }

    fn is_ruled_out(&self) -> bool
        ensures { result ≡ is_ruled_out self.now.ruling }
    {
        matches!(
            self.ruling,
            Some(Ruling::Void | Ruling::Adjusted { .. } | Ruling::Assigned { .. })
        )
    }

    /// Whether the play is neither finished, void nor adjusted.
    pub fn is_open(&self) -> bool
        ensures { result ≡ is_kept_open self.now }
    {
        !self.is_ruled_out() && !self.is_finished()
    }

    /// Whether the play is of the board, and a call was made in it.
    pub fn is_begun_on(&self, board: BoardNumber) -> bool
        ensures { result ≡ is_begun_on board (plain_of self.now) }
    {
        self.board == board && !self.auction.calls().is_empty()
    }

    /// Whether the play is of the board, and a ruling stands on it.
    pub fn is_ruled_on(&self, board: BoardNumber) -> bool
        ensures { result ≡ is_ruled_on board (plain_of self.now) }
    {
        self.board == board && self.ruling.is_some()
    }

    /// What came of the play but for a ruling.
    fn outcome_of_play(&self) -> Outcome
        ensures outcome { result ≡ outcome_of_course self.now.auction.calls (course_kept self.now) }
        ensures few { HasFewTricks result }
    {
        match &self.play {
            None if self.auction.is_ended() => Outcome::PassedOut,
            Some(play) if play.is_over() => {
                let contract = *play.contract();
                let side = contract.declarer.side();
                Outcome::Played {
                    contract,
                    tricks: play.tricks(side),
                }
            }
            _ => Outcome::Unfinished,
        }
    }

    /// What came of the play of which declarer has that many tricks by a ruling.
    fn outcome_ruled(&self, tricks: TrickCount) -> Outcome
        ensures outcome { result ≡ outcome_by self.now.auction.calls (course_kept self.now) (Some (ruling.Tricks tricks)) }
        ensures few { HasFewTricks result }
    {
        match &self.play {
            Some(play) => Outcome::Played {
                contract: *play.contract(),
                tricks: tricks.number(),
            },
            None => Outcome::Unfinished,
        }
    }

    /// What came of the play.
    pub fn outcome(&self) -> Outcome
        ensures outcome { result ≡ outcome_by self.now.auction.calls (course_kept self.now) self.now.ruling }
        ensures few { HasFewTricks result }
    {
        match self.ruling {
            None => self.outcome_of_play(),
            Some(Ruling::Void) => Outcome::Voided,
            Some(Ruling::Adjusted { ns, ew }) => Outcome::Adjusted { ns, ew },
            Some(Ruling::Assigned { contract, tricks }) => assigned(contract, tricks),
            Some(Ruling::Tricks(tricks)) => self.outcome_ruled(tricks),
        }
    }

    fn call(&mut self, seat: Seat, at: MadeCount, call: Call, deal: &Deal) -> Result<(), Refused>
        ensures answer { result ≡ call_answer self.old.auction seat at call }
        ensures known { OnOk result (IsCall call) }
        ensures taken { OnOk result (self.new ≡ after_deed deal.now seat (deed.Call call) self.old) }
        ensures refused { OnErr result (self.new ≡ self.old) }
    {
        if self.auction.is_ended() {
            return Err(Refused::WrongPhase);
        }
        if usize::from(at.number()) != self.auction.calls().len() {
            return Err(Refused::Stale);
        }
        if seat != self.auction.turn() {
            return Err(Refused::NotYourTurn);
        }
        let answer = call_result(self.auction.try_call(call));
        if answer.is_ok() {
            let claims = self.claims;
            self.play = self
                .auction
                .contract()
                .map(|contract| Play::after_claims(deal, contract, claims));
        }
        answer
    }

    fn card(&mut self, seat: Seat, at: MadeCount, card: Card) -> Result<(), Refused>
        ensures answer { result ≡ answer_if_play self.old.play seat at (deed.Card card) }
        ensures taken { OnOk result (self.new ≡ after_play seat (deed.Card card) self.old) }
        ensures refused { OnErr result (self.new ≡ self.old) }
    {
        let Some(play) = &mut self.play else {
            return Err(Refused::WrongPhase);
        };
        if usize::from(at.number()) != play.cards().len() {
            return Err(Refused::Stale);
        }
        card_result(play.try_card(seat, card))
    }

    fn claim(&mut self, seat: Seat, at: MadeCount, tricks: TrickCount) -> Result<(), Refused>
        ensures answer { result ≡ answer_if_play self.old.play seat at (deed.Claim tricks) }
        ensures taken { OnOk result (self.new ≡ after_play seat (deed.Claim tricks) self.old) }
        ensures refused { OnErr result (self.new ≡ self.old) }
    {
        let Some(play) = &mut self.play else {
            return Err(Refused::WrongPhase);
        };
        if at.number() != u16::from(play.claims()) {
            return Err(Refused::Stale);
        }
        claim_result(play.try_claim(seat, tricks.number()))
    }

    fn agree(&mut self, seat: Seat, at: MadeCount) -> Result<(), Refused>
        ensures answer { result ≡ answer_if_play self.old.play seat at deed.Agree }
        ensures taken { OnOk result (self.new ≡ after_play seat deed.Agree self.old) }
        ensures refused { OnErr result (self.new ≡ self.old) }
    {
        let Some(play) = &mut self.play else {
            return Err(Refused::WrongPhase);
        };
        let claims = play.claims();
        if at.number() != u16::from(claims) {
            return Err(Refused::Stale);
        }
        consent_result(play.agree(seat, claims))
    }

    fn refuse(&mut self, seat: Seat, at: MadeCount) -> Result<(), Refused>
        ensures answer { result ≡ answer_if_play self.old.play seat at deed.Refuse }
        ensures taken { OnOk result (self.new ≡ after_play seat deed.Refuse self.old) }
        ensures refused { OnErr result (self.new ≡ self.old) }
    {
        let Some(play) = &mut self.play else {
            return Err(Refused::WrongPhase);
        };
        let claims = play.claims();
        if at.number() != u16::from(claims) {
            return Err(Refused::Stale);
        }
        consent_result(play.refuse(seat, claims))
    }

    /// What a player does, who names how many such acts were made before, in the play of that deal.
    pub fn act(&mut self, seat: Seat, at: MadeCount, deed: Deed, deal: &Deal) -> Result<(), Refused>
        ensures answer { result ≡ deed_answer self.old.auction self.old.play seat at deed }
        ensures known { OnOk result (IsDeed deed) }
        ensures taken { OnOk result (self.new ≡ after_deed deal.now seat deed self.old) }
        ensures refused { OnErr result (self.new ≡ self.old) }
    {
        match deed {
            Deed::Call(call) => self.call(seat, at, call, deal),
            Deed::Card(card) => self.card(seat, at, card),
            Deed::Claim(tricks) => self.claim(seat, at, tricks),
            Deed::Agree => self.agree(seat, at),
            Deed::Refuse => self.refuse(seat, at),
        }
    }

    /// The answer to a ruling, of a play whose round is over or not: all but `Void` and an assigned score may be refused.
    fn ruling_answer(
        &self,
        scoring: Scoring,
        correction: Correction,
        round_is_over: bool,
    ) -> Result<(), Refused>
        ensures { result ≡ kept_ruling_answer scoring self.now correction round_is_over }
    {
        match correction {
            Correction::Tricks(_) => match &self.play {
                None => Err(Refused::NoContract),
                Some(play) if !play.is_over() => Err(Refused::NotFinished),
                Some(_) => Ok(()),
            },
            Correction::Void | Correction::Assign { .. } => Ok(()),
            Correction::Adjust { .. } => match scoring {
                Scoring::MatchPoints => Ok(()),
                Scoring::Imps => Err(Refused::NotMatchPoints),
            },
            Correction::Restore => {
                if round_is_over && !self.is_finished() {
                    Err(Refused::NotFinished)
                } else {
                    Ok(())
                }
            }
        }
    }

    /// Sets the ruling, or takes it back.
    pub fn rule(
        &mut self,
        scoring: Scoring,
        correction: Correction,
        round_is_over: bool,
    ) -> Result<(), Refused>
        ensures answer { result ≡ kept_ruling_answer scoring self.old correction round_is_over }
        ensures taken { OnOk result (self.new ≡ record self.old { ruling = ruling_by correction }) }
        ensures range { IsCorrectionInRange correction }
        ensures refused { OnErr result (self.new ≡ self.old) }
    {
        let made = correction;
        let ruling = made.ruling();
        let answer = self.ruling_answer(scoring, correction, round_is_over);
        if answer.is_ok() {
            self.ruling = ruling;
        }
        answer
    }
}
