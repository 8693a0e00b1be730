//! The claims of a play, and the answers to them.
ghost use Rattle.std.specs.Prelude.{◌≡◌, ◌<◌, ◌≤◌, ◌↔◌, IsOk, OnOk, OnErr, IfSome};
ghost use Rattle.bridge_play.specs.Play.{claim_answer, MayBeClaimed, with_claim, consent_answer, MayAnswer, is_awaited, with_agreement, without_claim, IsClaimIn};

use super::{Play, TRICKS};
use crate::claim::{Claim, agreed_by, consent_to};
use crate::claim_count::{ClaimCount, MOST_CLAIMS};
use crate::dummy::dummy;
use crate::refused::{ClaimRefused, ConsentRefused};
use bridge_cards::Seat;

impl Play {
    /// How many claims were made, 0 to 99.
    pub fn claims(&self) -> u8
        ensures claims { result ≡ self.now.claims }
        ensures most { result ≤ MOST_CLAIMS }
    {
        self.claims
    }

    /// The same as a count.
    pub fn claim_count(&self) -> ClaimCount
        ensures { result ≡ self.now.claims }
    {
        ClaimCount {
            number: self.claims,
        }
    }

    /// The claim that stands or was agreed. It was made between tricks, before the last was played, not by dummy, for no more
    /// tricks than are left, and nobody has agreed to it who is not asked.
    pub fn claim(&self) -> Option<Claim>
        ensures claim { result ≡ self.now.claim }
        ensures regular { IfSome result (IsClaimIn self.now) }
    {
        self.claim
    }

    /// The answer to a claim of that many of the tricks left by a player.
    fn claim_answer(&self, seat: Seat, tricks: u8) -> Result<(), ClaimRefused>
        ensures answer { result ≡ claim_answer self.now seat tricks }
        ensures room { OnOk result (self.now.claims < MOST_CLAIMS) }
    {
        let tricks_played = self.card_play.cards().len() / 4;
        if self.is_over() {
            Err(ClaimRefused::Over)
        } else if self.claim.is_some() {
            Err(ClaimRefused::ClaimStands)
        } else if seat == dummy(self.card_play.contract()) {
            Err(ClaimRefused::NotYourTurn)
        } else if self.card_play.cards().len() % 4 != 0 {
            Err(ClaimRefused::MidTrick)
        } else if tricks_played + usize::from(tricks) > TRICKS {
            Err(ClaimRefused::TooManyTricks)
        } else if self.claims >= MOST_CLAIMS {
            Err(ClaimRefused::ClaimsSpent)
        } else {
            Ok(())
        }
    }

    /// Claims that many of the tricks left for the player's side, where a claim may be made, and otherwise says why not.
    /// It stands until it is refused or agreed (Law 68).
    pub fn try_claim(&mut self, seat: Seat, tricks: u8) -> Result<(), ClaimRefused>
        ensures answer { result ≡ claim_answer self.old seat tricks }
        ensures accepted { IsOk result ↔ MayBeClaimed self.old seat tricks }
        ensures claimed { OnOk result (self.new ≡ with_claim self.old seat tricks) }
        ensures refused { OnErr result (self.new ≡ self.old) }
    {
        let answer = self.claim_answer(seat, tricks);
        if answer.is_ok() {
            self.claims += 1;
            self.claim = Some(Claim {
                claimer: seat,
                tricks,
                agreed: [false; 4],
            });
        }
        answer
    }

    /// The answer to a player who agrees to the claim of that number, or refuses it.
    fn consent_answer(&self, seat: Seat, number: u8) -> Result<(), ConsentRefused>
        ensures { result ≡ consent_answer self.now seat number }
    {
        if number != self.claims {
            return Err(ConsentRefused::Stale);
        }
        match &self.claim {
            None => Err(ConsentRefused::NoClaim),
            Some(claim) => consent_to(self.card_play.contract(), claim, seat),
        }
    }

    /// Agrees to the claim of that number, the claims counted from 1. When all who are asked have agreed the play is over
    /// (Law 68).
    pub fn agree(&mut self, seat: Seat, number: u8) -> Result<(), ConsentRefused>
        ensures answer { result ≡ consent_answer self.old seat number }
        ensures accepted { IsOk result ↔ MayAnswer self.old seat number }
        ensures agreed { OnOk result (self.new ≡ with_agreement self.old seat) }
        ensures refused { OnErr result (self.new ≡ self.old) }
    {
        let answer = self.consent_answer(seat, number);
        if answer.is_ok() {
            self.claim = agreed_by(self.claim, seat);
        }
        answer
    }

    /// Refuses the claim of that number, the claims counted from 1, which then stands no longer (Law 68).
    pub fn refuse(&mut self, seat: Seat, number: u8) -> Result<(), ConsentRefused>
        ensures answer { result ≡ consent_answer self.old seat number }
        ensures accepted { IsOk result ↔ MayAnswer self.old seat number }
        ensures dropped { OnOk result (self.new ≡ without_claim self.old) }
        ensures refused { OnErr result (self.new ≡ self.old) }
    {
        let answer = self.consent_answer(seat, number);
        if answer.is_ok() {
            self.claim = None;
        }
        answer
    }

    /// Whether the player's answer to a claim is due: a claim stands, and the player is asked and has not agreed to it
    /// (Law 68).
    pub fn awaits(&self, seat: Seat) -> bool
        ensures { result ≡ is_awaited self.now.contract self.now.claim seat }
    {
        match &self.claim {
            Some(claim) => consent_to(self.card_play.contract(), claim, seat).is_ok(),
            None => false,
        }
    }
}
