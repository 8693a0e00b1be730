//! What was said with a claim, and who refused it.
ghost use Rattle.std.specs.Prelude.{◌≡◌, Some};
ghost use Rattle.desk_replies.specs.Desk.{same_claim, is_said_with};

use crate::plain_text::PlainText;
use bridge_cards::Seat;

/// A claim that stands.
#[derive(Clone, Copy, Debug, PartialEq, Eq)]
pub struct StandingClaim {
    /// The round of its play.
    pub round: u8,
    /// The index of its board in the table's set.
    pub index: u8,
    /// How many claims were made in the play, this one included.
    pub number: u8,
    /// Who claims.
    pub claimer: Seat,
}

/// What was said with a claim (Law 68C).
#[derive(Drop)]
pub struct Statement {
    /// The claim.
    pub claim: StandingClaim,
    /// What was said.
    pub text: PlainText,
}

/// That a player refuses a claim which he is asked for.
#[derive(Clone, Copy, Debug, PartialEq, Eq)]
pub struct ClaimRefusal {
    /// The claim.
    pub claim: StandingClaim,
    /// Who refuses it.
    pub seat: Seat,
}

impl StandingClaim {
    /// Whether it is that claim.
    pub(crate) fn is(&self, claim: StandingClaim) -> bool
        ensures { result ≡ same_claim self.now claim }
    {
        self.round == claim.round
            && self.index == claim.index
            && self.number == claim.number
            && self.claimer == claim.claimer
    }
}

impl Statement {
    /// Whether it was said with that claim.
    pub(crate) fn is_of(&self, claim: StandingClaim) -> bool
        ensures { result ≡ is_said_with claim (Some self.now) }
    {
        self.claim.is(claim)
    }
}
