//! The claims that a player is shown at his table.
ghost use Rattle.std.specs.Prelude.{◌≡◌, IfOk, option_and_then};
ghost use Rattle.std.specs.Option.{option_copied};
ghost use Rattle.session_rules.specs.Numbers.{IsTableNumber};
ghost use Rattle.desk_replies.specs.Claims.{claim_at, seen_of_view, standing, is_of_last, is_asked, claim_to};

use crate::said::{ClaimRefusal, StandingClaim};
use bridge_cards::Seat;
use bridge_config::Key;
use bridge_play::{Claim, Play};
use bridge_session::Session;
use session_rules::{PlayId, Refused, View};

/// Where a player sits, and the claims of the play that he is shown there.
#[derive(Clone, Copy, Debug)]
pub struct SeenClaim {
    /// The table's number.
    pub table: u8,
    /// The seat.
    pub seat: Seat,
    /// The round of the play.
    pub round: u8,
    /// The index of its board in the table's set.
    pub index: u8,
    /// How many claims were made in it.
    pub number: u8,
    /// The claim that stands, if one does.
    pub claim: Option<Claim>,
}

impl SeenClaim {
    /// The claim that stands, if one does.
    pub(crate) fn standing(&self) -> Option<StandingClaim>
        ensures { result ≡ standing self.now }
    {
        let claim = self.claim?;
        Some(StandingClaim {
            round: self.round,
            index: self.index,
            number: self.number,
            claimer: claim.claimer,
        })
    }

    /// Whether a refusal is of the last claim that was made in the play.
    pub(crate) fn was_refused_by(&self, refusal: ClaimRefusal) -> bool
        ensures { result ≡ is_of_last self.now refusal }
    {
        let claim = refusal.claim;
        claim.round == self.round && claim.index == self.index && claim.number == self.number
    }
}

/// The claim that stands or was agreed, if the cards are played and there is one.
fn claim_of(play: Option<&Play>) -> Option<Claim>
    ensures { result ≡ option_and_then (λ play. play.claim) (option_copied play.entry) }
{
    play?.claim()
}

/// The claim in a play, if there is such a play and one stands in it or was agreed.
fn claim_at(session: &Session, play: PlayId) -> Option<Claim>
    ensures { result ≡ claim_at session.now play }
{
    match session.entry(play) {
        Some(entry) => claim_of(entry.play),
        None => None,
    }
}

/// Where the viewer sits, and the claims of the play that a view shows.
fn seen_of(session: &Session, view: &View<'_>) -> SeenClaim
    ensures seen { result ≡ seen_of_view session.now view.now }
    ensures table { IsTableNumber result.table }
{
    SeenClaim {
        table: view.play.table.number(),
        seat: view.seat,
        round: view.play.round.number(),
        index: view.play.index.number(),
        number: view.claims_made,
        claim: claim_at(session, view.play),
    }
}

/// Whether the player of the key is asked by the claim that stands where he sits, and has not agreed.
pub(crate) fn is_asked(session: &Session, key: Key) -> Result<bool, Refused>
    ensures { result ≡ is_asked session.now key.0 }
{
    match session.stage(key) {
        Ok(stage) => Ok(stage.answer_due),
        Err(refused) => Err(refused),
    }
}

/// Where the player of the key sits and the claims of the play that he is shown there, where he is shown one.
pub(crate) fn claim_to(session: &Session, key: Key) -> Result<SeenClaim, Refused>
    ensures seen { result ≡ claim_to session.now key.0 }
    ensures table { IfOk result (λ seen. IsTableNumber seen.table) }
{
    match session.see(key) {
        Ok(view) => Ok(seen_of(session, &view)),
        Err(refused) => Err(refused),
    }
}
