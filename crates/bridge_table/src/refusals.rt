//! The refusals of an auction and a play, by their names in a session.
ghost use Rattle.std.specs.Prelude.{◌≡◌};
ghost use Rattle.session_rules.specs.Deed.{from_call, from_card, from_claim, from_consent, renamed};

use bridge_auction::CallRefused;
use bridge_play::{CardRefused, ClaimRefused, ConsentRefused};
use session_rules::Refused;

/// The answer to a call, a refusal by its name in a session.
pub fn call_result(answer: Result<(), CallRefused>) -> Result<(), Refused>
    ensures { result ≡ renamed from_call answer }
{
    match answer {
        Ok(()) => Ok(()),
        Err(CallRefused::Ended) => Err(Refused::WrongPhase),
        Err(CallRefused::InsufficientBid) => Err(Refused::InsufficientBid),
        Err(CallRefused::InadmissibleDouble) => Err(Refused::InadmissibleDouble),
        Err(CallRefused::InadmissibleRedouble) => Err(Refused::InadmissibleRedouble),
    }
}

/// The answer to a card, likewise.
pub fn card_result(answer: Result<(), CardRefused>) -> Result<(), Refused>
    ensures { result ≡ renamed from_card answer }
{
    match answer {
        Ok(()) => Ok(()),
        Err(CardRefused::Over) => Err(Refused::NotCurrent),
        Err(CardRefused::ClaimStands) => Err(Refused::ClaimStands),
        Err(CardRefused::NotYourTurn) => Err(Refused::NotYourTurn),
        Err(CardRefused::NotHeld) => Err(Refused::NotHeld),
        Err(CardRefused::MustFollow) => Err(Refused::MustFollow),
    }
}

/// The answer to a claim, likewise.
pub fn claim_result(answer: Result<(), ClaimRefused>) -> Result<(), Refused>
    ensures { result ≡ renamed from_claim answer }
{
    match answer {
        Ok(()) => Ok(()),
        Err(ClaimRefused::Over) => Err(Refused::NotCurrent),
        Err(ClaimRefused::ClaimStands) => Err(Refused::ClaimStands),
        Err(ClaimRefused::NotYourTurn) => Err(Refused::NotYourTurn),
        Err(ClaimRefused::MidTrick) => Err(Refused::MidTrick),
        Err(ClaimRefused::TooManyTricks) => Err(Refused::TooManyTricks),
        Err(ClaimRefused::ClaimsSpent) => Err(Refused::ClaimsSpent),
    }
}

/// The answer to an agreement with a claim or to a refusal of it, likewise.
pub fn consent_result(answer: Result<(), ConsentRefused>) -> Result<(), Refused>
    ensures { result ≡ renamed from_consent answer }
{
    match answer {
        Ok(()) => Ok(()),
        Err(ConsentRefused::Stale) => Err(Refused::Stale),
        Err(ConsentRefused::NoClaim) => Err(Refused::NoClaim),
        Err(ConsentRefused::NotAsked) => Err(Refused::NotAsked),
    }
}
