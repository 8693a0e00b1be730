//! Claims, and who answers them (Law 68).
ghost use Rattle.std.specs.Prelude.{◌≡◌};
ghost use Rattle.bridge_play.specs.Claims.{is_asked, has_agreed, needs_no_answer, all_agreed, agrees_if_asked, only_asked_agree, consent_to, with_agreed};
ghost use Rattle.std.specs.Option.{option_map};

use crate::refused::ConsentRefused;
use bridge_auction::Contract;
use bridge_cards::Seat;

/// A claim of some of the tricks left (Law 68): it stands until it is refused, and the play is over when it is agreed.
#[derive(Clone, Copy, Debug, PartialEq, Eq, Hash)]
pub struct Claim {
    /// Who claims.
    pub claimer: Seat,
    /// How many of the tricks left the claimer's side is to win, 0 to 13. The others go to the other side.
    pub tricks: u8,
    /// Who has agreed, by the seat's number.
    pub agreed: [bool; 4],
}

/// Whether a claim by that seat asks this one.
pub(crate) fn is_asked(contract: &Contract, claimer: Seat, seat: Seat) -> bool
    ensures { result ≡ is_asked contract.now claimer seat }
{
    if claimer == contract.declarer {
        seat.side() != contract.declarer.side()
    } else {
        seat == contract.declarer
    }
}

impl Claim {
    /// Whether the seat has agreed.
    pub fn has_agreed(&self, seat: Seat) -> bool
        ensures { result ≡ has_agreed self.now seat }
    {
        self.agreed[usize::from(seat.number())]
    }

    /// Whether all have agreed whom the claim asks in the play of that contract.
    pub fn is_agreed(&self, contract: &Contract) -> bool
        ensures { result ≡ all_agreed contract.now self.now }
    {
        all_agreed(contract, self)
    }

    /// The claim, to which the seat has agreed too.
    fn with_agreed(self, seat: Seat) -> Claim
        ensures { result ≡ with_agreed seat self }
    {
        let mut agreed = self.agreed;
        agreed[usize::from(seat.number())] = true;
        Claim {
            claimer: self.claimer,
            tricks: self.tricks,
            agreed,
        }
    }
}

/// Whether the seat is not asked, or has agreed.
fn needs_no_answer(contract: &Contract, claim: &Claim, seat: Seat) -> bool
    ensures { result ≡ needs_no_answer contract.now claim.now seat }
{
    !is_asked(contract, claim.claimer, seat) || claim.has_agreed(seat)
}

/// Whether all who are asked have agreed.
pub(crate) fn all_agreed(contract: &Contract, claim: &Claim) -> bool
    ensures { result ≡ all_agreed contract.now claim.now }
{
    needs_no_answer(contract, claim, Seat::North)
        && needs_no_answer(contract, claim, Seat::East)
        && needs_no_answer(contract, claim, Seat::South)
        && needs_no_answer(contract, claim, Seat::West)
}

/// Whether the seat is asked, or has not agreed.
fn agrees_if_asked(contract: &Contract, claim: &Claim, seat: Seat) -> bool
    ensures { result ≡ agrees_if_asked contract.now claim.now seat }
{
    is_asked(contract, claim.claimer, seat) || !claim.has_agreed(seat)
}

/// Whether nobody has agreed who is not asked.
pub(crate) fn only_asked_agree(contract: &Contract, claim: &Claim) -> bool
    ensures { result ≡ only_asked_agree contract.now claim.now }
{
    agrees_if_asked(contract, claim, Seat::North)
        && agrees_if_asked(contract, claim, Seat::East)
        && agrees_if_asked(contract, claim, Seat::South)
        && agrees_if_asked(contract, claim, Seat::West)
}

/// The answer to a player who agrees to that claim, or refuses it.
pub(crate) fn consent_to(
    contract: &Contract,
    claim: &Claim,
    seat: Seat,
) -> Result<(), ConsentRefused>
    ensures { result ≡ consent_to contract.now claim.now seat }
{
    if all_agreed(contract, claim) {
        Err(ConsentRefused::NoClaim)
    } else if needs_no_answer(contract, claim, seat) {
        Err(ConsentRefused::NotAsked)
    } else {
        Ok(())
    }
}

/// The claim, if there is one, to which the seat has agreed too.
pub(crate) fn agreed_by(claim: Option<Claim>, seat: Seat) -> Option<Claim>
    ensures { result ≡ option_map (with_agreed seat) claim }
{
    claim.map(|claim| claim.with_agreed(seat))
}
