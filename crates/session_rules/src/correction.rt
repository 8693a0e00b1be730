//! What the director rules on a play.
ghost use Rattle.std.specs.Prelude.{◌≡◌};
ghost use Rattle.session_rules.specs.Correction.{ruling_by};
ghost use Rattle.session_rules.specs.StateRange.{IsCorrectionInRange};

use crate::average::Average;
use crate::numbers::TrickCount;
use crate::ruling::Ruling;
use bridge_auction::Contract;

/// What the director does to the ruling on a play.
#[derive(Clone, Copy, Debug, PartialEq, Eq)]
pub enum Correction {
    /// Declarer's tricks are set.
    Tricks(TrickCount),
    /// The play is taken out.
    Void,
    /// Each side is awarded an average (Law 12C2).
    Adjust {
        ns: Average,
        ew: Average,
    },
    /// A score is assigned: that of the contract with that many tricks for declarer (Law 12C1).
    Assign {
        contract: Contract,
        tricks: TrickCount,
    },
    /// The ruling is taken back.
    Restore,
}

impl Correction {
    /// The ruling that is left.
    pub fn ruling(self) -> Option<Ruling>
        ensures ruling { result ≡ ruling_by self }
        ensures range { IsCorrectionInRange self }
    {
        match self {
            Correction::Tricks(tricks) => Some(Ruling::Tricks(tricks)),
            Correction::Void => Some(Ruling::Void),
            Correction::Adjust { ns, ew } => Some(Ruling::Adjusted { ns, ew }),
            Correction::Assign { contract, tricks } => Some(Ruling::Assigned { contract, tricks }),
            Correction::Restore => None,
        }
    }
}
