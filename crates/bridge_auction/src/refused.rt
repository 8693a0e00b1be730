//! Why a call is refused.
ghost use Rattle.std.specs.Prelude.{◌≡◌, ◌≤◌, length};
ghost use Rattle.bridge_auction.specs.Refused.{refusal_number, refusal_name};

use std::fmt;

/// Why a call is refused. A refused call changes nothing.
#[derive(Clone, Copy, Debug, PartialEq, Eq, Hash)]
pub enum CallRefused {
    /// The auction is over (Law 22).
    Ended,
    /// The bid is not higher than every bid so far (Law 18).
    InsufficientBid,
    /// The last call other than a pass is no bid by an opponent (Law 19A).
    InadmissibleDouble,
    /// The last call other than a pass is no double by an opponent (Law 19B).
    InadmissibleRedouble,
}

impl CallRefused {
    /// The number that a reply names: 9, 17, 18 or 19.
    pub fn number(self) -> u8
        ensures { result ≡ refusal_number self }
    {
        match self {
            CallRefused::Ended => 9,
            CallRefused::InsufficientBid => 17,
            CallRefused::InadmissibleDouble => 18,
            CallRefused::InadmissibleRedouble => 19,
        }
    }

    /// The name that a reply has after the number, in one word of at most 20 letters.
    pub fn name(self) -> &'static str
        ensures name { result.now ≡ refusal_name self }
        ensures short { length result.now ≤ 20 }
    {
        match self {
            CallRefused::Ended => "WrongPhase",
            CallRefused::InsufficientBid => "InsufficientBid",
            CallRefused::InadmissibleDouble => "InadmissibleDouble",
            CallRefused::InadmissibleRedouble => "InadmissibleRedouble",
        }
    }
}

/// The refusal's name.
impl fmt::Display for CallRefused {
    ghost use Rattle.std.specs.Prelude.{Some};
    ghost use Rattle.bridge_auction.specs.Refused.{refusal_name};

    ghost output = { λ refused. Some (refusal_name refused) };

    fn fmt<W: fmt::Write>(&self, f: &mut fmt::Formatter<W>) -> fmt::Result {
        f.write_str(self.name())
    }
}

impl std::error::Error for CallRefused {}
