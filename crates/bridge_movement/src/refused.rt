//! Why rows are no movement.
ghost use Rattle.std.specs.Prelude.{◌≡◌, ◌≤◌, length};
ghost use Rattle.bridge_movement.specs.Refused.{refused_row, refusal_name};

use std::fmt;

/// Why rows are no movement, with the number of the first row at fault, from 1.
#[derive(Clone, Copy, Debug, PartialEq, Eq, Hash)]
pub enum MovementRefused {
    /// The row there isn't the one due: rows stand by round, then by table, one for each. Where rows are lacking or
    /// left over and all before are in place, it is the number after them.
    MissingRow(u16),
    /// The number of a pair is above the number of pairs.
    BadPair(u16),
    /// A pair meets itself.
    SamePair(u16),
    /// The set is 0, or above the number of sets.
    BadSet(u16),
    /// A pair stands in an earlier row of the same round.
    PairTwice(u16),
    /// A pair has played the set in an earlier row.
    SetAgain(u16),
}

impl MovementRefused {
    /// The number of the row at fault, from 1.
    pub fn row_number(self) -> u16
        ensures { result ≡ refused_row self }
    {
        match self {
            MovementRefused::MissingRow(number)
            | MovementRefused::BadPair(number)
            | MovementRefused::SamePair(number)
            | MovementRefused::BadSet(number)
            | MovementRefused::PairTwice(number)
            | MovementRefused::SetAgain(number) => number,
        }
    }

    /// Why the rows are no movement, in one word of at most 10 letters.
    pub fn name(self) -> &'static str
        ensures name { result.now ≡ refusal_name self }
        ensures short { length result.now ≤ 10 }
    {
        match self {
            MovementRefused::MissingRow(_) => "MissingRow",
            MovementRefused::BadPair(_) => "BadPair",
            MovementRefused::SamePair(_) => "SamePair",
            MovementRefused::BadSet(_) => "BadSet",
            MovementRefused::PairTwice(_) => "PairTwice",
            MovementRefused::SetAgain(_) => "SetAgain",
        }
    }
}

/// The refusal's name.
impl fmt::Display for MovementRefused {
    ghost use Rattle.std.specs.Prelude.{Some};
    ghost use Rattle.bridge_movement.specs.Refused.{refusal_name};

    ghost output = { λ refused. Some (refusal_name refused) };

    fn fmt<W: fmt::Write>(&self, f: &mut fmt::Formatter<W>) -> fmt::Result {
        f.write_str(self.name())
    }
}

impl std::error::Error for MovementRefused {}
