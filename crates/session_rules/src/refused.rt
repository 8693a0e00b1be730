//! Why a session refuses an action or a question.
ghost use Rattle.std.specs.Prelude.{◌≡◌, ◌≤◌, length};
ghost use Rattle.session_rules.specs.Refused.{refusal_number, refusal_name};

use std::fmt;

/// Why an action or a question is refused. A refused action changes nothing. Where several causes hold, the answer is the
/// first in the order that the call states.
#[derive(Clone, Copy, Debug, PartialEq, Eq)]
pub enum Refused {
    /// The key is nobody's.
    NoKey = 1,
    /// The director's action or question by a player, or a player's by the director; the ranking to a player before the session
    /// is closed.
    NotAllowed = 2,
    /// The session is closed.
    Closed = 3,
    /// There is no such play of a live row, no such board in the session, or no such field.
    NoSuchPlay = 4,
    /// The play's round has not begun.
    NotYet = 5,
    /// The pair sits out in this round.
    SitsOut = 6,
    /// The board is not that of the table's current play, or there is no such play.
    NotCurrent = 7,
    /// The board is not dealt.
    NotDealt = 8,
    /// A call after the auction, or another action of a player before its end.
    WrongPhase = 9,
    /// Another number of calls, cards or claims was made, or it is another round.
    Stale = 10,
    /// No claim stands.
    NoClaim = 11,
    /// A claim stands (Law 68).
    ClaimStands = 12,
    /// The player is not asked about the claim, or has agreed already.
    NotAsked = 13,
    /// It is not the player's turn, or dummy claims.
    NotYourTurn = 14,
    /// A claim is made between tricks alone.
    MidTrick = 15,
    /// More tricks are claimed than are left.
    TooManyTricks = 16,
    /// The bid is not higher than every bid so far (Law 18).
    InsufficientBid = 17,
    /// The last call other than a pass is no bid by an opponent (Law 19A).
    InadmissibleDouble = 18,
    /// The last call other than a pass is no double by an opponent (Law 19B).
    InadmissibleRedouble = 19,
    /// The hand in turn does not hold the card.
    NotHeld = 20,
    /// The hand in turn holds a card of the suit led (Law 44).
    MustFollow = 21,
    /// The board is dealt.
    AlreadyDealt = 22,
    /// The hands are no deal (Law 1).
    BadDeal = 23,
    /// A play of the round is neither finished, void nor adjusted.
    RoundOpen = 24,
    /// The auction is not ended, or nobody bid.
    NoContract = 25,
    /// The play is not over; or its round is, and without its ruling it would be unfinished.
    NotFinished = 26,
    /// So many cards are no ending of the play.
    NotAnEnding = 27,
    /// 99 claims were made in the play.
    ClaimsSpent = 28,
    /// Averages are of matchpoints, and the scoring is by IMPs.
    NotMatchPoints = 29,
    /// Nothing was done in the play that could be taken back.
    NothingToTakeBack = 50,
    /// The play's round is not the current one.
    NotThisRound = 51,
    /// A ruling stands on the play, or on one of the board's.
    RulingStands = 52,
    /// A call was made on the board.
    BoardBegun = 53,
}

impl Refused {
    /// The refusal's number: 1 to 29, or 50 to 53.
    pub fn number(self) -> u8
        ensures number { result ≡ refusal_number self }
        ensures most { result ≤ 53 }
    {
        self as u8
    }

    /// The refusal's name, in one word of at most 20 letters.
    pub fn name(self) -> &'static str
        ensures name { result.now ≡ refusal_name self }
        ensures short { length result.now ≤ 20 }
    {
        match self {
            Refused::NoKey => "NoKey",
            Refused::NotAllowed => "NotAllowed",
            Refused::Closed => "Closed",
            Refused::NoSuchPlay => "NoSuchPlay",
            Refused::NotYet => "NotYet",
            Refused::SitsOut => "SitsOut",
            Refused::NotCurrent => "NotCurrent",
            Refused::NotDealt => "NotDealt",
            Refused::WrongPhase => "WrongPhase",
            Refused::Stale => "Stale",
            Refused::NoClaim => "NoClaim",
            Refused::ClaimStands => "ClaimStands",
            Refused::NotAsked => "NotAsked",
            Refused::NotYourTurn => "NotYourTurn",
            Refused::MidTrick => "MidTrick",
            Refused::TooManyTricks => "TooManyTricks",
            Refused::InsufficientBid => "InsufficientBid",
            Refused::InadmissibleDouble => "InadmissibleDouble",
            Refused::InadmissibleRedouble => "InadmissibleRedouble",
            Refused::NotHeld => "NotHeld",
            Refused::MustFollow => "MustFollow",
            Refused::AlreadyDealt => "AlreadyDealt",
            Refused::BadDeal => "BadDeal",
            Refused::RoundOpen => "RoundOpen",
            Refused::NoContract => "NoContract",
            Refused::NotFinished => "NotFinished",
            Refused::NotAnEnding => "NotAnEnding",
            Refused::ClaimsSpent => "ClaimsSpent",
            Refused::NotMatchPoints => "NotMatchPoints",
            _ => self.name_from_50(),
        }
    }

    /// The name of a refusal of the director's corrections, which have the numbers from 50 on.
    fn name_from_50(self) -> &'static str
        requires { 50 ≤ refusal_number self }
        ensures name { result.now ≡ refusal_name self }
        ensures short { length result.now ≤ 20 }
    {
        match self {
            Refused::NothingToTakeBack => "NothingToTakeBack",
            Refused::NotThisRound => "NotThisRound",
            Refused::RulingStands => "RulingStands",
            _ => "BoardBegun",
        }
    }
}

/// The refusal's name.
impl fmt::Display for Refused {
    ghost use Rattle.std.specs.Prelude.{Some};
    ghost use Rattle.session_rules.specs.Refused.{refusal_name};

    ghost output = { λ refused. Some (refusal_name refused) };

    fn fmt<W: fmt::Write>(&self, f: &mut fmt::Formatter<W>) -> fmt::Result {
        f.write_str(self.name())
    }
}

impl std::error::Error for Refused {}
