//! The four kinds of call (Laws 17 to 19).
ghost use Rattle.std.specs.Prelude.{◌≡◌, ◌≢◌, ◌<◌, IfSome, IfNone};
ghost use Rattle.bridge_auction.specs.Call.{is_pass, is_bid, IsCall, call_number, call_at};

use crate::bid::Bid;
use crate::spelling::read_call;
use bridge_cards::OutOfRange;
use std::fmt;
use std::str::FromStr;
use thiserror::Error;

/// What a player may say in turn (Laws 17 to 19).
#[derive(Clone, Copy, Debug, PartialEq, Eq, Hash)]
pub enum Call {
    /// No bid, no double and no redouble.
    Pass,
    /// A bid (Law 18).
    Bid(Bid),
    /// A double of an opponent's bid (Law 19A).
    Double,
    /// A redouble of an opponent's double (Law 19B).
    Redouble,
}

impl Call {
    /// Whether the call is a pass.
    pub fn is_pass(self) -> bool
        ensures { result ≡ is_pass self }
    {
        matches!(self, Call::Pass)
    }

    /// Whether the call is a bid.
    pub fn is_bid(self) -> bool
        ensures { result ≡ is_bid self }
    {
        matches!(self, Call::Bid(_))
    }

    /// The number of the call: 0 for a pass, 1 for a double, 2 for a redouble, and from 3 on the bids in their order, 37
    /// for seven no trump.
    pub fn number(self) -> u8
        ensures number { result ≡ call_number self }
        ensures range { result < 38 }
        ensures call { IsCall self }
    {
        match self {
            Call::Pass => 0,
            Call::Double => 1,
            Call::Redouble => 2,
            Call::Bid(bid) => 3 + bid.number(),
        }
    }

    /// The call of that number, or `None` from 38 on.
    pub fn from_number(number: u8) -> Option<Call>
        ensures value { result ≡ call_at number }
        ensures numbered { IfSome result (λ call. call_number call ≡ number) }
        ensures other { IfNone result ((call : Call) → IsCall call → call_number call ≢ number) }
    {
        match number {
            0 => Some(Call::Pass),
            1 => Some(Call::Double),
            2 => Some(Call::Redouble),
            _ => Some(Call::Bid(Bid::from_number(number - 3)?)),
        }
    }
}

/// A pass, so that a list of calls has a value for the indexes that it does not use.
impl Default for Call {
    ghost use Rattle.std.specs.Prelude.{◌≡◌};
    ghost use Rattle.bridge_auction.specs.declared.call.Call.TheVariants.{Pass};

    ghost is_default = { λ call. call ≡ Pass };

    fn default() -> Self {
        Call::Pass
    }
}

/// The call's text: `PASS`, `X`, `XX`, or the bid's.
impl fmt::Display for Call {
    ghost use Rattle.std.specs.Prelude.{Some};
    ghost use Rattle.bridge_auction.specs.Spelling.{call_text};

    ghost output = { λ call. Some (call_text call) };

    fn fmt<W: fmt::Write>(&self, f: &mut fmt::Formatter<W>) -> fmt::Result {
        match self {
            Call::Pass => f.write_str("PASS"),
            Call::Bid(bid) => write!(f, "{bid}"),
            Call::Double => f.write_str("X"),
            Call::Redouble => f.write_str("XX"),
        }
    }
}

/// A text that is no call's.
#[derive(Clone, Copy, Debug, PartialEq, Eq, Hash, Error)]
#[error("the text is no call")]
pub struct BadCall;

/// As `read_call`.
impl FromStr for Call {
    type Err = BadCall;

    ghost use Rattle.std.specs.Prelude.{◌≡◌, Some, None, MatchResult};
    ghost use Rattle.bridge_auction.specs.Spelling.{call_of};

    ghost from_str_gives = { λ text read. MatchResult read (λ call. call_of text ≡ Some call) (λ _. call_of text ≡ None) };

    fn from_str(text: &str) -> Result<Call, BadCall> {
        read_call(text.as_bytes()).ok_or(BadCall)
    }
}

/// As `from_number`, with the number where it is out of range.
impl TryFrom<u8> for Call {
    type Error = OutOfRange;

    ghost use Rattle.std.specs.Prelude.{◌≡◌, Some, None, MatchResult};
    ghost use Rattle.bridge_auction.specs.Call.{call_at};

    ghost try_from_gives = { λ number made. MatchResult made (λ call. call_at number ≡ Some call) (λ _. call_at number ≡ None) };

    fn try_from(number: u8) -> Result<Call, OutOfRange> {
        Call::from_number(number).ok_or(OutOfRange(number))
    }
}
