//! Replies of one line.
ghost use Rattle.std.specs.Prelude.{◌≡◌, ◌+◌, ◌≤◌, ◌++◌};
ghost use Rattle.arrayvec.specs.ArrayString.{array_string_len};
ghost use Rattle.line_replies.specs.ReplyTexts.{short_text};

use crate::reply_text::SHORT_BYTES;
use arrayvec::ArrayString;
use bridge_auction::CallRefused;
use line_text::push_refusal;
use session_rules::Refused as SessionRefused;

/// A reply of one line, of the protocol or of an auction by itself: that a line was accepted, or why it was not.
#[derive(Clone, Copy, Debug, PartialEq, Eq)]
pub enum ShortReply {
    /// What the line asked for is done and confirmed, or its call is made.
    Done,
    /// The session refuses it.
    Refused(SessionRefused),
    /// The call that it spells, in an auction by itself, is not legal.
    Illegal(CallRefused),
    /// The line states no command, or spells no call.
    BadLine,
    /// The line has more than 128 bytes.
    LongLine,
    /// The store has failed.
    Disk,
    /// No further action can be taken, for the store's epochs are spent.
    EpochsSpent,
}

impl ShortReply {
    /// Adds the reply's line: `OK`, or `ERR`, the refusal's number and its name.
    pub fn push_to<const N: usize>(self, out: &mut ArrayString<N>)
        requires { array_string_len out.old + SHORT_BYTES ≤ N }
        ensures text { out.new.bytes ≡ out.old.bytes ++ short_text self }
        ensures room { array_string_len out.new ≤ array_string_len out.old + SHORT_BYTES }
    {
        match self {
            ShortReply::Done => out.push_str("OK\n"),
            ShortReply::Refused(refused) => push_refusal(out, refused.number(), refused.name()),
            ShortReply::Illegal(refused) => push_refusal(out, refused.number(), refused.name()),
            ShortReply::BadLine => push_refusal(out, 30, "BadLine"),
            ShortReply::LongLine => push_refusal(out, 31, "LongLine"),
            ShortReply::Disk => push_refusal(out, 40, "Disk"),
            ShortReply::EpochsSpent => push_refusal(out, 41, "EpochsSpent"),
        }
    }
}
