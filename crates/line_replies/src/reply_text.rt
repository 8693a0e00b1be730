//! The text of a reply, made inline before it is written.
ghost use Rattle.std.specs.Prelude.{◌≡◌, ◌+◌, ◌≤◌, ◌∷◌, ◌++◌, length};
ghost use Rattle.std.specs.Fmt.{decimal};
ghost use Rattle.arrayvec.specs.ArrayString.{array_string_len};
ghost use Rattle.line_replies.specs.ReplyTexts.{solved_text};

use arrayvec::ArrayString;
use itoa::Buffer;

/// The room for a reply of one line.
pub const SHORT_BYTES: usize = 29;

/// The room for a reply: a view with the longest auction, of 319 calls, or the ranking of 24 pairs.
pub const REPLY_BYTES: usize = 2048;

/// The text of a reply.
pub type ReplyText = ArrayString<REPLY_BYTES>;

/// Adds a space and a word.
pub fn push_word(text: &mut ReplyText, word: &str)
    requires { array_string_len text.old + (1 + length word.now) ≤ REPLY_BYTES }
    ensures text { text.new.bytes ≡ text.old.bytes ++ 32 ∷ word.now }
    ensures room { array_string_len text.new ≡ array_string_len text.old + (1 + length word.now) }
{
    text.push_str(" ");
    text.push_str(word);
}

/// Adds a space and a number.
pub fn push_number(text: &mut ReplyText, number: u32)
    requires { array_string_len text.old + 11 ≤ REPLY_BYTES }
    ensures text { text.new.bytes ≡ text.old.bytes ++ 32 ∷ decimal number }
    ensures room { array_string_len text.new ≤ array_string_len text.old + 11 }
{
    push_word(text, Buffer::new().format(number));
}

/// Adds the reply to a question for an ending's worth: the tricks of both sides among those left.
pub fn push_solved(text: &mut ReplyText, ns: u8, ew: u8)
    requires { array_string_len text.old + 25 ≤ REPLY_BYTES }
    ensures { text.new.bytes ≡ text.old.bytes ++ solved_text ns ew }
{
    text.push_str("OK");
    push_number(text, u32::from(ns));
    push_number(text, u32::from(ew));
    text.push_str("\n");
}
