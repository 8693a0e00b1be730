//! The text of what stands, made inline.
ghost use Rattle.std.specs.Prelude.{◌≡◌, ◌+◌, ◌≤◌, [], ◌∷◌, ◌++◌, length};
ghost use Rattle.std.specs.Fmt.{decimal};
ghost use Rattle.arrayvec.specs.ArrayString.{array_string_len};
ghost use Rattle.line_replies.specs.ReplyTexts.{spaced_line};

use arrayvec::ArrayString;
use line_text::number_text;

/// The room in bytes for the line of the notice: `NOTICE`, a text of at most 800 bytes behind a space, and the line's end.
pub const NOTICE_BYTES: usize = 808;

/// The room in bytes for the line of the clock: `CLOCK`, a number of at most 10 digits behind a space, and the line's end.
pub const CLOCK_BYTES: usize = 17;

/// The room in bytes for the line of a call: `CALL`, three numbers of at most 10 digits, a name of at most 24 bytes and a text of
/// at most 800, each behind a space, and the line's end.
pub const CALL_BYTES: usize = 864;

/// The room in bytes for the line of a statement: `STATEMENT`, a text of at most 800 bytes behind a space, and the line's end.
pub const STATEMENT_BYTES: usize = 811;

/// The room in bytes for the line of an answer to a claim: `REFUSED`, a seat's letter behind a space, and the line's end.
pub const ANSWER_BYTES: usize = 10;

/// The room in bytes for the names at a table: four of at most 24 bytes, each behind a space.
pub const NAMES_BYTES: usize = 100;

/// The room in bytes for the line of whom a player meets: `MEETS`, two numbers of at most 10 digits and four names of at most 24
/// bytes, each behind a space, and the line's end.
pub const MEETS_BYTES: usize = 128;

/// The room in bytes for what stands: the notice, the clock, and the calls of twelve tables.
pub const STANDING_BYTES: usize = NOTICE_BYTES + CLOCK_BYTES + 12 * CALL_BYTES;

/// The text of what stands.
pub type StandingText = ArrayString<STANDING_BYTES>;

/// Adds a space and a word.
pub(crate) fn push_word(text: &mut StandingText, word: &str)
    requires { array_string_len text.old + (1 + length word.now) ≤ STANDING_BYTES }
    ensures text { text.new.bytes ≡ text.old.bytes ++ 32 ∷ word.now }
    ensures room { array_string_len text.new ≡ array_string_len text.old + (1 + length word.now) }
{
    text.push_str(" ");
    text.push_str(word);
}

/// Adds a space and a number.
pub(crate) fn push_number(text: &mut StandingText, number: u32)
    requires { array_string_len text.old + 11 ≤ STANDING_BYTES }
    ensures text { text.new.bytes ≡ text.old.bytes ++ 32 ∷ decimal number }
    ensures room { array_string_len text.new ≤ array_string_len text.old + 11 }
{
    push_word(text, number_text(number).as_str());
}

/// Adds a line of a first word and a text.
pub(crate) fn push_line(text: &mut StandingText, first: &str, word: &str)
    requires { array_string_len text.old + (length first.now + length word.now + 2) ≤ STANDING_BYTES }
    ensures line { text.new.bytes ≡ text.old.bytes ++ (spaced_line first.now (word.now ∷ []) ++ 10 ∷ []) }
    ensures room { array_string_len text.new ≡ array_string_len text.old + (length first.now + length word.now + 2) }
{
    text.push_str(first);
    push_word(text, word);
    text.push_str("\n");
}
