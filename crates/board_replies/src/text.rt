//! Texts that grow in memory, which may be refused.
ghost use Rattle.std.specs.Prelude.{◌≡◌, ◌∷◌, ◌++◌, [], OnOk};
ghost use Rattle.std.specs.Fmt.{decimal, signed_decimal};
ghost use Rattle.line_replies.specs.ReplyTexts.{short_text};

use line_replies::{ReplyText, ShortReply};
use line_text::{number_text, signed_text};
use std::alloc::AllocError;

/// Adds the bytes of a word.
pub(crate) fn push_str(text: &mut Vec<u8>, word: &str) -> Result<(), AllocError>
    ensures { OnOk result (text.new.items ≡ text.old.items ++ word.now) }
{
    text.extend_from_slice(word.as_bytes())
}

/// Adds a space and a word.
pub(crate) fn push_word(text: &mut Vec<u8>, word: &str) -> Result<(), AllocError>
    ensures { OnOk result (text.new.items ≡ text.old.items ++ 32 ∷ word.now) }
{
    push_str(text, " ")?;
    push_str(text, word)
}

/// Adds a space and a number.
pub(crate) fn push_number(text: &mut Vec<u8>, number: u8) -> Result<(), AllocError>
    ensures { OnOk result (text.new.items ≡ text.old.items ++ 32 ∷ decimal number) }
{
    push_word(text, number_text(u32::from(number)).as_str())
}

/// Adds a space and a number, with a minus sign below 0.
pub(crate) fn push_signed(text: &mut Vec<u8>, number: i32) -> Result<(), AllocError>
    ensures { OnOk result (text.new.items ≡ text.old.items ++ 32 ∷ signed_decimal number) }
{
    push_word(text, signed_text(i64::from(number)).as_str())
}

/// Adds the end of a line.
pub(crate) fn push_end(text: &mut Vec<u8>) -> Result<(), AllocError>
    ensures { OnOk result (text.new.items ≡ text.old.items ++ 10 ∷ []) }
{
    push_str(text, "\n")
}

/// Adds a reply of one line.
pub(crate) fn push_short(text: &mut Vec<u8>, reply: ShortReply) -> Result<(), AllocError>
    ensures { OnOk result (text.new.items ≡ text.old.items ++ short_text reply) }
{
    let mut line = ReplyText::new();
    reply.push_to(&mut line);
    push_str(text, line.as_str())
}
