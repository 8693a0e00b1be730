//! Texts that grow in memory, which may be refused.
ghost use Rattle.std.specs.Prelude.{◌≡◌, ◌∷◌, ◌++◌, OnOk};
ghost use Rattle.std.specs.Fmt.{decimal};
ghost use Rattle.line_replies.specs.ReplyTexts.{short_text};
ghost use Rattle.line_replies.specs.declared.short_reply.ShortReply.TheVariants.{BadLine};
ghost use Rattle.desk_replies.specs.Told.{refused_text};

use crate::refused::DeskRefused;
use line_replies::{ReplyText, ShortReply};
use line_text::{number_text, push_refusal};
use std::alloc::AllocError;

/// Adds the bytes of a word.
pub(crate) fn push_str(text: &mut Vec<u8>, word: &str) -> Result<(), AllocError>
    ensures { OnOk result (text.new.items ≡ text.old.items ++ word.now) }
{
    text.extend_from_slice(word.as_bytes())
}

/// Adds a space and a word.
pub(crate) fn push_word(text: &mut Vec<u8>, word: &str) -> Result<(), AllocError>
    ensures { OnOk result (text.new.items ≡ text.old.items ++ 32 ∷ word.now) }
{
    push_str(text, " ")?;
    push_str(text, word)
}

/// Adds a space and a number.
pub(crate) fn push_number(text: &mut Vec<u8>, number: u32) -> Result<(), AllocError>
    ensures { OnOk result (text.new.items ≡ text.old.items ++ 32 ∷ decimal number) }
{
    push_word(text, number_text(number).as_str())
}

/// The line of a refusal.
fn refusal_line(refused: DeskRefused) -> ReplyText
    ensures { result.bytes ≡ refused_text refused }
{
    let mut line = ReplyText::new();
    match refused {
        DeskRefused::Session(refused) => ShortReply::Refused(refused).push_to(&mut line),
        DeskRefused::TooSoon => push_refusal(&mut line, 32, "TooSoon"),
    }
    line
}

/// Adds the line of a refusal.
pub(crate) fn push_refused(text: &mut Vec<u8>, refused: DeskRefused) -> Result<(), AllocError>
    ensures { OnOk result (text.new.items ≡ text.old.items ++ refused_text refused) }
{
    push_str(text, refusal_line(refused).as_str())
}

/// Adds the line that says that bytes are of no form.
pub(crate) fn push_bad_line(text: &mut Vec<u8>) -> Result<(), AllocError>
    ensures { OnOk result (text.new.items ≡ text.old.items ++ short_text BadLine) }
{
    let mut line = ReplyText::new();
    ShortReply::BadLine.push_to(&mut line);
    push_str(text, line.as_str())
}
