//! A fault of a list of names in words.
ghost use Rattle.std.specs.Prelude.{◌≡◌, ◌≤◌, length};
ghost use Rattle.line_text.specs.Streams.{stream, Written};
ghost use Rattle.evening_draft.specs.NamesFaultText.{reason_of, due_of, fault_text};

use crate::names_refused::{NamesFault, NamesRefused};
use line_text::{number_text, write_text};
use page_layout::{PageText, push_bytes};
use std::io::{Error, Write};

/// What the line or the list must be.
fn due_of(cause: NamesRefused) -> &'static [u8]
    ensures due { result.now ≡ due_of cause }
    ensures short { length result.now ≤ 100 }
{
    match cause {
        NamesRefused::TooManyPairs | NamesRefused::TooFewPairs =>
            b"due: 3 to 24 pairs, a line each\n",
        NamesRefused::TooManyLines => b"due: a list of at most 999 lines\n",
        _ => b"due: two names of 1 to 40 characters, with & or a tab between\n",
    }
}

/// Why it is refused.
fn reason_of(cause: NamesRefused) -> &'static [u8]
    ensures reason { result.now ≡ reason_of cause }
    ensures short { length result.now ≤ 100 }
{
    match cause {
        NamesRefused::OneName => b"refused: there is no & and no tab in it\n",
        NamesRefused::NoName => b"refused: a name is empty\n",
        NamesRefused::NotText => b"refused: a name is no text in UTF-8\n",
        NamesRefused::Character => b"refused: a character in a name is none of a name\n",
        NamesRefused::LongName => b"refused: a name has more than 40 characters\n",
        NamesRefused::TooManyPairs => b"refused: this is the 25th pair\n",
        NamesRefused::TooFewPairs => b"refused: the list ends before the third pair\n",
        NamesRefused::TooManyLines =>
            b"refused: this is the line after the last that there may be\n",
    }
}

/// The number of the line at fault, what is due and why it is refused, a line each.
#[tactic(auto, unfolding(crate::specs::NamesFaultText::fault_text))]
fn fault_text(fault: NamesFault) -> PageText
    ensures { result.items ≡ fault_text fault }
{
    let number = number_text(fault.line);
    let mut text = PageText::new();
    push_bytes(&mut text, b"line ");
    push_bytes(&mut text, number.as_str().as_bytes());
    push_bytes(&mut text, b"\n");
    push_bytes(&mut text, due_of(fault.cause));
    push_bytes(&mut text, reason_of(fault.cause));
    text
}

/// Writes what is wrong with a list of names: the number of the line at fault, what is due and why it is refused.
///
/// It stops at the writer's first error, or with `WriteZero` where a write takes no byte: the writer then has a prefix of
/// the text.
pub fn write_names_fault<W: Write>(fault: NamesFault, writer: &mut W) -> Result<(), Error>
    ensures { Written (stream W.contents writer.old writer.new) (fault_text fault) result }
{
    let text = fault_text(fault);
    write_text(writer, text.as_slice())
}
