//! A fault of a configuration in words.
ghost use Rattle.std.specs.Prelude.{◌≡◌};
ghost use Rattle.std.specs.Option.{option_map};
ghost use Rattle.line_text.specs.Streams.{stream, Written};
ghost use Rattle.evening_plan.specs.FaultText.{reason_line, line_fault, fault_text};

use crate::kind::{kind_at, line_at};
use crate::line_kind::LineKind;
use crate::reason::push_reason;
use crate::rule::rule_of;
use crate::shown::write_shown;
use bridge_config::{ConfigFault, ConfigRefused};
use line_text::write_text;
use page_layout::{PageText, push_bytes};
use std::io::{Error, Write};

/// Why a line is refused, on a line of its own.
#[tactic(auto, unfolding(crate::specs::FaultText::reason_line))]
fn reason_line(kind: LineKind, line: Option<&[u8]>, cause: ConfigRefused) -> PageText
    ensures { result.items ≡ reason_line kind (option_map (λ shown. shown.now) line.entry) cause }
{
    let mut text = PageText::new();
    push_bytes(&mut text, b"refused: ");
    push_reason(&mut text, kind, line, cause);
    push_bytes(&mut text, b"\n");
    text
}

/// Writes why a line is refused.
fn write_reason<W: Write>(
    kind: LineKind,
    line: Option<&[u8]>,
    cause: ConfigRefused,
    writer: &mut W,
) -> Result<(), Error>
    ensures { Written (stream W.contents writer.old writer.new) (reason_line kind (option_map (λ shown. shown.now) line.entry) cause) result }
{
    let text = reason_line(kind, line, cause);
    write_text(writer, text.as_slice())
}

/// Writes a line, what it must be, and why it is refused.
fn write_line_fault<W: Write>(
    number: u32,
    line: Option<&[u8]>,
    kind: LineKind,
    cause: ConfigRefused,
    writer: &mut W,
) -> Result<(), Error>
    ensures { Written (stream W.contents writer.old writer.new) (line_fault number (option_map (λ shown. shown.now) line.entry) kind cause) result }
{
    write_shown(number, line, writer)?;
    write_text(writer, rule_of(kind).as_bytes())?;
    write_reason(kind, line, cause, writer)
}

/// Writes what is wrong with a text of that fault: the line, what it must be, and why it is refused.
///
/// It stops at the writer's first error, or with `WriteZero` where a write takes no byte: the writer then has a prefix of
/// the text.
pub fn write_fault<W: Write>(text: &[u8], fault: ConfigFault, writer: &mut W) -> Result<(), Error>
    ensures { Written (stream W.contents writer.old writer.new) (fault_text text.now fault) result }
{
    match fault.cause {
        ConfigRefused::TooLong => write_text(
            writer,
            b"refused: the text has more than 16384 characters\n",
        ),
        cause => {
            let line = line_at(text, fault.line);
            write_line_fault(fault.line, line, kind_at(text, fault.line), cause, writer)
        }
    }
}
