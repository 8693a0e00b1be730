//! The reply to a question for the results.
ghost use Rattle.line_text.specs.Streams.{stream, Written};
ghost use Rattle.table_server.specs.PbnReply.{text_and_stop, pbn_reply};

use bridge_pbn::write_pbn;
use bridge_session::Session;
use line_text::write_text;
use std::io::{Error, Write};

/// Writes the text in Portable Bridge Notation, and a full stop on a line of its own.
fn write_text_and_stop<W: Write>(session: &Session, writer: &mut W) -> Result<(), Error>
    ensures { Written (stream W.contents writer.old writer.new) (text_and_stop session.now) result }
{
    write_pbn(session, writer)?;
    write_text(writer, b".\n")
}

/// Writes the reply to a question for the results: `OK`, the text in Portable Bridge Notation, and a full stop on a line of
/// its own. It takes no memory.
///
/// It stops at the writer's first error, or with `WriteZero` where a write takes no byte: the writer then has a prefix of
/// the reply.
pub fn write_pbn_reply<W: Write>(session: &Session, writer: &mut W) -> Result<(), Error>
    ensures { Written (stream W.contents writer.old writer.new) (pbn_reply session.now) result }
{
    write_text(writer, b"OK\n")?;
    write_text_and_stop(session, writer)
}
