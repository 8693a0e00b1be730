//! Texts written whole.
ghost use Rattle.line_text.specs.Streams.{stream, Written};

use std::io::{Error, ErrorKind, Write};

/// Writes the whole text, and passes on what the writer holds back.
///
/// It stops at the writer's first error, or with `WriteZero` where a write takes no byte: the writer then has a prefix
/// of the text.
pub fn write_text<W: Write>(writer: &mut W, text: &[u8]) -> Result<(), Error>
    ensures { Written (stream W.contents writer.old writer.new) text.now result }
{
    let mut written = 0;
    while written < text.len() {
        let (_, rest) = text.split_at(written);
        let taken = writer.write(rest)?;
        if taken == 0 {
            return Err(Error::from(ErrorKind::WriteZero));
        }
        written += taken;
    }
    writer.flush()
}
