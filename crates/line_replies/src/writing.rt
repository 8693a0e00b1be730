//! Writing a text whole.
ghost use Rattle.std.specs.Prelude.{◌≡◌, IfErr};
ghost use Rattle.line_text.specs.Streams.{stream, Written};
ghost use Rattle.line_replies.specs.declared.fault.ServeFault.TheVariants.{Write as WriteFault};

use crate::fault::ServeFault;
use line_text::write_text;
use std::io::Write;

/// Writes the whole text; `Write` where that fails.
pub fn write_whole<W: Write>(writer: &mut W, text: &str) -> Result<(), ServeFault>
    ensures written { Written (stream W.contents writer.old writer.new) text.now result }
    ensures fault { IfErr result (λ fault. fault ≡ WriteFault) }
{
    write_text(writer, text.as_bytes()).or(Err(ServeFault::Write))
}
