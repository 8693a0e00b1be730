//! Standard output.
ghost use Rattle.line_text.specs.Streams.{stream};
ghost use Rattle.club_commands.specs.Ended.{Writes};

use crate::fault::RunFault;
use line_text::write_text;
use std::io::Write;
use table_server::ServeFault;

/// Writes the whole text. The fault is that a write failed.
pub fn write_output<W: Write>(output: &mut W, text: &str) -> Result<(), RunFault>
    ensures { Writes (stream W.contents output.old output.new) text.now result }
{
    write_text(output, text.as_bytes()).or(Err(RunFault::Stream(ServeFault::Write)))
}
