//! The command `version`: which program this is.
ghost use Rattle.line_text.specs.Streams.{stream};
ghost use Rattle.club_commands.specs.Ended.{Writes};
ghost use Rattle.club_commands.specs.Run.{version_line};

use crate::fault::RunFault;
use crate::output::write_output;
use crate::release::{KIT, VERSION};
use arrayvec::ArrayString;
use std::io::Write;

/// Writes the program's name, its version and the kit that proved it.
pub fn run_version<W: Write>(output: &mut W) -> Result<(), RunFault>
    ensures { Writes (stream W.contents output.old output.new) version_line result }
{
    let mut line = ArrayString::<80>::new();
    line.push_str("bridge_club ");
    line.push_str(VERSION);
    line.push_str(", proved with ");
    line.push_str(KIT);
    line.push_str("\n");
    write_output(output, line.as_str())
}
