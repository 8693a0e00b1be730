//! The session that begins by a configuration's text.
ghost use Rattle.std.specs.Prelude.{Some};
ghost use Rattle.line_text.specs.Streams.{stream};
ghost use Rattle.club_commands.specs.ConfigFile.{OfReader, Begins};

use crate::fault::RunFault;
use bridge_config::read_config;
use bridge_session::Session;
use evening_commands::{Text, read_text};
use session_store::StoreFault;
use std::alloc::Global;
use std::io::Read;

/// The session that begins by a configuration.
fn new_session(alloc: Global, text: &[u8]) -> Result<Session, RunFault>
    ensures { Begins result (Some text.now) }
{
    let config = read_config(text)?;
    Session::new(alloc, config).or(Err(RunFault::Store(StoreFault::NoMemory)))
}

/// The session that begins by the configuration that the reader gives.
pub fn read_session<R: Read>(alloc: Global, reader: &mut R) -> Result<Session, RunFault>
    ensures { OfReader (Begins result) (stream R.remaining reader.old reader.new) }
{
    let mut text = Text::new();
    read_text(reader, &mut text)?;
    new_session(alloc, text.as_slice())
}
