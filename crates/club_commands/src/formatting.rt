//! The command `format`: a disk for the session that begins by a configuration.
ghost use Rattle.std.specs.Prelude.{◌≡◌};
ghost use Rattle.line_text.specs.Streams.{stream};
ghost use Rattle.sector_disk.specs.File.{file_disk};
ghost use Rattle.club_commands.specs.ConfigFile.{OfFound, OfFile, Begins};
ghost use Rattle.club_commands.specs.Works.{Formats, HasFormatted};

use crate::config_file::read_session;
use crate::fault::RunFault;
use crate::machine::Machine;
use crate::on_disk::run_over;
use crate::output::write_output;
use crate::work::Work;
use bridge_session::Session;
use club_disk::{ClubDisk, Left};
use session_store::format;
use std::alloc::Global;
use std::fs::File;
use std::io::{self, Read, Write};
use std::rt::Files;
use table_server::ServeFault;

/// Makes of the disk, of 2,048 sectors, one that holds the session, writes `formatted`, and hands the disk out.
pub fn format_disk<W: Write>(
    disk: ClubDisk,
    session: &Session,
    output: &mut W,
) -> Left<ClubDisk, RunFault>
    requires { file_disk.count disk ≡ 2048 }
    ensures { Formats disk result.disk session.now (stream W.contents output.old output.new) result.ended }
{
    match format(disk, session) {
        Ok(disk) => {
            let ended = write_output(output, "formatted\n");
            Left { disk, ended }
        }
        Err((disk, fault)) => Left {
            disk,
            ended: Err(RunFault::Store(fault)),
        },
    }
}

/// The session that begins by the configuration in a file, where one was found; otherwise the fault is that of a read. What was
/// found is handed in, since only so a clause can say what comes of it.
fn session_found<R: Read + Drop>(alloc: Global, found: io::Result<R>) -> Result<Session, RunFault>
    ensures { OfFound R.remaining (Begins result) found }
{
    match found {
        Ok(mut file) => read_session(alloc, &mut file),
        Err(_) => Err(RunFault::Stream(ServeFault::Read)),
    }
}

/// The session that begins by the configuration in a file. One that cannot be opened counts as one that cannot be read.
fn session_of_file<S: Files<File = File>>(
    rt: &S,
    alloc: Global,
    config: &str,
) -> Result<Session, RunFault>
    ensures { OfFile (Begins result) }
{
    session_found(alloc, File::open(rt, config))
}

/// Makes the file DISK anew, as a disk that holds the session that begins by the configuration in the file CONFIG, and
/// writes `formatted`. What stood at DISK first gets the name `DISK.1`, or the first such number that is free, unless it is
/// empty or a disk of whose session nothing is accepted. The configuration is read first, and where that fails DISK is not
/// opened; where another run has locked DISK, it is left as it is. Tests show these: no clause speaks of a file that is
/// left alone.
pub fn run_format<S: Machine, R: Read, W: Write>(
    rt: &S,
    alloc: Global,
    disk: &str,
    config: &str,
    input: &mut R,
    output: &mut W,
) -> Result<(), RunFault>
    ensures { HasFormatted (stream R.remaining input.old input.new) (stream W.contents output.old output.new) result }
{
    let session = session_of_file(rt, alloc, config)?;
    run_over(rt, alloc, disk, &Work::Format(&session), input, output)
}
