//! The command `copy`: a second disk for the session on a disk.
ghost use Rattle.std.specs.Prelude.{IfErr, IfOk};
ghost use Rattle.line_text.specs.Streams.{stream};
ghost use Rattle.club_commands.specs.Works.{HasCopied, GivesRead, IsRead, IsUnread};

use crate::fault::RunFault;
use crate::machine::Machine;
use crate::on_disk::run_over;
use crate::work::Work;
use bridge_session::Session;
use club_disk::{Access, ClubDisk, lock_for, locked_disk, read_disk};
use sector_disk::DiskFault;
use session_store::StoreFault;
use std::alloc::Global;
use std::io::{Read, Write};

/// The session that a disk holds, if there is one, read of it.
pub fn session_on(alloc: Global, found: Result<ClubDisk, DiskFault>) -> Result<Session, StoreFault>
    ensures given { GivesRead found result }
    ensures read { IfOk result IsRead }
    ensures fault { IfErr result IsUnread }
{
    match found {
        Ok(mut disk) => read_disk(alloc, &mut disk),
        Err(_) => Err(StoreFault::Disk),
    }
}

/// Makes the file DISK2 anew, as `format` does, for the session that the disk in the file DISK holds, and writes `formatted`. DISK is
/// read whole first and locked until the end; where that fails DISK2 is not opened.
pub fn run_copy<S: Machine, R: Read, W: Write>(
    rt: &S,
    alloc: Global,
    disk: &str,
    copy: &str,
    input: &mut R,
    output: &mut W,
) -> Result<(), RunFault>
    ensures { HasCopied (stream R.remaining input.old input.new) (stream W.contents output.old output.new) result }
{
    let lock = lock_for(rt, alloc, disk, Access::Read);
    match session_on(alloc, locked_disk(rt, disk, Access::Read, &lock)) {
        Ok(session) => run_over(rt, alloc, copy, &Work::Format(&session), input, output),
        Err(fault) => Err(RunFault::Store(fault)),
    }
}
