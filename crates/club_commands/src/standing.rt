//! What stands on the disk of an evening before it begins.
ghost use Rattle.std.specs.Prelude.{Option, Result};
ghost use Rattle.club_disk.specs.Stored.{ClubDisk};
ghost use Rattle.sector_disk.specs.declared.disk.DiskFault.{DiskFault};
ghost use Rattle.club_commands.specs.Evening.{IsStanding, StandsGiven, StandsFound};

use crate::fault::RunFault;
use crate::machine::Machine;
use club_disk::{Access, ClubDisk, lock_for, locked_disk, read_disk};
use sector_disk::{DiskFault, SectorDisk};
use session_store::StoreFault;
use std::alloc::Global;
use std::io::ErrorKind;

/// What stands on a disk.
#[derive(Clone, Copy, Debug, PartialEq, Eq)]
pub enum Standing {
    /// A session.
    Held,
    /// No session, nor anything that may have been one.
    Free,
}

/// What stands on a disk, which is read and not written. A damaged session is no free place.
fn standing_on<D: SectorDisk>(alloc: Global, disk: &mut D) -> Result<Standing, RunFault>
    ensures { IsStanding D.disk disk.old disk.new result }
{
    match read_disk(alloc, disk) {
        Ok(_) => Ok(Standing::Held),
        Err(StoreFault::NotFormatted | StoreFault::TooSmall) => Ok(Standing::Free),
        Err(cause) => Err(RunFault::Store(cause)),
    }
}

/// The same of the disk in a file, if it can be had.
fn standing_given(alloc: Global, found: Result<ClubDisk, DiskFault>) -> Result<Standing, RunFault>
    ensures { StandsGiven found result }
{
    match found {
        Err(_) => Err(RunFault::Store(StoreFault::Disk)),
        Ok(mut disk) => standing_on(alloc, &mut disk),
    }
}

/// The same of a disk that was found, if a file is there. What was found is handed in, since only so a clause can say what comes
/// of it.
fn standing_found(
    alloc: Global,
    found: Option<Result<ClubDisk, DiskFault>>,
) -> Result<Standing, RunFault>
    ensures { StandsFound found result }
{
    match found {
        None => Ok(Standing::Free),
        Some(found) => standing_given(alloc, found),
    }
}

/// Whether there is no file of that name.
fn is_missing<S: Machine>(rt: &S, disk: &str) -> bool {
    match rt.metadata(disk) {
        Ok(_) => false,
        Err(error) => error.kind() == ErrorKind::NotFound,
    }
}

/// What stands on the disk in a file, which is locked meanwhile; where there is no file, or it holds no disk, nothing does.
pub fn standing_at<S: Machine>(rt: &S, alloc: Global, disk: &str) -> Result<Standing, RunFault>
    ensures { (found : Option (Result ClubDisk DiskFault)) × StandsFound found result }
{
    if is_missing(rt, disk) {
        return standing_found(alloc, None);
    }
    let lock = lock_for(rt, alloc, disk, Access::Read);
    let found = locked_disk(rt, disk, Access::Read, &lock);
    standing_found(alloc, Some(found))
}
