//! How a command takes the disk in a file: to write it, to read it alone, or to make it anew. What becomes of the file no clause
//! can say, and tests show it.
ghost use Rattle.std.specs.Prelude.{◌≡◌, Err, IfOk, IfErr};
ghost use Rattle.sector_disk.specs.File.{file_disk};
ghost use Rattle.club_disk.specs.declared.access.Access.TheVariants.{Make};

use crate::disk_lock::{lock, lock_to_read};
use crate::disk_types::ClubDisk;
use crate::moving_aside::lock_spare;
use sector_disk::{DiskFault, FileDisk};
use session_store::StoreFault;
use std::alloc::Global;
use std::fs::File;
use std::rt::Files;

/// What is to be done with the disk in a file.
#[derive(Clone, Copy, Debug, PartialEq, Eq)]
pub enum Access {
    /// It is read and written.
    Write,
    /// It is read alone.
    Read,
    /// It is made anew.
    Make,
}

/// Locks the file of a disk, which is locked for as long as what is answered is kept. One in which a disk is to be made is a new
/// one, unless what stands there is not worth another name. The fault is `Disk`.
pub fn lock_for<S: Files<File = File>>(
    rt: &S,
    alloc: Global,
    disk: &str,
    access: Access,
) -> Result<File, StoreFault>
    ensures fault { IfErr result (λ fault. fault ≡ StoreFault.Disk) }
{
    match access {
        Access::Write => lock(rt, disk),
        Access::Read => lock_to_read(rt, disk),
        Access::Make => lock_spare(rt, alloc, disk),
    }
}

/// The disk in a file, where the file was locked. How the locking ended is handed in, since only so a clause can say that there
/// is no disk without a lock.
pub fn locked_disk<S: Files<File = File>>(
    rt: &S,
    disk: &str,
    access: Access,
    lock: &Result<File, StoreFault>,
) -> Result<ClubDisk, DiskFault>
    ensures made { access ≡ Make → IfOk result (λ made. file_disk.count made ≡ 2048) }
    ensures fault { access ≡ Make → IfErr result (λ fault. fault ≡ DiskFault.Write) }
    ensures unlocked { IfErr lock.now (λ _. result ≡ Err DiskFault.Write) }
{
    match lock {
        Ok(_) => match access {
            Access::Write => FileDisk::open(rt, disk),
            Access::Read => FileDisk::open_read_only(rt, disk),
            Access::Make => FileDisk::create(rt, disk),
        },
        Err(_) => Err(DiskFault::Write),
    }
}
