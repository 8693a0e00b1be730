//! The lock of a disk's file, which at a time one run of the program has that writes it, or any number that read it.
ghost use Rattle.std.specs.Prelude.{◌≡◌, IfErr};

use session_store::StoreFault;
use std::fs::{File, OpenOptions};
use std::os::unix::fs::OpenOptionsExt;
use std::rt::Files;

/// The permission bits of a disk's file that is made: a disk holds the keys of all players.
pub const OWNER_ONLY: u32 = 0o600;

/// The file, opened and locked for as long as it is kept. The fault of a file that cannot be had, or that another run has
/// locked, is that of the disk.
fn locked<S: Files<File = File>>(
    rt: &S,
    disk: &str,
    options: &OpenOptions,
) -> Result<File, StoreFault>
    ensures fault { IfErr result (λ fault. fault ≡ StoreFault.Disk) }
{
    let file = options.open(rt, disk).or(Err(StoreFault::Disk))?;
    file.try_lock().or(Err(StoreFault::Disk))?;
    Ok(file)
}

/// Locks the file of a disk. The fault is `Disk`, as where there is no file or another run has its lock.
pub fn lock<S: Files<File = File>>(rt: &S, disk: &str) -> Result<File, StoreFault>
    ensures fault { IfErr result (λ fault. fault ≡ StoreFault.Disk) }
{
    let mut options = OpenOptions::new();
    options.read(true).write(true);
    locked(rt, disk, &options)
}

/// Whether it is a folder, which can be opened for reading too.
fn is_folder(file: &File) -> bool {
    match file.metadata() {
        Ok(metadata) => metadata.is_dir(),
        Err(_) => true,
    }
}

/// Opens the file of a disk for reading alone, and keeps runs that write it from it. The fault is `Disk`, as where there is no
/// file, it is a folder, or another run writes it; several runs may read it at a time.
pub fn lock_to_read<S: Files<File = File>>(rt: &S, disk: &str) -> Result<File, StoreFault>
    ensures fault { IfErr result (λ fault. fault ≡ StoreFault.Disk) }
{
    let mut options = OpenOptions::new();
    options.read(true);
    let file = options.open(rt, disk).or(Err(StoreFault::Disk))?;
    if is_folder(&file) {
        return Err(StoreFault::Disk);
    }
    file.try_lock_shared().or(Err(StoreFault::Disk))?;
    Ok(file)
}

/// Locks a file in which a disk is to be made. One that is not there is made, empty, for its owner alone.
pub fn lock_new<S: Files<File = File>>(rt: &S, disk: &str) -> Result<File, StoreFault>
    ensures fault { IfErr result (λ fault. fault ≡ StoreFault.Disk) }
{
    let mut options = OpenOptions::new();
    options.read(true).write(true).create(true).mode(OWNER_ONLY);
    locked(rt, disk, &options)
}
