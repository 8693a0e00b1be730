//! A disk in a file.
ghost use Rattle.std.specs.Prelude.{◌≡◌, ◌*◌, ◌/◌, ◌-◌, ◌<◌, ◌≤◌, ◌^◌, ℕ, min, max, replicate, OnOk, IfOk, IfErr};

use crate::faults::counted;
use crate::{BlockFile, DiskFault, Refused, SectorDisk, SystemFile, disk};
use std::fs::{OpenFile, OpenOptions};
use std::os::unix::fs::FileExt;
use std::rt::Files;

/// Bytes of a sector, as offsets in a file are counted.
const SECTOR_BYTES: u64 = disk::SECTOR_BYTES as u64;

/// Sectors of a file that is made: 1,048,576 bytes.
const NEW_SECTORS: u32 = 2048;

/// A disk in a file. Sector `i` is bytes 512 i to 512 i + 511. It is honest where the file is.
#[derive(Drop)]
pub struct FileDisk<F> {
    /// The file of its blocks.
    file: F,
    /// How many whole sectors the file has.
    count: u32,
    /// How many of its calls failed.
    faults: u64,
}

impl<F: OpenFile + FileExt + Drop> FileDisk<SystemFile<F>> {
    ghost use Rattle.sector_disk.specs.SystemFile.{system_blocks};
    ghost use Rattle.sector_disk.specs.File.{file_disk, file_of, IsNew};

    /// Makes a file of 1,048,576 zero bytes, which is 2,048 sectors, in place of what was there, and syncs it.
    /// No fault is counted yet. `Write` where the system refuses any of it; the file may then be of any length.
    pub fn create<R: Files<File = F>>(
        rt: &R,
        path: &str,
    ) -> Result<FileDisk<SystemFile<F>>, DiskFault>
        ensures made { IfOk result (IsNew file_disk) }
        ensures length { IfOk result (λ disk. file_disk.honest disk
            → 1048576 ≤ system_blocks.length (file_of disk)) }
        ensures fault { IfErr result (λ fault. fault ≡ DiskFault.Write) }
    {
        let mut options = OpenOptions::new();
        options.read(true).write(true).create(true).truncate(true);
        let Ok(file) = options.open(rt, path) else {
            return Err(DiskFault::Write);
        };
        FileDisk::filled(SystemFile::new(file))
    }

    /// Opens a file. It has as many sectors as the file has whole ones, at most 2^32 - 1; bytes past them don't
    /// count. No fault is counted yet. `Read` where the system refuses it, as for a file that is missing.
    pub fn open<R: Files<File = F>>(
        rt: &R,
        path: &str,
    ) -> Result<FileDisk<SystemFile<F>>, DiskFault>
        ensures count { IfOk result (λ disk. file_disk.honest disk
            → file_disk.count disk ≡ min (system_blocks.length (file_of disk) / 512) (2 ^ 32 - 1)) }
        ensures faults { IfOk result (λ disk. file_disk.faults disk ≡ 0) }
        ensures fault { IfErr result (λ fault. fault ≡ DiskFault.Read) }
    {
        let mut options = OpenOptions::new();
        options.read(true).write(true);
        let Ok(file) = options.open(rt, path) else {
            return Err(DiskFault::Read);
        };
        FileDisk::found(SystemFile::new(file))
    }

    /// Opens a file for reading alone, as one that may not be written; a write of the disk fails. Its sectors, and the fault,
    /// are those of `open`.
    pub fn open_read_only<R: Files<File = F>>(
        rt: &R,
        path: &str,
    ) -> Result<FileDisk<SystemFile<F>>, DiskFault>
        ensures count { IfOk result (λ disk. file_disk.honest disk
            → file_disk.count disk ≡ min (system_blocks.length (file_of disk) / 512) (2 ^ 32 - 1)) }
        ensures faults { IfOk result (λ disk. file_disk.faults disk ≡ 0) }
        ensures fault { IfErr result (λ fault. fault ≡ DiskFault.Read) }
    {
        let mut options = OpenOptions::new();
        options.read(true);
        let Ok(file) = options.open(rt, path) else {
            return Err(DiskFault::Read);
        };
        FileDisk::found(SystemFile::new(file))
    }
}

impl<F: BlockFile + Drop> FileDisk<F> {
    ghost use Rattle.sector_disk.specs.File.{disk_in, file_of, IsNew};

    /// The disk in a file, of which it fills the first 1,048,576 bytes with zeros and syncs them.
    pub fn filled(file: F) -> Result<FileDisk<F>, DiskFault>
        ensures made { IfOk result (IsNew (disk_in F.blocks)) }
        ensures length { IfOk result (λ disk. (disk_in F.blocks).honest disk
            → F.blocks.length (file_of disk) ≡ max (F.blocks.length file) 1048576) }
        ensures fault { IfErr result (λ fault. fault ≡ DiskFault.Write) }
    {
        let mut file = file;
        if let Err(_) = write_zeros(&mut file) {
            return Err(DiskFault::Write);
        }
        if let Err(_) = file.sync() {
            return Err(DiskFault::Write);
        }
        Ok(FileDisk {
            file,
            count: NEW_SECTORS,
            faults: 0,
        })
    }

    /// The disk in a file as it stands.
    pub fn found(file: F) -> Result<FileDisk<F>, DiskFault>
        ensures file { IfOk result (λ disk. file_of disk ≡ file) }
        ensures count { IfOk result (λ disk. F.blocks.honest file
            → (disk_in F.blocks).count disk ≡ min (F.blocks.length file / 512) (2 ^ 32 - 1)) }
        ensures faults { IfOk result (λ disk. (disk_in F.blocks).faults disk ≡ 0) }
        ensures fault { IfErr result (λ fault. fault ≡ DiskFault.Read) }
    {
        match file.length() {
            Ok(bytes) => Ok(FileDisk {
                file,
                count: whole_sectors(bytes),
                faults: 0,
            }),
            Err(_) => Err(DiskFault::Read),
        }
    }

    /// The file in it.
    pub fn into_file(self) -> F
        ensures { result ≡ file_of self }
    {
        let FileDisk { file, .. } = self;
        file
    }
}

/// How many whole sectors so many bytes are, at most 2^32 - 1.
fn whole_sectors(bytes: u64) -> u32
    ensures { result ≡ min (bytes / 512) (2 ^ 32 - 1) }
{
    u32::try_from(bytes / SECTOR_BYTES).unwrap_or(u32::MAX)
}

/// The byte at which a sector begins.
fn place(i: u32) -> u64
    ensures { result ≡ 512 * i }
{
    u64::from(i) * SECTOR_BYTES
}

/// Writes zeros to the first 2,048 blocks of a file.
fn write_zeros<F: BlockFile>(file: &mut F) -> Result<(), Refused>
    ensures stays_honest { F.blocks.honest file.old → F.blocks.honest file.new }
    ensures was_honest { F.blocks.honest file.new → F.blocks.honest file.old }
    ensures zeros { OnOk result (F.blocks.honest file.old
        → (k : ℕ) → k < 2048 → F.blocks.reads file.new k ≡ replicate 512 0) }
    ensures length { OnOk result (F.blocks.honest file.old
        → F.blocks.length file.new ≡ max (F.blocks.length file.old) 1048576) }
{
    for i in 0..NEW_SECTORS {
        file.write_block(place(i), &[0; disk::SECTOR_BYTES])?;
    }
    Ok(())
}

impl<F: BlockFile> SectorDisk for FileDisk<F> {
    ghost use Rattle.sector_disk.specs.Disk.{Disk};
    ghost use Rattle.sector_disk.specs.File.{disk_in};

    ghost disk = { disk_in F.blocks };

    fn count(&self) -> u32 {
        self.count
    }

    fn read(&mut self, i: u32, bytes: &mut [u8; disk::SECTOR_BYTES]) -> Result<(), DiskFault> {
        let outcome = self.file.read_block(place(i), bytes);
        counted(&mut self.faults, outcome.or(Err(DiskFault::Read)))
    }

    fn write(&mut self, i: u32, bytes: &[u8; disk::SECTOR_BYTES]) -> Result<(), DiskFault> {
        let outcome = self.file.write_block(place(i), bytes);
        counted(&mut self.faults, outcome.or(Err(DiskFault::Write)))
    }

    fn sync(&mut self) -> Result<(), DiskFault> {
        let outcome = self.file.sync();
        counted(&mut self.faults, outcome.or(Err(DiskFault::Sync)))
    }
}
