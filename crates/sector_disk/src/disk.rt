//! The calls of a disk, and what they promise.
ghost use Rattle.std.specs.Prelude.{◌≡◌, ◌<◌, ◌^◌, IfErr};
ghost use Rattle.sector_disk.specs.Disk.{Disk};
ghost use Rattle.sector_disk.specs.Calls.{Called, Reads, Writes, Syncs};

use thiserror::Error;

/// Bytes of a sector.
pub const SECTOR_BYTES: usize = 512;

/// Which call of a disk failed.
#[derive(Clone, Copy, Debug, PartialEq, Eq, Error)]
pub enum DiskFault {
    /// A read, or the opening of a disk.
    #[error("a read of the disk failed")]
    Read,
    /// A write, or the making of a disk.
    #[error("a write of the disk failed")]
    Write,
    /// A sync.
    #[error("a sync of the disk failed")]
    Sync,
}

/// A disk of sectors of 512 bytes each, numbered from 0.
///
/// What is said of a read's bytes and of power cuts is said of an honest disk alone: one that keeps each sector
/// as it was before a write or as it is after it, never torn, and gives synced sectors as they were written.
/// No contract can say that a real device is honest. Every call leaves an honest disk honest and any other as it is,
/// keeps the number of sectors, and raises the number of faults by one exactly where it fails; at 2^64 - 1 that number stays.
pub trait SectorDisk {
    /// What the disk means: what reads give, what a power cut may leave, and how many calls failed.
    ghost disk: { Disk Self };

    /// The number of sectors.
    fn count(&self) -> u32
        ensures count { result ≡ disk.count self.now }
        ensures fits { result < 2 ^ 32 };

    /// Reads sector `i` into `bytes`, which may be anything where the read fails. Also then, later reads give the
    /// same as before, and a power cut leaves nothing that it might not have left before.
    fn read(&mut self, i: u32, bytes: &mut [u8; SECTOR_BYTES]) -> Result<(), DiskFault>
        requires { i < disk.count self.old }
        ensures called { Called disk self.old self.new result }
        ensures reads { disk.honest self.old → Reads disk self.old self.new i bytes.new result }
        ensures fault { IfErr result (λ fault. fault ≡ DiskFault.Read) };

    /// Writes `bytes` to sector `i`. Until the next sync a power cut may leave them or what was possible before.
    /// A write that fails was done all the same, or reads give what they gave and a power cut leaves nothing new.
    fn write(&mut self, i: u32, bytes: &[u8; SECTOR_BYTES]) -> Result<(), DiskFault>
        requires { i < disk.count self.old }
        ensures called { Called disk self.old self.new result }
        ensures writes { disk.honest self.old → Writes disk self.old self.new i bytes.now result }
        ensures fault { IfErr result (λ fault. fault ≡ DiskFault.Write) };

    /// Brings all that was written to the device: a power cut then leaves what reads give.
    /// A sync that fails was done all the same, or reads give what they gave and a power cut leaves nothing new.
    fn sync(&mut self) -> Result<(), DiskFault>
        ensures called { Called disk self.old self.new result }
        ensures syncs { disk.honest self.old → Syncs disk self.old self.new result }
        ensures fault { IfErr result (λ fault. fault ≡ DiskFault.Sync) };
}
