//! A disk that fails at a chosen call, for tests of what stands above.
ghost use Rattle.std.specs.Prelude.{◌≡◌, ◌<◌, ◌↔◌, IfErr, IsTrue};
ghost use Rattle.sector_disk.specs.Calls.{Called, Reads, Writes, Syncs};
ghost use Rattle.sector_disk.specs.Fuse.{inner, passes_left, passes_after, fail_of, has_effect};
ghost use Rattle.sector_disk.specs.Fuse.{fuse_disk, FuseReads, FuseWrites, FuseSyncs};

use crate::faults::counted;
use crate::{DiskFault, SECTOR_BYTES, SectorDisk};

/// How often a fuse fails.
#[derive(Clone, Copy, Debug, PartialEq, Eq)]
pub enum Fail {
    /// One call, and then none.
    Once,
    /// That call and every later one.
    Always,
}

/// A disk that passes calls on to the disk in it, but fails one of them, or that one and all later ones.
#[derive(Drop)]
pub struct Fuse<D: SectorDisk> {
    /// The disk behind it.
    disk: D,
    /// How many calls pass before one fails, if one is to.
    passes_left: Option<u64>,
    /// Whether that call alone fails, or each from it on.
    fail: Fail,
    /// Whether a write or a sync that fails is done all the same.
    effect: bool,
    /// How many of its calls failed.
    faults: u64,
}

impl<D: SectorDisk> Fuse<D> {
    /// A fuse that passes on that many reads, writes and syncs, and then fails the next one or every later one.
    /// With `effect` a write or sync that it fails is passed on first; without, it does nothing. No fault is
    /// counted yet, also where the disk in it has counted some.
    pub fn new(disk: D, passes: u64, fail: Fail, effect: bool) -> Fuse<D>
        ensures disk { inner result ≡ disk }
        ensures passes { passes_left result ≡ Some passes }
        ensures fail { fail_of result ≡ fail }
        ensures effect { has_effect result ≡ effect }
        ensures faults { (fuse_disk D.disk).faults result ≡ 0 }
    {
        Fuse {
            disk,
            passes_left: Some(passes),
            fail,
            effect,
            faults: 0,
        }
    }

    /// The disk in it.
    pub fn into_inner(self) -> D
        ensures { result ≡ inner self }
    {
        let Fuse { disk, .. } = self;
        disk
    }
}

/// Spends a pass, and says whether there was none left: then the call is one to fail.
fn spend_pass(passes_left: &mut Option<u64>, fail: Fail) -> bool
    ensures fails { IsTrue result ↔ (passes_left.old ≡ Some 0) }
    ensures left { passes_left.new ≡ passes_after fail passes_left.old }
{
    match *passes_left {
        None => false,
        Some(0) => {
            if fail == Fail::Once {
                *passes_left = None;
            }
            true
        }
        Some(passes) => {
            *passes_left = Some(passes - 1);
            false
        }
    }
}

impl<D: SectorDisk> SectorDisk for Fuse<D> {
    ghost use Rattle.sector_disk.specs.Disk.{Disk};

    ghost disk = { fuse_disk D.disk };

    fn count(&self) -> u32 {
        self.disk.count()
    }

    fn read(&mut self, i: u32, bytes: &mut [u8; SECTOR_BYTES]) -> Result<(), DiskFault>
        requires { i < (fuse_disk D.disk).count self.old }
        ensures called { Called (fuse_disk D.disk) self.old self.new result }
        ensures reads { (fuse_disk D.disk).honest self.old
            → Reads (fuse_disk D.disk) self.old self.new i bytes.new result }
        ensures fault { IfErr result (λ fault. fault ≡ DiskFault.Read) }
        ensures fuse { FuseReads D.disk self.old self.new i bytes.new result }
    {
        let outcome = if spend_pass(&mut self.passes_left, self.fail) {
            Err(DiskFault::Read)
        } else {
            self.disk.read(i, bytes)
        };
        counted(&mut self.faults, outcome)
    }

    fn write(&mut self, i: u32, bytes: &[u8; SECTOR_BYTES]) -> Result<(), DiskFault>
        requires { i < (fuse_disk D.disk).count self.old }
        ensures called { Called (fuse_disk D.disk) self.old self.new result }
        ensures writes { (fuse_disk D.disk).honest self.old
            → Writes (fuse_disk D.disk) self.old self.new i bytes.now result }
        ensures fault { IfErr result (λ fault. fault ≡ DiskFault.Write) }
        ensures fuse { FuseWrites D.disk self.old self.new i bytes.now result }
    {
        let outcome = if !spend_pass(&mut self.passes_left, self.fail) {
            self.disk.write(i, bytes)
        } else {
            if self.effect {
                let _ = self.disk.write(i, bytes);
            }
            Err(DiskFault::Write)
        };
        counted(&mut self.faults, outcome)
    }

    fn sync(&mut self) -> Result<(), DiskFault>
        ensures called { Called (fuse_disk D.disk) self.old self.new result }
        ensures syncs { (fuse_disk D.disk).honest self.old
            → Syncs (fuse_disk D.disk) self.old self.new result }
        ensures fault { IfErr result (λ fault. fault ≡ DiskFault.Sync) }
        ensures fuse { FuseSyncs D.disk self.old self.new result }
    {
        let outcome = if !spend_pass(&mut self.passes_left, self.fail) {
            self.disk.sync()
        } else {
            if self.effect {
                let _ = self.disk.sync();
            }
            Err(DiskFault::Sync)
        };
        counted(&mut self.faults, outcome)
    }
}
