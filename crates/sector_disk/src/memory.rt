//! A disk in memory, that can lose power.
ghost use Rattle.std.specs.Prelude.{◌≡◌, ◌<◌, ◌^◌, length, IfErr};
ghost use Rattle.sector_disk.specs.Held.{IsReplayed, sector_at};

mod changes;
mod events;
mod sectors;

use crate::faults::counted;
use crate::{DiskFault, SECTOR_BYTES, SectorDisk};
use changes::{keep_sync, keep_write, lose_power};
use events::Event;
use sectors::Sector;
use std::alloc::{AllocError, Global};

/// A disk in memory. It keeps the values that each sector may have after a power cut, and its writes and syncs.
#[derive(Drop)]
pub struct MemoryDisk {
    /// The sectors.
    sectors: Vec<Sector>,
    /// What happened since it was made.
    events: Vec<Event>,
    /// How many of its calls failed.
    faults: u64,
    ghost replayed: { IsReplayed (sector_at sectors.items) events.items },
    ghost counted: { length sectors.items < 2 ^ 32 },
}

impl MemoryDisk {
    ghost use Rattle.std.specs.Prelude.{ℕ, IfOk, replicate, slice_index};
    ghost use Rattle.sector_disk.specs.Disk.{Image, IsSame};
    ghost use Rattle.sector_disk.specs.Held.{picked};
    ghost use Rattle.sector_disk.specs.Memory.{held, memory_disk};

    /// A disk of that many sectors, all zeros, on which a power cut changes nothing. No fault is counted yet.
    pub fn new(alloc: Global, count: u32) -> Result<MemoryDisk, AllocError>
        ensures count { IfOk result (λ disk. memory_disk.count disk ≡ count) }
        ensures zeros { IfOk result (λ disk. (k : ℕ) → k < count → memory_disk.reads disk k ≡ replicate 512 0) }
        ensures only { IfOk result (λ disk. (c : Image)
            → memory_disk.may_leave disk c → IsSame c (memory_disk.reads disk)) }
        ensures faults { IfOk result (λ disk. memory_disk.faults disk ≡ 0) }
    {
        let mut sectors = Vec::with_capacity(alloc, count as usize)?;
        for _made in 0..count {
            sectors.push(Sector::zeroed(alloc))?;
        }
        Ok(MemoryDisk {
            sectors,
            events: Vec::new(alloc),
            faults: 0,
        })
    }

    /// Loses power. Sector `i` takes value `picks[i]` of its list, modulo the list's length: value 0 is the synced one, then
    /// come those written since, in order. Where `picks` has no entry it takes value 0.
    pub fn crash(&mut self, picks: &[u32])
        ensures picked { (k : ℕ) → k < memory_disk.count self.old
            → memory_disk.reads self.new k ≡ picked (held self.old k) (slice_index picks.now k) }
        ensures possible { memory_disk.may_leave self.old (memory_disk.reads self.new) }
        ensures only { (c : Image) → memory_disk.may_leave self.new c → IsSame c (memory_disk.reads self.new) }
        ensures count { memory_disk.count self.new ≡ memory_disk.count self.old }
        ensures faults { memory_disk.faults self.new ≡ memory_disk.faults self.old }
    {
        lose_power(&mut self.sectors, picks);
        self.events.clear();
    }
}

impl SectorDisk for MemoryDisk {
    ghost use Rattle.std.specs.Prelude.{ℕ, OnOk, OnErr, IsOk};
    ghost use Rattle.sector_disk.specs.Disk.{Disk};
    ghost use Rattle.sector_disk.specs.Calls.{Called, Reads, Writes, Syncs};
    ghost use Rattle.sector_disk.specs.Held.{after, settled};
    ghost use Rattle.sector_disk.specs.Memory.{held, memory_disk, IsHeld};
    ghost use Rattle.sector_disk.specs.declared.memory.events.Event.TheVariants.{Write};

    ghost disk = { memory_disk };

    fn count(&self) -> u32 {
        self.sectors.len() as u32
    }

    /// A read that never fails.
    fn read(&mut self, i: u32, bytes: &mut [u8; SECTOR_BYTES]) -> Result<(), DiskFault>
        requires { i < memory_disk.count self.old }
        ensures called { Called memory_disk self.old self.new result }
        ensures reads { memory_disk.honest self.old → Reads memory_disk self.old self.new i bytes.new result }
        ensures fault { IfErr result (λ fault. fault ≡ DiskFault.Read) }
        ensures succeeds { IsOk result }
        ensures held { IsHeld self.old self.new (λ k h. h) }
    {
        *bytes = *self.sectors[i as usize].newest();
        Ok(())
    }

    /// A write keeps each value that was possible before. It fails where memory is refused, and then does nothing.
    fn write(&mut self, i: u32, bytes: &[u8; SECTOR_BYTES]) -> Result<(), DiskFault>
        requires { i < memory_disk.count self.old }
        ensures called { Called memory_disk self.old self.new result }
        ensures writes { memory_disk.honest self.old → Writes memory_disk self.old self.new i bytes.now result }
        ensures fault { IfErr result (λ fault. fault ≡ DiskFault.Write) }
        ensures held { OnOk result (IsHeld self.old self.new (λ k h. after k h (Write i bytes.now))) }
        ensures spared { OnErr result (IsHeld self.old self.new (λ k h. h)) }
    {
        if let Err(_) = keep_write(&mut self.sectors, &mut self.events, i, bytes) {
            return counted(&mut self.faults, Err(DiskFault::Write));
        }
        Ok(())
    }

    /// A sync keeps the value last written. It fails where memory is refused, and then does nothing.
    fn sync(&mut self) -> Result<(), DiskFault>
        ensures called { Called memory_disk self.old self.new result }
        ensures syncs { memory_disk.honest self.old → Syncs memory_disk self.old self.new result }
        ensures fault { IfErr result (λ fault. fault ≡ DiskFault.Sync) }
        ensures held { OnOk result (IsHeld self.old self.new (λ k h. settled h)) }
        ensures spared { OnErr result (IsHeld self.old self.new (λ k h. h)) }
    {
        if let Err(_) = keep_sync(&mut self.sectors, &mut self.events) {
            return counted(&mut self.faults, Err(DiskFault::Sync));
        }
        Ok(())
    }
}
