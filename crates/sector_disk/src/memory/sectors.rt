//! One sector of a disk in memory.
ghost use Rattle.std.specs.Prelude.{◌≡◌, OnOk, OnErr, replicate};
ghost use Rattle.sector_disk.specs.Held.{newest, picked, written, settled, cut_to};

use crate::SECTOR_BYTES;
use std::alloc::{AllocError, Global};
use std::marker::Model;

/// What a sector held when the disk was made or last lost power, what it held at the last sync since then, or else
/// the same, and each value written since.
#[derive(Drop)]
pub(crate) struct Sector {
    /// What it held at first.
    first: [u8; SECTOR_BYTES],
    /// What it held at the last sync.
    synced: [u8; SECTOR_BYTES],
    /// What was written since.
    since: Vec<[u8; SECTOR_BYTES]>,
}

impl Model for Sector {
    ghost use Rattle.sector_disk.specs.Held.{SectorValue};

    ghost Value = { SectorValue };

    ghost view = { λ s. record { first = s.first; synced = s.synced; since = s.since.items } };
}

impl Sector {
    /// All zeros.
    pub(crate) fn zeroed(alloc: Global) -> Sector
        ensures { result ≡ cut_to (replicate 512 0) }
    {
        Sector {
            first: [0; SECTOR_BYTES],
            synced: [0; SECTOR_BYTES],
            since: Vec::new(alloc),
        }
    }

    /// The value last written.
    #[tactic(auto, using(crate::proofs::Last::last_value))]
    pub(crate) fn newest(&self) -> &[u8; SECTOR_BYTES]
        ensures { result.now ≡ newest self.now }
    {
        match self.since.last() {
            Some(bytes) => bytes,
            None => &self.synced,
        }
    }

    /// Another value is written.
    pub(crate) fn write(&mut self, bytes: &[u8; SECTOR_BYTES]) -> Result<(), AllocError>
        ensures ok { OnOk result (self.new ≡ written bytes.now self.old) }
        ensures err { OnErr result (self.new ≡ self.old) }
    {
        self.since.push(*bytes)?;
        Ok(())
    }

    /// The value last written is synced.
    pub(crate) fn settle(&mut self)
        ensures { self.new ≡ settled self.old }
    {
        self.synced = *self.newest();
        self.since.clear();
    }

    /// Power is lost: the value that is picked is left.
    pub(crate) fn lose_power(&mut self, pick: u32)
        ensures { self.new ≡ cut_to (picked self.old pick) }
    {
        let index = pick as usize % (self.since.len() + 1);
        if index > 0 {
            self.synced = self.since[index - 1];
        }
        self.first = self.synced;
        self.since.clear();
    }
}
