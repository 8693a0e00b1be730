//! A file of blocks in memory.
ghost use Rattle.std.specs.Prelude.{◌≡◌, ◌/◌, ◌<◌, IfSome};

use crate::{BlockFile, Refused, SECTOR_BYTES, SectorDisk};

/// A file whose blocks are the sectors of a disk: over a disk in memory, and over a fuse with one, it is in memory too,
/// and loses power, or fails, as that disk does. It grows up to the disk's last sector, and refuses what is past that,
/// and a read past its end.
#[derive(Drop)]
pub struct SectorFile<D> {
    /// The disk of which each sector is a block.
    disk: D,
    /// The length in bytes.
    length: u64,
}

impl<D: SectorDisk> SectorFile<D> {
    ghost use Rattle.sector_disk.specs.SectorFile.{sectors_of, sector_file};

    /// A file of that many bytes.
    pub fn new(disk: D, length: u64) -> SectorFile<D>
        ensures disk { sectors_of result ≡ disk }
        ensures length { (sector_file D.disk).length result ≡ length }
    {
        SectorFile { disk, length }
    }

    /// The disk in it.
    pub fn into_inner(self) -> D
        ensures { result ≡ sectors_of self }
    {
        let SectorFile { disk, .. } = self;
        disk
    }
}

/// The number of the sector at a byte, where there are so many.
fn sector_at(offset: u64, count: u32) -> Option<u32>
    ensures some { IfSome result (λ i. (i ≡ offset / 512) × (i < count)) }
{
    match u32::try_from(offset / SECTOR_BYTES as u64) {
        Ok(i) if i < count => Some(i),
        _ => None,
    }
}

impl<D: SectorDisk> BlockFile for SectorFile<D> {
    ghost use Rattle.sector_disk.specs.Blocks.{Blocks};
    ghost use Rattle.sector_disk.specs.SectorFile.{sector_file};

    ghost blocks = { sector_file D.disk };

    fn length(&self) -> Result<u64, Refused> {
        Ok(self.length)
    }

    fn read_block(&mut self, offset: u64, bytes: &mut [u8; SECTOR_BYTES]) -> Result<(), Refused> {
        if self.length < offset.saturating_add(SECTOR_BYTES as u64) {
            return Err(Refused);
        }
        match sector_at(offset, self.disk.count()) {
            Some(i) => self.disk.read(i, bytes).or(Err(Refused)),
            None => Err(Refused),
        }
    }

    fn write_block(&mut self, offset: u64, bytes: &[u8; SECTOR_BYTES]) -> Result<(), Refused> {
        let Some(i) = sector_at(offset, self.disk.count()) else {
            return Err(Refused);
        };
        if let Err(_) = self.disk.write(i, bytes) {
            return Err(Refused);
        }
        self.length = self.length.max(offset + SECTOR_BYTES as u64);
        Ok(())
    }

    fn sync(&mut self) -> Result<(), Refused> {
        self.disk.sync().or(Err(Refused))
    }
}
