//! The calls of a file of blocks, and what they promise.
ghost use Rattle.std.specs.Prelude.{◌≡◌, ◌+◌, ◌/◌, max, IfOk, OnOk};
ghost use Rattle.sector_disk.specs.Blocks.{Blocks, IsPlace, as_disk, Keeps};
ghost use Rattle.sector_disk.specs.Calls.{Reads, Writes, Syncs};

use crate::SECTOR_BYTES;

/// A call of a file was refused, or not done in full.
#[derive(Clone, Copy, Debug, PartialEq, Eq)]
pub struct Refused;

/// A file of blocks of 512 bytes, each read and written at its offset in bytes.
///
/// What is said of a file's bytes, its length and power cuts is said of an honest file alone, as of a disk.
pub trait BlockFile {
    /// What the file means: its length, what reads give, and what a power cut may leave.
    ghost blocks: { Blocks Self };

    /// How many bytes it has.
    fn length(&self) -> Result<u64, Refused>
        ensures length { blocks.honest self.now → IfOk result (λ bytes. bytes ≡ blocks.length self.now) };

    /// Reads the block at a byte into `bytes`, which may be anything where the read fails.
    fn read_block(&mut self, offset: u64, bytes: &mut [u8; SECTOR_BYTES]) -> Result<(), Refused>
        requires { IsPlace offset }
        ensures keeps { Keeps blocks self.old self.new }
        ensures reads { blocks.honest self.old
            → Reads (as_disk blocks) self.old self.new (offset / 512) bytes.new result }
        ensures length { blocks.honest self.old → blocks.length self.new ≡ blocks.length self.old };

    /// Writes the block at a byte. A file that ended before the end of the block then ends there.
    fn write_block(&mut self, offset: u64, bytes: &[u8; SECTOR_BYTES]) -> Result<(), Refused>
        requires { IsPlace offset }
        ensures keeps { Keeps blocks self.old self.new }
        ensures writes { blocks.honest self.old
            → Writes (as_disk blocks) self.old self.new (offset / 512) bytes.now result }
        ensures length { blocks.honest self.old
            → OnOk result (blocks.length self.new ≡ max (blocks.length self.old) (offset + 512)) };

    /// Brings all that was written, and the length, to the device.
    fn sync(&mut self) -> Result<(), Refused>
        ensures keeps { Keeps blocks self.old self.new }
        ensures syncs { blocks.honest self.old → Syncs (as_disk blocks) self.old self.new result }
        ensures length { blocks.honest self.old → blocks.length self.new ≡ blocks.length self.old };
}
