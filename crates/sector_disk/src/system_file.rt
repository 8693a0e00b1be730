//! A file of the runtime, as a file of blocks.
ghost use Rattle.std.specs.Prelude.{◌≡◌};

use crate::{BlockFile, Refused, SECTOR_BYTES};
use std::fs::OpenFile;
use std::os::unix::fs::FileExt;

/// A file of the system. Each read and each write is asked of the system at its offset, again for what is left after a
/// short or interrupted answer, and a sync is the system's sync of the file's data to its device. That the system then
/// did it, and that the device keeps it, is what is assumed where this file is called honest.
#[derive(Drop)]
pub struct SystemFile<F> {
    /// The runtime's file.
    file: F,
}

impl<F> SystemFile<F> {
    ghost use Rattle.sector_disk.specs.SystemFile.{file_in};

    /// An open file as a file of blocks.
    pub fn new(file: F) -> SystemFile<F>
        ensures { file_in result ≡ file }
    {
        SystemFile { file }
    }
}

#[tactic(auto, using(crate::specs::SystemFile::no_system_file_is_honest))]
impl<F: OpenFile + FileExt> BlockFile for SystemFile<F> {
    ghost use Rattle.sector_disk.specs.Blocks.{Blocks};
    ghost use Rattle.sector_disk.specs.SystemFile.{system_blocks};

    ghost blocks = { system_blocks };

    fn length(&self) -> Result<u64, Refused> {
        match self.file.metadata() {
            Ok(metadata) => Ok(metadata.len()),
            Err(_) => Err(Refused),
        }
    }

    fn read_block(&mut self, offset: u64, bytes: &mut [u8; SECTOR_BYTES]) -> Result<(), Refused> {
        self.file.read_exact_at(bytes, offset).or(Err(Refused))
    }

    fn write_block(&mut self, offset: u64, bytes: &[u8; SECTOR_BYTES]) -> Result<(), Refused> {
        self.file.write_all_at(bytes, offset).or(Err(Refused))
    }

    fn sync(&mut self) -> Result<(), Refused> {
        self.file.sync_data().or(Err(Refused))
    }
}
