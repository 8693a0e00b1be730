//! A disk of sectors of 512 bytes: what its calls promise, a disk in memory, a disk that fails at a chosen call,
//! and a disk in a file of blocks, which is a file of the system or one over another disk.
//!
//! ```rust
//! let mut disk = FileDisk::create(&rt, "evening.disk")?;
//! disk.write(0, &[7; SECTOR_BYTES])?;
//! disk.sync()?;
//! ```
#![tactic(auto)]

mod blocks;
mod disk;
mod faults;
mod file;
mod fuse;
mod memory;
mod sector_file;
mod system_file;

pub use blocks::{BlockFile, Refused};
pub use disk::{DiskFault, SECTOR_BYTES, SectorDisk};
pub use file::FileDisk;
pub use fuse::{Fail, Fuse};
pub use memory::MemoryDisk;
pub use sector_file::SectorFile;
pub use system_file::SystemFile;
