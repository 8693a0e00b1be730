//! What a disk in memory went through.
use crate::SECTOR_BYTES;

/// A write or a sync that was done.
#[derive(Clone, Copy)]
pub(crate) enum Event {
    /// These bytes were written to this sector.
    Write {
        /// The sector's number.
        sector: u32,
        /// Its new bytes.
        bytes: [u8; SECTOR_BYTES],
    },
    /// All sectors were synced.
    Sync,
}
