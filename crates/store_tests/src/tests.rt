//! Disks in a file and in memory, and a counter kept on a disk in memory: power cuts, faults, and disks that a test wrote.
mod checkpoints;
mod counter;
mod disks;
mod epochs;
mod faults;
mod files;
mod formatting;
mod memory;
mod rows;

use arrayvec::ArrayVec;
use counter::Counter;
use sector_disk::{DiskFault, Fail, Fuse, MemoryDisk, SectorDisk};
use session_store::{DiskFormat, Store, StoreFault, format};
use std::alloc::{AllocError, Global};
use std::array;
use std::fmt::Debug;
use std::process::Abort;

/// Fails with the row where a value is not the one that is due.
pub fn expect_eq<T: PartialEq + Debug + Drop>(
    rt: &impl Abort,
    found: T,
    due: T,
    row: impl Debug + Drop,
) {
    assert_eq!(rt; found, due, "{row:?}");
}

/// The bytes of a sector: the mark, the epoch, the number, the payload's length, each with its highest byte first, the payload,
/// and zeros.
pub fn sector_of(mark: &[u8; 4], epoch: u64, number: u32, payload: &[u8]) -> [u8; 512] {
    let length = u16::try_from(payload.len()).unwrap_or(u16::MAX);
    let mut written: ArrayVec<u8, 512> = ArrayVec::new();
    let _ = written.try_extend_from_slice(mark);
    let _ = written.try_extend_from_slice(&epoch.to_be_bytes());
    let _ = written.try_extend_from_slice(&number.to_be_bytes());
    let _ = written.try_extend_from_slice(&length.to_be_bytes());
    let _ = written.try_extend_from_slice(payload);
    array::from_fn(|index| written.get(index).copied().unwrap_or(0))
}

/// What a sector holds that a test writes.
#[derive(Clone, Copy)]
pub enum Content {
    /// A header of that many parts.
    Header(u32),
    /// The part of this number, of a counter with this total.
    Part(u32, u16),
    /// The record of this number, of the action that adds this much.
    Record(u32, u8),
    /// Zeros.
    Zeros,
    /// What has this last byte of its mark, this number and this payload.
    Bytes(u8, u32, &'static [u8]),
}

/// The last byte of its mark, its number, and its payload in this format.
fn fields_of(format: DiskFormat, content: Content) -> (u8, u32, ArrayVec<u8, 16>) {
    let mut payload = ArrayVec::new();
    let (kind, number) = match content {
        Content::Header(parts) => (b'H', parts),
        Content::Part(number, total) => {
            let bytes = match format {
                DiskFormat::One => total.to_le_bytes(),
                DiskFormat::Two => total.to_be_bytes(),
            };
            let _ = payload.try_extend_from_slice(&bytes);
            (b'P', number)
        }
        Content::Record(number, add) => {
            let kind = match format {
                DiskFormat::One => 7,
                DiskFormat::Two => 1,
            };
            let _ = payload.try_extend_from_slice(&[kind, add]);
            (b'R', number)
        }
        Content::Zeros => (0, 0),
        Content::Bytes(kind, number, bytes) => {
            let _ = payload.try_extend_from_slice(bytes);
            (kind, number)
        }
    };
    (kind, number, payload)
}

/// Writes it in a format, at this sector and of this epoch.
pub fn put(
    disk: &mut MemoryDisk,
    format: DiskFormat,
    at: u32,
    epoch: u64,
    content: Content,
) -> Result<(), DiskFault> {
    let digit = match format {
        DiskFormat::One => b'1',
        DiskFormat::Two => b'2',
    };
    let bytes = match content {
        Content::Zeros => [0; 512],
        _ => {
            let (kind, number, payload) = fields_of(format, content);
            sector_of(
                &[b'B', b'D', digit, kind],
                epoch,
                number,
                payload.as_slice(),
            )
        }
    };
    if at < disk.count() {
        disk.write(at, &bytes)?;
    }
    Ok(())
}

/// Writes a snapshot of 9 parts with this total.
pub fn put_snapshot(
    disk: &mut MemoryDisk,
    format: DiskFormat,
    index: u32,
    epoch: u64,
    total: u16,
) -> Result<(), DiskFault> {
    put(disk, format, index, epoch, Content::Header(9))?;
    for i in 0..9 {
        let at = index.saturating_add(1 + i);
        put(disk, format, at, epoch, Content::Part(i, total))?;
    }
    Ok(())
}

/// Writes that many records of the second format and epoch 1, each of which adds 1.
pub fn put_records(disk: &mut MemoryDisk, count: u32) -> Result<(), DiskFault> {
    for k in 0..count {
        let at = 1024u32.saturating_add(k);
        put(disk, DiskFormat::Two, at, 1, Content::Record(k, 1))?;
    }
    Ok(())
}

/// A disk of 2,048 sectors, formatted with a counter of 9 parts.
pub fn formatted(rt: &impl Abort, alloc: Global) -> Result<MemoryDisk, AllocError> {
    let disk = MemoryDisk::new(alloc, 2048)?;
    Ok(format(disk, &Counter::new(9)).ok().expect(rt, "formatted"))
}

/// The store on this disk.
pub fn open<D: SectorDisk + Drop>(rt: &impl Abort, alloc: Global, disk: D) -> Store<D, Counter> {
    Store::open(alloc, disk).ok().expect(rt, "opened")
}

/// The total and the epoch of the store that is opened behind this fuse, and the disk.
pub fn opened_behind(
    alloc: Global,
    fuse: Fuse<MemoryDisk>,
) -> (MemoryDisk, Result<(u16, u64), StoreFault>) {
    match Store::<Fuse<MemoryDisk>, Counter>::open(alloc, fuse) {
        Err((fuse, fault)) => (fuse.into_inner(), Err(fault)),
        Ok(store) => {
            let found = (store.state().total(), store.epoch());
            (store.into_disk().into_inner(), Ok(found))
        }
    }
}

/// The same where no call fails, or every call from this one on.
pub fn opened(alloc: Global, disk: MemoryDisk) -> (MemoryDisk, Result<(u16, u64), StoreFault>) {
    opened_behind(alloc, Fuse::new(disk, u64::MAX, Fail::Once, false))
}

pub fn opened_until(
    alloc: Global,
    disk: MemoryDisk,
    calls: u64,
) -> (MemoryDisk, Result<(u16, u64), StoreFault>) {
    opened_behind(alloc, Fuse::new(disk, calls, Fail::Always, false))
}
