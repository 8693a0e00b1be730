//! Epochs of each length in bytes: what is opened, and the sectors that are written then.
use super::{Content, expect_eq, open, put, put_snapshot, sector_of};
use sector_disk::{DiskFault, MemoryDisk, SectorDisk};
use session_store::DiskFormat;
use std::alloc::Global;
use std::process::Abort;
use std::test::Fail as Failure;

/// Fails where this sector has other bytes.
fn expect_sector(
    rt: &impl Abort,
    disk: &mut MemoryDisk,
    at: u32,
    due: &[u8; 512],
    epoch: u64,
) -> Result<(), DiskFault> {
    let mut bytes = [0; 512];
    if at < disk.count() {
        disk.read(at, &mut bytes)?;
    }
    expect_eq(rt, bytes == *due, true, (at, epoch));
    Ok(())
}

/// The epochs of snapshots.
static EPOCHS: [u64; 19] = [
    1,
    99,
    100,
    101,
    254,
    255,
    256,
    999,
    1000,
    65_534,
    65_535,
    65_536,
    16_777_215,
    4_294_967_294,
    4_294_967_295,
    4_294_967_296,
    1_099_511_627_775,
    u64::MAX - 2,
    u64::MAX - 1,
];

/// A snapshot of the epoch before with total 7, and a record that adds 4.
fn disk_of(alloc: Global, before: u64) -> Result<MemoryDisk, Failure> {
    let mut disk = MemoryDisk::new(alloc, 2048)?;
    let from = if before % 2 == 1 { 0 } else { 512 };
    put_snapshot(&mut disk, DiskFormat::Two, from, before, 7)?;
    let record = Content::Record(0, 4);
    put(&mut disk, DiskFormat::Two, 1024, before, record)?;
    Ok(disk)
}

/// Fails where another snapshot stands there than that of the epoch with total 11.
fn expect_snapshot(
    rt: &impl Abort,
    disk: &mut MemoryDisk,
    at: u32,
    epoch: u64,
) -> Result<(), Failure> {
    let header = sector_of(b"BD2H", epoch, 9, &[]);
    expect_sector(rt, disk, at, &header, epoch)?;
    for i in 0..9 {
        let part = sector_of(b"BD2P", epoch, i, b"\x00\x0b");
        expect_sector(rt, disk, at.saturating_add(1 + i), &part, epoch)?;
    }
    Ok(())
}

/// The disk once it was opened, and an action that adds 5 submitted and confirmed.
fn gone_on(rt: &impl Abort, alloc: Global, disk: MemoryDisk, before: u64) -> MemoryDisk {
    let mut store = open(rt, alloc, disk);
    expect_eq(rt, store.epoch(), before.saturating_add(1), before);
    expect_eq(rt, store.state().total(), 11, before);
    expect_eq(rt, store.submit(&5).is_ok(), true, before);
    expect_eq(rt, store.confirm(), Ok(()), before);
    store.into_disk()
}

// Opening writes the next snapshot in the other place, whose epoch the records bear that follow.
#[test]
fn epochs_of_any_length(rt: HostRuntime) -> Result<(), Failure> {
    for before in &EPOCHS {
        let epoch = before.saturating_add(1);
        let mut disk = gone_on(&rt, rt.alloc(), disk_of(rt.alloc(), *before)?, *before);
        let to = if before % 2 == 1 { 512 } else { 0 };
        expect_snapshot(&rt, &mut disk, to, epoch)?;
        let record = sector_of(b"BD2R", epoch, 0, b"\x01\x05");
        expect_sector(&rt, &mut disk, 1024, &record, epoch)?;
        if epoch < u64::MAX {
            let store = open(&rt, rt.alloc(), disk);
            expect_eq(&rt, store.state().total(), 16, epoch);
            expect_eq(&rt, store.epoch(), epoch.saturating_add(1), epoch);
        }
    }
    Ok(())
}
