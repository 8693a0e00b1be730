//! What a power cut leaves on a disk in memory.
use super::expect_eq;
use sector_disk::{MemoryDisk, SectorDisk};
use std::alloc::Global;
use std::process::Abort;

/// Writes a sector of these bytes.
fn write(rt: &impl Abort, disk: &mut MemoryDisk, i: u32, value: u8) {
    if i < disk.count() {
        expect_eq(rt, disk.write(i, &[value; 512]), Ok(()), i);
    }
}

/// The last byte of a sector.
fn last_byte(rt: &impl Abort, disk: &mut MemoryDisk, i: u32) -> u8 {
    let mut bytes = [0xee; 512];
    if i < disk.count() {
        expect_eq(rt, disk.read(i, &mut bytes), Ok(()), i);
    }
    bytes[511]
}

/// Whether a sync comes after the first write, what the power cut picks, and what it leaves of each sector.
static ROWS: [(bool, &[u32], [u8; 2]); 9] = [
    (false, &[0, 0], [0, 0]),
    (false, &[1, 0], [1, 0]),
    (false, &[2, 1], [2, 3]),
    (false, &[3, 2], [0, 0]),
    (false, &[5, 3], [2, 3]),
    (false, &[2], [2, 0]),
    (false, &[], [0, 0]),
    (true, &[0, 1], [1, 3]),
    (true, &[1, 0], [2, 0]),
];

/// A disk of two sectors: sector 0 is written with 1 and 2 and sector 1 with 3, after a sync if told.
fn written(rt: &impl Abort, alloc: Global, sync: bool) -> MemoryDisk {
    let mut disk = MemoryDisk::new(alloc, 2).ok().expect(rt, "a disk");
    write(rt, &mut disk, 0, 1);
    if sync {
        expect_eq(rt, disk.sync(), Ok(()), "a sync");
    }
    write(rt, &mut disk, 0, 2);
    write(rt, &mut disk, 1, 3);
    disk
}

/// The power is cut, which leaves these bytes.
fn expect_left(rt: &impl Abort, disk: &mut MemoryDisk, picks: &[u32], left: [u8; 2]) {
    disk.crash(picks);
    let found = [last_byte(rt, disk, 0), last_byte(rt, disk, 1)];
    expect_eq(rt, found, left, picks);
}

// The second cut finds one value of each sector.
#[test]
fn a_power_cut_takes_any_value_since_the_sync(rt: HostRuntime) {
    for (sync, picks, left) in &ROWS {
        let mut disk = written(&rt, rt.alloc(), *sync);
        expect_left(&rt, &mut disk, picks, *left);
        expect_left(&rt, &mut disk, &[1, 1], *left);
    }
}
