//! A disk in a file in memory, which fails when told to.
use super::{read_if, write_if};
use crate::tests::expect_eq;
use sector_disk::{DiskFault, Fail, FileDisk, Fuse, MemoryDisk, SectorDisk, SectorFile};
use std::alloc::Global;
use std::process::Abort;

type FusedDisk = FileDisk<SectorFile<Fuse<MemoryDisk>>>;

/// A file of two sectors and a half, on a disk with room for one more, of which the call after so many fails, once.
fn fused(rt: &impl Abort, alloc: Global, passes: u64, effect: bool) -> FusedDisk {
    let disk = MemoryDisk::new(alloc, 3).ok().expect(rt, "a disk");
    let disk = Fuse::new(disk, passes, Fail::Once, effect);
    let disk = FileDisk::found(SectorFile::new(disk, 1280));
    disk.ok().expect(rt, "an opened file")
}

/// The last byte of sector 1 after a power cut that leaves the newest values.
fn left_in(rt: &impl Abort, disk: FusedDisk) -> u8 {
    let mut disk = disk.into_file().into_inner().into_inner();
    disk.crash(&[1, 1, 1]);
    let mut bytes = [0; 512];
    if 1 < disk.count() {
        expect_eq(rt, disk.read(1, &mut bytes), Ok(()), "a read");
    }
    bytes[511]
}

/// How many calls pass, whether the one that then fails is done all the same, which of a write, a read and a sync fails, and
/// what is left.
static ROWS: [(u64, bool, [bool; 3], u8); 5] = [
    (0, false, [true, false, false], 0),
    (0, true, [true, false, false], 7),
    (1, false, [false, true, false], 7),
    (2, false, [false, false, true], 7),
    (3, false, [false, false, false], 7),
];

#[test]
fn a_file_fails_and_loses_power_as_its_disk_does(rt: HostRuntime) {
    for (passes, effect, failed, left) in &ROWS {
        let mut disk = fused(&rt, rt.alloc(), *passes, *effect);
        expect_eq(&rt, disk.count(), 2, "sectors");
        let found = [
            write_if(&mut disk, 1, 7) == Err(DiskFault::Write),
            read_if(&mut disk, 1) == Err(DiskFault::Read),
            disk.sync() == Err(DiskFault::Sync),
        ];
        expect_eq(&rt, found, *failed, (*passes, *effect));
        expect_eq(&rt, left_in(&rt, disk), *left, (*passes, *effect));
    }
}
