//! A disk in a file.
mod bad_file;
mod calls;
mod in_memory;

use super::expect_eq;
use sector_disk::{DiskFault, FileDisk, SectorDisk};
use std::fs;
use std::process::Abort;
use std::test::Fail;

/// Writes a sector of a disk of 2,048.
fn expect_written<D: SectorDisk + Drop>(
    rt: &impl Abort,
    disk: Result<D, DiskFault>,
    i: u32,
    value: u8,
) {
    let mut disk = disk.ok().expect(rt, "a disk");
    expect_eq(rt, disk.count(), 2048, "sectors");
    expect_eq(rt, write_if(&mut disk, i, value), Ok(()), i);
}

/// Reads a sector of a disk that may not be written.
fn expect_read_only<D: SectorDisk + Drop>(rt: &impl Abort, disk: Result<D, DiskFault>, i: u32) {
    let mut disk = disk.ok().expect(rt, "a disk");
    expect_eq(rt, read_if(&mut disk, i), Ok(()), i);
    let refused = write_if(&mut disk, i, 7);
    expect_eq(rt, refused, Err(DiskFault::Write), "a write");
}

/// Sector 1 holds threes and sector 2,047 fives, and no other byte is above 0.
fn expect_bytes(rt: &impl Abort, bytes: &[u8]) {
    expect_eq(rt, bytes.len(), 1_048_576, "bytes of the file");
    for (index, byte) in bytes.iter().enumerate() {
        let due = match index {
            512..=1023 => 3,
            1_048_064..=1_048_575 => 5,
            _ => 0,
        };
        expect_eq(rt, *byte, due, index);
    }
}

// Sectors are written in two sittings, the first of a file made over a longer one; the bytes of the file are then read.
#[test]
fn a_file_keeps_sectors_at_their_places(rt: HostRuntime) -> Result<(), Fail> {
    let name = "sector_disk_test.disk";
    let missing = FileDisk::open(&rt, name).err();
    expect_eq(&rt, missing, Some(DiskFault::Read), "a missing file");
    let older = vec![in rt.alloc(); 0xffu8; 2_000_000]?;
    fs::write(&rt, name, older)?;
    expect_written(&rt, FileDisk::create(&rt, name), 1, 3);
    expect_written(&rt, FileDisk::open(&rt, name), 2047, 5);
    expect_read_only(&rt, FileDisk::open_read_only(&rt, name), 2047);
    expect_bytes(&rt, fs::read(&rt, name)?.as_slice());
    fs::remove_file(&rt, name)?;
    let missing = FileDisk::create(&rt, "missing_folder/disk").err();
    expect_eq(&rt, missing, Some(DiskFault::Write), "a missing folder");
    Ok(())
}

/// Writes a sector of these bytes, if there is such a sector.
pub fn write_if<D: SectorDisk>(disk: &mut D, i: u32, value: u8) -> Result<(), DiskFault> {
    if i < disk.count() {
        disk.write(i, &[value; 512])?;
    }
    Ok(())
}

/// Reads a sector, if there is such a sector.
pub fn read_if<D: SectorDisk>(disk: &mut D, i: u32) -> Result<(), DiskFault> {
    let mut bytes = [0; 512];
    if i < disk.count() {
        disk.read(i, &mut bytes)?;
    }
    Ok(())
}
