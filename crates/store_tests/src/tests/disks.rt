//! Disks that a test wrote, and what opening them answers.
use super::{
    Content, expect_eq, opened, opened_behind, opened_until, put, put_snapshot, sector_of,
};
use sector_disk::{DiskFault, Fail, Fuse, MemoryDisk, SectorDisk};
use session_store::{DiskFormat, StoreFault};
use std::alloc::Global;
use std::process::Abort;
use std::test::Fail as Failure;

/// Its sector, its epoch, whether it is of the disk's format, and what it holds.
type Written = (u32, u64, bool, Content);

/// A snapshot of epoch 1 with total 65,000 in which these sectors were written over, and what opening the disk answers: the
/// total and the epoch.
type Row = (
    &'static str,
    &'static [Written],
    Result<(u16, u64), StoreFault>,
);

static ROWS: [Row; 30] = [
    ("no records", &[], Ok((65_000, 2))),
    (
        "no record 2",
        &[
            (1024, 1, true, Content::Record(0, 2)),
            (1025, 1, true, Content::Record(1, 3)),
            (1027, 1, true, Content::Record(3, 4)),
        ],
        Ok((65_005, 2)),
    ),
    (
        "number 2 on record 1",
        &[
            (1024, 1, true, Content::Record(0, 2)),
            (1025, 1, true, Content::Record(2, 3)),
        ],
        Ok((65_002, 2)),
    ),
    (
        "a record of another epoch",
        &[(1024, 2, true, Content::Record(0, 2))],
        Ok((65_000, 2)),
    ),
    (
        "a part in the journal",
        &[(1024, 1, true, Content::Bytes(b'P', 0, b"\x01\x02"))],
        Ok((65_000, 2)),
    ),
    (
        "no action",
        &[(1024, 1, true, Content::Bytes(b'R', 0, b"\x63\x02"))],
        Err(StoreFault::Damaged(1024)),
    ),
    (
        "an action that is refused",
        &[
            (1024, 1, true, Content::Record(0, 255)),
            (1025, 1, true, Content::Record(1, 255)),
            (1026, 1, true, Content::Record(2, 255)),
        ],
        Err(StoreFault::Damaged(1026)),
    ),
    (
        "a record of the other format",
        &[
            (1024, 1, true, Content::Record(0, 2)),
            (1025, 1, false, Content::Record(1, 3)),
            (1026, 1, true, Content::Record(2, 4)),
        ],
        Ok((65_002, 2)),
    ),
    (
        "no action, and of the other format",
        &[(1024, 1, false, Content::Bytes(b'R', 0, b"\x63\x02"))],
        Ok((65_000, 2)),
    ),
    (
        "no part 3",
        &[(4, 0, true, Content::Zeros)],
        Err(StoreFault::Damaged(4)),
    ),
    (
        "part 3 of another epoch",
        &[(4, 3, true, Content::Part(3, 65_000))],
        Err(StoreFault::Damaged(4)),
    ),
    (
        "number 4 on part 3",
        &[(4, 1, true, Content::Part(4, 65_000))],
        Err(StoreFault::Damaged(4)),
    ),
    (
        "another counter's part 3",
        &[(4, 1, true, Content::Part(3, 0))],
        Err(StoreFault::Damaged(0)),
    ),
    (
        "part 3 a byte longer",
        &[(4, 1, true, Content::Bytes(b'P', 3, b"\xfd\xe8\0"))],
        Err(StoreFault::Damaged(0)),
    ),
    (
        "part 3 a byte shorter",
        &[(4, 1, true, Content::Bytes(b'P', 3, b"\xfd"))],
        Err(StoreFault::Damaged(0)),
    ),
    (
        "the first part a byte longer",
        &[(1, 1, true, Content::Bytes(b'P', 0, b"\xfd\xe8\0"))],
        Err(StoreFault::Damaged(0)),
    ),
    (
        "the first part a byte shorter",
        &[(1, 1, true, Content::Bytes(b'P', 0, b"\xfd"))],
        Err(StoreFault::Damaged(0)),
    ),
    (
        "a header of a part more",
        &[(0, 1, true, Content::Header(10))],
        Err(StoreFault::Damaged(10)),
    ),
    (
        "part 3 of the other format",
        &[(4, 1, false, Content::Part(3, 65_000))],
        Err(StoreFault::Damaged(4)),
    ),
    (
        "a part, then a record",
        &[
            (9, 0, true, Content::Zeros),
            (1024, 1, true, Content::Bytes(b'R', 0, b"\x63\x02")),
        ],
        Err(StoreFault::Damaged(9)),
    ),
    (
        "no header",
        &[(0, 0, true, Content::Zeros)],
        Err(StoreFault::NotFormatted),
    ),
    (
        "a header of the other format",
        &[(0, 1, false, Content::Header(9))],
        Err(StoreFault::Damaged(1)),
    ),
    (
        "a header of no format",
        &[(0, 1, true, Content::Bytes(b'h', 9, b""))],
        Err(StoreFault::NotFormatted),
    ),
    (
        "a header with a payload",
        &[(0, 1, true, Content::Bytes(b'H', 9, b"\0"))],
        Err(StoreFault::NotFormatted),
    ),
    (
        "headers in each other's place",
        &[
            (0, 2, true, Content::Header(9)),
            (512, 1, false, Content::Header(9)),
        ],
        Err(StoreFault::NotFormatted),
    ),
    (
        "a header of no parts",
        &[(0, 1, true, Content::Header(0))],
        Err(StoreFault::NotFormatted),
    ),
    (
        "a header of 495 parts",
        &[(0, 1, true, Content::Header(495))],
        Err(StoreFault::NotFormatted),
    ),
    (
        "a later header, no parts",
        &[(512, 2, false, Content::Header(9))],
        Err(StoreFault::Damaged(513)),
    ),
    (
        "a header of epoch 0",
        &[(512, 0, true, Content::Header(9))],
        Ok((65_000, 2)),
    ),
    (
        "the last epoch, damaged",
        &[(0, u64::MAX, true, Content::Header(9))],
        Err(StoreFault::EpochsSpent),
    ),
];

fn other(format: DiskFormat) -> DiskFormat {
    match format {
        DiskFormat::One => DiskFormat::Two,
        DiskFormat::Two => DiskFormat::One,
    }
}

fn put_all(
    disk: &mut MemoryDisk,
    format: DiskFormat,
    sectors: &[Written],
) -> Result<(), DiskFault> {
    for (at, epoch, is_own, content) in sectors {
        let format = if *is_own { format } else { other(format) };
        put(disk, format, *at, *epoch, *content)?;
    }
    Ok(())
}

/// Fails with the name of a row whose disk is opened with another answer.
fn expect_answers(
    rt: &impl Abort,
    alloc: Global,
    format: DiskFormat,
    rows: &[Row],
) -> Result<(), Failure> {
    for (name, sectors, due) in rows {
        let mut disk = MemoryDisk::new(alloc, 2048)?;
        put_snapshot(&mut disk, format, 0, 1, 65_000)?;
        put_all(&mut disk, format, sectors)?;
        expect_eq(rt, opened(alloc, disk).1, *due, (*name, format));
    }
    Ok(())
}

#[test]
fn what_opening_answers(rt: HostRuntime) -> Result<(), Failure> {
    for format in [DiskFormat::One, DiskFormat::Two] {
        expect_answers(&rt, rt.alloc(), format, ROWS.as_slice())?;
    }
    Ok(())
}

// A part of 480 bytes is in form, though of no counter; the length of one of 481 is not.
#[test]
fn parts_of_the_most_bytes(rt: HostRuntime) -> Result<(), Failure> {
    for (bytes, at) in [([0xfd; 480].as_slice(), 0), (&[0xfd; 481], 4)] {
        let mut disk = MemoryDisk::new(rt.alloc(), 2048)?;
        put_snapshot(&mut disk, DiskFormat::Two, 0, 1, 65_000)?;
        if 4 < disk.count() {
            disk.write(4, &sector_of(b"BD2P", 1, 3, bytes))?;
        }
        let found = opened(rt.alloc(), disk).1;
        expect_eq(&rt, found, Err(StoreFault::Damaged(at)), at);
    }
    Ok(())
}

// The sync before the first read fails; opened again, all is there.
#[test]
fn an_opening_whose_barrier_fails(rt: HostRuntime) -> Result<(), Failure> {
    let mut disk = MemoryDisk::new(rt.alloc(), 2048)?;
    put_snapshot(&mut disk, DiskFormat::Two, 0, 1, 7)?;
    let (disk, found) = opened_behind(rt.alloc(), Fuse::new(disk, 0, Fail::Once, false));
    expect_eq(&rt, found, Err(StoreFault::Disk), "first");
    let found = opened(rt.alloc(), disk).1;
    expect_eq(&rt, found, Ok((7, 2)), "second");
    Ok(())
}

// No header, a header of the last epoch, and one whose first part is missing: after so many calls no other is made.
#[test]
fn what_is_refused_is_read_no_further(rt: HostRuntime) -> Result<(), Failure> {
    for (epoch, calls, due) in [
        (0, 3, StoreFault::NotFormatted),
        (u64::MAX, 3, StoreFault::EpochsSpent),
        (1, 4, StoreFault::Damaged(1)),
    ] {
        let mut disk = MemoryDisk::new(rt.alloc(), 2048)?;
        if epoch > 0 {
            put(&mut disk, DiskFormat::One, 0, epoch, Content::Header(9))?;
        }
        let found = opened_until(rt.alloc(), disk, calls).1;
        expect_eq(&rt, found, Err(due), epoch);
    }
    Ok(())
}

// The 24th call of opening 9 parts writes the header.
#[test]
fn an_opening_that_is_stopped_ten_times(rt: HostRuntime) -> Result<(), Failure> {
    let mut disk = MemoryDisk::new(rt.alloc(), 2048)?;
    put_snapshot(&mut disk, DiskFormat::Two, 0, 1, 7)?;
    let ones = [1; 2048];
    for time in 0..10 {
        let (mut left, found) = opened_until(rt.alloc(), disk, 23);
        expect_eq(&rt, found, Err(StoreFault::Disk), time);
        left.crash(&ones);
        disk = left;
    }
    expect_eq(&rt, opened(rt.alloc(), disk).1, Ok((7, 2)), "opened");
    Ok(())
}
