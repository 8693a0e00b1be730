//! A disk of the first format, and what opening it makes of it.
use super::disk::{
    blank, confirm, cut, expect_refused, expect_sector, expect_state, opened, opened_for, picks,
    put, sector, submit,
};
use super::expect_eq;
use bridge_session::Session;
use sector_disk::{Fail as FailOf, Fuse, MemoryDisk, SectorDisk};
use session_store::{Store, StoreFault};
use std::alloc::Global;
use std::process::Abort;

/// The actions that are on the disk. The last one's record is the only one of its epoch.
const TAKEN: &str =
    "DEAL 100 1 N:AKQJT98765432... .AKQJT98765432.. ..AKQJT98765432. ...AKQJT98765432/CALL 11 1 0 7S/VOID 100 1 2 1/CALL 31 1 1 PASS";

/// The sectors that are not zeros: the number of each, and its bytes up to the last that is not 0. The program wrote them as
/// it stood before the second format: `format` with examples/rows.txt, `script` with the first three actions, and `script`
/// with the last one.
static SECTORS: [(u32, &[u8]); 23] = [
    (0, b"BD1H\0\0\0\0\0\0\0\x03\0\0\0\x09"),
    (
        1,
        b"BD1P\0\0\0\0\0\0\0\x03\0\0\0\0\0\x2b\x0aClub-Night\x09Town-Hall2026.03.14\0\x01\x02\x01\x01\x04\x02\0\0\0\x64\x01",
    ),
    (
        2,
        b"BD1P\0\0\0\0\0\0\0\x03\0\0\0\x01\0\x06\x01\x03\x01\x02\x04\x01",
    ),
    (
        3,
        b"BD1P\0\0\0\0\0\0\0\x03\0\0\0\x02\0\x10\x03Ann\0\0\0\x0b\x03Bob\0\0\0\x0c",
    ),
    (
        4,
        b"BD1P\0\0\0\0\0\0\0\x03\0\0\0\x03\0\x10\x03Cat\0\0\0\x15\x03Dan\0\0\0\x16",
    ),
    (
        5,
        b"BD1P\0\0\0\0\0\0\0\x03\0\0\0\x04\0\x10\x03Eve\0\0\0\x1f\x03Fay\0\0\0\x20",
    ),
    (
        6,
        b"BD1P\0\0\0\0\0\0\0\x03\0\0\0\x05\0\x10\x03Gus\0\0\0\x29\x03Hal\0\0\0\x2a",
    ),
    (
        7,
        b"BD1P\0\0\0\0\0\0\0\x03\0\0\0\x06\0\x21\x01\0\x0f\xff\x80\0\0\0\0\0\0\0\x7f\xfc\0\0\0\0\0\0\0\x03\xff\xe0\0\0\0\0\0\0\0\x1f\xff",
    ),
    (8, b"BD1P\0\0\0\0\0\0\0\x03\0\0\0\x07\0\x07\0\x01\x24"),
    (9, b"BD1P\0\0\0\0\0\0\0\x03\0\0\0\x08\0\x06\0\0\0\0\0\x02"),
    (512, b"BD1H\0\0\0\0\0\0\0\x02\0\0\0\x09"),
    (
        513,
        b"BD1P\0\0\0\0\0\0\0\x02\0\0\0\0\0\x2b\x0aClub-Night\x09Town-Hall2026.03.14\0\x01\x02\x01\x01\x04\x02\0\0\0\x64\x01",
    ),
    (
        514,
        b"BD1P\0\0\0\0\0\0\0\x02\0\0\0\x01\0\x06\x01\x03\x01\x02\x04\x01",
    ),
    (
        515,
        b"BD1P\0\0\0\0\0\0\0\x02\0\0\0\x02\0\x10\x03Ann\0\0\0\x0b\x03Bob\0\0\0\x0c",
    ),
    (
        516,
        b"BD1P\0\0\0\0\0\0\0\x02\0\0\0\x03\0\x10\x03Cat\0\0\0\x15\x03Dan\0\0\0\x16",
    ),
    (
        517,
        b"BD1P\0\0\0\0\0\0\0\x02\0\0\0\x04\0\x10\x03Eve\0\0\0\x1f\x03Fay\0\0\0\x20",
    ),
    (
        518,
        b"BD1P\0\0\0\0\0\0\0\x02\0\0\0\x05\0\x10\x03Gus\0\0\0\x29\x03Hal\0\0\0\x2a",
    ),
    (519, b"BD1P\0\0\0\0\0\0\0\x02\0\0\0\x06\0\x01"),
    (520, b"BD1P\0\0\0\0\0\0\0\x02\0\0\0\x07\0\x06"),
    (521, b"BD1P\0\0\0\0\0\0\0\x02\0\0\0\x08\0\x06"),
    (
        1024,
        b"BD1R\0\0\0\0\0\0\0\x03\0\0\0\0\0\x09\x02\0\0\0\x1f\x01\0\x01",
    ),
    (
        1025,
        b"BD1R\0\0\0\0\0\0\0\x02\0\0\0\x01\0\x09\x02\0\0\0\x0b\x01\0\0\x24",
    ),
    (
        1026,
        b"BD1R\0\0\0\0\0\0\0\x02\0\0\0\x02\0\x08\x09\0\0\0\x64\x01\x02\x01",
    ),
];

/// The calls of the disk in which it is opened: a sync, two headers, nine parts and two records, nine parts, a sync, the
/// header and a sync.
const OPENING_CALLS: u64 = 26;

/// Those before the header is written.
const CALLS_BEFORE_HEADER: u64 = 24;

/// The disk of those sectors, synced.
fn old_disk(rt: &impl Abort, alloc: Global) -> MemoryDisk {
    let mut disk = blank(rt, alloc, 2048);
    for (at, written) in &SECTORS {
        put(rt, &mut disk, *at, &padded(written));
    }
    expect_eq(rt, disk.sync(), Ok(()), "the disk");
    disk
}

/// A sector of these bytes and zeros behind them.
fn padded(written: &[u8]) -> [u8; 512] {
    let mut bytes = [0; 512];
    for (index, byte) in bytes.iter_mut().enumerate() {
        if let Some(value) = written.get(index) {
            *byte = *value;
        }
    }
    bytes
}

/// The header and the parts of the plays, once the disk was opened.
static OPENED: [(u32, &[u8]); 3] = [
    (512, b"BD2H\0\0\0\0\0\0\0\x04\0\0\0\x09"),
    (
        520,
        b"BD2P\0\0\0\0\0\0\0\x04\0\0\0\x07\0\x0a\0\x02\x24\0\0\0\0\0\0\0",
    ),
    (
        521,
        b"BD2P\0\0\0\0\0\0\0\x04\0\0\0\x08\0\x08\0\0\0\0\0\x02\0\0",
    ),
];

// Epoch 4 in the second snapshot. In parts 7 and 8, of the plays, a ruling has three bytes.
#[test]
fn an_old_disk_is_opened(rt: HostRuntime) {
    let disk = old_disk(&rt, rt.alloc());
    let store = opened_for(&rt, rt.alloc(), disk, OPENING_CALLS);
    expect_state(&rt, rt.alloc(), &store, &[TAKEN], 4);
    let mut disk = store.into_disk().into_inner();
    for (at, due) in &OPENED {
        expect_sector(&rt, &mut disk, *at, due);
    }
}

/// The disk after an opening that fails from one call on, and a power cut.
fn stopped(rt: &impl Abort, alloc: Global, passes: u64, effect: bool, picks: &[u32]) -> MemoryDisk {
    let fuse = Fuse::new(old_disk(rt, alloc), passes, FailOf::Always, effect);
    let (left, fault) = match Store::<Fuse<MemoryDisk>, Session>::open(alloc, fuse) {
        Ok(store) => (store.into_disk(), None),
        Err((left, fault)) => (left, Some(fault)),
    };
    expect_eq(rt, fault, Some(StoreFault::Disk), passes);
    let mut disk = left.into_inner();
    disk.crash(picks);
    disk
}

/// Part 8 in the snapshot of epoch 5, and in that of epoch 6.
static PARTS: [(u32, &[u8]); 2] = [
    (
        9,
        b"BD2P\0\0\0\0\0\0\0\x05\0\0\0\x08\0\x08\0\0\0\0\0\x02\0\0",
    ),
    (
        521,
        b"BD2P\0\0\0\0\0\0\0\x06\0\0\0\x08\0\x08\0\0\0\0\0\x02\0\0",
    ),
];

/// Opens twice what a stopped opening leaves, and fails where it is another session, or not of the second format then. The
/// header of epoch 4 may be there once it was written.
fn open_twice(rt: &impl Abort, alloc: Global, passes: u64, disk: MemoryDisk) {
    let store = opened(rt, alloc, disk);
    let epoch = store.epoch();
    let is_due = epoch == 4 || (epoch == 5 && passes >= CALLS_BEFORE_HEADER);
    expect_eq(rt, is_due, true, passes);
    expect_state(rt, alloc, &store, &[TAKEN], epoch);
    let store = opened(rt, alloc, store.into_disk());
    expect_state(rt, alloc, &store, &[TAKEN], epoch.saturating_add(1));
    let (at, due) = if epoch == 4 { PARTS[0] } else { PARTS[1] };
    expect_sector(rt, &mut store.into_disk(), at, due);
}

#[test]
fn an_opening_that_is_stopped(rt: HostRuntime) {
    let alloc = rt.alloc();
    for passes in 0..OPENING_CALLS {
        for picks in &picks() {
            let disk = stopped(&rt, alloc, passes, false, picks);
            open_twice(&rt, alloc, passes, disk);
            let disk = stopped(&rt, alloc, passes, true, picks);
            open_twice(&rt, alloc, passes, disk);
        }
    }
}

// The call is record 0 of its epoch, and stands where the last action of the first format stood.
#[test]
fn a_call_on_an_old_disk(rt: HostRuntime) {
    for picks in &picks() {
        let disk = old_disk(&rt, rt.alloc());
        let mut store = opened_for(&rt, rt.alloc(), disk, u64::MAX);
        submit(&rt, &mut store, "CALL 12 1 2 PASS");
        confirm(&rt, &mut store);
        let mut disk = cut(store, picks);
        let record = b"BD2R\0\0\0\0\0\0\0\x04\0\0\0\0\0\x09\x02\0\0\0\x0c\x01\0\x02";
        expect_sector(&rt, &mut disk, 1024, record);
        let store = opened_for(&rt, rt.alloc(), disk, u64::MAX);
        expect_state(&rt, rt.alloc(), &store, &[TAKEN, "CALL 12 1 2 PASS"], 5);
    }
}

// A ruling of the second format alone.
#[test]
fn averages_on_an_old_disk(rt: HostRuntime) {
    let made = "ADJUST 100 1 2 1 60 40";
    for picks in &picks() {
        let disk = old_disk(&rt, rt.alloc());
        let mut store = opened_for(&rt, rt.alloc(), disk, u64::MAX);
        submit(&rt, &mut store, made);
        confirm(&rt, &mut store);
        let store = opened_for(&rt, rt.alloc(), cut(store, picks), u64::MAX);
        expect_state(&rt, rt.alloc(), &store, &[TAKEN, made], 5);
        let due = b"BD2P\0\0\0\0\0\0\0\x05\0\0\0\x08\0\x08\0\0\0\0\0\x03\x3c\x28";
        expect_sector(&rt, &mut store.into_disk().into_inner(), 9, due);
    }
}

#[test]
fn a_part_with_the_mark_of_the_second_format(rt: HostRuntime) {
    let mut disk = old_disk(&rt, rt.alloc());
    let mut bytes = sector(&rt, &mut disk, 9);
    bytes[2] = b'2';
    put(&rt, &mut disk, 9, &bytes);
    expect_refused(&rt, rt.alloc(), disk, StoreFault::Damaged(9));
}
