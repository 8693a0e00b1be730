//! A session's store on a disk, and the bytes that stand there.
use super::expect_eq;
use super::script::{action, after, are_same, session_of};
use bridge_session::Session;
use sector_disk::{Fail as FailOf, Fuse, MemoryDisk, SectorDisk};
use session_store::{Store, StoreFault, format};
use std::alloc::Global;
use std::process::Abort;
use test_texts::TWO_TABLES;

/// A store over a disk whose calls may fail from one on.
pub type ClubStore = Store<Fuse<MemoryDisk>, Session>;

const DEAL: &str =
    "DEAL 100 1 N:AKQJT98765432... .AKQJT98765432.. ..AKQJT98765432. ...AKQJT98765432";

/// A disk of that many sectors.
pub fn blank(rt: &impl Abort, alloc: Global, sectors: u32) -> MemoryDisk {
    MemoryDisk::new(alloc, sectors).ok().expect(rt, "a disk")
}

/// A disk of 2,048 sectors with the club's opening session.
fn formatted(rt: &impl Abort, alloc: Global) -> MemoryDisk {
    let session = session_of(rt, alloc, TWO_TABLES);
    let disk = format(blank(rt, alloc, 2048), &session);
    disk.ok().expect(rt, "a formatted disk")
}

/// Four lists of what a power cut picks: what was synced, what was written first since, and two mixed ones.
pub fn picks() -> [[u32; 2048]; 4] {
    let mut lists = [[0; 2048], [1; 2048], [0; 2048], [0; 2048]];
    for i in 0..2048 {
        lists[2][i] = (i % 2) as u32;
        lists[3][i] = (i * i % 5) as u32;
    }
    lists
}

/// The store on this disk.
pub fn opened<D: SectorDisk + Drop>(rt: &impl Abort, alloc: Global, disk: D) -> Store<D, Session> {
    Store::open(alloc, disk).ok().expect(rt, "an opened store")
}

/// The store on this disk, whose calls after so many fail.
pub fn opened_for(rt: &impl Abort, alloc: Global, disk: MemoryDisk, passes: u64) -> ClubStore {
    opened(rt, alloc, Fuse::new(disk, passes, FailOf::Always, false))
}

/// The disk of a store after a power cut that picks these values.
pub fn cut(store: ClubStore, picks: &[u32]) -> MemoryDisk {
    let mut disk = store.into_disk().into_inner();
    disk.crash(picks);
    disk
}

/// Submits the actions of a text, each of which is accepted.
pub fn submit<D: SectorDisk + Drop>(rt: &impl Abort, store: &mut Store<D, Session>, text: &str) {
    for line in text.split('/') {
        expect_eq(rt, store.submit(&action(rt, line)).is_ok(), true, line);
    }
}

/// Confirms what is pending.
pub fn confirm<D: SectorDisk + Drop>(rt: &impl Abort, store: &mut Store<D, Session>) {
    expect_eq(rt, store.confirm().is_ok(), true, "confirm");
}

/// Fails where the store's session is not that after those actions, or its epoch another.
pub fn expect_state<D: SectorDisk + Drop>(
    rt: &impl Abort,
    alloc: Global,
    store: &Store<D, Session>,
    texts: &[&str],
    epoch: u64,
) {
    let due = after(rt, alloc, texts);
    expect_eq(rt, are_same(alloc, store.state(), &due), Ok(true), texts);
    expect_eq(rt, store.epoch(), epoch, texts);
}

/// The bytes of a sector, which are zeros where there is no such sector.
pub fn sector(rt: &impl Abort, disk: &mut MemoryDisk, at: u32) -> [u8; 512] {
    let mut bytes = [0; 512];
    if at < disk.count() {
        expect_eq(rt, disk.read(at, &mut bytes), Ok(()), at);
    }
    bytes
}

/// Fails where a sector has other bytes than these and zeros behind them.
pub fn expect_sector(rt: &impl Abort, disk: &mut MemoryDisk, at: u32, due: &[u8]) {
    let bytes = sector(rt, disk, at);
    expect_eq(rt, bytes.starts_with(due), true, at);
    for (index, byte) in bytes.iter().enumerate() {
        if index >= due.len() {
            expect_eq(rt, *byte, 0, at);
        }
    }
}

/// Writes a sector, if there is such a sector.
pub fn put(rt: &impl Abort, disk: &mut MemoryDisk, at: u32, bytes: &[u8; 512]) {
    if at < disk.count() {
        expect_eq(rt, disk.write(at, bytes), Ok(()), at);
    }
}

/// Fails where a disk is opened, or not for that fault.
pub fn expect_refused(rt: &impl Abort, alloc: Global, disk: MemoryDisk, due: StoreFault) {
    match Store::<MemoryDisk, Session>::open(alloc, disk) {
        Ok(_) => expect_eq(rt, None, Some(due), "opened"),
        Err((_, fault)) => expect_eq(rt, fault, due, "not opened"),
    }
}

// What stands on a disk: the header and the first part of the snapshot, and then the record of an action that follows.
#[test]
fn sectors_have_their_bytes(rt: HostRuntime) {
    let mut disk = formatted(&rt, rt.alloc());
    expect_sector(&rt, &mut disk, 0, b"BD2H\0\0\0\0\0\0\0\x01\0\0\0\x09");
    let part =
        b"BD2P\0\0\0\0\0\0\0\x01\0\0\0\0\0\x2b\x0aClub-Night\x09Town-Hall2026.03.14\0\x01\x02\x01\x01\x04\x02\0\0\0\x64\x01";
    expect_sector(&rt, &mut disk, 1, part);
    let mut store = opened(&rt, rt.alloc(), disk);
    submit(&rt, &mut store, DEAL);
    submit(&rt, &mut store, "CALL 11 1 0 7S");
    let mut disk = store.into_disk();
    let record = b"BD2R\0\0\0\0\0\0\0\x02\0\0\0\x01\0\x09\x02\0\0\0\x0b\x01\0\0\x24";
    expect_sector(&rt, &mut disk, 1025, record);
}
