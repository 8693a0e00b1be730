//! Worked rows, over a counter of 9 parts.
use super::counter::Counter;
use super::{expect_eq, formatted, open, opened, opened_until, put_records, put_snapshot};
use sector_disk::{Fail, Fuse, MemoryDisk, SectorDisk};
use session_store::{
    CheckpointFault, DiskFormat, Store, StoreFault, SubmitFault, format, read_state,
};
use std::test::Fail as Failure;

// 1 is confirmed; then 2 and 4 are pending, as records 1 and 2. A power cut loses both records, the last one, or none.
#[test]
fn pending_actions_are_there_where_their_records_are(rt: HostRuntime) -> Result<(), Failure> {
    let mut only_record_1 = [0; 1027];
    only_record_1[1025] = 1;
    for (picks, total) in [([].as_slice(), 1), (&only_record_1, 3), (&[1; 2048], 7)] {
        let disk = formatted(&rt, rt.alloc())?;
        let mut store = open(&rt, rt.alloc(), disk);
        expect_eq(&rt, store.submit(&1).is_ok(), true, "submit");
        expect_eq(&rt, store.confirm(), Ok(()), "confirm");
        expect_eq(&rt, store.submit(&2).is_ok(), true, "submit");
        expect_eq(&rt, store.submit(&4).is_ok(), true, "submit");
        let mut disk = store.into_disk();
        disk.crash(picks);
        expect_eq(&rt, opened(rt.alloc(), disk).1, Ok((total, 3)), total);
    }
    Ok(())
}

/// Takes 1 in each of 1,024 actions, confirming after each 64, and answers whether every call was Ok.
pub fn fill<D: SectorDisk + Drop>(store: &mut Store<D, Counter>) -> bool {
    for _ in 0..16 {
        for _ in 0..64 {
            if store.submit(&1).is_err() {
                return false;
            }
        }
        if store.confirm().is_err() {
            return false;
        }
    }
    true
}

// The last epoch: 1,024 actions, and then none.
#[test]
fn the_last_epoch_is_used_up(rt: HostRuntime) -> Result<(), Failure> {
    let mut disk = MemoryDisk::new(rt.alloc(), 2048)?;
    put_snapshot(&mut disk, DiskFormat::One, 512, u64::MAX - 1, 500)?;
    let mut store = open(&rt, rt.alloc(), disk);
    expect_eq(&rt, store.epoch(), u64::MAX, "epoch");
    expect_eq(&rt, fill(&mut store), true, "filled");
    expect_eq(
        &rt,
        matches!(store.submit(&1), Err(SubmitFault::EpochsSpent)),
        true,
        "submit",
    );
    expect_eq(
        &rt,
        store.checkpoint(),
        Err(CheckpointFault::EpochsSpent),
        "checkpoint",
    );
    expect_eq(&rt, store.state().total(), 1524, "total");
    expect_eq(
        &rt,
        opened(rt.alloc(), store.into_disk()).1,
        Err(StoreFault::EpochsSpent),
        "opening",
    );
    Ok(())
}

// An `open` of 9 parts makes 25 calls, and one more for each record; a `confirm` with nothing pending makes none.
#[test]
fn calls_of_the_disk_are_as_few_as_due(rt: HostRuntime) -> Result<(), Failure> {
    for (records, calls) in [(0, 25), (1, 26), (7, 32), (1023, 1048), (1024, 1048)] {
        for (short, due) in [(0, Ok((records as u16, 2))), (1, Err(StoreFault::Disk))] {
            let mut disk = formatted(&rt, rt.alloc())?;
            put_records(&mut disk, records)?;
            expect_eq(
                &rt,
                opened_until(rt.alloc(), disk, calls - short).1,
                due,
                (records, short),
            );
        }
    }
    let fuse = Fuse::new(formatted(&rt, rt.alloc())?, 25, Fail::Always, false);
    let mut store = open(&rt, rt.alloc(), fuse);
    expect_eq(&rt, store.confirm(), Ok(()), "no call");
    Ok(())
}

// A reading of 9 parts makes 12 calls and one more for each record, so that none of them is a write or a sync.
#[test]
fn a_reading_makes_as_few_calls_as_due(rt: HostRuntime) -> Result<(), Failure> {
    for (records, calls) in [(0, 12), (7, 19), (1024, 1035)] {
        for (short, due) in [(0, Ok(records as u16)), (1, Err(StoreFault::Disk))] {
            let mut disk = formatted(&rt, rt.alloc())?;
            put_records(&mut disk, records)?;
            let mut fuse = Fuse::new(disk, calls - short, Fail::Always, false);
            let found = match read_state::<Fuse<MemoryDisk>, Counter>(rt.alloc(), &mut fuse) {
                Ok(found) => Ok(found.state.total()),
                Err(fault) => Err(fault),
            };
            expect_eq(&rt, found, due, (records, short));
        }
    }
    Ok(())
}

#[test]
fn a_disk_with_a_full_journal_is_opened_and_formatted(rt: HostRuntime) -> Result<(), Failure> {
    for again in [false, true] {
        let mut disk = formatted(&rt, rt.alloc())?;
        put_records(&mut disk, 1024)?;
        if again {
            disk = format(disk, &Counter::new(9)).ok().expect(&rt, "formatted");
        }
        let mut store = open(&rt, rt.alloc(), disk);
        expect_eq(
            &rt,
            store.state().total(),
            if again { 0 } else { 1024 },
            again,
        );
        expect_eq(&rt, store.epoch(), 2, again);
        expect_eq(&rt, store.submit(&1).is_ok(), true, again);
    }
    Ok(())
}
