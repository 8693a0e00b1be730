//! A fault and a power cut at each of the last calls of formatting.
use super::counter::Counter;
use super::faults::{FUSES, picks};
use super::{expect_eq, opened, put_records, put_snapshot};
use sector_disk::{Fuse, MemoryDisk, SectorDisk};
use session_store::{DiskFormat, StoreFault, format};
use std::alloc::Global;
use std::test::Fail as Failure;

/// A disk with another counter: total 500, and three records that add 1.
fn held_disk(alloc: Global) -> Result<MemoryDisk, Failure> {
    let mut disk = MemoryDisk::new(alloc, 2048)?;
    put_snapshot(&mut disk, DiskFormat::Two, 0, 1, 500)?;
    put_records(&mut disk, 3)?;
    disk.sync()?;
    Ok(disk)
}

// Formatting 9 parts makes 2,061 calls: 2,048 writes and a sync that clear the disk, the parts and a sync, the header and a
// sync. Once the disk is cleared a power cut leaves the new counter, or none, and never the one before.
#[test]
fn a_fault_at_each_of_the_last_calls_over_a_state(rt: HostRuntime) -> Result<(), Failure> {
    let lists = picks();
    for calls in 2048..2062 {
        for (fail, effect) in FUSES {
            for picks in &lists {
                let row = (calls, fail, effect);
                let fuse = Fuse::new(held_disk(rt.alloc())?, calls, fail, effect);
                let (is_done, fuse) = match format(fuse, &Counter::new(9)) {
                    Ok(fuse) => (true, fuse),
                    Err((fuse, fault)) => {
                        expect_eq(&rt, fault, StoreFault::Disk, row);
                        (false, fuse)
                    }
                };
                expect_eq(&rt, is_done, calls == 2061, row);
                let mut disk = fuse.into_inner();
                disk.crash(picks);
                let is_written = calls == 2059 && effect || calls == 2060;
                let has_header = calls == 2061
                    || calls == 2060 && effect
                    || is_written && picks[0] % 2 == 1;
                let due = if has_header {
                    Ok((0, 2))
                } else {
                    Err(StoreFault::NotFormatted)
                };
                if calls > 2048 || effect {
                    expect_eq(&rt, opened(rt.alloc(), disk).1, due, row);
                }
            }
        }
    }
    Ok(())
}
