//! Lines served over a disk in memory, of which one call may find no memory.
use super::club::{COUNT, QUESTION, opening};
use super::outcome::{Outcome, Refusals, room};
use bridge_endings::Cache;
use bridge_session::Session;
use sector_disk::{DiskFault, MemoryDisk, SectorDisk};
use session_store::{Store, StoreFault, format, is_same_state};
use std::alloc::Global;
use table_server::{Asked, asked_by, serve};
use test_texts::SEVEN_TRICKS;

type ClubStore = Store<MemoryDisk, Session>;

/// A disk with the opening session. It was never written but where its snapshot is: what is written next takes memory.
pub fn formatted(alloc: Global) -> Outcome<MemoryDisk> {
    let session = opening(alloc, &mut Refusals::default())?;
    let disk = MemoryDisk::new(alloc, 2048).or(Err("a disk"))?;
    let mut made = format(disk, &session).or(Err("format"))?;
    let mut disk = MemoryDisk::new(alloc, 2048).or(Err("a disk"))?;
    copy(&mut made, &mut disk).or(Err("a copy"))?;
    Ok(disk)
}

/// Copies the sectors of the snapshot, and syncs them.
fn copy(made: &mut MemoryDisk, disk: &mut MemoryDisk) -> Result<(), DiskFault> {
    let mut bytes = [0; 512];
    for sector in 0..48 {
        if sector < made.count() && sector < disk.count() {
            made.read(sector, &mut bytes)?;
            disk.write(sector, &bytes)?;
        }
    }
    disk.sync()
}

/// Whatever is refused, no action that was answered is lost, and once all lines were sent again the session is theirs.
pub fn play(alloc: Global, disk: MemoryDisk, refusals: &mut Refusals) -> Outcome {
    let mut store = opened(alloc, disk, refusals)?;
    let confirmed = serve_lines(alloc, &mut store, refusals)?;
    let mut store = opened_after_cut(alloc, store, refusals)?;
    if !is_after_some(alloc, store.state(), confirmed, refusals)? {
        return Err("an action that was answered is lost");
    }
    serve_lines(alloc, &mut store, refusals)?;
    solve_one(alloc, &mut store, refusals)?;
    let store = opened_after_cut(alloc, store, refusals)?;
    if is_after_some(alloc, store.state(), COUNT, refusals)? {
        Ok(())
    } else {
        Err("the session is not that of the lines")
    }
}

/// The sectors that a store of this session writes: its snapshots and the first of its journal.
static WRITTEN: [u32; 3] = [0, 512, 1024];

/// The sum of their bytes, each with its place.
fn weight(disk: &mut MemoryDisk) -> u64 {
    let mut sum: u64 = 0;
    let mut bytes = [0; 512];
    for first in &WRITTEN {
        for at in 0..48 {
            let sector = first.saturating_add(at);
            if sector < disk.count() && disk.read(sector, &mut bytes).is_ok() {
                for byte in &bytes {
                    sum = sum.wrapping_mul(31).wrapping_add(u64::from(*byte));
                }
            }
        }
    }
    sum
}

/// The store on this disk. Where memory is refused nothing was written.
fn opened(alloc: Global, mut disk: MemoryDisk, refusals: &mut Refusals) -> Outcome<ClubStore> {
    let before = weight(&mut disk);
    match Store::open(alloc, disk) {
        Ok(store) => Ok(store),
        Err((mut disk, fault)) => {
            match fault {
                StoreFault::NoMemory if weight(&mut disk) == before => refusals.note("an opening"),
                StoreFault::Disk => refusals.note("a call of an opening"),
                _ => return Err("a fault of an opening"),
            }
            disk.crash(&[]);
            Store::open(alloc, disk).or(Err("an opening, once more"))
        }
    }
}

/// The store on the disk of this one, after a power cut that leaves what was synced.
fn opened_after_cut(
    alloc: Global,
    store: ClubStore,
    refusals: &mut Refusals,
) -> Outcome<ClubStore> {
    let mut disk = store.into_disk();
    disk.crash(&[]);
    opened(alloc, disk, refusals)
}

/// How many replies stand before a fault of the disk.
fn confirmed_in(replies: &str) -> usize {
    let mut confirmed: usize = 0;
    for reply in replies.lines() {
        if reply == "ERR 40 Disk" {
            break;
        }
        if !reply.is_empty() {
            confirmed = confirmed.saturating_add(1);
        }
    }
    confirmed
}

/// Serves the lines; how many were answered before a fault of the disk. Those of an earlier run are refused.
fn serve_lines(alloc: Global, store: &mut ClubStore, refusals: &mut Refusals) -> Outcome<usize> {
    let mut written = room(alloc, refusals)?;
    let mut lines = SEVEN_TRICKS.as_bytes();
    let _ = store.confirm();
    let served = serve(store, None, &mut lines, &mut written).or(Err("a fault of a stream"))?;
    let confirmed = confirmed_in(str::from_utf8(written.as_slice()).unwrap_or(""));
    if served.failed {
        refusals.note("a call of serve");
        Ok(confirmed)
    } else if confirmed == COUNT {
        Ok(COUNT)
    } else {
        Err("a reply is lacking")
    }
}

/// Has an ending solved with a cache that could not be made, or could not keep it: the reply is the same.
fn solve_one(alloc: Global, store: &mut ClubStore, refusals: &mut Refusals) -> Outcome {
    let mut cache = Cache::new(alloc, 16).ok();
    if cache.is_none() {
        refusals.note("a cache to serve with");
    }
    let (mut line, reply) = QUESTION;
    let mut written = room(alloc, refusals)?;
    let _ = store.confirm();
    serve(store, cache.as_mut(), &mut line, &mut written).or(Err("a fault of a stream"))?;
    if written.as_slice() == reply {
        Ok(())
    } else {
        Err("the reply to SOLVE")
    }
}

/// Whether the session is what at least so many of the lines, from the first on, make of the opening one.
fn is_after_some(
    alloc: Global,
    session: &Session,
    least: usize,
    refusals: &mut Refusals,
) -> Outcome<bool> {
    let mut twin = opening(alloc, refusals)?;
    let mut is_found = false;
    let mut taken: usize = 0;
    for line in SEVEN_TRICKS.lines() {
        is_found = is_found || taken >= least && is_same_state(&twin, session);
        if let Asked::Change(action) = asked_by(line.as_bytes()) {
            twin.step(&action).or(Err("a line is refused"))?;
        }
        taken = taken.saturating_add(1);
    }
    Ok(is_found || is_same_state(&twin, session))
}
