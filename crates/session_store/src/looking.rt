//! Looking at the state of a disk that is left as it is.
ghost use Rattle.std.specs.Prelude.{◌≡◌, ◌↔◌, ◌<◌, ◌≤◌, [], length, slice_index_or, true, Ok, Err, IfOk, IfErr, IfSome};
ghost use Rattle.sector_disk.specs.Runs.{Quiet};
ghost use Rattle.session_store.specs.Layout.{part_limit, sector_count};
ghost use Rattle.session_store.specs.Looking.{IsSeen, IsUnseen, older_header_in};
ghost use Rattle.session_store.specs.ReadFaults.{store_fault};
ghost use Rattle.session_store.specs.Stands.{header_in, recovered};

use crate::fault::ReadFault;
use crate::formatting::SECTORS;
use crate::headers::{find_header, find_older_header};
use crate::reading::Header;
use crate::recovering::recover_from;
use crate::{DiskFormat, Kept, StoreFault};
use arrayvec::ArrayVec;
use sector_disk::SectorDisk;
use std::alloc::Global;

/// What was seen on a disk: a state, and how it stands there.
#[derive(Drop)]
pub struct Reading<K: Kept> {
    /// The state that the snapshot and the records behind it make.
    pub state: K,
    /// The format of both.
    pub format: DiskFormat,
    /// Their epoch, from 1 to 2^64 - 1.
    pub epoch: u64,
    /// The sector of the snapshot's header, 0 or 512.
    pub sector: u32,
    /// How many records follow the snapshot, up to 1,024.
    pub records: u32,
}

/// Reads the snapshot of this header, if there is one, and its epoch's records.
fn read_under<D: SectorDisk, K: Kept>(
    alloc: Global,
    disk: &mut D,
    header: Option<Header>,
) -> Result<Reading<K>, ReadFault>
    requires sectors { sector_count ≤ D.disk.count disk.old }
    requires few { IfSome header (λ h. (1 ≤ h.epoch) × (h.parts ≤ part_limit)) }
    ensures quiet { Quiet D.disk disk.old disk.new }
    ensures seen { IfOk result (λ found. IsSeen K.kept D.disk (λ _. header) disk.old disk.new
        found.state found.format found.epoch found.sector found.records) }
    ensures unseen { IfErr result (λ fault. IsUnseen K.kept D.disk (λ _. header) disk.old disk.new (store_fault fault)) }
{
    let Some(header) = header else {
        return Err(ReadFault::NotFormatted);
    };
    let found = recover_from::<D, K>(alloc, disk, header)?;
    Ok(found.into_reading(header))
}

/// Reads the snapshot that counts, and its epoch's records.
fn read_newest<D: SectorDisk, K: Kept>(alloc: Global, disk: &mut D) -> Result<Reading<K>, ReadFault>
    requires { sector_count ≤ D.disk.count disk.old }
    ensures quiet { Quiet D.disk disk.old disk.new }
    ensures seen { IfOk result (λ found. IsSeen K.kept D.disk header_in disk.old disk.new
        found.state found.format found.epoch found.sector found.records) }
    ensures unseen { IfErr result (λ fault. IsUnseen K.kept D.disk header_in disk.old disk.new (store_fault fault)) }
{
    let header = find_header(disk)?;
    Ok(read_under::<D, K>(alloc, disk, header)?)
}

/// Reads the snapshot that does not count, and its epoch's records.
fn read_older<D: SectorDisk, K: Kept>(alloc: Global, disk: &mut D) -> Result<Reading<K>, ReadFault>
    requires { sector_count ≤ D.disk.count disk.old }
    ensures quiet { Quiet D.disk disk.old disk.new }
    ensures seen { IfOk result (λ found. IsSeen K.kept D.disk older_header_in disk.old disk.new
        found.state found.format found.epoch found.sector found.records) }
    ensures unseen { IfErr result (λ fault. IsUnseen K.kept D.disk older_header_in disk.old disk.new (store_fault fault)) }
{
    let header = find_older_header(disk)?;
    Ok(read_under::<D, K>(alloc, disk, header)?)
}

/// The state that a disk of either format stands for as it reads, and how it stands there; nothing is written, and the disk
/// is left as it is. `TooSmall` where it has fewer than 2,048 sectors, and then no call of it is made; `Disk` where a read
/// failed; `NotFormatted` where neither snapshot has a header; `Damaged` with the first sector that is out of form or does not
/// fit; `NoMemory` where it is out of memory, for which only a disk with a header asks. The last epoch is read as any other.
pub fn read_state<D: SectorDisk, K: Kept>(
    alloc: Global,
    disk: &mut D,
) -> Result<Reading<K>, StoreFault>
    ensures too_small { D.disk.count disk.old < sector_count → (result ≡ Err StoreFault.TooSmall) × (disk.new ≡ disk.old) }
    ensures state { D.disk.honest disk.old → IfOk result (λ found.
        recovered K.kept (D.disk.reads disk.old) ≡ Ok found.state) }
    ensures seen { IfOk result (λ found. IsSeen K.kept D.disk header_in disk.old disk.new
        found.state found.format found.epoch found.sector found.records) }
    ensures unseen { sector_count ≤ D.disk.count disk.old
        → IfErr result (IsUnseen K.kept D.disk header_in disk.old disk.new) }
    ensures quiet { Quiet D.disk disk.old disk.new }
{
    if disk.count() < SECTORS {
        return Err(StoreFault::TooSmall);
    }
    match read_newest::<D, K>(alloc, disk) {
        Ok(found) => Ok(found),
        Err(fault) => Err(StoreFault::from(fault)),
    }
}

/// The state of the older of a disk's two snapshots and of the records of its epoch that are still there, and how it stands
/// there; nothing is written, and the disk is left as it is. The faults are those of `read_state`, but that it is
/// `NotFormatted` where there are not two headers.
pub fn read_older_state<D: SectorDisk, K: Kept>(
    alloc: Global,
    disk: &mut D,
) -> Result<Reading<K>, StoreFault>
    ensures too_small { D.disk.count disk.old < sector_count → (result ≡ Err StoreFault.TooSmall) × (disk.new ≡ disk.old) }
    ensures seen { IfOk result (λ found. IsSeen K.kept D.disk older_header_in disk.old disk.new
        found.state found.format found.epoch found.sector found.records) }
    ensures unseen { sector_count ≤ D.disk.count disk.old
        → IfErr result (IsUnseen K.kept D.disk older_header_in disk.old disk.new) }
    ensures quiet { Quiet D.disk disk.old disk.new }
{
    if disk.count() < SECTORS {
        return Err(StoreFault::TooSmall);
    }
    match read_older::<D, K>(alloc, disk) {
        Ok(found) => Ok(found),
        Err(fault) => Err(StoreFault::from(fault)),
    }
}

/// Whether two states have an equal part `i`.
fn has_same_part<K: Kept>(left: &K, right: &K, i: u32) -> bool
    requires left { i < length (K.kept.parts left.now) }
    requires right { i < length (K.kept.parts right.now) }
    ensures { (result ≡ true) ↔ (slice_index_or (K.kept.parts left.now) i [] ≡ slice_index_or (K.kept.parts right.now) i []) }
{
    let mut ours = ArrayVec::new();
    let mut theirs = ArrayVec::new();
    left.write_part(i, &mut ours);
    right.write_part(i, &mut theirs);
    ours.as_slice() == theirs.as_slice()
}

/// Whether two states are equal.
pub fn is_same_state<K: Kept>(left: &K, right: &K) -> bool
    ensures { (result ≡ true) ↔ (left.now ≡ right.now) }
{
    let count = left.parts();
    if right.parts() != count {
        return false;
    }
    for i in 0..count {
        if !has_same_part(left, right, i) {
            return false;
        }
    }
    true
}
