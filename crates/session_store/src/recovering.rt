//! Reading the state that a disk stands for.
ghost use Rattle.std.specs.Prelude.{◌≡◌, ◌<◌, ◌≤◌, ◌+◌, ◌-◌, ◌^◌, Err, IfErr, IfOk, Ok, OnOk};
ghost use Rattle.sector_disk.specs.Runs.{Quiet};
ghost use Rattle.session_store.specs.Form.{place};
ghost use Rattle.session_store.specs.Layout.{part_limit, sector_count};
ghost use Rattle.session_store.specs.Looking.{CountsRecords};
ghost use Rattle.session_store.specs.Opening.{Begins, Causes, IsRead, IsUnread};
ghost use Rattle.session_store.specs.ReadFaults.{store_fault};
ghost use Rattle.session_store.specs.Snapshot.{WritesSnapshot};
ghost use Rattle.session_store.specs.Stands.{after_snapshot};

use crate::fault::ReadFault;
use crate::headers::find_header;
use crate::looking::Reading;
use crate::parts::read_parts;
use crate::reading::Header;
use crate::replaying::replay_records;
use crate::room::{make_states, room_for_parts};
use crate::snapshot::{place_of, write_snapshot};
use crate::{Kept, Store};
use arrayvec::ArrayVec;
use sector_disk::{DiskFault, SectorDisk};
use std::alloc::Global;

/// What was read of a disk: its epoch, its state twice, and the number of the epoch's records.
#[derive(Drop)]
pub(crate) struct Recovered<K: Kept> {
    epoch: u64,
    base: K,
    state: K,
    records: u32,
}

/// Reads the state of this header's parts and of its epoch's records. All memory is taken before the first record is read.
pub(crate) fn recover_from<D: SectorDisk, K: Kept>(
    alloc: Global,
    disk: &mut D,
    header: Header,
) -> Result<Recovered<K>, ReadFault>
    requires sectors { sector_count ≤ D.disk.count disk.old }
    requires few { header.parts ≤ part_limit }
    ensures quiet { Quiet D.disk disk.old disk.new }
    ensures no_fault { OnOk result (D.disk.faults disk.new ≡ D.disk.faults disk.old) }
    ensures found { D.disk.honest disk.old → IfOk result (λ found. after_snapshot K.kept (D.disk.reads disk.old) header ≡ Ok found.state) }
    ensures epoch { IfOk result (λ found. (found.epoch ≡ header.epoch) × (found.base ≡ found.state)) }
    ensures counted { D.disk.honest disk.old → IfOk result (λ found.
        CountsRecords K.kept header.format (D.disk.reads disk.old) header.epoch found.records) }
    ensures fault { IfErr result (λ fault. Causes D.disk disk.old disk.new (after_snapshot K.kept (D.disk.reads disk.old) header) (store_fault fault)) }
{
    let room = room_for_parts(alloc, header.parts)?;
    let parts = read_parts(disk, header, room)?;
    let Some((mut base, mut state)) = make_states::<K>(alloc, header.format, parts.as_slice())?
    else {
        return Err(ReadFault::Damaged(place_of(header.epoch)));
    };
    let records = replay_records(disk, header.format, header.epoch, &mut base, &mut state)?;
    Ok(Recovered {
        epoch: header.epoch,
        base,
        state,
        records,
    })
}

/// Reads the state that the disk stands for.
pub(crate) fn recover<D: SectorDisk, K: Kept>(
    alloc: Global,
    disk: &mut D,
) -> Result<Recovered<K>, ReadFault>
    requires { sector_count ≤ D.disk.count disk.old }
    ensures quiet { Quiet D.disk disk.old disk.new }
    ensures read { IfOk result (λ found. IsRead K.kept D.disk disk.old disk.new found.epoch found.base found.state) }
    ensures unread { IfErr result (λ fault. IsUnread K.kept D.disk disk.old disk.new (store_fault fault)) }
{
    let Some(header) = find_header(disk)? else {
        return Err(ReadFault::NotFormatted);
    };
    if header.epoch == u64::MAX {
        return Err(ReadFault::EpochsSpent);
    }
    Ok(recover_from::<D, K>(alloc, disk, header)?)
}

impl<K: Kept> Recovered<K> {
    /// The state that was read, under this header, and what stands there of it.
    pub(crate) fn into_reading(self, header: Header) -> Reading<K>
        ensures state { result.state ≡ self.state }
        ensures format { result.format ≡ header.format }
        ensures epoch { result.epoch ≡ header.epoch }
        ensures sector { result.sector ≡ place header.epoch }
        ensures records { result.records ≡ self.records }
    {
        let Recovered { state, records, .. } = self;
        let Header { format, epoch, .. } = header;
        let sector = place_of(epoch);
        Reading {
            state,
            format,
            epoch,
            sector,
            records,
        }
    }

    /// Writes the snapshot of the next epoch, and begins a store there. It has no error of memory to give.
    pub(crate) fn begin<D: SectorDisk + Drop>(
        self,
        mut disk: D,
    ) -> Result<Store<D, K>, (D, DiskFault)>
        requires sectors { sector_count ≤ D.disk.count disk }
        requires more { self.epoch < 2 ^ 64 - 1 }
        requires same { self.base ≡ self.state }
        ensures begins { IfOk result (Begins K.kept D.disk disk (self.epoch + 1) self.state) }
        ensures fault { IfErr result (λ e. WritesSnapshot K.kept D.disk disk e.0 (self.epoch + 1) self.state (Err e.1)) }
    {
        let Recovered {
            epoch,
            base,
            state,
            ..
        } = self;
        match write_snapshot(&mut disk, epoch + 1, &state) {
            Err(fault) => Err((disk, fault)),
            Ok(()) => Ok(Store {
                disk,
                base,
                state,
                pending: ArrayVec::new(),
                epoch: epoch + 1,
                records: 0,
                failed: false,
            }),
        }
    }
}
