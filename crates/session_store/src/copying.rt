//! Bringing the state of a store to a second disk.
ghost use Rattle.std.specs.Prelude.{◌≡◌, ◌≢◌, ◌<◌, ◌≤◌, [], false, IfOk, IfErr, OnOk};
ghost use Rattle.sector_disk.specs.Disk.{Rose};
ghost use Rattle.sector_disk.specs.Runs.{Quiet};
ghost use Rattle.session_store.specs.Copying.{BeginsCopy, CannotPrepare, GoesOn};
ghost use Rattle.session_store.specs.Epochs.{epoch_in};
ghost use Rattle.session_store.specs.Form.{place};
ghost use Rattle.session_store.specs.Layout.{sector_count};
ghost use Rattle.session_store.specs.Opening.{IsOnly};
ghost use Rattle.session_store.specs.Store.{Continues};

use crate::headers::find_header;
use crate::opening::raise_barrier;
use crate::room::copy_state;
use crate::snapshot::{place_of, write_snapshot};
use crate::{Kept, Store, StoreFault};
use arrayvec::ArrayVec;
use sector_disk::{DiskFault, SectorDisk};
use std::alloc::Global;

/// Brings all that was written before to the device, and reads the epoch of the header that counts, or 0 where none does.
pub(crate) fn settle_epoch<D: SectorDisk>(disk: &mut D) -> Result<u64, DiskFault>
    requires { sector_count ≤ D.disk.count disk.old }
    ensures quiet { Quiet D.disk disk.old disk.new }
    ensures fault { IfErr result (λ _. Rose (D.disk.faults disk.old) (D.disk.faults disk.new)) }
    ensures no_fault { OnOk result (D.disk.faults disk.new ≡ D.disk.faults disk.old) }
    ensures epoch { D.disk.honest disk.old → IfOk result (λ epoch. epoch ≡ epoch_in (D.disk.reads disk.old)) }
    ensures settled { D.disk.honest disk.old → OnOk result (IsOnly (D.disk.may_leave disk.new) (D.disk.reads disk.old)) }
{
    raise_barrier(disk)?;
    match find_header(disk)? {
        None => Ok(0),
        Some(header) => Ok(header.epoch),
    }
}

/// Goes on in the next epoch where the store's snapshot stands in the place of this epoch's.
fn move_apart<D: SectorDisk + Drop, K: Kept>(
    store: &mut Store<D, K>,
    epoch: u64,
) -> Result<(), StoreFault>
    ensures continues { Continues K.kept D.disk store.old [] store.new }
    ensures apart { OnOk result (place store.new.epoch ≢ place epoch) }
    ensures same { OnOk result ((store.new.failed ≡ store.old.failed) × (store.new.state ≡ store.old.state)) }
    ensures goes_on { OnOk result (GoesOn D.disk store.old store.new) }
    ensures fault { store.old.failed ≡ false → IfErr result (CannotPrepare D.disk store.old store.new) }
{
    if place_of(store.epoch()) != place_of(epoch) {
        return Ok(());
    }
    match store.checkpoint() {
        Ok(()) => Ok(()),
        Err(fault) => Err(StoreFault::from(fault)),
    }
}

/// Makes ready for a copy of a store on a disk of this epoch: its state twice, and an epoch whose snapshot has another place
/// there. All memory is taken before anything is written.
pub(crate) fn prepare_copy<D: SectorDisk + Drop, K: Kept>(
    alloc: Global,
    store: &mut Store<D, K>,
    epoch: u64,
) -> Result<(K, K), StoreFault>
    ensures continues { Continues K.kept D.disk store.old [] store.new }
    ensures apart { OnOk result (place store.new.epoch ≢ place epoch) }
    ensures same { OnOk result ((store.new.failed ≡ store.old.failed) × (store.new.state ≡ store.old.state)) }
    ensures goes_on { OnOk result (GoesOn D.disk store.old store.new) }
    ensures fault { store.old.failed ≡ false → IfErr result (CannotPrepare D.disk store.old store.new) }
    ensures states { IfOk result (λ both. (both.0 ≡ store.new.state) × (both.1 ≡ store.new.state)) }
{
    let Ok(base) = copy_state(alloc, store.state()) else {
        return Err(StoreFault::NoMemory);
    };
    let Ok(state) = copy_state(alloc, store.state()) else {
        return Err(StoreFault::NoMemory);
    };
    move_apart(store, epoch)?;
    Ok((base, state))
}

/// A store of this state on this disk, at the beginning of this epoch, of which the snapshot is written there. It has failed
/// where a call of the disk failed.
pub(crate) fn begin_copy<D: SectorDisk + Drop, K: Kept>(
    mut disk: D,
    epoch: u64,
    base: K,
    state: K,
) -> Store<D, K>
    requires sectors { sector_count ≤ D.disk.count disk }
    requires some_epoch { 1 ≤ epoch }
    requires same { base ≡ state }
    ensures { BeginsCopy K.kept D.disk disk epoch state result }
{
    match write_snapshot(&mut disk, epoch, &state) {
        Ok(()) => Store {
            disk,
            base,
            state,
            pending: ArrayVec::new(),
            epoch,
            records: 0,
            failed: false,
        },
        Err(_) => Store {
            disk,
            base,
            state,
            pending: ArrayVec::new(),
            epoch,
            records: 0,
            failed: true,
        },
    }
}
