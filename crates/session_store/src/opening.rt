//! Opening a store.
ghost use Rattle.std.specs.Prelude.{◌≡◌, ◌≢◌, ◌<◌, ◌≤◌, Err, IfErr, IfOk, OnOk};
ghost use Rattle.sector_disk.specs.Calls.{Called, Syncs};
ghost use Rattle.sector_disk.specs.Runs.{Quiet};
ghost use Rattle.session_store.specs.Layout.{sector_count};
ghost use Rattle.session_store.specs.Opening.{IsOnly, IsRead, IsUnread, Opens, Refuses};
ghost use Rattle.session_store.specs.ReadFaults.{store_fault};

use crate::fault::ReadFault;
use crate::formatting::SECTORS;
use crate::recovering::{Recovered, recover};
use crate::{Kept, Store, StoreFault};
use sector_disk::{DiskFault, SectorDisk};
use std::alloc::Global;

/// Brings all that was written before to the device: a barrier, without which a power cut could still lose what is read then.
pub(crate) fn raise_barrier<D: SectorDisk>(disk: &mut D) -> Result<(), DiskFault>
    ensures called { Called D.disk disk.old disk.new result }
    ensures syncs { D.disk.honest disk.old → Syncs D.disk disk.old disk.new result }
{
    disk.sync()
}

/// Brings all that was written before to the device, and reads the state that the disk stands for.
fn recover_behind_barrier<D: SectorDisk, K: Kept>(
    alloc: Global,
    disk: &mut D,
) -> Result<Recovered<K>, ReadFault>
    requires { sector_count ≤ D.disk.count disk.old }
    ensures quiet { Quiet D.disk disk.old disk.new }
    ensures read { IfOk result (λ found. IsRead K.kept D.disk disk.old disk.new found.epoch found.base found.state) }
    ensures settled { D.disk.honest disk.old → OnOk result (IsOnly (D.disk.may_leave disk.new) (D.disk.reads disk.old)) }
    ensures unread { IfErr result (λ fault. IsUnread K.kept D.disk disk.old disk.new (store_fault fault)) }
    ensures at_rest { D.disk.honest disk.old → IfErr result (λ fault. fault ≢ ReadFault.Disk
        → IsOnly (D.disk.may_leave disk.new) (D.disk.reads disk.old)) }
{
    raise_barrier(disk)?;
    Ok(recover::<D, K>(alloc, disk)?)
}

impl<D: SectorDisk + Drop, K: Kept> Store<D, K> {
    /// Opens the store that this disk holds, of either format: reads its state, and goes on in the next epoch, of which a
    /// snapshot is written in the second format; so a disk of the first is brought over. The disk comes back at an error.
    /// `TooSmall` where it has fewer than 2,048 sectors, and then no call of it is made; `Disk` where a call of it failed;
    /// `NotFormatted` where neither snapshot has a header; `EpochsSpent` where the epoch is 2^64 - 1; `Damaged` with the first
    /// sector that is out of form or does not fit; `NoMemory` where it is out of memory, for which only such a disk asks that
    /// has a header of an epoch before the last. On each of these but `Disk` nothing was written, and on each but `Disk` and
    /// `TooSmall` a power cut leaves what was read.
    pub fn open(alloc: Global, mut disk: D) -> Result<Store<D, K>, (D, StoreFault)>
        ensures too_small { D.disk.count disk < sector_count → result ≡ Err (disk, StoreFault.TooSmall) }
        ensures opens { IfOk result (Opens K.kept D.disk disk) }
        ensures refuses { sector_count ≤ D.disk.count disk → IfErr result (λ e. Refuses K.kept D.disk disk e.0 e.1) }
    {
        if disk.count() < SECTORS {
            return Err((disk, StoreFault::TooSmall));
        }
        match recover_behind_barrier::<D, K>(alloc, &mut disk) {
            Err(fault) => Err((disk, StoreFault::from(fault))),
            Ok(found) => match found.begin(disk) {
                Err((disk, _)) => Err((disk, StoreFault::Disk)),
                Ok(store) => Ok(store),
            },
        }
    }
}
