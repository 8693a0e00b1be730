//! Formatting a disk.
ghost use Rattle.std.specs.Prelude.{◌≡◌, ◌<◌, ◌≤◌, Err, IfOk, IfErr, OnOk, OnErr, ℕ, replicate};
ghost use Rattle.sector_disk.specs.Disk.{Image, Rose};
ghost use Rattle.sector_disk.specs.Runs.{EveryMoment, Remains};
ghost use Rattle.session_store.specs.Formatted.{IsFormatted, IsUnformatted};
ghost use Rattle.session_store.specs.Layout.{sector_count};
ghost use Rattle.session_store.specs.Snapshot.{SameBehind};

use crate::snapshot::write_snapshot;
use crate::{Kept, StoreFault};
use sector_disk::{DiskFault, SECTOR_BYTES, SectorDisk};

/// The number of sectors that a store uses.
pub(crate) const SECTORS: u32 = 2048;

/// Writes zeros to all sectors that a store uses, and syncs.
fn clear<D: SectorDisk>(disk: &mut D) -> Result<(), DiskFault>
    requires { sector_count ≤ D.disk.count disk.old }
    ensures remains { Remains D.disk disk.old disk.new }
    ensures fault { OnErr result (Rose (D.disk.faults disk.old) (D.disk.faults disk.new)) }
    ensures no_fault { OnOk result (D.disk.faults disk.new ≡ D.disk.faults disk.old) }
    ensures cleared { D.disk.honest disk.old → OnOk result ((c : Image) → D.disk.may_leave disk.new c
        → (k : ℕ) → k < sector_count → c k ≡ replicate 512 0) }
    ensures behind { D.disk.honest disk.old
        → EveryMoment D.disk disk.old disk.new (SameBehind (D.disk.may_leave disk.old)) }
{
    for i in 0..SECTORS {
        disk.write(i, &[0; SECTOR_BYTES])?;
    }
    disk.sync()?;
    Ok(())
}

/// Clears the disk, and writes a snapshot of the state for epoch 1.
fn write_first<D: SectorDisk, K: Kept>(disk: &mut D, state: &K) -> Result<(), DiskFault>
    requires { sector_count ≤ D.disk.count disk.old }
    ensures formatted { OnOk result (IsFormatted K.kept D.disk state.now disk.old disk.new) }
    ensures fault { OnErr result (IsUnformatted D.disk disk.old disk.new) }
{
    clear(disk)?;
    write_snapshot(disk, 1, state)?;
    Ok(())
}

/// Makes of the disk one of the second format that holds this state, in epoch 1, and hands it back, at an error too.
/// `TooSmall` where it has fewer than 2,048 sectors, and then nothing was called; `Disk` where a call of the disk failed.
/// After `Disk`, and after a power cut inside the call, the disk is to be formatted again. Sectors from 2,048 on are left alone.
pub fn format<D: SectorDisk, K: Kept>(mut disk: D, state: &K) -> Result<D, (D, StoreFault)>
    ensures too_small { D.disk.count disk < sector_count → result ≡ Err (disk, StoreFault.TooSmall) }
    ensures formatted { IfOk result (IsFormatted K.kept D.disk state.now disk) }
    ensures fault { sector_count ≤ D.disk.count disk → IfErr result (λ e. (e.1 ≡ StoreFault.Disk) × IsUnformatted D.disk disk e.0) }
{
    if disk.count() < SECTORS {
        return Err((disk, StoreFault::TooSmall));
    }
    match write_first(&mut disk, state) {
        Ok(()) => Ok(disk),
        Err(_) => Err((disk, StoreFault::Disk)),
    }
}
