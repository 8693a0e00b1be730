//! Writing a snapshot, of the second format: its parts, and over them, once they are on the disk, its header.
ghost use Rattle.std.specs.Prelude.{◌≡◌, ◌<◌, ◌≤◌, ◌+◌, [], length, slice_index_or, OnOk, OnErr};
ghost use Rattle.sector_disk.specs.Disk.{Rose};
ghost use Rattle.sector_disk.specs.Calls.{WriteCall};
ghost use Rattle.sector_disk.specs.Runs.{EveryMoment, Remains};
ghost use Rattle.session_store.specs.declared.disk_format.DiskFormat.TheVariants.{Two};
ghost use Rattle.session_store.specs.Form.{sector, part_mark, place};
ghost use Rattle.session_store.specs.Layout.{part_limit, sector_count};
ghost use Rattle.session_store.specs.Snapshot.{ButForParts, HasParts, header_sector, WritesSnapshot};

use crate::sectors::make_sector;
use crate::{DiskFormat, Kept};
use arrayvec::ArrayVec;
use sector_disk::{DiskFault, SectorDisk};

/// The sector of the header of the first snapshot, which odd epochs use.
pub(crate) const SNAPSHOT_A: u32 = 0;

/// The sector of the header of the second snapshot, which even epochs use.
pub(crate) const SNAPSHOT_B: u32 = 512;

/// The number of parts that a snapshot has room for.
pub(crate) const MOST_PARTS: u32 = 494;

/// The sector of the header of this epoch's snapshot.
pub(crate) fn place_of(epoch: u64) -> u32
    ensures place { result ≡ place epoch }
    ensures first { result ≤ 512 }
{
    if epoch % 2 == 1 {
        SNAPSHOT_A
    } else {
        SNAPSHOT_B
    }
}

/// Writes part `i` of the state into this epoch's snapshot.
fn write_part<D: SectorDisk, K: Kept>(
    disk: &mut D,
    epoch: u64,
    state: &K,
    i: u32,
) -> Result<(), DiskFault>
    requires sectors { sector_count ≤ D.disk.count disk.old }
    requires few { i < part_limit }
    requires part { i < length (K.kept.parts state.now) }
    ensures { WriteCall D.disk disk.old disk.new (place epoch + 1 + i)
        (sector (part_mark Two) epoch i (slice_index_or (K.kept.parts state.now) i [])) result }
{
    let mut part = ArrayVec::new();
    state.write_part(i, &mut part);
    let bytes = make_sector(&DiskFormat::Two.part_mark(), epoch, i, part.as_slice());
    disk.write(place_of(epoch) + 1 + i, &bytes)
}

/// Writes the header of this epoch's snapshot of the state.
fn write_header<D: SectorDisk, K: Kept>(
    disk: &mut D,
    epoch: u64,
    state: &K,
) -> Result<(), DiskFault>
    requires { sector_count ≤ D.disk.count disk.old }
    ensures { WriteCall D.disk disk.old disk.new (place epoch) (header_sector K.kept epoch state.now) result }
{
    let bytes = make_sector(&DiskFormat::Two.header_mark(), epoch, state.parts(), &[]);
    disk.write(place_of(epoch), &bytes)
}

/// Writes all parts of the state into this epoch's snapshot.
fn write_parts<D: SectorDisk, K: Kept>(disk: &mut D, epoch: u64, state: &K) -> Result<(), DiskFault>
    requires { sector_count ≤ D.disk.count disk.old }
    ensures remains { Remains D.disk disk.old disk.new }
    ensures fault { OnErr result (Rose (D.disk.faults disk.old) (D.disk.faults disk.new)) }
    ensures no_fault { OnOk result (D.disk.faults disk.new ≡ D.disk.faults disk.old) }
    ensures any_moment { D.disk.honest disk.old
        → EveryMoment D.disk disk.old disk.new (ButForParts (D.disk.may_leave disk.old) epoch) }
    ensures written { D.disk.honest disk.old → OnOk result (HasParts K.kept epoch state.now (D.disk.reads disk.new)) }
    ensures state { K.kept.IsState state.now }
{
    let count = state.parts();
    for i in 0..count {
        write_part(disk, epoch, state, i)?;
    }
    Ok(())
}

/// Writes a snapshot of the state for this epoch: the parts, a sync, the header, a sync.
pub(crate) fn write_snapshot<D: SectorDisk, K: Kept>(
    disk: &mut D,
    epoch: u64,
    state: &K,
) -> Result<(), DiskFault>
    requires { sector_count ≤ D.disk.count disk.old }
    ensures { WritesSnapshot K.kept D.disk disk.old disk.new epoch state.now result }
{
    write_parts(disk, epoch, state)?;
    disk.sync()?;
    write_header(disk, epoch, state)?;
    disk.sync()?;
    Ok(())
}
