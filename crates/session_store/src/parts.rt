//! Reading the parts of a snapshot.
ghost use Rattle.std.specs.Prelude.{◌≡◌, ◌<◌, ◌≤◌, ◌+◌, [], IfErr, IfOk, Ok, OnOk, Some, map, vec_capacity};
ghost use Rattle.sector_disk.specs.Runs.{Quiet};
ghost use Rattle.session_store.specs.Form.{part_mark, payload_in, place};
ghost use Rattle.session_store.specs.Layout.{part_limit, sector_count};
ghost use Rattle.session_store.specs.Opening.{Causes};
ghost use Rattle.session_store.specs.ReadFaults.{IsPartUnread, store_fault};
ghost use Rattle.session_store.specs.Stands.{parts_from};

use crate::fault::ReadFault;
use crate::reading::{Header, read_payload};
use crate::snapshot::place_of;
use crate::{DiskFormat, PAYLOAD_BYTES};
use arrayvec::ArrayVec;
use sector_disk::{SECTOR_BYTES, SectorDisk};

/// Reads part `i` of this epoch's snapshot, in a format.
fn read_part<D: SectorDisk>(
    disk: &mut D,
    format: DiskFormat,
    epoch: u64,
    i: u32,
) -> Result<ArrayVec<u8, PAYLOAD_BYTES>, ReadFault>
    requires sectors { sector_count ≤ D.disk.count disk.old }
    requires few { i < part_limit }
    ensures quiet { Quiet D.disk disk.old disk.new }
    ensures no_fault { OnOk result (D.disk.faults disk.new ≡ D.disk.faults disk.old) }
    ensures part { D.disk.honest disk.old → IfOk result (λ part.
        payload_in (part_mark format) epoch i (D.disk.reads disk.old (place epoch + 1 + i)) ≡ Some part.items) }
    ensures fault { IfErr result (IsPartUnread D.disk format epoch i disk.old disk.new) }
{
    let at = place_of(epoch) + 1 + i;
    let mut bytes = [0; SECTOR_BYTES];
    disk.read(at, &mut bytes)?;
    match read_payload(&format.part_mark(), epoch, i, &bytes) {
        None => Err(ReadFault::Damaged(at)),
        Some(payload) => {
            let mut part = ArrayVec::new();
            let _ = part.try_extend_from_slice(payload);
            Ok(part)
        }
    }
}

/// Reads the parts that this header tells of, into a list that has room for them.
pub(crate) fn read_parts<D: SectorDisk>(
    disk: &mut D,
    header: Header,
    room: Vec<ArrayVec<u8, PAYLOAD_BYTES>>,
) -> Result<Vec<ArrayVec<u8, PAYLOAD_BYTES>>, ReadFault>
    requires sectors { sector_count ≤ D.disk.count disk.old }
    requires few { header.parts ≤ part_limit }
    requires empty { room.items ≡ [] }
    requires room { header.parts ≤ vec_capacity room }
    ensures quiet { Quiet D.disk disk.old disk.new }
    ensures no_fault { OnOk result (D.disk.faults disk.new ≡ D.disk.faults disk.old) }
    ensures parts { D.disk.honest disk.old → IfOk result (λ parts.
        parts_from header.format (D.disk.reads disk.old) header.epoch 0 header.parts ≡ Ok (map (λ part. part.items) parts.items)) }
    ensures fault { IfErr result (λ fault. Causes D.disk disk.old disk.new
        (parts_from header.format (D.disk.reads disk.old) header.epoch 0 header.parts) (store_fault fault)) }
{
    let mut parts = room;
    for i in 0..header.parts {
        let part = read_part(disk, header.format, header.epoch, i)?;
        parts.push_reserved(part);
    }
    Ok(parts)
}
