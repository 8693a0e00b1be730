//! Reading what the bytes of a sector state.
ghost use Rattle.std.specs.Prelude.{◌≡◌, ◌<◌, ◌≤◌, ◌^◌, IfSome, length};
ghost use Rattle.std.specs.Option.{option_copied};
ghost use Rattle.session_store.specs.Form.{epoch_field, number_field, payload_in, header_as, header_of};
ghost use Rattle.session_store.specs.Layout.{payload_limit};

use crate::sectors::{HEAD_BYTES, make_sector};
use crate::snapshot::MOST_PARTS;
use crate::{DiskFormat, PAYLOAD_BYTES};
use sector_disk::SECTOR_BYTES;

/// What a header states.
#[derive(Clone, Copy)]
pub struct Header {
    /// The format of the snapshot and of its epoch's records.
    pub format: DiskFormat,
    /// The snapshot's epoch.
    pub epoch: u64,
    /// The number of its parts.
    pub parts: u32,
}

/// What a sector of the journal is to the record that is read.
pub enum Entry<A> {
    /// It is not that record.
    Missing,
    /// It has that record's label, and is out of form.
    Damaged,
    /// It is that record, of this action.
    Holds(A),
}

/// The epoch that a sector states.
fn read_epoch(bytes: &[u8; SECTOR_BYTES]) -> u64
    ensures epoch { result ≡ epoch_field bytes.now }
    ensures fits { result < 2 ^ 64 }
{
    u64::from_be_bytes([
        bytes[4], bytes[5], bytes[6], bytes[7], bytes[8], bytes[9], bytes[10], bytes[11],
    ])
}

/// The number that a sector states.
fn read_number(bytes: &[u8; SECTOR_BYTES]) -> u32
    ensures number { result ≡ number_field bytes.now }
    ensures fits { result < 2 ^ 32 }
{
    u32::from_be_bytes([bytes[12], bytes[13], bytes[14], bytes[15]])
}

/// The payload of a sector of this mark, epoch and number, if the sector is in form.
pub(crate) fn read_payload<'a>(
    mark: &[u8; 4],
    epoch: u64,
    number: u32,
    bytes: &'a [u8; SECTOR_BYTES],
) -> Option<&'a [u8]>
    ensures payload { option_copied result ≡ payload_in mark.now epoch number bytes.now }
    ensures fits { IfSome result (λ payload. length payload.now ≤ payload_limit) }
{
    let len = u16::from_be_bytes([bytes[16], bytes[17]]) as usize;
    if len > PAYLOAD_BYTES {
        return None;
    }
    let payload = &bytes[HEAD_BYTES..HEAD_BYTES + len];
    if make_sector(mark, epoch, number, payload) != *bytes {
        return None;
    }
    Some(payload)
}

/// What a sector states as a header of this format, if it is one in form.
fn read_header_as(format: DiskFormat, bytes: &[u8; SECTOR_BYTES]) -> Option<Header>
    ensures { result ≡ header_as format bytes.now }
{
    let epoch = read_epoch(bytes);
    let parts = read_number(bytes);
    if epoch == 0 {
        return None;
    }
    if parts == 0 {
        return None;
    }
    if parts > MOST_PARTS {
        return None;
    }
    if make_sector(&format.header_mark(), epoch, parts, &[]) != *bytes {
        return None;
    }
    Some(Header {
        format,
        epoch,
        parts,
    })
}

/// What a sector states as a header of either format, if it is one in form.
pub(crate) fn read_header(bytes: &[u8; SECTOR_BYTES]) -> Option<Header>
    ensures { result ≡ header_of bytes.now }
{
    read_header_as(DiskFormat::Two, bytes).or(read_header_as(DiskFormat::One, bytes))
}
