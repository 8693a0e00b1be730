//! Reading records.
ghost use Rattle.std.specs.Prelude.{◌≡◌};
ghost use Rattle.session_store.specs.Form.{entry_in};

use crate::reading::{Entry, read_payload};
use crate::sectors::{LABEL_BYTES, make_sector};
use crate::{DiskFormat, Kept};
use sector_disk::SECTOR_BYTES;

/// What a sector is to the record of this epoch and number, in a format.
pub(crate) fn read_entry<K: Kept>(
    format: DiskFormat,
    epoch: u64,
    number: u32,
    bytes: &[u8; SECTOR_BYTES],
) -> Entry<K::Action>
    ensures { result ≡ entry_in K.kept format epoch number bytes.now }
{
    let mark = format.record_mark();
    let empty = make_sector(&mark, epoch, number, &[]);
    if bytes[..LABEL_BYTES] != empty[..LABEL_BYTES] {
        return Entry::Missing;
    }
    match read_payload(&mark, epoch, number, bytes) {
        None => Entry::Damaged,
        Some(payload) => match K::read_action(format, payload) {
            None => Entry::Damaged,
            Some(action) => Entry::Holds(action),
        },
    }
}
