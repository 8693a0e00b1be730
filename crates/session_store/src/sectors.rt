//! Making the bytes of a sector.
ghost use Rattle.std.specs.Prelude.{◌≡◌, ◌≤◌, ◌+◌, ◌-◌, ◌++◌, ℕ, List, length, replicate};
ghost use Rattle.session_store.specs.Form.{sector};
ghost use Rattle.session_store.specs.Layout.{payload_limit};

use sector_disk::SECTOR_BYTES;

/// Bytes of a sector's label: the mark, the epoch and the number.
pub(crate) const LABEL_BYTES: usize = 16;

/// Bytes before the payload: the label and the payload's length.
pub(crate) const HEAD_BYTES: usize = 18;

/// Writes `part` at `at`, behind what was written before and over zeros.
fn put(bytes: &mut [u8; SECTOR_BYTES], at: usize, part: &[u8])
    requires { at + length part.now ≤ 512 }
    ensures { (before : List ℕ) → length before ≡ at → bytes.old ≡ before ++ replicate (512 - at) 0
        → bytes.new ≡ before ++ part.now ++ replicate (512 - (at + length part.now)) 0 }
{
    bytes[at..at + part.len()].copy_from_slice(part);
}

/// The bytes of a sector: the mark, the epoch, the number, the payload's length, the payload, and zeros. Numbers are
/// big-endian.
pub(crate) fn make_sector(
    mark: &[u8; 4],
    epoch: u64,
    number: u32,
    payload: &[u8],
) -> [u8; SECTOR_BYTES]
    requires { length payload.now ≤ payload_limit }
    ensures { result ≡ sector mark.now epoch number payload.now }
{
    let mut bytes = [0; SECTOR_BYTES];
    put(&mut bytes, 0, mark);
    put(&mut bytes, 4, &epoch.to_be_bytes());
    put(&mut bytes, 12, &number.to_be_bytes());
    put(
        &mut bytes,
        LABEL_BYTES,
        &(payload.len() as u16).to_be_bytes(),
    );
    put(&mut bytes, HEAD_BYTES, payload);
    bytes
}
