//! The memory that opening a store takes: room for the parts of a snapshot, and for two states; and that for a state of a
//! copy. Only here can it be said that memory was refused; what reads a disk has no such error to give.
ghost use Rattle.std.specs.Prelude.{◌≡◌, ◌≤◌, [], IfOk, OnErr, IfSome, IfNone, None, Some, map, vec_capacity};

use crate::{DiskFormat, Kept, PAYLOAD_BYTES, PartsFault};
use arrayvec::ArrayVec;
use std::alloc::Global;

/// Memory was refused.
#[derive(Clone, Copy)]
pub(crate) struct NoRoom {
    _refused: (),
}

/// Room for that many parts.
pub(crate) fn room_for_parts(
    alloc: Global,
    count: u32,
) -> Result<Vec<ArrayVec<u8, PAYLOAD_BYTES>>, NoRoom>
    ensures empty { IfOk result (λ parts. parts.items ≡ []) }
    ensures room { IfOk result (λ parts. count ≤ vec_capacity parts) }
{
    match Vec::with_capacity(alloc, count as usize) {
        Ok(parts) => Ok(parts),
        Err(_) => Err(NoRoom { _refused: () }),
    }
}

/// The state of these parts of a format, if they have one. Memory is asked for only where they may be those of one.
fn make_state<K: Kept>(
    alloc: Global,
    format: DiskFormat,
    parts: &[ArrayVec<u8, PAYLOAD_BYTES>],
) -> Result<Option<K>, NoRoom>
    ensures memory { OnErr result (K.kept.MayBe format (map (λ part. part.items) parts.now)) }
    ensures state { IfOk result (λ state. K.kept.state_of format (map (λ part. part.items) parts.now) ≡ state) }
{
    match K::from_parts(alloc, format, parts) {
        Ok(state) => Ok(Some(state)),
        Err(PartsFault::Bad) => Ok(None),
        Err(PartsFault::Memory) => Err(NoRoom { _refused: () }),
    }
}

/// The state of these parts of a format twice, if they have one. Memory is asked for only where they may be those of one.
pub(crate) fn make_states<K: Kept>(
    alloc: Global,
    format: DiskFormat,
    parts: &[ArrayVec<u8, PAYLOAD_BYTES>],
) -> Result<Option<(K, K)>, NoRoom>
    ensures memory { OnErr result (K.kept.MayBe format (map (λ part. part.items) parts.now)) }
    ensures state { IfOk result (λ made. IfSome made (λ both.
        K.kept.state_of format (map (λ part. part.items) parts.now) ≡ Some both.1)) }
    ensures same { IfOk result (λ made. IfSome made (λ both. both.0 ≡ both.1)) }
    ensures none { IfOk result (λ made. IfNone made (K.kept.state_of format (map (λ part. part.items) parts.now) ≡ None)) }
{
    let Some(base) = make_state::<K>(alloc, format, parts)? else {
        return Ok(None);
    };
    let Some(state) = make_state::<K>(alloc, format, parts)? else {
        return Ok(None);
    };
    Ok(Some((base, state)))
}

/// A state equal to this one, in memory of its own.
pub(crate) fn copy_state<K: Kept>(alloc: Global, state: &K) -> Result<K, NoRoom>
    ensures { IfOk result (λ copy. copy ≡ state.now) }
{
    let count = state.parts();
    let mut parts = room_for_parts(alloc, count)?;
    for i in 0..count {
        let mut part = ArrayVec::new();
        state.write_part(i, &mut part);
        parts.push_reserved(part);
    }
    match K::from_parts(alloc, DiskFormat::Two, parts.as_slice()) {
        Ok(copy) => Ok(copy),
        Err(_) => Err(NoRoom { _refused: () }),
    }
}
