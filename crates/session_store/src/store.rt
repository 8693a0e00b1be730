//! The store, and what it answers at any time.
ghost use Rattle.std.specs.Prelude.{◌≡◌, ◌<◌, ◌≤◌, ◌^◌, Some, length};
ghost use Rattle.session_store.specs.Keeping.{fold};
ghost use Rattle.session_store.specs.Layout.{record_limit, sector_count};
ghost use Rattle.session_store.specs.Sound.{IsSoundDisk};
ghost use Rattle.session_store.specs.Store.{IsSoundStore};

use crate::Kept;
use arrayvec::ArrayVec;
use sector_disk::SectorDisk;
use std::marker::Model;

/// The number of actions that may be pending.
pub const MOST_PENDING: usize = 64;

/// A state kept on a disk: a base that stands there, and the actions accepted since, up to 64, that a power cut may
/// still lose from the last on.
#[derive(Drop)]
pub struct Store<D: SectorDisk + Drop, K: Kept> {
    pub(crate) disk: D,
    pub(crate) base: K,
    pub(crate) state: K,
    pub(crate) pending: ArrayVec<K::Action, MOST_PENDING>,
    pub(crate) epoch: u64,
    pub(crate) records: u32,
    pub(crate) failed: bool,
}

impl<D: SectorDisk + Drop, K: Kept> Model for Store<D, K> {
    ghost use Rattle.session_store.specs.Value.{StoreValue, store_code, IsStore};

    ghost Value = { StoreValue D K K.Action };

    ghost coded = { store_code D.code K.code K.Action.code };

    ghost view = { λ s. record {
      disk = s.disk;
      base = s.base;
      pending = s.pending.items;
      state = s.state;
      epoch = s.epoch;
      records = s.records;
      failed = s.failed;
    } };

    ghost invariant = { λ s. IsStore K.kept D.disk (record {
      disk = s.disk;
      base = s.base;
      pending = s.pending.items;
      state = s.state;
      epoch = s.epoch;
      records = s.records;
      failed = s.failed;
    }) };
}

impl<D: SectorDisk + Drop, K: Kept> Store<D, K> {
    /// The state with all accepted actions.
    pub fn state(&self) -> &K
        ensures state { result.now ≡ self.now.state }
        ensures accepted { fold K.kept self.now.base self.now.pending ≡ Some result.now }
    {
        &self.state
    }

    /// The actions accepted and not yet confirmed, in order.
    pub fn pending(&self) -> &[K::Action]
        ensures pending { result.now ≡ self.now.pending }
        ensures few { length result.now ≤ 64 }
    {
        self.pending.as_slice()
    }

    /// The epoch, from 1 to 2^64 - 1.
    pub fn epoch(&self) -> u64
        ensures epoch { result ≡ self.now.epoch }
        ensures first { 1 ≤ result }
        ensures fits { result < 2 ^ 64 }
    {
        self.epoch
    }

    /// The number of records that the journal has in this epoch, at most 1,024: one of each action accepted since its snapshot.
    pub fn records(&self) -> u32
        ensures records { result ≡ self.now.records }
        ensures few { result ≤ record_limit }
        ensures recorded { length self.now.pending ≤ result }
    {
        self.records
    }

    /// Whether a call of the disk has failed; `submit`, `confirm` and `checkpoint` then answer `Failed`.
    pub fn has_failed(&self) -> bool
        ensures { result ≡ self.now.failed }
    {
        self.failed
    }

    /// Gives the disk back. What is pending is not confirmed.
    pub fn into_disk(self) -> D
        ensures disk { result ≡ self.disk }
        ensures sound { IsSoundStore K.kept D.disk self → IsSoundDisk K.kept D.disk result }
        ensures large { sector_count ≤ D.disk.count result }
    {
        let Store { disk, .. } = self;
        disk
    }
}
