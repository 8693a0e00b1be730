//! Settling a pair of stores.
ghost use Rattle.std.specs.Prelude.{◌≡◌, ◌≤◌, ◌+◌, [], IsOk, IfOk, IfErr, OnOk};
ghost use Rattle.session_store.specs.Pair.{IsServedPair, IsToldPair};
ghost use Rattle.session_store.specs.Settling.{CannotRise, CannotSettle, IsSettledAs, IsSettledPair};
ghost use Rattle.session_store.specs.Store.{Continues};

use crate::{CheckpointFault, Kept, PairStanding, Store};
use sector_disk::SectorDisk;

/// Begins epochs until the store's is two above this one, if it is not.
fn rise_above<D: SectorDisk + Drop, K: Kept>(
    store: &mut Store<D, K>,
    epoch: u64,
) -> Result<(), CheckpointFault>
    ensures continues { Continues K.kept D.disk store.old [] store.new }
    ensures risen { OnOk result (epoch + 2 ≤ store.new.epoch) }
    ensures same { OnOk result ((store.new.failed ≡ store.old.failed) × (store.new.state ≡ store.old.state)) }
    ensures rests { epoch + 2 ≤ store.old.epoch → IsOk result × (store.new ≡ store.old) }
    ensures fault { IfErr result (CannotRise D.disk epoch store.old store.new) }
{
    let own = store.epoch();
    if epoch > u64::MAX - 2 {
        return Err(CheckpointFault::EpochsSpent);
    }
    for _begun in own..epoch + 2 {
        store.checkpoint()?;
    }
    Ok(())
}

/// Settles a pair that was served: where a call of one disk failed and the other is still kept, the store of that one begins
/// epochs until it is two above, so that the disk that was lost is never taken for the session beside it. Only then may be
/// told what was served. A pair that is settled is left as it is. `Failed` where both disks had failed, `Disk` where a
/// call of the one that was kept fails now, and `EpochsSpent` where there are no more epochs: then nothing more may be told.
pub fn settle_pair<A: SectorDisk + Drop, B: SectorDisk + Drop, K: Kept>(
    first: &mut Store<A, K>,
    second: &mut Store<B, K>,
) -> Result<PairStanding, CheckpointFault>
    ensures told { (s : K) → IsServedPair K.kept A.disk B.disk first.old second.old s
        → OnOk result (IsToldPair K.kept A.disk B.disk first.new second.new s) }
    ensures standing { IfOk result (IsSettledAs first.old second.old first.new second.new) }
    ensures first { Continues K.kept A.disk first.old [] first.new }
    ensures second { Continues K.kept B.disk second.old [] second.new }
    ensures settled { IsSettledPair first.old second.old → IsOk result × (first.new ≡ first.old) × (second.new ≡ second.old) }
    ensures fault { IfErr result (CannotSettle A.disk B.disk first.old second.old first.new second.new) }
{
    match (first.has_failed(), second.has_failed()) {
        (false, false) => Ok(PairStanding::Level),
        (true, false) => {
            rise_above(second, first.epoch())?;
            Ok(PairStanding::FirstLost)
        }
        (false, true) => {
            rise_above(first, second.epoch())?;
            Ok(PairStanding::SecondLost)
        }
        (true, true) => Err(CheckpointFault::Failed),
    }
}
