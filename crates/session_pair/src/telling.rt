//! When what a pair of stores served may be told.
ghost use Rattle.std.specs.Prelude.{◌≡◌, [], true, false};
ghost use Rattle.session_store.specs.Store.{Continues};
ghost use Rattle.session_pair.specs.Telling.{AreApart, CannotTell, MayTell, StaysConfirmed, StaysShown, shown_of};

use sector_disk::SectorDisk;
use session_store::{Kept, Store, is_same_state, pair_laws, settle_pair};

/// The state that is shown of a pair: that of a side that works.
pub fn shown_state<'a, A: SectorDisk + Drop, B: SectorDisk + Drop, K: Kept>(
    first: &'a Store<A, K>,
    second: &'a Store<B, K>,
) -> &'a K
    ensures { result.now ≡ shown_of first.now second.now }
{
    if first.has_failed() {
        second.state()
    } else {
        first.state()
    }
}

/// Whether each side that works has the state that is shown.
fn is_one_state<A: SectorDisk + Drop, B: SectorDisk + Drop, K: Kept>(
    first: &Store<A, K>,
    second: &Store<B, K>,
) -> bool
    ensures first { result ≡ true → first.now.failed ≡ false → first.now.state ≡ shown_of first.now second.now }
    ensures second { result ≡ true → second.now.failed ≡ false → second.now.state ≡ shown_of first.now second.now }
    ensures other { result ≡ false → AreApart first.now second.now }
{
    match (first.has_failed(), second.has_failed()) {
        (false, false) => is_same_state(second.state(), first.state()),
        _ => true,
    }
}

/// Settles a pair whose stores were served the same lines, and says whether what they answered may be told: each side that
/// works has the same state, and where a side was lost the other's epoch is two above it. Where it may not, nothing more may be
/// told of the pair: both disks were lost, or the states differ, as memory that was refused to one side alone can leave them,
/// or there are no more epochs.
pub fn settle_served<A: SectorDisk + Drop, B: SectorDisk + Drop, K: Kept>(
    first: &mut Store<A, K>,
    second: &mut Store<B, K>,
) -> bool
    ensures told { MayTell K.kept A.disk B.disk first.old second.old result first.new second.new }
    ensures untold { result ≡ false → CannotTell A.disk B.disk first.old second.old first.new second.new }
    ensures shown { result ≡ true → StaysShown first.old second.old first.new second.new }
    ensures settled { Continues K.kept A.disk first.old [] first.new × Continues K.kept B.disk second.old [] second.new }
    ensures confirmed { StaysConfirmed first.old first.new × StaysConfirmed second.old second.new }
{
    pair_laws::<A, B, K>();
    let is_one = is_one_state(first, second);
    match settle_pair(first, second) {
        Ok(_) => is_one,
        Err(_) => false,
    }
}
