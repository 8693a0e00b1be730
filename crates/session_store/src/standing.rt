//! How a pair of stores stands.
ghost use Rattle.std.specs.Prelude.{◌≡◌};
ghost use Rattle.session_store.specs.Pair.{standing_of};

use crate::{Kept, Store};
use sector_disk::SectorDisk;

/// Which disks of a pair are still kept.
#[derive(Clone, Copy, Debug, PartialEq, Eq)]
pub enum PairStanding {
    /// Both.
    Level,
    /// The second alone: a call of the first failed.
    FirstLost,
    /// The first alone: a call of the second failed.
    SecondLost,
}

/// How a pair stands; `None` where a call of either disk has failed, and then nothing more may be told.
pub fn pair_standing<A: SectorDisk + Drop, B: SectorDisk + Drop, K: Kept>(
    first: &Store<A, K>,
    second: &Store<B, K>,
) -> Option<PairStanding>
    ensures { result ≡ standing_of first.now.failed second.now.failed }
{
    match (first.has_failed(), second.has_failed()) {
        (false, false) => Some(PairStanding::Level),
        (true, false) => Some(PairStanding::FirstLost),
        (false, true) => Some(PairStanding::SecondLost),
        (true, true) => None,
    }
}
