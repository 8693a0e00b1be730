//! Opening a pair of disks.
ghost use Rattle.std.specs.Prelude.{◌≡◌, ◌<◌, ◌≤◌, Err, IfOk, IfErr};
ghost use Rattle.session_store.specs.Layout.{sector_count};
ghost use Rattle.session_store.specs.PairOpening.{ComparesEpochs, IsNotJoined, IsPairOpened, IsPairRefused, Joins};

use crate::copying::{begin_copy, prepare_copy, settle_epoch};
use crate::formatting::SECTORS;
use crate::settling::settle_pair;
use crate::{Kept, PairFault, Store, StoreFault};
use sector_disk::SectorDisk;
use std::alloc::Global;

/// Both disks of a pair that was not opened, and why.
#[derive(Drop)]
pub struct UnopenedPair<A: SectorDisk + Drop, B: SectorDisk + Drop> {
    /// The first disk.
    pub first: A,
    /// The second disk.
    pub second: B,
    /// Why the pair was not opened.
    pub fault: PairFault,
}

impl<A: SectorDisk + Drop, B: SectorDisk + Drop> UnopenedPair<A, B> {
    /// The disks of a pair that was not opened for that fault.
    fn new(first: A, second: B, fault: PairFault) -> UnopenedPair<A, B>
        ensures { result ≡ record { first = first; second = second; fault = fault } }
    {
        UnopenedPair {
            first,
            second,
            fault,
        }
    }
}

/// The epoch of the second disk, which is not the newer one.
fn compare_epochs<A: SectorDisk, B: SectorDisk>(
    first: &mut A,
    second: &mut B,
) -> Result<u64, PairFault>
    requires first { sector_count ≤ A.disk.count first.old }
    requires second { sector_count ≤ B.disk.count second.old }
    ensures { ComparesEpochs A.disk B.disk first.old second.old first.new second.new result }
{
    match settle_epoch(second) {
        Err(_) => Err(PairFault::Second(StoreFault::Disk)),
        Ok(own) => match settle_epoch(first) {
            Err(_) => Err(PairFault::First(StoreFault::Disk)),
            Ok(epoch) => {
                if epoch < own {
                    return Err(PairFault::SecondNewer);
                }
                Ok(own)
            }
        },
    }
}

/// Brings the state of the first store to the second disk, whose epoch is the given one, and settles the pair.
fn join_disk<A: SectorDisk + Drop, B: SectorDisk + Drop, K: Kept>(
    alloc: Global,
    mut first: Store<A, K>,
    second: B,
    own: u64,
) -> Result<(Store<A, K>, Store<B, K>), UnopenedPair<A, B>>
    requires { sector_count ≤ B.disk.count second }
    ensures joins { IfOk result (λ both. Joins K.kept A.disk B.disk first second own both.0 both.1) }
    ensures fault { IfErr result (λ e. IsNotJoined K.kept A.disk B.disk first second own e.first e.second e.fault) }
{
    match prepare_copy(alloc, &mut first, own) {
        Err(fault) => Err(UnopenedPair {
            first: first.into_disk(),
            second,
            fault: PairFault::First(fault),
        }),
        Ok((base, state)) => {
            let mut copy = begin_copy(second, first.epoch(), base, state);
            match settle_pair(&mut first, &mut copy) {
                Ok(_) => Ok((first, copy)),
                Err(fault) => Err(UnopenedPair {
                    first: first.into_disk(),
                    second: copy.into_disk(),
                    fault: PairFault::First(StoreFault::from(fault)),
                }),
            }
        }
    }
}

/// Opens a pair of disks, of which the second is not the newer one by its epoch: opens the first, and brings its state to
/// the second, whatever that stood for. Where a call of the second fails in that, the pair is opened all the same, and that
/// disk is lost. Both disks come back at an error: `First` where the first was not opened, a call of it failed or no epochs are
/// left for it, `Second` where that one is too small or a call of it failed before anything was written, `SecondNewer` where its
/// epoch is later.
pub fn open_pair<A: SectorDisk + Drop, B: SectorDisk + Drop, K: Kept>(
    alloc: Global,
    mut first: A,
    mut second: B,
) -> Result<(Store<A, K>, Store<B, K>), UnopenedPair<A, B>>
    ensures first_small { A.disk.count first < sector_count
        → result ≡ Err (record { first = first; second = second; fault = PairFault.First StoreFault.TooSmall }) }
    ensures second_small { sector_count ≤ A.disk.count first → B.disk.count second < sector_count
        → result ≡ Err (record { first = first; second = second; fault = PairFault.Second StoreFault.TooSmall }) }
    ensures opens { IfOk result (λ both. IsPairOpened K.kept A.disk B.disk first second both.0 both.1) }
    ensures refuses { IfErr result (λ e. IsPairRefused K.kept A.disk B.disk first second e.first e.second e.fault) }
{
    if first.count() < SECTORS {
        let fault = PairFault::First(StoreFault::TooSmall);
        return Err(UnopenedPair::new(first, second, fault));
    }
    if second.count() < SECTORS {
        let fault = PairFault::Second(StoreFault::TooSmall);
        return Err(UnopenedPair::new(first, second, fault));
    }
    match compare_epochs(&mut first, &mut second) {
        Err(fault) => Err(UnopenedPair::new(first, second, fault)),
        Ok(own) => match Store::open(alloc, first) {
            Ok(store) => join_disk(alloc, store, second, own),
            Err((first, fault)) => Err(UnopenedPair {
                first,
                second,
                fault: PairFault::First(fault),
            }),
        },
    }
}
