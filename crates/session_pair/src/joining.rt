//! A session opened on two disks.
ghost use Rattle.std.specs.Prelude.{◌≡◌, ◌↔◌, true, IfOk, IfErr};
ghost use Rattle.std.specs.Bool.{Decides};
ghost use Rattle.session_pair.specs.Joining.{IsJudged, IsUnjudged, HasJoined, IsLacking, IsLackingInGreater, MayFollow, SeesBoth, IsOne};
ghost use Rattle.session_pair.specs.Unjoined.{pair_fault, AreInOrder, CannotJudge, IsNotJoined, IsUnopened};
ghost use Rattle.session_pair.specs.Choosing.{ComesFirst};
ghost use Rattle.sector_disk.specs.Runs.{Quiet};
ghost use Rattle.session_store.specs.PairOpening.{IsPairOpened};
ghost use Rattle.bridge_session.specs.SessionKeeping.{session_keeping};

use crate::comes_first;
use bridge_movement::Row;
use bridge_session::Session;
use sector_disk::SectorDisk;
use session_store::{
    PairFault, Reading, Store, StoreFault, UnopenedPair, is_same_state, open_pair, read_state,
};
use std::alloc::{AllocError, Global};
use std::cmp::Ordering;

/// Why a session was not opened on two disks. Nothing was written where how they stand was not found.
#[derive(Clone, Copy, Debug, PartialEq, Eq)]
pub enum JoinFault {
    /// The disk gives no session, a call of it failed, or memory was refused.
    Disk(StoreFault),
    /// The copy gives no session, or a call of it failed.
    Copy(StoreFault),
    /// The copy holds a session of another configuration.
    OtherSession,
    /// The disks are of different epochs, and the session of the greater one lacks something of the other: of the plays of that
    /// row, the first of such, or else the round or a deal.
    OtherPlays(Option<Row>),
}

/// How two disks of one session stand to each other.
#[derive(Clone, Copy, Debug, PartialEq, Eq)]
pub struct Judged {
    /// Whether the disk is taken first, and not the copy.
    pub disk_first: bool,
    /// Whether both hold the same.
    pub was_level: bool,
}

/// A session opened on two disks.
#[derive(Drop)]
pub struct Joined<S: Drop> {
    /// The store of the disk that was taken first.
    pub first: S,
    /// The store of the other.
    pub second: S,
    /// How they stood to each other.
    pub judged: Judged,
}

/// Both disks on which no session was opened, and why.
#[derive(Drop)]
pub struct Unjoined<D: Drop> {
    /// The disk.
    pub disk: D,
    /// The copy.
    pub copy: D,
    /// Why no session was opened on them.
    pub fault: JoinFault,
}

/// Whether two sessions are of one configuration.
fn is_one_configuration(alloc: Global, session: Session, other: Session) -> Result<bool, AllocError>
    ensures { IfOk result (λ same. (same ≡ true) ↔ (session.configuration ≡ other.configuration)) }
{
    let opening = Session::new(alloc, session.into_config())?;
    let other_opening = Session::new(alloc, other.into_config())?;
    Ok(is_same_state(&opening, &other_opening))
}

/// How two disks stand to each other, by what was read of them.
fn stand_so(disk: &Reading<Session>, copy: &Reading<Session>) -> Judged
    ensures first { (result.disk_first ≡ true) ↔ ComesFirst disk.now.epoch disk.now.records copy.now.epoch copy.now.records }
    ensures level { (result.was_level ≡ true) ↔ (disk.now.state ≡ copy.now.state) }
{
    Judged {
        disk_first: comes_first(disk, copy),
        was_level: is_same_state(&disk.state, &copy.state),
    }
}

/// Whether two disks are of one epoch, in which each has all that was told while both were kept, or that of the greater one has
/// all that the other has.
fn may_follow(disk: &Reading<Session>, copy: &Reading<Session>) -> bool
    ensures { Decides result (MayFollow disk.now.state disk.now.epoch copy.now.state copy.now.epoch) }
{
    match disk.epoch.cmp(&copy.epoch) {
        Ordering::Equal => true,
        Ordering::Greater => disk.state.has_all_of(&copy.state),
        Ordering::Less => copy.state.has_all_of(&disk.state),
    }
}

/// The first row of the movement of whose plays something is missing that the other session has.
fn first_lacking(ours: &Session, theirs: &Session) -> Option<Row>
    ensures { IsLacking ours.now theirs.now result }
{
    let rows = ours.config().fields().movement.rows();
    for (index, row) in rows.iter().enumerate() {
        if !ours.has_row_of(theirs, index) {
            return Some(*row);
        }
    }
    None
}

/// The same in the session of the greater epoch.
fn lacking_in_greater(disk: &Reading<Session>, copy: &Reading<Session>) -> Option<Row>
    ensures { IsLackingInGreater disk.now.state disk.now.epoch copy.now.state copy.now.epoch result }
{
    if copy.epoch < disk.epoch {
        first_lacking(&disk.state, &copy.state)
    } else {
        first_lacking(&copy.state, &disk.state)
    }
}

/// How two disks stand to each other, by what was read of them, if they may be joined: they hold the same, or are of one
/// configuration and the one may follow the other.
pub fn judge(
    alloc: Global,
    disk: Reading<Session>,
    copy: Reading<Session>,
) -> Result<Judged, JoinFault>
    ensures judged { IfOk result (IsJudged disk.state disk.epoch disk.records copy.state copy.epoch copy.records) }
    ensures fault { IfErr result (IsUnjudged disk.state disk.epoch copy.state copy.epoch) }
{
    let judged = stand_so(&disk, &copy);
    if judged.was_level {
        return Ok(judged);
    }
    let may_follow = may_follow(&disk, &copy);
    let lacking = lacking_in_greater(&disk, &copy);
    match is_one_configuration(alloc, disk.state, copy.state) {
        Err(_) => Err(JoinFault::Disk(StoreFault::NoMemory)),
        Ok(is_one) => {
            if !is_one {
                return Err(JoinFault::OtherSession);
            }
            if may_follow {
                Ok(judged)
            } else {
                Err(JoinFault::OtherPlays(lacking))
            }
        }
    }
}

/// Reads both disks whole, and says how they stand to each other. Nothing is written.
fn judge_disks<D: SectorDisk>(
    alloc: Global,
    disk: &mut D,
    copy: &mut D,
) -> Result<Judged, JoinFault>
    ensures judged { IfOk result (SeesBoth D.disk disk.old copy.old disk.new copy.new) }
    ensures fault { IfErr result (CannotJudge D.disk disk.old copy.old disk.new copy.new) }
    ensures disk { Quiet D.disk disk.old disk.new }
    ensures copy { Quiet D.disk copy.old copy.new }
{
    match read_state::<D, Session>(alloc, disk) {
        Err(fault) => Err(JoinFault::Disk(fault)),
        Ok(ours) => match read_state::<D, Session>(alloc, copy) {
            Err(fault) => Err(JoinFault::Copy(fault)),
            Ok(theirs) => judge(alloc, ours, theirs),
        },
    }
}

/// Whether both stores work, and nothing is pending in either.
fn are_level<D: SectorDisk + Drop>(first: &Store<D, Session>, second: &Store<D, Session>) -> bool
    ensures { Decides result (IsOne first.now second.now) }
{
    match (first.has_failed(), second.has_failed()) {
        (false, false) => first.pending().is_empty() && second.pending().is_empty(),
        _ => false,
    }
}

/// The fault of the disk that was taken first, or of the other.
fn fault_of(disk_first: bool, fault: PairFault) -> JoinFault
    ensures { result ≡ pair_fault disk_first fault }
{
    match (fault, disk_first) {
        (PairFault::First(fault), true) => JoinFault::Disk(fault),
        (PairFault::First(fault), false) => JoinFault::Copy(fault),
        (PairFault::Second(fault), true) => JoinFault::Copy(fault),
        (PairFault::Second(fault), false) => JoinFault::Disk(fault),
        (PairFault::SecondNewer, _) => JoinFault::OtherPlays(None),
    }
}

/// The disks of a pair that was not opened, of which the disk was the first, or the copy.
fn given_back<D: SectorDisk + Drop>(disk_first: bool, pair: UnopenedPair<D, D>) -> Unjoined<D>
    ensures fault { result.fault ≡ pair_fault disk_first pair.fault }
    ensures disks { AreInOrder disk_first pair.first pair.second result.disk result.copy }
{
    let UnopenedPair {
        first,
        second,
        fault,
    } = pair;
    let fault = fault_of(disk_first, fault);
    if disk_first {
        Unjoined {
            disk: first,
            copy: second,
            fault,
        }
    } else {
        Unjoined {
            disk: second,
            copy: first,
            fault,
        }
    }
}

/// Opens a session on two disks in that order, where both are kept then. One that fails while the other's state is brought to it
/// is the fault.
fn open_both<D: SectorDisk + Drop>(
    alloc: Global,
    judged: Judged,
    first: D,
    second: D,
) -> Result<Joined<Store<D, Session>>, Unjoined<D>>
    ensures opened { IfOk result (λ joined. IsPairOpened session_keeping D.disk D.disk first second joined.first joined.second) }
    ensures judged { IfOk result (λ joined. joined.judged ≡ judged) }
    ensures level { IfOk result (λ joined. IsOne joined.first joined.second) }
    ensures fault { IfErr result (λ e. IsUnopened D.disk judged.disk_first first second e.disk e.copy e.fault) }
{
    match open_pair(alloc, first, second) {
        Ok((first, second)) => {
            if are_level(&first, &second) {
                return Ok(Joined {
                    first,
                    second,
                    judged,
                });
            }
            let unopened = UnopenedPair {
                first: first.into_disk(),
                second: second.into_disk(),
                fault: PairFault::Second(StoreFault::Disk),
            };
            Err(given_back(judged.disk_first, unopened))
        }
        Err(unopened) => Err(given_back(judged.disk_first, unopened)),
    }
}

/// Opens the session that two disks hold. Both are read whole before anything is written. The one of the greater epoch is taken
/// first, and of one epoch that with more records; the other is brought to its state. At an error both come back, only read where
/// how they stand was not found.
pub fn join_disks<D: SectorDisk + Drop>(
    alloc: Global,
    disk: D,
    copy: D,
) -> Result<Joined<Store<D, Session>>, Unjoined<D>>
    ensures joined { IfOk result (λ joined. HasJoined D.disk disk copy joined.judged joined.first joined.second) }
    ensures fault { IfErr result (λ e. IsNotJoined D.disk disk copy e.disk e.copy e.fault) }
{
    let mut disk = disk;
    let mut copy = copy;
    match judge_disks(alloc, &mut disk, &mut copy) {
        Err(fault) => Err(Unjoined { disk, copy, fault }),
        Ok(judged) => {
            if judged.disk_first {
                open_both(alloc, judged, disk, copy)
            } else {
                open_both(alloc, judged, copy, disk)
            }
        }
    }
}
