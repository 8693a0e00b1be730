//! Why a call of a store fails.
use crate::room::NoRoom;
use sector_disk::DiskFault;
use std::fmt::{Debug, Display};
use thiserror::Error;

/// Why a disk was not formatted or not opened.
#[derive(Clone, Copy, Debug, PartialEq, Eq, Error)]
pub enum StoreFault {
    /// The disk has fewer than 2,048 sectors.
    #[error("disk too small")]
    TooSmall,
    /// A call of the disk failed.
    #[error("disk fault")]
    Disk,
    /// Neither snapshot has a header.
    #[error("not formatted")]
    NotFormatted,
    /// The sector of this number is out of form, or what it holds is not of a state.
    #[error("damaged sector {0}")]
    Damaged(u32),
    /// The epoch is 2^64 - 1, and there is none after it.
    #[error("epochs spent")]
    EpochsSpent,
    /// Out of memory.
    #[error("no memory")]
    NoMemory,
}

/// Why the state of a disk was not read.
#[derive(Clone, Copy)]
pub(crate) enum ReadFault {
    /// A call of the disk failed.
    Disk,
    /// Neither snapshot has a header.
    NotFormatted,
    /// The epoch is 2^64 - 1, and there is none after it.
    EpochsSpent,
    /// The sector of this number is out of form, or what it holds is not of a state.
    Damaged(u32),
    /// Memory was refused.
    NoMemory(NoRoom),
}

impl From<DiskFault> for ReadFault {
    ghost use Rattle.std.specs.Prelude.{◌≡◌};
    ghost use Rattle.session_store.specs.declared.fault.ReadFault.TheVariants.{Disk as DiskFailed};

    ghost from_gives = { λ _ fault. fault ≡ DiskFailed };

    fn from(_: DiskFault) -> ReadFault {
        ReadFault::Disk
    }
}

impl From<NoRoom> for ReadFault {
    ghost use Rattle.std.specs.Prelude.{◌≡◌};
    ghost use Rattle.session_store.specs.declared.fault.ReadFault.TheVariants.{NoMemory as NoRoomLeft};

    ghost from_gives = { λ room fault. fault ≡ NoRoomLeft room };

    fn from(room: NoRoom) -> ReadFault {
        ReadFault::NoMemory(room)
    }
}

impl From<ReadFault> for StoreFault {
    ghost use Rattle.std.specs.Prelude.{◌≡◌};
    ghost use Rattle.session_store.specs.ReadFaults.{store_fault};

    ghost from_gives = { λ fault told. told ≡ store_fault fault };

    fn from(fault: ReadFault) -> StoreFault {
        match fault {
            ReadFault::Disk => StoreFault::Disk,
            ReadFault::NotFormatted => StoreFault::NotFormatted,
            ReadFault::EpochsSpent => StoreFault::EpochsSpent,
            ReadFault::Damaged(sector) => StoreFault::Damaged(sector),
            ReadFault::NoMemory(_) => StoreFault::NoMemory,
        }
    }
}

/// Why no state was made of parts.
#[derive(Clone, Copy, Debug, PartialEq, Eq, Error)]
pub enum PartsFault {
    /// They are not the parts of a state.
    #[error("bad parts")]
    Bad,
    /// Out of memory.
    #[error("no memory")]
    Memory,
}

/// Why an action was not taken, or not written.
#[derive(Debug, Drop, Error)]
#[error_bound(R: Debug + Display)]
pub enum SubmitFault<R> {
    /// A call of the disk had failed before.
    #[error("the disk had failed before")]
    Failed,
    /// 64 actions are pending.
    #[error("too many actions are pending")]
    Batch,
    /// The journal is full, and the epoch is 2^64 - 1.
    #[error("epochs spent")]
    EpochsSpent,
    /// The action was refused.
    #[error("action refused: {0}")]
    Refused(R),
    /// A call of the disk failed. The action is in the state, and may be lost or kept.
    #[error("disk fault")]
    Disk,
}

/// Why pending actions were not confirmed.
#[derive(Clone, Copy, Debug, PartialEq, Eq, Error)]
pub enum ConfirmFault {
    /// A call of the disk had failed before.
    #[error("the disk had failed before")]
    Failed,
    /// A call of the disk failed.
    #[error("disk fault")]
    Disk,
}

/// Why no checkpoint was made.
#[derive(Clone, Copy, Debug, PartialEq, Eq, Error)]
pub enum CheckpointFault {
    /// A call of the disk had failed before.
    #[error("the disk had failed before")]
    Failed,
    /// The epoch is 2^64 - 1, and there is none after it.
    #[error("epochs spent")]
    EpochsSpent,
    /// A call of the disk failed.
    #[error("disk fault")]
    Disk,
}

impl From<CheckpointFault> for StoreFault {
    ghost use Rattle.std.specs.Prelude.{◌≡◌};
    ghost use Rattle.session_store.specs.ReadFaults.{checkpoint_fault};

    ghost from_gives = { λ fault told. told ≡ checkpoint_fault fault };

    fn from(fault: CheckpointFault) -> StoreFault {
        match fault {
            CheckpointFault::EpochsSpent => StoreFault::EpochsSpent,
            CheckpointFault::Failed | CheckpointFault::Disk => StoreFault::Disk,
        }
    }
}

/// Why a pair of disks was not opened.
#[derive(Clone, Copy, Debug, PartialEq, Eq, Error)]
pub enum PairFault {
    /// The first disk was not opened, or a call of it failed.
    #[error("the first disk: {0}")]
    First(StoreFault),
    /// The second disk is too small, or a call of it failed before anything was written there.
    #[error("the second disk: {0}")]
    Second(StoreFault),
    /// The second disk is of a later epoch than the first.
    #[error("the second disk is newer")]
    SecondNewer,
}
