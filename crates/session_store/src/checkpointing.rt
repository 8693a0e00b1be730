//! Making checkpoints.
ghost use Rattle.std.specs.Prelude.{◌≡◌, ◌<◌, ◌+◌, ◌-◌, ◌^◌, [], MatchResult, OnOk};
ghost use Rattle.session_store.specs.Answers.{Checkpoints, after_fault, after_snapshot};
ghost use Rattle.session_store.specs.Snapshot.{WritesSnapshot};
ghost use Rattle.session_store.specs.Sound.{StandsOnlyFor};
ghost use Rattle.session_store.specs.Store.{Continues, IsSoundStore};

use crate::confirming::catch_up;
use crate::snapshot::write_snapshot;
use crate::{CheckpointFault, Kept, Store};
use sector_disk::{DiskFault, SectorDisk};

impl<D: SectorDisk + Drop, K: Kept> Store<D, K> {
    /// Writes a snapshot of the state for the next epoch into the other snapshot, and goes on in that epoch.
    pub(crate) fn take_snapshot(&mut self) -> Result<(), DiskFault>
        requires { self.old.epoch < 2 ^ 64 - 1 }
        ensures answer { MatchResult result (λ _. self.new ≡ after_snapshot self.old self.new.disk)
            (λ _. self.new ≡ after_fault self.old self.new.disk) }
        ensures written { WritesSnapshot K.kept D.disk self.old.disk self.new.disk (self.old.epoch + 1) self.old.state result }
    {
        match write_snapshot(&mut self.disk, self.epoch + 1, &self.state) {
            Ok(()) => {
                catch_up(&mut self.base, &mut self.pending);
                self.epoch += 1;
                self.records = 0;
                Ok(())
            }
            Err(fault) => {
                self.failed = true;
                Err(fault)
            }
        }
    }

    /// Writes the state as a snapshot of the next epoch, after which nothing is pending. `Failed` where a call of the
    /// disk had failed before, `EpochsSpent` where the epoch is 2^64 - 1, and then nothing changes; `Disk` where a
    /// call of the disk failed, after which `submit`, `confirm` and `checkpoint` answer `Failed`.
    pub fn checkpoint(&mut self) -> Result<(), CheckpointFault>
        ensures answer { Checkpoints K.kept D.disk self.old self.new result }
        ensures continues { Continues K.kept D.disk self.old [] self.new }
        ensures no_fault { OnOk result (D.disk.faults self.new.disk ≡ D.disk.faults self.old.disk) }
        ensures stands { IsSoundStore K.kept D.disk self.old
            → OnOk result (StandsOnlyFor K.kept D.disk self.new.state self.new.disk) }
    {
        if self.failed {
            return Err(CheckpointFault::Failed);
        }
        if self.epoch == u64::MAX {
            return Err(CheckpointFault::EpochsSpent);
        }
        match self.take_snapshot() {
            Ok(()) => Ok(()),
            Err(_) => Err(CheckpointFault::Disk),
        }
    }
}
