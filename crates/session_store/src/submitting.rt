//! Taking actions.
ghost use Rattle.std.specs.Prelude.{◌≡◌, ◌<◌, ◌≤◌, ◌+◌, ◌-◌, ◌^◌, length, false, OnOk};
ghost use Rattle.sector_disk.specs.Calls.{WriteCall};
ghost use Rattle.session_store.specs.Form.{record_sector};
ghost use Rattle.session_store.specs.Answers.{Submits, accepted_by};
ghost use Rattle.session_store.specs.Layout.{journal_place, record_limit, sector_count};
ghost use Rattle.session_store.specs.Sound.{StandsOnlyFor};
ghost use Rattle.session_store.specs.Store.{Continues, IsSoundStore};

use crate::sectors::make_sector;
use crate::{DiskFormat, Kept, Store, SubmitFault};
use arrayvec::ArrayVec;
use sector_disk::{DiskFault, SectorDisk};

/// The number of records that the journal has room for.
pub(crate) const RECORDS: u32 = 1024;

/// The first sector of the journal.
pub(crate) const JOURNAL: u32 = 1024;

/// Writes the action as a record of this epoch and number, of the second format.
fn write_record<D: SectorDisk, K: Kept>(
    disk: &mut D,
    epoch: u64,
    number: u32,
    action: &K::Action,
) -> Result<(), DiskFault>
    requires sectors { sector_count ≤ D.disk.count disk.old }
    requires room { number < record_limit }
    ensures call { WriteCall D.disk disk.old disk.new (journal_place + number) (record_sector K.kept epoch number action.now) result }
    ensures action { K.kept.IsAction action.now }
{
    let mut bytes = ArrayVec::new();
    K::write_action(action, &mut bytes);
    let sector = make_sector(
        &DiskFormat::Two.record_mark(),
        epoch,
        number,
        bytes.as_slice(),
    );
    disk.write(JOURNAL + number, &sector)
}

impl<D: SectorDisk + Drop, K: Kept> Store<D, K> {
    /// Takes an action and writes a record of it.
    fn submit_record(&mut self, action: &K::Action) -> Result<(), SubmitFault<K::Refusal>>
        requires works { self.old.failed ≡ false }
        requires batch { length self.old.pending < 64 }
        requires room { self.old.records < record_limit }
        ensures answer { Submits K.kept D.disk self.old action.now self.new result }
        ensures continues { Continues K.kept D.disk self.old (accepted_by action.now result) self.new }
        ensures no_fault { OnOk result (D.disk.faults self.new.disk ≡ D.disk.faults self.old.disk) }
    {
        match self.state.step(action) {
            Err(refusal) => Err(SubmitFault::Refused(refusal)),
            Ok(()) => {
                let number = self.records;
                self.pending.push(*action);
                self.records += 1;
                match write_record::<D, K>(&mut self.disk, self.epoch, number, action) {
                    Ok(()) => Ok(()),
                    Err(_) => {
                        self.failed = true;
                        Err(SubmitFault::Disk)
                    }
                }
            }
        }
    }

    /// Takes an action and makes a checkpoint that holds it.
    fn submit_snapshot(&mut self, action: &K::Action) -> Result<(), SubmitFault<K::Refusal>>
        requires works { self.old.failed ≡ false }
        requires batch { length self.old.pending < 64 }
        requires full { self.old.records ≡ record_limit }
        requires room { self.old.epoch < 2 ^ 64 - 1 }
        ensures answer { Submits K.kept D.disk self.old action.now self.new result }
        ensures continues { Continues K.kept D.disk self.old (accepted_by action.now result) self.new }
        ensures no_fault { OnOk result (D.disk.faults self.new.disk ≡ D.disk.faults self.old.disk) }
        ensures stands { IsSoundStore K.kept D.disk self.old
            → OnOk result (StandsOnlyFor K.kept D.disk self.new.state self.new.disk) }
    {
        match self.state.step(action) {
            Err(refusal) => Err(SubmitFault::Refused(refusal)),
            Ok(()) => {
                self.pending.push(*action);
                match self.take_snapshot() {
                    Ok(()) => Ok(()),
                    Err(_) => Err(SubmitFault::Disk),
                }
            }
        }
    }

    /// Takes an action: it is in the state and pending, and one record is written, or, where the journal is full, a
    /// checkpoint is made that holds it. `Failed` where a call of the disk had failed before, `Batch` where 64 actions
    /// are pending, `EpochsSpent` where the journal is full and the epoch is 2^64 - 1, `Refused` where the state
    /// refuses the action, and then nothing changes; `Disk` where a call of the disk failed: the action is in the
    /// state, a power cut may keep or lose it, and from then on `submit`, `confirm` and `checkpoint` answer `Failed`.
    pub fn submit(&mut self, action: &K::Action) -> Result<(), SubmitFault<K::Refusal>>
        ensures answer { Submits K.kept D.disk self.old action.now self.new result }
        ensures continues { Continues K.kept D.disk self.old (accepted_by action.now result) self.new }
        ensures no_fault { OnOk result (D.disk.faults self.new.disk ≡ D.disk.faults self.old.disk) }
        ensures checkpointed { IsSoundStore K.kept D.disk self.old → self.old.records ≡ record_limit
            → OnOk result (StandsOnlyFor K.kept D.disk self.new.state self.new.disk) }
    {
        if self.failed {
            return Err(SubmitFault::Failed);
        }
        if self.pending.is_full() {
            return Err(SubmitFault::Batch);
        }
        if self.records < RECORDS {
            return self.submit_record(action);
        }
        if self.epoch == u64::MAX {
            return Err(SubmitFault::EpochsSpent);
        }
        self.submit_snapshot(action)
    }
}
