//! Confirming what is pending.
ghost use Rattle.std.specs.Prelude.{◌≡◌, [], OnOk, Some, IsSome};
ghost use Rattle.session_store.specs.Keeping.{fold};
ghost use Rattle.session_store.specs.Answers.{Confirms};
ghost use Rattle.session_store.specs.Sound.{StandsOnlyFor};
ghost use Rattle.session_store.specs.Store.{Continues, IsSoundStore};

use crate::{ConfirmFault, Kept, MOST_PENDING, Store};
use arrayvec::ArrayVec;
use sector_disk::SectorDisk;

/// Takes the pending actions on the base, which accepts each of them; none is pending then.
pub(crate) fn catch_up<K: Kept>(base: &mut K, pending: &mut ArrayVec<K::Action, MOST_PENDING>)
    requires { IsSome (fold K.kept base.old pending.old.items) }
    ensures base { fold K.kept base.old pending.old.items ≡ Some base.new }
    ensures none { pending.new.items ≡ [] }
{
    for action in pending.as_slice() {
        let _ = base.step(action);
    }
    pending.clear();
}

impl<D: SectorDisk + Drop, K: Kept> Store<D, K> {
    /// Confirms all pending actions by one sync: from then on no power cut loses them. With none pending no call of
    /// the disk is made. `Failed` where a call of the disk had failed before, and then nothing changes; `Disk` where
    /// the sync failed, after which `submit`, `confirm` and `checkpoint` answer `Failed`.
    pub fn confirm(&mut self) -> Result<(), ConfirmFault>
        ensures answer { Confirms K.kept D.disk self.old self.new result }
        ensures continues { Continues K.kept D.disk self.old [] self.new }
        ensures no_fault { OnOk result (D.disk.faults self.new.disk ≡ D.disk.faults self.old.disk) }
        ensures stands { IsSoundStore K.kept D.disk self.old
            → OnOk result (StandsOnlyFor K.kept D.disk self.new.state self.new.disk) }
    {
        if self.failed {
            return Err(ConfirmFault::Failed);
        }
        if self.pending.is_empty() {
            return Ok(());
        }
        match self.disk.sync() {
            Ok(()) => {
                catch_up(&mut self.base, &mut self.pending);
                Ok(())
            }
            Err(_) => {
                self.failed = true;
                Err(ConfirmFault::Disk)
            }
        }
    }
}
