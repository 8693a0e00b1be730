//! Taking changes.
ghost use Rattle.std.specs.Prelude.{◌≡◌, ◌<◌, None, false, true, length};
ghost use Rattle.table_server.specs.Serving.{GivesReply};
ghost use Rattle.table_server.specs.Faulted.{FailsWithDisk};

use bridge_session::{Action, Session};
use line_replies::ShortReply;
use sector_disk::SectorDisk;
use session_store::{Store, SubmitFault};

/// Takes a change, and answers the reply that is due once it is confirmed; `None` where the store accepted the change and
/// then failed, and where it takes none: it had failed, or 64 changes are pending.
pub fn take_change<D: SectorDisk + Drop>(
    store: &mut Store<D, Session>,
    action: &Action,
) -> Option<ShortReply>
    ensures taken { store.old.failed ≡ false → length store.old.pending < 64
        → GivesReply D.disk store.old action.now store.new result }
    ensures full { store.old.failed ≡ false → length store.old.pending ≡ 64 → result ≡ None }
    ensures failed { store.old.failed ≡ true → result ≡ None }
    ensures faults { FailsWithDisk D.disk store.old store.new }
{
    match store.submit(action) {
        Ok(()) => Some(ShortReply::Done),
        Err(SubmitFault::Refused(refused)) => Some(ShortReply::Refused(refused)),
        Err(SubmitFault::EpochsSpent) => Some(ShortReply::EpochsSpent),
        Err(SubmitFault::Disk) => None,
        Err(SubmitFault::Failed) => None,
        Err(SubmitFault::Batch) => None,
    }
}
