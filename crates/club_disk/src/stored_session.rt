//! The session that a disk holds.
ghost use Rattle.std.specs.Prelude.{◌≡◌, [], false, IfOk, IfErr};
ghost use Rattle.session_store.specs.Stands.{header_in};
ghost use Rattle.club_disk.specs.Stored.{OpensSession, RefusesDisk, ReadsSession, RefusesReading};

use bridge_session::Session;
use sector_disk::SectorDisk;
use session_store::{Reading, Store, StoreFault, read_state};
use std::alloc::Global;

/// Opens the session that a disk holds, which begins a new epoch of its store. The disk comes back at an error.
pub fn open_session<D: SectorDisk + Drop>(
    alloc: Global,
    disk: D,
) -> Result<Store<D, Session>, (D, StoreFault)>
    ensures opened { IfOk result (OpensSession D.disk disk) }
    ensures begins { IfOk result (λ store. (store.failed ≡ false) × (store.pending ≡ [])) }
    ensures fault { IfErr result (λ e. RefusesDisk D.disk disk e.0 e.1) }
{
    match Store::open(alloc, disk) {
        Ok(store) => Ok(store),
        Err((disk, fault)) => Err((disk, fault)),
    }
}

/// The session that a disk holds, read of it; nothing is written.
pub fn read_disk<D: SectorDisk>(alloc: Global, disk: &mut D) -> Result<Session, StoreFault>
    ensures read { IfOk result (ReadsSession D.disk disk.old disk.new) }
    ensures fault { IfErr result (RefusesReading D.disk header_in disk.old disk.new) }
{
    match read_state::<D, Session>(alloc, disk) {
        Ok(found) => {
            let Reading { state, .. } = found;
            Ok(state)
        }
        Err(fault) => Err(fault),
    }
}
