//! Connections served over a store, as the command `serve` serves them.
ghost use Rattle.std.specs.Prelude.{◌≡◌, [], false, OnOk, IfErr, OnErr};
ghost use Rattle.line_replies.specs.declared.fault.ServeFault.TheVariants.{Accept as AcceptFault};
ghost use Rattle.table_server.specs.Faulted.{FailsWithDisk};
ghost use Rattle.club_commands.specs.Serving.{ServesNext, ServesConnections};

use crate::fault::RunFault;
use bridge_endings::Cache;
use bridge_session::Session;
use sector_disk::SectorDisk;
use session_store::{Store, StoreFault};
use std::net::Net;
use table_server::{ServeFault, accept_and_serve};

/// Serves the lines of the next connection. A fault of the connection ends it alone; the error is that there was none.
fn serve_next<N: Net, D: SectorDisk + Drop>(
    rt: &N,
    listener: &N::Listener,
    store: &mut Store<D, Session>,
    cache: &mut Cache,
) -> Result<(), ServeFault>
    requires { store.old.failed ≡ false → store.old.pending ≡ [] }
    ensures served { OnOk result (ServesNext D.disk N.Stream.remaining N.Stream.contents store.old store.new) }
    ensures fault { IfErr result (λ fault. fault ≡ AcceptFault) }
    ensures unserved { OnErr result (store.new ≡ store.old) }
    ensures ready { store.new.failed ≡ false → store.new.pending ≡ [] }
    ensures faults { FailsWithDisk D.disk store.old store.new }
{
    match accept_and_serve(rt, listener, store, Some(cache)) {
        Ok(_) => Ok(()),
        Err(ServeFault::Accept) => Err(ServeFault::Accept),
        Err(ServeFault::Read) => Ok(()),
        Err(ServeFault::Write) => Ok(()),
    }
}

/// Serves the lines of so many connections, one after the other, over a store that works. A fault of a connection ends it
/// alone; the run stops after a connection in which the store failed, and at the first time that there is no connection.
pub fn serve_connections<N: Net, D: SectorDisk + Drop>(
    rt: &N,
    listener: &N::Listener,
    count: u16,
    store: &mut Store<D, Session>,
    cache: &mut Cache,
) -> Result<(), RunFault>
    requires works { store.old.failed ≡ false }
    requires none_pending { store.old.pending ≡ [] }
    ensures { ServesConnections D.disk N.Stream.remaining N.Stream.contents count store.old store.new result }
{
    let mut left = count;
    loop {
        if store.has_failed() {
            return Err(RunFault::Store(StoreFault::Disk));
        }
        if left == 0 {
            return Ok(());
        }
        serve_next(rt, listener, store, cache)?;
        left -= 1;
    }
}
