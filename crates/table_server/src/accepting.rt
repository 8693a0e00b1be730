//! Serving the connections of a listener.
ghost use Rattle.std.specs.Prelude.{◌≡◌, [], false, IfOk, IfErr};
ghost use Rattle.table_server.specs.Accepting.{HasServedOne, StopsAccepting};
ghost use Rattle.table_server.specs.Faulted.{FailsWithDisk};
ghost use Rattle.line_replies.specs.declared.fault.ServeFault.TheVariants.{Accept as AcceptFault};

use crate::line_serving::serve;
use crate::served::Served;
use bridge_endings::Cache;
use bridge_session::Session;
use line_replies::ServeFault;
use sector_disk::SectorDisk;
use session_store::Store;
use std::net::{Net, OpenListener, OpenStream};
use std::time::Duration;

/// How long a read or a write of a connection may take, in seconds.
const PATIENCE: u64 = 30;

/// Has each reply sent at once, and not once the peer has acknowledged the one before, and ends a read or a write after 30
/// seconds. A connection that knows no such setting is served without it.
fn set_up<S: OpenStream>(connection: &S) {
    let patience = Some(Duration::from_secs(PATIENCE));
    let _ = connection.set_nodelay(true);
    let _ = connection.set_read_timeout(patience);
    let _ = connection.set_write_timeout(patience);
}

/// The two sides of a connection of the listener, the one to read at and the one to write at.
fn sides<N: Net>(listener: &N::Listener) -> Result<(N::Stream, N::Stream), ServeFault>
    ensures { IfErr result (λ fault. fault ≡ AcceptFault) }
{
    let (reader, _) = listener.accept().or(Err(ServeFault::Accept))?;
    let writer = reader.try_clone().or(Err(ServeFault::Accept))?;
    set_up(&reader);
    Ok((reader, writer))
}

/// Accepts one connection of the listener and serves its lines over a store, as `serve` does: the lines come in at the
/// connection, and the replies go out at it. It waits for a connection as long as it takes, and for its peer 30 seconds at
/// each read and each write, of which no clause speaks; nor does one of the connection's end, at which it is closed.
/// Nothing may be pending in the store, unless it has failed, and nothing is left pending.
///
/// `Accept` comes where no connection is had, or no second handle of it to write at; the store is then as it was. `Read`
/// and `Write` are faults of this connection, as `serve` has them, and that its peer was silent, or did not read, for 30
/// seconds; another connection may be served after them. That `Accept` comes only there no clause says.
pub fn accept_and_serve<N: Net, D: SectorDisk + Drop>(
    _rt: &N,
    listener: &N::Listener,
    store: &mut Store<D, Session>,
    cache: Option<&mut Cache>,
) -> Result<Served, ServeFault>
    requires { store.old.failed ≡ false → store.old.pending ≡ [] }
    ensures ok { IfOk result (HasServedOne D.disk N.Stream.remaining N.Stream.contents store.old store.new) }
    ensures fault { IfErr result (StopsAccepting D.disk N.Stream.remaining N.Stream.contents store.old store.new) }
    ensures ready { store.new.failed ≡ false → store.new.pending ≡ [] }
    ensures faults { FailsWithDisk D.disk store.old store.new }
{
    let (mut reader, mut writer) = sides::<N>(listener)?;
    serve(store, cache, &mut reader, &mut writer)
}
