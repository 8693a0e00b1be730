//! Lines answered over the session that a disk holds, which is opened for it.
ghost use Rattle.std.specs.Prelude.{◌≡◌, [], false, Err, MatchResult, ◌*◌};
ghost use Rattle.line_text.specs.Streams.{stream};
ghost use Rattle.sector_disk.specs.File.{file_disk};
ghost use Rattle.club_commands.specs.declared.fault.SystemFault.TheVariants.{Listener};
ghost use Rattle.club_commands.specs.Serving.{unknown, ServesConnections, ServesPort};
ghost use Rattle.club_commands.specs.Works.{ServesDisk, ServesWith};

use crate::fault::{RunFault, SystemFault};
use crate::machine::Host;
use crate::script::serve_store;
use crate::serving::serve_connections;
use crate::web::show_over;
use crate::work::Service;
use bridge_endings::Cache;
use club_disk::{ClubDisk, ClubStore, Left, open_session, with_disk};
use desk_replies::Desk;
use session_store::StoreFault;
use std::alloc::{AllocError, Global};
use std::io::{self, Read, Write};
use std::net::{Ipv4Addr, SocketAddr, TcpListener};

/// How many endings are kept for the answers to `SOLVE`.
const CACHED_ENDINGS: usize = 4096;

/// Opens the session that a disk holds, answers lines over it, and hands the disk out.
pub fn serve_over<S: Host, R: Read, W: Write>(
    rt: &S,
    alloc: Global,
    service: &Service<'_>,
    disk: ClubDisk,
    input: &mut R,
    output: &mut W,
) -> Left<ClubDisk, RunFault>
    ensures { ServesDisk (stream R.remaining input.old input.new) (stream W.contents output.old output.new) result.ended
        service.now disk result.disk }
{
    match open_session(alloc, disk) {
        Ok(store) => {
            let cache = Cache::new(alloc, CACHED_ENDINGS);
            serve_with(rt, alloc, service, cache, store, input, output)
        }
        Err((disk, cause)) => Left {
            disk,
            ended: Err(RunFault::Store(cause)),
        },
    }
}

/// Answers lines over a store, where there was memory for a cache of endings, and hands its disk out. What was given for the
/// cache is handed in, since only so a clause can say what comes of it.
fn serve_with<S: Host, R: Read, W: Write>(
    rt: &S,
    alloc: Global,
    service: &Service<'_>,
    cache: Result<Cache, AllocError>,
    store: ClubStore,
    input: &mut R,
    output: &mut W,
) -> Left<ClubDisk, RunFault>
    requires works { store.failed ≡ false }
    requires none_pending { store.pending ≡ [] }
    ensures { ServesWith (stream R.remaining input.old input.new) (stream W.contents output.old output.new) result.ended
        cache service.now store result.disk }
{
    let Ok(mut cache) = cache else {
        return with_disk(store, Err(RunFault::Store(StoreFault::NoMemory)));
    };
    let mut store = store;
    match *service {
        Service::Input(set) => {
            let ended = serve_store(set, &mut store, &mut cache, input, output);
            with_disk(store, ended)
        }
        Service::Connections { port, count } => {
            let ended = listen(rt, port, count, &mut store, &mut cache);
            with_disk(store, ended)
        }
        Service::Pages { shown, disk } => {
            let desk = Desk::new(seconds_of(shown.minutes), disk);
            show_over(rt, alloc, &shown, store, cache, desk, output)
        }
    }
}

/// The seconds of so many minutes.
fn seconds_of(minutes: u16) -> u32
    ensures { result ≡ 60 * minutes }
{
    60 * u32::from(minutes)
}

/// Serves the lines of so many connections over a store, where there is a listener. What was found is handed in, since only so
/// a clause can say what comes of it.
fn serve_heard<N: Host>(
    rt: &N,
    found: io::Result<TcpListener>,
    count: u16,
    store: &mut ClubStore,
    cache: &mut Cache,
) -> Result<(), RunFault>
    requires works { store.old.failed ≡ false }
    requires none_pending { store.old.pending ≡ [] }
    ensures { MatchResult found (λ _. ServesConnections file_disk unknown unknown count store.old store.new result)
        (λ _. (result ≡ Err (RunFault.System Listener)) × (store.new ≡ store.old)) }
{
    match found {
        Ok(listener) => serve_connections(rt, &listener, count, store, cache),
        Err(_) => Err(RunFault::System(SystemFault::Listener)),
    }
}

/// Listens at a port of 127.0.0.1, and serves so many connections over a store.
fn listen<N: Host>(
    rt: &N,
    port: u16,
    count: u16,
    store: &mut ClubStore,
    cache: &mut Cache,
) -> Result<(), RunFault>
    requires works { store.old.failed ≡ false }
    requires none_pending { store.old.pending ≡ [] }
    ensures { ServesPort count store.old store.new result }
{
    let found = TcpListener::bind(rt, SocketAddr::from((Ipv4Addr::LOCALHOST, port)));
    serve_heard(rt, found, count, store, cache)
}
