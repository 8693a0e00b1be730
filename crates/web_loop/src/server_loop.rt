//! The server's loop.
ghost use Rattle.std.specs.Prelude.{◌≡◌, ◌<◌, ℕ, true, OnOk, OnErr};
ghost use Rattle.web_loop.specs.Connected.{AreLimited, KeepsLimits};
ghost use Rattle.web_loop.specs.Turns.{LeadsTo};
ghost use Rattle.web_loop.specs.Serving.{IsRound, LastRounds, LetsInSome, Rounds, Serves};

use crate::clients::{Clients, MOST_CLIENTS};
use crate::readiness::Readiness;
use crate::service::LastingService;
use std::io;
use std::net::{Net, OpenListener};
use std::os::fd::AsRawFd;
use std::time::{Clock, Duration, Instant};

/// The most rounds in which what is pending is sent at the end.
const LAST_ROUNDS: u64 = 100_000;

/// How long they take at most, in seconds.
const LAST_SECONDS: u64 = 1;

/// Takes connections that wait at the listener, 128 at most.
fn admit_waiting<N: Net>(
    listener: &N::Listener,
    readiness: &Readiness,
    clients: &mut Clients<N::Stream>,
    now: Instant,
)
where
    N::Stream: AsRawFd,
    ensures came { LetsInSome now clients.old clients.new }
    ensures limits { KeepsLimits clients.old clients.new }
{
    for _ in 0..MOST_CLIENTS {
        match listener.accept() {
            Ok((stream, peer)) => {
                readiness.watch(&stream);
                let _ = clients.admit(stream, peer.ip(), now);
            }
            Err(_) => return,
        }
    }
}

/// One round: takes who waits at the listener, and gives each client its turn. Where none of them did anything it waits until
/// a socket moves.
fn take_round<N: Net + Clock, S: LastingService>(
    rt: &N,
    listener: &N::Listener,
    readiness: &mut Readiness,
    clients: &mut Clients<N::Stream>,
    service: &mut S,
) -> io::Result<()>
where
    N::Stream: AsRawFd,
    requires lasts { S.lasts service.old ≡ true }
    ensures leads { LeadsTo S.answers service.old service.new }
    ensures round { OnOk result (IsRound S.lasts S.answers S.stays S.wish S.waits S.offences N.Stream.remaining N.Stream.contents clients.old clients.new service.old service.new) }
    ensures none { OnErr result ((clients.new ≡ clients.old) × (service.new ≡ service.old)) }
    ensures limits { KeepsLimits clients.old clients.new }
{
    let now = Instant::now(rt)?;
    admit_waiting::<N>(listener, readiness, clients, now);
    if !clients.take_turns(service, now) {
        readiness.wait(rt);
    }
    Ok(())
}

/// Gives clients their turns until nothing is pending, for about a second at most. What is put off is so no longer.
fn send_pending<N: Net + Clock, S: LastingService>(
    rt: &N,
    readiness: &mut Readiness,
    clients: &mut Clients<N::Stream>,
    service: &mut S,
) -> io::Result<()>
    ensures leads { LeadsTo S.answers service.old service.new }
    ensures rounds { (count : ℕ) × LastRounds S.lasts S.answers S.stays S.wish S.waits S.offences N.Stream.remaining N.Stream.contents count clients.old clients.new service.old service.new × OnOk result (0 < count) }
    ensures limits { KeepsLimits clients.old clients.new }
{
    let begun = Instant::now(rt)?;
    for _ in 0..LAST_ROUNDS {
        let now = Instant::now(rt)?;
        clients.release();
        let moved = clients.take_turns(service, now);
        clients.release();
        let is_late = now.duration_since(begun) >= Duration::from_secs(LAST_SECONDS);
        if is_late || !clients.has_pending() {
            return Ok(());
        }
        if !moved {
            readiness.wait(rt);
        }
    }
    Ok(())
}

/// Takes rounds until so much time has passed since the beginning, or as long as the service lasts.
fn take_rounds_for<N: Net + Clock, S: LastingService>(
    rt: &N,
    listener: &N::Listener,
    readiness: &mut Readiness,
    clients: &mut Clients<N::Stream>,
    service: &mut S,
    begun: Instant,
    length: Duration,
) -> io::Result<()>
where
    N::Stream: AsRawFd,
    ensures leads { LeadsTo S.answers service.old service.new }
    ensures rounds { (count : ℕ) × Rounds S.lasts S.answers S.stays S.wish S.waits S.offences N.Stream.remaining N.Stream.contents count clients.old clients.new service.old service.new }
    ensures limits { KeepsLimits clients.old clients.new }
{
    for _ in 0..u64::MAX {
        if !service.lasts() || begun.elapsed(rt)? >= length {
            return Ok(());
        }
        take_round(rt, listener, readiness, clients, service)?;
    }
    Ok(())
}

/// Serves the connections of a listener that does not block for so many minutes, or as long as the service lasts, and then
/// sends what is pending, for about a second at most. The clients have the limits that the service asks for. Where nobody asks for anything it sleeps. The
/// error is that the clock cannot be read.
pub fn serve_minutes<N: Net + Clock, S: LastingService>(
    rt: &N,
    listener: &N::Listener,
    clients: &mut Clients<N::Stream>,
    service: &mut S,
    minutes: u16,
) -> io::Result<()>
where
    N::Listener: AsRawFd,
    N::Stream: AsRawFd,
    requires limits { S.limits clients.old.config }
    requires limited { AreLimited clients.old.config clients.old.connected }
    ensures leads { LeadsTo S.answers service.old service.new }
    ensures serves { Serves S.lasts S.answers S.stays S.wish S.waits S.offences N.Stream.remaining N.Stream.contents result clients.old clients.new service.old service.new }
    ensures config { clients.new.config ≡ clients.old.config }
    ensures limited { AreLimited clients.new.config clients.new.connected }
{
    let begun = Instant::now(rt)?;
    let length = Duration::from_secs(60 * u64::from(minutes));
    let mut readiness = Readiness::new(rt, clients.alloc());
    readiness.watch(listener);
    take_rounds_for(
        rt,
        listener,
        &mut readiness,
        clients,
        service,
        begun,
        length,
    )?;
    send_pending(rt, &mut readiness, clients, service)
}
