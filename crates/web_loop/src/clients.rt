//! The clients of the server.
ghost use Rattle.std.specs.Prelude.{◌≡◌, ◌≢◌, ◌<◌, ℕ, true, false, [], OnOk, OnErr, if◌then◌else◌};
ghost use Rattle.std.specs.Bool.{Decides};
ghost use Rattle.slab.specs.Slab.{get};
ghost use Rattle.web_loop.specs.Connected.{released, AreLimited, Closes, IsPendingAt, KeepsLimits};
ghost use Rattle.web_loop.specs.Room.{Admits, AdmitsNone};
ghost use Rattle.web_loop.specs.Turns.{LeadsTo};
ghost use Rattle.web_loop.specs.Round.{looks_at, LeavesAfter, TakesRound, TurnsOfAll, StandsAfter};

mod room;

use crate::client::Client;
use crate::offenders::Offenders;
use crate::service::LastingService;
use crate::turn::Turn;
use http_server::{Config, Connection};
use slab::Slab;
use std::alloc::Global;
use std::hash::RandomState;
use std::io;
use std::io::{Read, Write};
use std::net::{IpAddr, OpenStream};
use std::time::{Duration, Instant};

/// The most clients at once.
pub const MOST_CLIENTS: usize = 128;

/// So many seconds after the last time all are looked at for what they wish, also where none did anything.
const LONGEST_UNLOOKED: u64 = 1;

/// The clients that are connected, at most 128, and the addresses from which offences came.
#[derive(Drop)]
pub struct Clients<T> {
    /// Where connections are made.
    alloc: Global,
    /// The secret keys by which names of headers are looked up.
    keys: RandomState,
    /// The limits of each connection.
    config: Config,
    /// Those that are connected.
    connected: Slab<Client<T>>,
    /// The addresses from which offences came.
    offenders: Offenders,
    /// Whether any of them did something in the last turns.
    moved: bool,
    /// When all of them were last looked at for what they wish.
    looked: Instant,
}

impl<T: Read + Write + OpenStream + Drop> Clients<T> {
    /// No client, at the beginning of a server's run. The limits of each connection are those of `config`, and the names of
    /// headers, which a peer chooses, are looked up by secret keys.
    pub fn new(alloc: Global, keys: RandomState, config: Config, begun: Instant) -> Clients<T>
        ensures config { result.config ≡ config }
        ensures none { result.connected.slots ≡ [] }
        ensures limits { AreLimited config result.connected }
        ensures offenders { (result.offenders.known.items ≡ []) × (result.offenders.begun ≡ begun) }
        ensures looked { (result.moved ≡ false) × (result.looked ≡ begun) }
    {
        Clients {
            alloc,
            keys,
            config,
            connected: Slab::new(alloc),
            offenders: Offenders::new(begun),
            moved: false,
            looked: begun,
        }
    }

    /// Where connections are made.
    pub(crate) fn alloc(&self) -> Global {
        self.alloc
    }

    /// Takes a new client from an address. Where 128 are connected, the one that has been silent the longest gives way; where
    /// another address is connected, so do those of this one above 63, and those of the other above 64. The error is the
    /// socket's, or that memory was refused: then the stream is closed, and those that gave way are gone.
    pub fn admit(&mut self, stream: T, address: IpAddr, now: Instant) -> io::Result<()>
        ensures rest { self.new ≡ record self.old { connected = self.new.connected } }
        ensures admitted { OnOk result (Admits stream address now self.old self.new) }
        ensures err { OnErr result (AdmitsNone address self.old self.new) }
        ensures limits { KeepsLimits self.old self.new }
    {
        stream.set_nonblocking(true)?;
        let _ = stream.set_nodelay(true);
        let writer = stream.try_clone()?;
        self.make_room(address);
        self.connected.reserve(1)?;
        let connection = Connection::new(self.alloc, self.keys, self.config);
        self.connected
            .insert_reserved(Client::new(connection, stream, writer, address, now));
        Ok(())
    }

    /// Closes the connection of the client under a key, if there is one.
    fn close(&mut self, key: usize)
        ensures { Closes key self.old self.new }
    {
        self.connected.try_remove(key);
    }

    /// Whether an answer to any of them is to be sent and not sent yet. One that is put off is not.
    pub fn has_pending(&self) -> bool
        ensures some { result ≡ true → (key : ℕ) × IsPendingAt (get self.now.connected key) }
        ensures none { result ≡ false → (key : ℕ) → key < self.now.connected.capacity → ¬ (IsPendingAt (get self.now.connected key)) }
    {
        for key in 0..self.connected.capacity() {
            if self.is_pending_at(key) {
                return true;
            }
        }
        false
    }

    /// The same of the client under a key, if there is one.
    fn is_pending_at(&self, key: usize) -> bool
        ensures { Decides result (IsPendingAt (get self.now.connected key)) }
    {
        match self.connected.get(key) {
            Some(client) => client.is_pending(),
            None => false,
        }
    }

    /// Has the answers sent that are put off.
    pub fn release(&mut self)
        ensures released { (key : ℕ) → get self.new.connected key ≡ released (get self.old.connected key) }
        ensures rest { self.new ≡ record self.old { connected = self.new.connected } }
        ensures limits { KeepsLimits self.old self.new }
    {
        for key in 0..self.connected.capacity() {
            self.release_at(key);
        }
    }

    /// Has the answer sent that is put off for the client under a key, if there is one.
    fn release_at(&mut self, key: usize)
        ensures released { get self.new.connected key ≡ released (get self.old.connected key) }
        ensures others { (other : ℕ) → other ≢ key → get self.new.connected other ≡ get self.old.connected other }
        ensures rest { self.new ≡ record self.old { connected = self.new.connected } }
        ensures limits { KeepsLimits self.old self.new }
    {
        if let Some(client) = self.connected.get_mut(key) {
            client.release();
        }
    }

    /// Whether each client is looked at for what it wishes, as after turns in which something was done, and each second.
    fn looks(&mut self, now: Instant) -> bool
        ensures looks { result ≡ looks_at self.old now }
        ensures looked { self.new ≡ record self.old { looked = (if result then now else self.old.looked) } }
    {
        let looks = self.moved
            || now.duration_since(self.looked) >= Duration::from_secs(LONGEST_UNLOOKED);
        if looks {
            self.looked = now;
        }
        looks
    }

    /// Each client has its turn; the answer is whether any of them did something. The service is called for what these clients
    /// sent, and for nothing else.
    pub fn take_turns<S: LastingService>(&mut self, service: &mut S, now: Instant) -> bool
        ensures leads { LeadsTo S.answers service.old service.new }
        ensures turns { TakesRound S.answers S.stays S.wish S.waits S.offences T.remaining T.contents now self.old self.new service.old service.new }
        ensures moved { self.new.moved ≡ result }
        ensures limits { KeepsLimits self.old self.new }
    {
        let looks = self.looks(now);
        let moved = self.take_each_turn(service, looks, now);
        self.moved = moved;
        moved
    }

    /// A turn of each client. All are looked at for what they wish, or those behind one that did something.
    fn take_each_turn<S: LastingService>(
        &mut self,
        service: &mut S,
        looks: bool,
        now: Instant,
    ) -> bool
        ensures leads { LeadsTo S.answers service.old service.new }
        ensures turns { TurnsOfAll S.answers S.stays S.wish S.waits S.offences T.remaining T.contents now looks self.old self.new service.old service.new result }
        ensures looked { self.new.looked ≡ self.old.looked }
        ensures limits { KeepsLimits self.old self.new }
    {
        let mut moved = false;
        for key in 0..self.connected.capacity() {
            moved |= self
                .take_turn_at(key, service, looks | moved, now)
                .has_moved();
        }
        moved
    }

    /// The turn of the client under a key, if there is one. It goes where it closes, and else stands there still.
    fn take_turn_at<S: LastingService>(
        &mut self,
        key: usize,
        service: &mut S,
        looks: bool,
        now: Instant,
    ) -> Turn
        ensures leads { LeadsTo S.answers service.old service.new }
        ensures turn { LeavesAfter S.answers S.stays S.wish S.waits S.offences T.remaining T.contents now looks result
            (get self.old.connected key) (get self.new.connected key) service.old service.new self.old.offenders self.new.offenders }
        ensures looked { self.new.looked ≡ self.old.looked }
        ensures others { (other : ℕ) → other ≢ key → get self.new.connected other ≡ get self.old.connected other }
        ensures limits { KeepsLimits self.old self.new }
    {
        let turn = turn_at(
            &mut self.connected,
            &mut self.offenders,
            key,
            service,
            looks,
            now,
        );
        if let Turn::Closes = turn {
            self.close(key);
        }
        turn
    }
}

/// The turn of the client under a key, if there is one.
fn turn_at<T: Read + Write + Drop, S: LastingService>(
    connected: &mut Slab<Client<T>>,
    offenders: &mut Offenders,
    key: usize,
    service: &mut S,
    looks: bool,
    now: Instant,
) -> Turn
    ensures leads { LeadsTo S.answers service.old service.new }
    ensures turn { StandsAfter S.answers S.stays S.wish S.waits S.offences T.remaining T.contents now looks result
        (get connected.old key) (get connected.new key) service.old service.new offenders.old offenders.new }
    ensures others { (other : ℕ) → other ≢ key → get connected.new other ≡ get connected.old other }
{
    match connected.get_mut(key) {
        Some(client) => client.take_turn(service, offenders, looks, now),
        None => Turn::Waits { moved: false },
    }
}
