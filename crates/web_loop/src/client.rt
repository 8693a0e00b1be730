//! One client of the server.
ghost use Rattle.std.specs.Prelude.{◌≡◌, ◌<◌, true, false, None, IsNone, length};
ghost use Rattle.std.specs.Bool.{Decides};
ghost use Rattle.http_server.specs.Connection.{history};
ghost use Rattle.web_loop.specs.Turns.{LeadsTo};
ghost use Rattle.web_loop.specs.Round.{GoesOn, IsClientTurn};
ghost use Rattle.web_loop.specs.Waiting.{is_late, HoldsAnew, IsHeard, IsOnHold, StaysPutOff};

use crate::offenders::{Offenders, millis};
use crate::service::LastingService;
use crate::turn::{Turn, take_turn};
use bytes::Bytes;
use http_server::Connection;
use std::io::{Read, Write};
use std::net::IpAddr;
use std::time::{Duration, Instant};

/// After so many seconds of silence a connection is closed.
const PATIENCE: u64 = 20;

/// For so many milliseconds an answer is put off at most, and longer only while its address waits.
const LONGEST_HOLD: u64 = 15_000;

/// An answer that is put off.
#[derive(Drop)]
pub struct Held {
    /// What its request wishes for.
    pub(crate) wish: Bytes,
    /// Since when.
    pub(crate) since: Instant,
}

impl Held {
    /// Whether it was put off for as long as may be.
    fn is_late(&self, now: Instant) -> bool
        ensures { result ≡ is_late self.now.since now }
    {
        LONGEST_HOLD <= millis(self.since, now)
    }

    /// Whether it is put off no longer: 15 seconds have passed, or it is looked at and what it wishes for has come.
    fn is_over<S: LastingService>(&self, service: &S, looks: bool, now: Instant) -> bool
        ensures held { result ≡ false → StaysPutOff S.stays looks now service.now self.now }
        ensures free { result ≡ true → ¬ (StaysPutOff S.stays looks now service.now self.now) }
    {
        self.is_late(now) || (looks && service.has_come(self.wish.as_slice()))
    }
}

/// A connection with the two handles of its socket, one to read at and one to write at.
#[derive(Drop)]
pub struct Client<T> {
    /// What was received and answered.
    connection: Connection,
    /// The handle to read at.
    reader: T,
    /// The handle to write at.
    writer: T,
    /// Where it came from.
    address: IpAddr,
    /// When it last read or wrote, or waited for what it wished.
    heard: Instant,
    /// The answer that is put off, if one is.
    held: Option<Held>,
}

impl<T: Read + Write + Drop> Client<T> {
    /// A client that came now from an address.
    pub fn new(
        connection: Connection,
        reader: T,
        writer: T,
        address: IpAddr,
        now: Instant,
    ) -> Client<T>
        ensures connection { result.connection ≡ connection }
        ensures handles { (result.reader ≡ reader) × (result.writer ≡ writer) }
        ensures address { result.address ≡ address }
        ensures heard { result.heard ≡ now }
        ensures held { result.held ≡ None }
    {
        Client {
            connection,
            reader,
            writer,
            address,
            heard: now,
            held: None,
        }
    }

    /// Whether an answer to it is to be sent and not sent yet. One that is put off is not to be sent.
    pub fn is_pending(&self) -> bool
        ensures { Decides result (IsNone self.now.held × (0 < length (history self.now.connection).pending)) }
    {
        self.held.is_none() && self.connection.wants_write()
    }

    /// Where it came from.
    pub fn address(&self) -> IpAddr
        ensures { result ≡ self.now.address }
    {
        self.address
    }

    /// When it last read or wrote, or waited for what it wished.
    pub fn heard(&self) -> Instant
        ensures { result ≡ self.now.heard }
    {
        self.heard
    }

    /// How its turn ends in which it did nothing: it closes once it has been silent for 20 seconds.
    fn after_rest(&self, turn: Turn, now: Instant) -> Turn
        ensures heard { IsHeard now self.now → result ≡ turn }
        ensures silent { ¬ (IsHeard now self.now) → result ≡ Turn.Closes }
    {
        if now.duration_since(self.heard) < Duration::from_secs(PATIENCE) {
            turn
        } else {
            Turn::Closes
        }
    }

    /// Has the answer sent that is put off, if one is.
    pub fn release(&mut self)
        ensures { self.new ≡ record self.old { held = None } }
    {
        self.held = None;
    }

    /// Whether no answer is put off any longer.
    fn goes_on<S: LastingService>(&self, service: &S, looks: bool, now: Instant) -> bool
        ensures held { result ≡ false → IsOnHold S.stays looks now service.now self.now.held }
        ensures free { result ≡ true → ¬ (IsOnHold S.stays looks now service.now self.now.held) }
    {
        match &self.held {
            Some(held) => held.is_over(service, looks, now),
            None => true,
        }
    }

    /// Puts the answer off, for what the last request wishes; where memory is refused it is sent.
    fn hold<S: LastingService>(&mut self, service: &S, now: Instant)
        ensures held { HoldsAnew (S.wish service.now) now self.new.held }
        ensures connection { self.new.connection ≡ self.old.connection }
        ensures reader { self.new.reader ≡ self.old.reader }
        ensures writer { self.new.writer ≡ self.old.writer }
        ensures address { self.new.address ≡ self.old.address }
        ensures heard { self.new.heard ≡ self.old.heard }
    {
        self.held = service
            .wish()
            .and_then(|wish| wish.clone().ok())
            .map(|wish| Held { wish, since: now });
    }

    /// Takes its turn, unless its address waits or its answer is put off. It closes once it has been silent for 20 seconds, but not
    /// while its address waits or its answer is put off. Each offence that is answered counts at its address, also where nothing could be sent yet.
    ///
    /// The answer to a request that waits is put off until 15 seconds have passed, or what it wishes for has come and it `looks`,
    /// which it need not where nothing has changed since it did. While it is put off nothing is read, answered or sent.
    pub(crate) fn take_turn<S: LastingService>(
        &mut self,
        service: &mut S,
        offenders: &mut Offenders,
        looks: bool,
        now: Instant,
    ) -> Turn
        ensures leads { LeadsTo S.answers service.old service.new }
        ensures turn { IsClientTurn S.answers S.stays S.wish S.waits S.offences T.remaining T.contents now looks result
            self.old self.new service.old service.new offenders.old offenders.new }
    {
        if offenders.waits(self.address, now) {
            return Turn::Waits { moved: false };
        }
        if !self.goes_on(service, looks, now) {
            self.heard = now;
            return Turn::Waits { moved: false };
        }
        let before = service.offences();
        let turn = self.take_turn_now(service, now);
        let wrong = service.offences().saturating_sub(before);
        if turn.has_moved() || wrong > 0 {
            self.heard = now;
            offenders.note(self.address, wrong, now);
            return turn;
        }
        self.after_rest(turn, now)
    }

    /// Takes its turn, and puts the answer off that is to be.
    fn take_turn_now<S: LastingService>(&mut self, service: &mut S, now: Instant) -> Turn
        ensures leads { LeadsTo S.answers service.old service.new }
        ensures turn { GoesOn S.answers S.stays S.wish S.waits S.offences T.remaining T.contents now result self.old self.new service.old service.new }
        ensures heard { self.new.heard ≡ self.old.heard }
    {
        self.held = None;
        let turn = take_turn(
            &mut self.connection,
            service,
            &mut self.reader,
            &mut self.writer,
        );
        if turn == Turn::Holds {
            self.hold(service, now);
        }
        turn
    }
}
