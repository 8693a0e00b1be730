//! The addresses from which offences came.
ghost use Rattle.std.specs.Prelude.{◌≡◌, ◌≢◌, ◌<◌, [], length, IfSome, IfNone};
ghost use Rattle.std.specs.List.{All, HoldsAt};
ghost use Rattle.web_loop.specs.Offenders.{address_number, millis, waits, IsRemembered, IsNoted};

use crate::offender::Offender;
use arrayvec::ArrayVec;
use std::net::IpAddr;
use std::time::Instant;

/// So many addresses are kept in mind.
const MOST_ADDRESSES: usize = 128;

/// What is known of the addresses from which offences came: of at most 128, those that were heard last.
#[derive(Drop)]
pub struct Offenders {
    /// When the server's run began.
    begun: Instant,
    /// The addresses, the one that was heard the longest ago first.
    known: ArrayVec<Offender, MOST_ADDRESSES>,
}

/// An address as a number.
fn address_number(address: IpAddr) -> u128
    ensures { result ≡ address_number address }
{
    match address {
        IpAddr::V4(address) => 0xffff_0000_0000 + u128::from(address.to_bits()),
        IpAddr::V6(address) => address.to_bits(),
    }
}

/// The milliseconds from one time to another.
pub(crate) fn millis(from: Instant, to: Instant) -> u64
    ensures { result ≡ millis from to }
{
    to.duration_since(from)
        .as_millis()
        .min(u128::from(u64::MAX)) as u64
}

impl Offenders {
    /// No address, at the beginning of a server's run.
    pub fn new(begun: Instant) -> Offenders
        ensures known { result.known.items ≡ [] }
        ensures begun { result.begun ≡ begun }
    {
        Offenders {
            begun,
            known: ArrayVec::new(),
        }
    }

    /// Whether what an address asks waits now.
    pub fn waits(&self, address: IpAddr, now: Instant) -> bool
        ensures { result ≡ waits (address_number address) (millis self.now.begun now) self.now.known.items }
    {
        let address = address_number(address);
        let at = millis(self.begun, now);
        self.known.iter().any(|offender| offender.address == address && at < offender.until)
    }

    /// Where an address stands in the table.
    fn place_of(&self, address: u128) -> Option<usize>
        ensures within { IfSome result (λ index. index < length self.now.known.items) }
        ensures some { IfSome result (λ index. HoldsAt (λ offender. offender.address ≡ address) self.now.known.items index) }
        ensures none { IfNone result (All (λ offender. offender.address ≢ address) self.now.known.items) }
    {
        self.known
            .iter()
            .position(|offender| offender.address == address)
    }

    /// Takes a turn of an address into account, in which so many offences were answered. After ten within a minute the
    /// address waits, a second for each of this turn, at least one and at most 60. An address that is new to the table
    /// takes the place of the one that was heard the longest ago, where there are 128.
    pub fn note(&mut self, address: IpAddr, wrong: u64, now: Instant)
        ensures table { IsNoted (address_number address) wrong (millis self.old.begun now) self.old.known.items self.new.known.items }
        ensures begun { self.new.begun ≡ self.old.begun }
    {
        let address = address_number(address);
        let at = millis(self.begun, now);
        match self.place_of(address) {
            Some(index) => {
                let offender = self.known.remove(index);
                self.keep(offender, wrong, at);
            }
            None if wrong > 0 => self.keep(Offender::new(address), wrong, at),
            None => {}
        }
    }

    /// Keeps an address, once a turn of it is taken into account.
    fn keep(&mut self, mut offender: Offender, wrong: u64, at: u64)
        ensures table { IsRemembered wrong at offender self.old.known.items self.new.known.items }
        ensures begun { self.new.begun ≡ self.old.begun }
    {
        offender.note(wrong, at);
        if self.known.is_full() {
            self.known.remove(0);
        }
        self.known.push(offender);
    }
}
