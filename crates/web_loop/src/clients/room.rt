//! Room for one more client.
ghost use Rattle.std.specs.Prelude.{◌≡◌, IfSome, IfNone};
ghost use Rattle.slab.specs.Slab.{get};
ghost use Rattle.web_loop.specs.Connected.{OnlyCloses};
ghost use Rattle.web_loop.specs.Room.{AreAllFrom, Counts, DropsLongest, FindsLongest, HasOther, IsFrom, IsHeardAt, KeepsAtMost, MakesRoom, SharesRoom, is_earlier};

use super::{Clients, MOST_CLIENTS};
use std::io::{Read, Write};
use std::net::{IpAddr, OpenStream};
use std::time::{Duration, Instant};

/// The most from one address while another is connected too.
const HALF: usize = MOST_CLIENTS / 2;

impl<T: Read + Write + OpenStream + Drop> Clients<T> {
    /// Makes room for one more client from an address.
    pub(super) fn make_room(&mut self, address: IpAddr)
        ensures { MakesRoom address self.old self.new }
    {
        self.share_room(address);
        if self.connected.len() >= MOST_CLIENTS {
            self.drop_longest_silent(None);
        }
    }

    /// Where another address is connected, leaves each its half, and in that of this one a place.
    fn share_room(&mut self, address: IpAddr)
        ensures shares { SharesRoom address self.old self.new }
        ensures closes { OnlyCloses self.old self.new }
    {
        if let Some(other) = self.other_than(address) {
            self.keep_at_most(HALF - 1, address);
            self.keep_at_most(HALF, other);
        }
    }

    /// Another address that is connected. One is enough: of several none has more than its half.
    fn other_than(&self, address: IpAddr) -> Option<IpAddr>
        ensures some { IfSome result (λ other. HasOther address other self.now.connected) }
        ensures none { IfNone result (AreAllFrom address self.now.connected self.now.connected.capacity) }
    {
        for key in 0..self.connected.capacity() {
            match self.connected.get(key) {
                Some(client) if client.address() != address => return Some(client.address()),
                _ => {}
            }
        }
        None
    }

    /// Closes connections of an address, those first that have been silent the longest, until so many are left at most.
    fn keep_at_most(&mut self, most: usize, address: IpAddr)
        ensures keeps { KeepsAtMost most address self.old self.new }
        ensures closes { OnlyCloses self.old self.new }
    {
        for _ in most..self.count_from(address) {
            self.drop_longest_silent(Some(address));
        }
    }

    /// How many clients from an address are connected.
    fn count_from(&self, address: IpAddr) -> usize
        ensures { Counts (Some address) self.now.connected self.now.connected.capacity result }
    {
        let mut count: usize = 0;
        for key in 0..self.connected.capacity() {
            if self.heard_at(key, Some(address)).is_some() {
                count += 1;
            }
        }
        count
    }

    /// Closes the connection that has been silent the longest, of one address or of all.
    fn drop_longest_silent(&mut self, from: Option<IpAddr>)
        ensures drops { DropsLongest from self.old self.new }
        ensures closes { OnlyCloses self.old self.new }
    {
        if let Some((key, _)) = self.longest_silent(from) {
            self.close(key);
        }
    }

    /// The key of the connection that has been silent the longest, of one address or of all, and when it was heard.
    fn longest_silent(&self, from: Option<IpAddr>) -> Option<(usize, Instant)>
        ensures { FindsLongest from self.now.connected self.now.connected.capacity result }
    {
        let mut longest = None;
        for key in 0..self.connected.capacity() {
            match self.heard_at(key, from) {
                Some(heard) if is_before(heard, longest) => longest = Some((key, heard)),
                _ => {}
            }
        }
        longest
    }

    /// When the client under a key was heard, if there is one, of one address or of all.
    fn heard_at(&self, key: usize, from: Option<IpAddr>) -> Option<Instant>
        ensures some { IfSome result (λ heard. IsHeardAt from heard (get self.now.connected key)) }
        ensures none { IfNone result (¬ (IsFrom from (get self.now.connected key))) }
    {
        let client = self.connected.get(key)?;
        match from {
            Some(address) if address != client.address() => None,
            _ => Some(client.heard()),
        }
    }
}

/// Whether a time is before that of the other, if there is one.
fn is_before(heard: Instant, longest: Option<(usize, Instant)>) -> bool
    ensures { result ≡ is_earlier heard longest }
{
    match longest {
        Some((_, other)) => other.duration_since(heard) > Duration::ZERO,
        None => true,
    }
}
