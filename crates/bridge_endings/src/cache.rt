//! Endings that are kept with what is known of their worth.
ghost use Rattle.std.specs.Prelude.{◌≡◌, ℕ, ◌≤◌, [], IfOk, IfSome, IsSome};
ghost use Rattle.bridge_endings.specs.Ending.{IsEnding};
ghost use Rattle.bridge_endings.specs.Worth.{worth_of};
ghost use Rattle.bridge_endings.specs.CacheValue.{bounds_of, KeepingWorth, KeepsWorth, key_of};
ghost use Rattle.bridge_endings.specs.Between.{IsBounded};

use crate::bounds::Bounds;
use crate::ending::Ending;
use lru::LruCache;
use std::alloc::{AllocError, Global};
use std::marker::Model;
use std::num::NonZeroUsize;

/// What stands for an ending: its hands, its trump suit and the seat to lead.
type Key = [u64; 6];

/// What was found of endings, whatever their hands, trumps and leaders. Where it is full, the ending that was used least
/// recently gives way.
#[derive(Drop)]
pub struct Cache {
    known: LruCache<Key, Bounds>,
    tried: u64,
}

impl Model for Cache {
    ghost use Rattle.bridge_endings.specs.CacheValue.{CacheValue, AreKept};

    ghost Value = { CacheValue };

    ghost view = { λ c. record { entries = c.known.entries; capacity = c.known.cap; tried = c.tried } };

    ghost invariant = { λ c. AreKept c.known.entries c.known.cap };
}

impl Cache {
    /// The most endings that a cache may keep.
    pub const MOST: usize = 65_536;

    /// A cache that keeps at most so many endings, 1 to 65,536.
    pub fn new(alloc: Global, capacity: usize) -> Result<Cache, AllocError>
        requires some { 1 ≤ capacity }
        requires most { capacity ≤ Self.MOST }
        ensures empty { IfOk result (λ cache. cache.entries ≡ []) }
        ensures capacity { IfOk result (λ cache. cache.capacity ≡ capacity) }
        ensures tried { IfOk result (λ cache. cache.tried ≡ 0) }
    {
        let capacity = NonZeroUsize::new(capacity).unwrap();
        Ok(Cache {
            known: LruCache::new(alloc, capacity)?,
            tried: 0,
        })
    }

    /// How many cards the searches with this cache have tried; at `u64::MAX` it stays.
    pub fn tried(&self) -> u64
        ensures { result ≡ self.now.tried }
    {
        self.tried
    }

    /// The worth of the ending, where it is kept with equal bounds.
    pub(crate) fn worth(&self, ending: &Ending) -> Option<u8>
        ensures worth { IfSome result (λ worth. worth ≡ worth_of ending.now) }
        ensures known { (worth : ℕ) → KeepsWorth self.now ending.now worth → IsSome result }
        ensures ending { IsEnding ending.now.hands }
    {
        let bounds = self.bounds(ending)?;
        if bounds.least == bounds.most {
            Some(bounds.least)
        } else {
            None
        }
    }

    /// What is known of the ending.
    fn bounds(&self, ending: &Ending) -> Option<Bounds>
        ensures known { result ≡ bounds_of self.now ending.now }
        ensures between { IfSome result (IsBounded (worth_of ending.now)) }
        ensures ending { IsEnding ending.now.hands }
    {
        self.known.peek(&key(ending)).copied()
    }

    /// Keeps the worth of the ending as both its bounds, where memory is not refused; for an ending that was kept already
    /// none is asked for. So many cards were tried by now.
    pub(crate) fn keep(&mut self, ending: &Ending, worth: u8, tried: u64)
        requires { worth ≡ worth_of ending.now }
        ensures keeping { KeepingWorth ending.now worth self.old self.new }
        ensures tried { self.new.tried ≡ tried }
    {
        self.tried = tried;
        let bounds = Bounds {
            least: worth,
            most: worth,
        };
        let _ = self.known.put(key(ending), bounds);
    }
}

/// What stands for the ending.
fn key(ending: &Ending) -> Key
    ensures key { result ≡ key_of ending.now }
    ensures ending { IsEnding ending.now.hands }
{
    let [north, east, south, west] = ending.hands();
    let trump = match ending.trump() {
        None => 0,
        Some(suit) => u64::from(suit.number()) + 1,
    };
    let leader = u64::from(ending.leader().number());
    [
        north.bits(),
        east.bits(),
        south.bits(),
        west.bits(),
        trump,
        leader,
    ]
}
