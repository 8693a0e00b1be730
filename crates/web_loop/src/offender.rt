//! The offences of one address.
ghost use Rattle.std.specs.Prelude.{◌≡◌, [], ◌+◌, ◌<◌, min, if◌then◌else◌};
ghost use Rattle.web_loop.specs.Offenders.{with_time, with_times, is_slowed, wait_for};

use arrayvec::ArrayVec;

/// So many offences within a minute slow an address.
const MOST_OFFENCES: usize = 10;

/// A second, in milliseconds.
const SECOND: u64 = 1000;

/// A minute, in milliseconds.
const MINUTE: u64 = 60_000;

/// The longest wait, in seconds.
const LONGEST_WAIT: u64 = 60;

/// An address from which offences came. Times are in milliseconds, from the same beginning.
#[derive(Default, Drop)]
pub struct Offender {
    /// The address, as a number.
    pub(crate) address: u128,
    /// When its latest offences were answered, at most ten, the oldest first.
    times: ArrayVec<u64, MOST_OFFENCES>,
    /// It waits until then.
    pub(crate) until: u64,
}

impl Offender {
    /// An address from which no offence came.
    pub(crate) fn new(address: u128) -> Offender
        ensures address { result.address ≡ address }
        ensures times { result.times.items ≡ [] }
        ensures until { result.until ≡ 0 }
    {
        Offender {
            address,
            times: ArrayVec::new(),
            until: 0,
        }
    }

    /// Takes one more offence into account.
    fn add(&mut self, at: u64)
        ensures times { self.new.times.items ≡ with_time at self.old.times.items }
        ensures until { self.new.until ≡ self.old.until }
        ensures address { self.new.address ≡ self.old.address }
    {
        if self.times.is_full() {
            self.times.remove(0);
        }
        self.times.push(at);
    }

    /// Takes so many more into account.
    fn add_all(&mut self, count: u64, at: u64)
        ensures times { self.new.times.items ≡ with_times count at self.old.times.items }
        ensures until { self.new.until ≡ self.old.until }
        ensures address { self.new.address ≡ self.old.address }
    {
        for _ in 0..count {
            self.add(at);
        }
    }

    /// Whether ten of its offences came within the last minute.
    fn is_slowed(&self, at: u64) -> bool
        ensures { result ≡ is_slowed at self.now.times.items }
    {
        self.times.is_full() && at.saturating_sub(self.times[0]) < MINUTE
    }

    /// Takes a turn into account in which so many offences were answered. Where ten came within the last minute, the
    /// address waits: a second for each offence of this turn, at least one and at most 60.
    pub(crate) fn note(&mut self, wrong: u64, at: u64)
        ensures times { self.new.times.items ≡ with_times (min wrong 10) at self.old.times.items }
        ensures until { self.new.until ≡ (if is_slowed at self.new.times.items then min (at + wait_for wrong) 18446744073709551615 else self.old.until) }
        ensures address { self.new.address ≡ self.old.address }
    {
        self.add_all(wrong.min(MOST_OFFENCES as u64), at);
        if self.is_slowed(at) {
            self.until = at.saturating_add(SECOND * wrong.min(LONGEST_WAIT).max(1));
        }
    }
}
