//! Seconds since a server began.
ghost use Rattle.std.specs.Prelude.{◌≡◌, ℕ};
ghost use Rattle.std.specs.Duration.{as_nanos};
ghost use Rattle.table_pages.specs.Seconds.{whole_seconds, Shows};

use std::time::{Clock, Duration, Instant};

/// What tells the seconds since a server began.
pub trait Seconds: Drop {
    // so many seconds have passed
    ghost shows: { Self → ℕ → Type 0 };

    /// How many seconds have passed.
    fn seconds(&self) -> u32
        ensures { shows self.now result };
}

/// The clock of a server, which goes on from where it began.
#[derive(Drop)]
pub struct ServerClock<'a, N> {
    /// What the time is read from.
    rt: &'a N,
    /// When it began, where that could be read.
    begun: Option<Instant>,
}

impl<'a, N: Clock> ServerClock<'a, N> {
    /// A clock that begins now.
    pub fn new(rt: &'a N) -> ServerClock<'a, N> {
        ServerClock {
            rt,
            begun: Instant::now(rt).ok(),
        }
    }
}

impl<N: Clock> Seconds for ServerClock<'_, N> {
    ghost shows = { λ clock at. Shows clock.begun at };

    /// None where the time cannot be read, at which the server ends.
    fn seconds(&self) -> u32 {
        match (self.begun, Instant::now(self.rt)) {
            (Some(begun), Ok(now)) => seconds_of(now.duration_since(begun)),
            _ => 0,
        }
    }
}

/// The whole seconds of a time, or so many as a `u32` can count.
fn seconds_of(time: Duration) -> u32
    ensures { result ≡ whole_seconds (as_nanos time) }
{
    u32::try_from(time.as_secs()).unwrap_or(u32::MAX)
}
