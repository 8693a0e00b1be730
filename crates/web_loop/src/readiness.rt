//! Waiting for what sockets have to do.
use mio::unix::SourceFd;
use mio::{Events, Interest, Poll, Token};
use std::alloc::Global;
use std::net::Net;
use std::os::fd::AsRawFd;
use std::thread;
use std::time::{Clock, Duration};

/// How long the server waits where no socket moves, in milliseconds: so often it looks whether its time is over, whether a
/// connection has been silent for too long, and whether an address still waits.
const LONGEST_WAIT: u64 = 200;

/// How long it sleeps where the system gives no word of its sockets, in milliseconds.
const PAUSE: u64 = 5;

/// The most sockets of which one wait tells; the others are told by the next.
const MOST_EVENTS: usize = 128;

/// What wakes a server. It stands over the system's own set of sockets, of which no clause can speak: a socket that is not
/// told of is looked at all the same once the longest wait is over.
#[derive(Drop)]
pub struct Readiness {
    /// The sockets, and what they told last; none where the system had no room for them.
    waking: Option<(Poll, Events<Global>)>,
}

impl Readiness {
    /// Nothing that is waited for yet.
    pub fn new<N: Net>(rt: &N, alloc: Global) -> Readiness {
        match (Poll::new(rt), Events::with_capacity(alloc, MOST_EVENTS)) {
            (Ok(poll), Ok(events)) => Readiness {
                waking: Some((poll, events)),
            },
            _ => Readiness { waking: None },
        }
    }

    /// Has a socket wake the server once it can be read or written. The socket leaves the set as it is closed.
    pub fn watch<T: AsRawFd>(&self, socket: &T) {
        if let Some((poll, _)) = &self.waking {
            let both = Interest::READABLE | Interest::WRITABLE;
            let _ = poll
                .registry()
                .register(&mut SourceFd(&socket.as_raw_fd()), Token(0), both);
        }
    }

    /// Waits until a socket that is watched has moved since it would block, for 200 milliseconds at most.
    pub fn wait<N: Clock>(&mut self, rt: &N) {
        let told = match &mut self.waking {
            Some((poll, events)) => poll.poll(events, Some(Duration::from_millis(LONGEST_WAIT))),
            None => Err(std::io::ErrorKind::Unsupported.into()),
        };
        if told.is_err() {
            thread::sleep(rt, Duration::from_millis(PAUSE));
        }
    }
}
