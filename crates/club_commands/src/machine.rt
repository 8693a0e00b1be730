//! What the commands want of the system, each under one name.
use std::fs::File;
use std::io::Stderr;
use std::net::{Net, TcpListener, TcpStream};
use std::random::RandomSource;
use std::rt::Files;
use std::time::Clock;

/// Standard error, for what is said at once. No clause speaks of it, as of all that a command does beside its streams.
pub trait Alarm {
    /// Standard error.
    fn errors(&self) -> Stderr;
}

impl Alarm for HostRuntime {
    fn errors(&self) -> Stderr {
        self.stderr()
    }
}

/// Connections, a clock, random numbers and standard error, as `serve` and `web` want them.
pub trait Host: Net<Listener = TcpListener, Stream = TcpStream> + Clock + RandomSource + Alarm {}

impl<S: Net<Listener = TcpListener, Stream = TcpStream> + Clock + RandomSource + Alarm> Host
    for S {}

/// The same and files.
pub trait Machine: Host + Files<File = File> {}

impl<S: Host + Files<File = File>> Machine for S {}
