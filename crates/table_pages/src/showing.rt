//! Pages shown to browsers.
ghost use Rattle.web_loop.specs.Turns.{LeadsTo};
ghost use Rattle.table_pages.specs.Limits.{ArePageLimits};
ghost use Rattle.table_pages.specs.Responses.{Answering};
ghost use Rattle.table_pages.specs.Site.{site_of};

use crate::line_server::LineServer;
use crate::pages::TablePages;
use crate::seconds::Seconds;
use http_server::Config;
use http1::Limits;
use std::alloc::Global;
use std::hash::RandomState;
use std::io;
use std::net::Net;
use std::os::fd::AsRawFd;
use std::time::{Clock, Instant};
use web_loop::{Clients, serve_minutes};

/// The most bytes of the head of a request; a longer one is refused.
const MOST_HEAD_BYTES: usize = 8192;

/// The most bytes of the body of a request; a longer one is refused.
const MOST_BODY_BYTES: usize = 65_535;

/// The limits of a connection: a head of 8,192 bytes, a body of 65,535, and one request after another, so that none is read
/// before the answer to the last is sent.
pub fn limits() -> Config
    ensures { ArePageLimits result }
{
    Config {
        limits: Limits {
            max_head_len: MOST_HEAD_BYTES,
            ..Limits::default()
        },
        max_body_len: MOST_BODY_BYTES,
        max_pending: 0,
        ..Config::default()
    }
}

/// Shows pages to the clients of a listener that does not block for so many minutes, in rounds in each of which each client has
/// its turn, or until the server of lines has failed; then what is pending is sent. Names that clients choose are looked up by
/// `keys`, which are secret. The error is that the clock cannot be read.
pub fn show_minutes<N: Net + Clock, T: LineServer, K: Seconds>(
    rt: &N,
    alloc: Global,
    keys: RandomState,
    listener: &N::Listener,
    pages: &mut TablePages<T, K>,
    minutes: u16,
) -> io::Result<()>
where
    N::Listener: AsRawFd,
    N::Stream: AsRawFd,
    ensures { LeadsTo (Answering T.answers T.failed T.places T.tables T.waits T.boards T.desks T.results (site_of pages.old.texts pages.old.names pages.old.people.items)) pages.old.server pages.new.server }
{
    let mut clients = Clients::new(alloc, keys, limits(), Instant::now(rt)?);
    serve_minutes(rt, listener, &mut clients, pages, minutes)
}
