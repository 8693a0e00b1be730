//! How a turn ends, by what the peer gives and takes.
use super::expect_eq;
use super::guest_book::GuestBook;
use http_server::{Config, Connection};
use std::alloc::Global;
use std::hash::RandomState;
use std::io::{Error, ErrorKind, Read, Result, Write};
use std::process::Abort;
use std::random::RandomSource;
use web_loop::{Turn, take_turn};

/// The bytes of one of two requests.
const REQUEST_BYTES: usize = 40;

/// Two requests.
const REQUESTS: &[u8] =
    b"GET / HTTP/1.1\r\nHost: localhost:4000\r\n\r\nGET / HTTP/1.1\r\nHost: localhost:4000\r\n\r\n";

/// An offence, posted twice.
const OFFENCES: &[u8] =
    b"POST /place HTTP/1.1\r\nHost: localhost:4000\r\nContent-Type: application/x-table-lines\r\nContent-Length: 1\r\n\r\n7POST /place HTTP/1.1\r\nHost: localhost:4000\r\nContent-Type: application/x-table-lines\r\nContent-Length: 1\r\n\r\n7";

/// Fails so at its first read, gives so many bytes at each other, and blocks once all are given.
#[derive(Drop)]
struct Giver {
    fails: Option<ErrorKind>,
    piece: usize,
    unread: &'static [u8],
}

impl Read for Giver {
    fn read(&mut self, buf: &mut [u8]) -> Result<usize> {
        if let Some(kind) = self.fails.take() {
            return Err(Error::from(kind));
        }
        if self.unread.is_empty() {
            return Err(Error::from(ErrorKind::WouldBlock));
        }
        let most = buf.len().min(self.piece);
        self.unread.read(&mut buf[..most])
    }
}

/// What a write does.
#[derive(Clone, Copy)]
enum Taking {
    All,
    Nothing,
    Fails(ErrorKind),
}

/// Takes so at its first write, and all at each other.
#[derive(Drop)]
struct Taker {
    first: Taking,
    taken: usize,
}

impl Write for Taker {
    fn write(&mut self, buf: &[u8]) -> Result<usize> {
        let taking = self.first;
        self.first = Taking::All;
        match taking {
            Taking::All => {
                self.taken = self.taken.saturating_add(buf.len());
                Ok(buf.len())
            }
            Taking::Nothing => Ok(0),
            Taking::Fails(kind) => Err(Error::from(kind)),
        }
    }

    fn flush(&mut self) -> Result<()> {
        Ok(())
    }
}

/// What the first read fails with, the bytes of each other, what the first write does, how the turn then ends, how many bytes
/// are left unread, and whether any are written.
type Row = (Option<ErrorKind>, usize, Taking, Turn, usize, bool);

const WAITS: Turn = Turn::Waits { moved: true };

const IDLE: Turn = Turn::Waits { moved: false };

const BLOCKS: ErrorKind = ErrorKind::WouldBlock;

const INTERRUPTED: ErrorKind = ErrorKind::Interrupted;

const BOTH: usize = 2 * REQUEST_BYTES;

static ROWS: [Row; 9] = [
    (None, REQUEST_BYTES, Taking::All, WAITS, 0, true),
    (Some(BLOCKS), REQUEST_BYTES, Taking::All, IDLE, BOTH, false),
    (
        Some(INTERRUPTED),
        REQUEST_BYTES,
        Taking::All,
        WAITS,
        0,
        true,
    ),
    (
        Some(ErrorKind::ConnectionReset),
        REQUEST_BYTES,
        Taking::All,
        Turn::Closes,
        BOTH,
        false,
    ),
    (
        None,
        REQUEST_BYTES,
        Taking::Fails(BLOCKS),
        WAITS,
        REQUEST_BYTES,
        false,
    ),
    (
        None,
        REQUEST_BYTES,
        Taking::Fails(INTERRUPTED),
        WAITS,
        0,
        true,
    ),
    (
        None,
        REQUEST_BYTES,
        Taking::Fails(ErrorKind::BrokenPipe),
        Turn::Closes,
        REQUEST_BYTES,
        false,
    ),
    (
        None,
        REQUEST_BYTES,
        Taking::Nothing,
        Turn::Closes,
        REQUEST_BYTES,
        false,
    ),
    (None, 1, Taking::All, Turn::GoesOn, BOTH - 63, true),
];

/// Fails where the turn of a row, of this number, ends otherwise.
fn expect_turn<N: RandomSource + Abort>(rt: &N, alloc: Global, number: usize, row: &Row) {
    let (fails, piece, first, due, left, is_written) = *row;
    let giver = Giver {
        fails,
        piece,
        unread: REQUESTS,
    };
    let found = turn_of(rt, alloc, giver, first);
    expect_eq(rt, found, (due, left, is_written), number);
}

/// How a turn ends, how many bytes are left unread, and whether any are written.
fn turn_of<N: RandomSource + Abort>(
    rt: &N,
    alloc: Global,
    giver: Giver,
    first: Taking,
) -> (Turn, usize, bool) {
    let mut giver = giver;
    let mut taker = Taker { first, taken: 0 };
    let keys = RandomState::new(rt).ok().expect(rt, "a random number");
    let one_after_another = Config {
        max_pending: 0,
        ..Config::default()
    };
    let mut connection = Connection::new(alloc, keys, one_after_another);
    let mut book = GuestBook { posts: 0 };
    let turn = take_turn(&mut connection, &mut book, &mut giver, &mut taker);
    (turn, giver.unread.len(), taker.taken > 0)
}

// A peer that gives or takes nothing now is waited for, and one that is gone is not; an interruption ends nothing; what is
// pending goes out before more is read; and a turn ends after 64 steps, here 63 reads of a byte and a write.
#[test]
fn turns_end_as_the_peer_has_it(rt: HostRuntime) {
    for (number, row) in ROWS.iter().enumerate() {
        expect_turn(&rt, rt.alloc(), number, row);
    }
}

// A turn ends behind the answer to an offence, and the next request waits for another turn.
#[test]
fn an_offence_ends_the_turn_once_it_is_answered(rt: HostRuntime) {
    let half = OFFENCES.len() / 2;
    let giver = Giver {
        fails: None,
        piece: half,
        unread: OFFENCES,
    };
    let found = turn_of(&rt, rt.alloc(), giver, Taking::All);
    expect_eq(&rt, found, (Turn::GoesOn, half, true), "answered");
}
